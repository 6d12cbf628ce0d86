//! A message that is half sent.
ghost use Rattle.std.specs.Prelude.{◌≡◌, ◌∷◌, [], ◌++◌};
ghost use Rattle.msg_grammar.specs.Messages.{got_out, got_in};
ghost use Rattle.bus_phases.specs.Half.{left_of, is_nil};
ghost use Rattle.bus_phases.specs.Saved.{half_in};

use crate::saved::SavedHalf;
use arrayvec::ArrayVec;
use msg_grammar::{Got, MsgIn, MsgOut, decode_in, decode_out};
use std::marker::Model;

/// The bytes of a message that is half sent, at most four.
#[derive(Drop)]
pub struct Half {
    bytes: ArrayVec<u8, 5>,
}

impl Model for Half {
    ghost use Rattle.std.specs.Prelude.{ℕ, List, ◌<◌, length};

    ghost Value = { List ℕ };

    ghost view = { λ a. a.bytes.items };

    ghost invariant = { λ a. length a.bytes.items < 5 };
}

impl Half {
    /// No byte.
    pub fn new() -> Half
        ensures { result ≡ [] }
    {
        Half {
            bytes: ArrayVec::new(),
        }
    }

    /// Whether there is none.
    pub fn is_empty(&self) -> bool
        ensures { result ≡ is_nil self.now }
    {
        self.bytes.is_empty()
    }

    /// The same bytes.
    pub fn copy(&self) -> Half
        ensures { result ≡ self.now }
    {
        let mut bytes = ArrayVec::new();
        let _ = bytes.try_extend_from_slice(self.bytes.as_slice());
        Half { bytes }
    }

    /// The bytes as plain words.
    pub fn saved(&self) -> SavedHalf
        ensures { half_in result ≡ self.now }
    {
        let own = self.bytes.as_slice();
        let mut bytes = [0; 8];
        bytes[..own.len()].copy_from_slice(own);
        SavedHalf {
            length: own.len() as u64,
            bytes,
        }
    }

    /// The bytes that plain words say.
    pub fn restored(saved: &SavedHalf) -> Half
        ensures { result ≡ half_in saved.now }
    {
        let length = (saved.length % 5) as usize;
        let mut bytes = ArrayVec::new();
        let _ = bytes.try_extend_from_slice(&saved.bytes[..length]);
        Half { bytes }
    }

    /// Forgets the bytes.
    pub fn clear(&mut self)
        ensures { self.new ≡ [] }
    {
        self.bytes.clear();
    }

    /// One byte more of MESSAGE OUT: what the bytes then are. Those of a message that is not whole stay.
    pub fn take_out(&mut self, byte: u8) -> Got<MsgOut>
        ensures got { result ≡ got_out (self.old ++ byte ∷ []) }
        ensures left { self.new ≡ left_of (got_out (self.old ++ byte ∷ [])) (self.old ++ byte ∷ []) }
    {
        self.bytes.push(byte);
        let got = decode_out(self.bytes.as_slice());
        match got {
            Got::More => {}
            Got::Whole(..) | Got::Unknown => self.bytes.clear(),
        }
        got
    }

    /// One byte more of MESSAGE IN.
    pub fn take_in(&mut self, byte: u8) -> Got<MsgIn>
        ensures got { result ≡ got_in (self.old ++ byte ∷ []) }
        ensures left { self.new ≡ left_of (got_in (self.old ++ byte ∷ [])) (self.old ++ byte ∷ []) }
    {
        self.bytes.push(byte);
        let got = decode_in(self.bytes.as_slice());
        match got {
            Got::More => {}
            Got::Whole(..) | Got::Unknown => self.bytes.clear(),
        }
        got
    }
}
