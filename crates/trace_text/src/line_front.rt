//! The front of a line.
ghost use Rattle.std.specs.Prelude.{◌↔◌, ◌≡◌, [], ◌∷◌, ◌++◌, take, IsTrue};

use std::marker::Model;

/// The first 28 bytes of a line: no line of the form has more than 27.
#[derive(Drop)]
pub struct LineFront {
    bytes: [u8; 28],
    len: usize,
}

impl Model for LineFront {
    ghost use Rattle.std.specs.Prelude.{ℕ, List, take, ◌≤◌};

    ghost Value = { List ℕ };

    ghost view = { λ a. take a.len a.bytes };

    ghost invariant = { λ a. a.len ≤ 28 };
}

impl LineFront {
    pub fn new() -> LineFront
        ensures { result ≡ [] }
    {
        LineFront {
            bytes: [0; 28],
            len: 0,
        }
    }

    /// Takes one byte more of the line.
    pub fn push(&mut self, byte: u8)
        ensures { self.new ≡ take 28 (self.old ++ byte ∷ []) }
    {
        if self.len < 28 {
            self.bytes[self.len] = byte;
            self.len += 1;
        }
    }

    /// Takes these bytes more of the line.
    pub fn push_all(&mut self, bytes: &[u8])
        ensures { self.new ≡ take 28 (self.old ++ bytes.now) }
    {
        let count = bytes.len().min(28 - self.len);
        self.bytes[self.len..self.len + count].copy_from_slice(&bytes[..count]);
        self.len += count;
    }

    /// Begins a line.
    pub fn clear(&mut self)
        ensures { self.new ≡ [] }
    {
        self.len = 0;
    }

    /// Whether the line has no byte yet.
    pub fn is_empty(&self) -> bool
        ensures { IsTrue result ↔ (self.now ≡ []) }
    {
        self.len == 0
    }

    pub fn text(&self) -> &[u8]
        ensures { result.now ≡ self.now }
    {
        &self.bytes[..self.len]
    }
}
