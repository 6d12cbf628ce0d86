//! The text that a call writes, and what the caller sees of it.
ghost use Rattle.std.specs.Prelude.{◌≡◌, ◌<◌, ◌≤◌, ◌++◌, [], length, take, Some, IfOk, OnErr};
ghost use Rattle.bus_base.specs.Faults.{HasRisen};
ghost use Rattle.scsibus_main_c.specs.Calls.{shown_in};

use bus_base::{Failed, Sink};
use std::alloc::Global;

/// A sink that keeps all that it takes. A write fails where there is no memory for it.
#[derive(Drop)]
pub struct Text {
    pub bytes: Vec<u8>,
    pub faults: u64,
}

impl Text {
    pub fn new(alloc: Global) -> Text
        ensures empty { result.bytes.items ≡ [] }
        ensures whole { result.faults ≡ 0 }
    {
        Text {
            bytes: Vec::new(alloc),
            faults: 0,
        }
    }
}

impl Sink for Text {
    ghost written = { λ s. Some s.bytes.items };

    ghost faults = { λ s. s.faults };

    fn write(&mut self, piece: &[u8]) -> Result<usize, Failed>
        ensures never_falls { self.old.faults ≤ self.new.faults }
        ensures failed { OnErr result (HasRisen self.old.faults self.new.faults) }
        ensures kept { OnErr result (Some self.new.bytes.items ≡ Some self.old.bytes.items) }
        ensures within { IfOk result (λ n. n ≤ length piece.now) }
        ensures moves { IfOk result (λ n. 0 < length piece.now → 0 < n) }
        ensures added { IfOk result (λ n. Some self.new.bytes.items ≡ Some (self.old.bytes.items ++ take n piece.now)) }
    {
        if self.bytes.extend_from_slice(piece).is_err() {
            self.faults = self.faults.saturating_add(1);
            return Err(Failed);
        }
        Ok(piece.len())
    }
}

/// Puts what fits of a text to the front of memory of the caller, and leaves what stands behind it.
pub fn show(text: &[u8], out: &mut [u8])
    ensures { out.new ≡ shown_in out.old text.now }
{
    let count = text.len().min(out.len());
    out[..count].copy_from_slice(&text[..count]);
}
