//! A list of bytes.
ghost use Rattle.std.specs.Prelude.{◌≡◌, IfOk};

use super::failures::NoMemory;
use std::alloc::Global;
use std::marker::Model;

/// A list of bytes that does not change.
#[derive(Debug, Drop)]
pub struct Octets {
    bytes: Vec<u8>,
}

impl Model for Octets {
    ghost use Rattle.std.specs.Prelude.{ℕ, List};

    ghost Value = { List ℕ };

    ghost view = { λ o. o.bytes.items };
}

impl Octets {
    /// These bytes. It takes no memory.
    pub fn new(bytes: Vec<u8>) -> Octets
        ensures { result ≡ bytes.items }
    {
        Octets { bytes }
    }

    /// The bytes.
    pub fn as_slice(&self) -> &[u8]
        ensures { result.now ≡ self.now }
    {
        self.bytes.as_slice()
    }

    /// Another list of the same bytes.
    pub fn copy(&self, alloc: Global) -> Result<Octets, NoMemory>
        ensures { IfOk result (λ copied. copied ≡ self.now) }
    {
        let bytes = Vec::from_slice(alloc, self.as_slice())?;
        Ok(Octets::new(bytes))
    }
}
