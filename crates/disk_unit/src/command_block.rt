//! The command descriptor block of a command that a unit keeps.
ghost use Rattle.std.specs.Prelude.{◌≡◌, ◌≤◌, take, length, []};

/// A command descriptor block of at most ten bytes (ANSI X3.131-1994, 7.2).
#[derive(Clone, Copy)]
pub struct CommandBlock {
    bytes: [u8; 10],
    len: usize,
    ghost fits: { len ≤ 10 },
}

impl CommandBlock {
    /// No bytes.
    pub fn empty() -> CommandBlock
        ensures { take result.len result.bytes ≡ [] }
    {
        CommandBlock {
            bytes: [0; 10],
            len: 0,
        }
    }

    /// These bytes.
    pub fn new(cdb: &[u8]) -> CommandBlock
        requires most { length cdb.now ≤ 10 }
        ensures { take result.len result.bytes ≡ cdb.now }
    {
        let mut bytes = [0; 10];
        bytes[..cdb.len()].copy_from_slice(cdb);
        CommandBlock {
            bytes,
            len: cdb.len(),
        }
    }

    /// The bytes.
    pub fn as_slice(&self) -> &[u8]
        ensures { result.now ≡ take self.now.len self.now.bytes }
    {
        &self.bytes[..self.len]
    }
}
