//! The input: memory of the caller.
ghost use Rattle.std.specs.Prelude.{◌≡◌, ◌≤◌, length, Some, IfOk, OnErr};
ghost use Rattle.bus_base.specs.Faults.{HasRisen};
ghost use Rattle.bus_base.specs.Taken.{TakesFront};

use bus_base::{Failed, Source};

/// A source over bytes that stay where they are. No read of it fails.
#[derive(Drop)]
pub struct Bytes<'a> {
    pub left: &'a [u8],
}

impl<'a> Source for Bytes<'a> {
    ghost left = { λ s. Some s.left.now };

    ghost faults = { λ _. 0 };

    fn read(&mut self, into: &mut [u8]) -> Result<usize, Failed>
        ensures never_falls { 0 ≤ 0 }
        ensures failed { OnErr result (HasRisen 0 0) }
        ensures kept { OnErr result (Some self.new.left.now ≡ Some self.old.left.now) }
        ensures within { IfOk result (λ n. n ≤ length into.new) }
        ensures taken { IfOk result (λ n. TakesFront self.old.left.now (Some self.new.left.now) into.new n) }
    {
        let count = into.len().min(self.left.len());
        into[..count].copy_from_slice(&self.left[..count]);
        self.left = &self.left[count..];
        Ok(count)
    }
}
