//! Where bytes come from.
ghost use Rattle.std.specs.Prelude.{◌≡◌, ℕ, ◌≤◌, List, length, Option, IfOk, IfSome, OnErr};
ghost use Rattle.bus_base.specs.Faults.{HasRisen};
ghost use Rattle.bus_base.specs.Taken.{TakesFront};

use super::failures::Failed;

/// What hands out bytes, a piece at a time.
pub trait Source {
    // The bytes not yet handed out; `None` where nothing is told of them, as for a file.
    ghost left: { Self → Option (List ℕ) };

    // How many reads have failed; it stays at the last u64.
    ghost faults: { Self → ℕ };

    /// Hands out bytes at the front of `into`, and returns how many, in bytes. With room in
    /// `into`, 0 says that the end is reached. A read that failed handed out none.
    fn read(&mut self, into: &mut [u8]) -> Result<usize, Failed>
        ensures never_falls { faults self.old ≤ faults self.new }
        ensures failed { OnErr result (HasRisen (faults self.old) (faults self.new)) }
        ensures kept { OnErr result (left self.new ≡ left self.old) }
        ensures within { IfOk result (λ n. n ≤ length into.new) }
        ensures taken { IfOk result (λ n.
            IfSome (left self.old) (λ xs. TakesFront xs (left self.new) into.new n)) };
}
