//! Where bytes go.
ghost use Rattle.std.specs.Prelude.{◌≡◌, ℕ, ◌<◌, ◌≤◌, List, length, Option, Some, ◌++◌, take, IfOk, IfSome, OnErr};
ghost use Rattle.bus_base.specs.Faults.{HasRisen};

use super::failures::Failed;

/// What takes bytes, a piece at a time.
pub trait Sink {
    // The bytes taken so far; `None` where nothing is told of them, as for a file.
    ghost written: { Self → Option (List ℕ) };

    // How many writes have failed; it stays at the last u64.
    ghost faults: { Self → ℕ };

    /// Takes bytes from the front of `piece`, and returns how many, in bytes: at least one of a
    /// piece that is not empty. A write that failed took none.
    fn write(&mut self, piece: &[u8]) -> Result<usize, Failed>
        ensures never_falls { faults self.old ≤ faults self.new }
        ensures failed { OnErr result (HasRisen (faults self.old) (faults self.new)) }
        ensures kept { OnErr result (written self.new ≡ written self.old) }
        ensures within { IfOk result (λ n. n ≤ length piece.now) }
        ensures moves { IfOk result (λ n. 0 < length piece.now → 0 < n) }
        ensures added { IfOk result (λ n.
            IfSome (written self.old) (λ xs. written self.new ≡ Some (xs ++ take n piece.now))) };
}
