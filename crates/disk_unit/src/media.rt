//! What a logical unit stands over.
ghost use Rattle.std.specs.Prelude.{◌≡◌, ℕ, ◌+◌, ◌≤◌, Bool, List, length, take, drop};
ghost use Rattle.array_model.specs.Execution.{Reply};
ghost use Rattle.disk_unit.specs.Plans.{plan_of};

use cdb_codec::Sense;

/// How a command would end if it ran now.
#[derive(Clone, Copy, Debug, PartialEq, Eq)]
pub struct Plan {
    /// Its status (ANSI X3.131-1994, 7.3).
    pub status: u8,
    /// Its sense, exactly where the status is CHECK CONDITION.
    pub sense: Option<Sense>,
    /// How many bytes go to the initiator.
    pub in_len: u32,
    /// How many bytes go to the target.
    pub out_len: u32,
}

/// The blocks that a command names: none where it is no read or write, or its command descriptor block has a fault.
#[derive(Clone, Copy, Debug, PartialEq, Eq)]
pub struct Extent {
    /// The first one.
    pub first: u32,
    /// How many.
    pub count: u32,
    /// Whether it writes them.
    pub writes: bool,
}

/// What a logical unit keeps, and what its commands do to that. A command is given by its command descriptor block;
/// attentions and senses are no part of it.
pub trait Medium {
    ghost use Rattle.disk_unit.specs.declared.media.Extent.{Extent};

    // How many blocks may be written for the first time without memory.
    ghost spare_blocks: { Self → ℕ };

    // What a command answers.
    ghost reply_to: { Self → List ℕ → Reply };

    // How many bytes a command takes, and how many blocks it writes at most.
    ghost taken_by: { Self → List ℕ → ℕ };

    ghost written_by: { Self → List ℕ → ℕ };

    // What a command names, for the order of the queue.
    ghost named_by: { Self → List ℕ → Extent };

    // Whether a command makes the contents new, and whether these are the new ones with the bytes that it sent.
    ghost is_changed_by: { Self → List ℕ → Bool };

    ghost Becomes: { Self → List ℕ → List ℕ → Self → Type 0 };

    /// How many blocks may be written for the first time before more are reserved.
    fn spare(&self) -> u64
        ensures { result ≡ spare_blocks self.now };

    /// How many blocks the command writes at most.
    fn cost(&self, cdb: &[u8]) -> u64
        ensures { result ≡ written_by self.now cdb.now };

    /// How the command would end now, apart from attentions.
    fn plan(&self, cdb: &[u8]) -> Plan
        ensures { result ≡ plan_of (reply_to self.now cdb.now) (taken_by self.now cdb.now) };

    /// What the command names, for the order of the queue.
    fn extent(&self, cdb: &[u8]) -> Extent
        ensures { result ≡ named_by self.now cdb.now };

    /// The bytes of the reply from `at` on, as many as `into` has.
    fn fetch(&self, cdb: &[u8], at: u32, into: &mut [u8])
        requires within { at + length into.old ≤ length (reply_to self.now cdb.now).bytes }
        ensures { into.new ≡ take (length into.old) (drop at (reply_to self.now cdb.now).bytes) };

    /// Makes the contents new with the bytes that the command sent.
    fn commit(&mut self, cdb: &[u8], sent: &[u8])
        requires whole { length sent.now ≡ taken_by self.old cdb.now }
        requires room { written_by self.old cdb.now ≤ spare_blocks self.old }
        ensures exact { Becomes self.old cdb.now sent.now self.new }
        ensures lowered { spare_blocks self.old ≤ spare_blocks self.new + written_by self.old cdb.now };

    /// Whether the command makes the contents new.
    fn changes(&self, cdb: &[u8]) -> bool
        ensures { result ≡ is_changed_by self.now cdb.now };

    // What commands name stays, whatever they write.
    ghost names_stay: { (before after : Self) (cdb sent block : List ℕ) → Becomes before cdb sent after
        → named_by after block ≡ named_by before block };
}
