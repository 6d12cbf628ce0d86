//! The pointers of one process (ANSI X3.131-1994, 6.4).
ghost use Rattle.std.specs.Prelude.{ℕ, ◌≡◌, ◌<◌, ◌≤◌, true};
ghost use Rattle.bus_base.specs.declared.ProcId.{ProcId};
ghost use Rattle.bus_trace.specs.LineSet.{LineSet};
ghost use Rattle.story_model.specs.msg_grammar.specs.declared.message.MsgIn.TheVariants.{SavePointer, RestorePointers};
ghost use Rattle.story_model.specs.CarriedBytes.{CarriedBytes, nothing_carried, with_restored_pointers, carried_after_message, carried_after_byte};
ghost use Rattle.io_pointers.specs.Pointers.{pointers_of, is_in, at_start, place_in, with_saved_data, with_restored, advanced};

/// A place in each area of a process: how many of its bytes stand before it.
#[derive(Clone, Copy, PartialEq, Eq, Debug)]
pub struct Place {
    pub command: u32,
    pub payload: u32,
    pub status: u32,
}

/// An area that a pointer points into.
#[derive(Clone, Copy, PartialEq, Eq, Debug)]
pub enum Area {
    /// The command descriptor block.
    Command,
    /// The data, in either direction.
    Payload,
    /// The status.
    Status,
}

/// The pointers of a process.
#[derive(Clone, Copy, PartialEq, Eq, Debug)]
pub struct Pointers {
    /// The saved ones.
    pub saved: Place,
    /// The active ones.
    pub active: Place,
}

impl Pointers {
    /// Those of a process that has carried nothing: all are 0.
    pub fn new() -> Pointers
        ensures exact { result ≡ record { saved = at_start; active = at_start } }
        ensures carried { (id : ProcId) → result ≡ pointers_of (nothing_carried id) }
    {
        let start = Place {
            command: 0,
            payload: 0,
            status: 0,
        };
        Pointers {
            saved: start,
            active: start,
        }
    }

    /// SAVE DATA POINTER (6.6.20): the active data pointer becomes the saved one.
    pub fn save_data(&mut self)
        ensures exact { self.new ≡ with_saved_data self.old }
        ensures carried { (k : CarriedBytes) → self.old ≡ pointers_of k
            → self.new ≡ pointers_of (carried_after_message k SavePointer) }
    {
        self.saved.payload = self.active.payload;
    }

    /// RESTORE POINTERS (6.6.19): the saved pointers become the active ones.
    pub fn restore(&mut self)
        ensures exact { self.new ≡ with_restored self.old }
        ensures carried { (k : CarriedBytes) → self.old ≡ pointers_of k
            → self.new ≡ pointers_of (carried_after_message k RestorePointers) }
    {
        self.active = self.saved;
    }

    /// A connection begins, by a selection or a reselection: the saved pointers become the active ones.
    pub fn connect(&mut self)
        ensures exact { self.new ≡ with_restored self.old }
        ensures carried { (k : CarriedBytes) → self.old ≡ pointers_of k
            → self.new ≡ pointers_of (with_restored_pointers k) }
    {
        self.restore();
    }

    /// A byte crosses in the phase of this area, whose active pointer is below the last u32.
    pub fn advance(&mut self, area: Area)
        requires { place_in self.old.active area < 0xffffffff }
        ensures exact { self.new ≡ advanced self.old area }
        ensures carried { (k : CarriedBytes) (s : LineSet) (byte : ℕ) → is_in area s ≡ true → self.old ≡ pointers_of k
            → self.new ≡ pointers_of (carried_after_byte k s byte) }
    {
        match area {
            Area::Command => self.active.command += 1,
            Area::Payload => self.active.payload += 1,
            Area::Status => self.active.status += 1,
        }
    }
}
