// The queue of an initiator's commands that ended with CHECK CONDITION, in the order of that.
ghost use Rattle.std.specs.Prelude.{◌≡◌, ◌<◌, [], IfOk};
ghost use Rattle.initiator_books.specs.Checks.{with_check};

use bus_base::NoMemory;
use std::alloc::Global;
use std::marker::Model;

/// The commands that ended with CHECK CONDITION, by their numbers, each once.
#[derive(Drop)]
pub struct Checks {
    slots: Vec<u16>,
    count: usize,
    // By number, whether it stands there.
    marks: Vec<bool>,
}

impl Model for Checks {
    ghost use Rattle.std.specs.Prelude.{length, take};
    ghost use Rattle.initiator_books.specs.Checks.{ChecksValue, AreMarked};

    ghost Value = { ChecksValue };

    ghost view = { λ a. record { queue = take a.count a.slots.items; room = length a.slots.items } };

    ghost invariant = { λ a. AreMarked a.count a.slots.items a.marks.items };
}

impl Checks {
    /// None, with room for so many; their numbers are below that.
    pub fn new(alloc: Global, room: usize) -> Result<Checks, NoMemory>
        ensures { IfOk result (λ made. made ≡ record { queue = []; room = room }) }
    {
        let slots = vec![in alloc; 0; room]?;
        let marks = vec![in alloc; false; room]?;
        Ok(Checks {
            slots,
            count: 0,
            marks,
        })
    }

    /// Their numbers, in order.
    pub fn numbers(&self) -> &[u16]
        ensures { result.now ≡ self.now.queue }
    {
        &self.slots[..self.count]
    }

    /// The command of this number ended so; it stands there once.
    pub fn add(&mut self, number: u16)
        requires { number < self.old.room }
        ensures { self.new ≡ with_check self.old number }
    {
        if !self.marks[number as usize] && self.count < self.slots.len() {
            self.slots[self.count] = number;
            self.marks[number as usize] = true;
            self.count += 1;
        }
    }
}
