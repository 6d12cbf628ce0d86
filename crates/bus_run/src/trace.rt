//! A trace with its history.
ghost use Rattle.std.specs.Prelude.{◌≡◌, ◌+◌, ◌++◌, ◌∷◌, [], OnOk, reverse, length};
ghost use Rattle.bus_run.specs.Shown.{shown_events};

use crate::shown::Shown;
use bus_base::{Event, NoMemory};
use bus_trace::Row;
use row_store::RowStore;
use std::alloc::Global;

/// The rows of a run so far, and the events that they show, the oldest first.
#[derive(Drop)]
pub struct Trace {
    /// The rows.
    pub rows: RowStore,
    /// The events.
    pub history: Vec<Event>,
}

// Such events more.
fn add_events(history: &mut Vec<Event>, shown: Shown) -> Result<(), NoMemory>
    ensures { OnOk result (reverse history.new.items ≡ shown_events shown ++ reverse history.old.items) }
{
    match shown {
        Shown::Nothing => {}
        Shown::One(events) => history.push(events[0])?,
        Shown::Two(events) => {
            history.push(events[1])?;
            history.push(events[0])?;
        }
    }
    Ok(())
}

impl Trace {
    /// Without rows.
    pub fn new(alloc: Global) -> Trace
        ensures rows { result.rows ≡ [] }
        ensures history { result.history.items ≡ [] }
    {
        Trace {
            rows: RowStore::new(alloc),
            history: Vec::new(alloc),
        }
    }

    /// One row more, which shows these events.
    pub fn add(&mut self, row: &Row, shown: Shown) -> Result<(), NoMemory>
        ensures rows { OnOk result (reverse self.new.rows ≡ row.now ∷ reverse self.old.rows) }
        ensures count { OnOk result (length self.new.rows ≡ length self.old.rows + 1) }
        ensures history { OnOk result (reverse self.new.history.items
            ≡ shown_events shown ++ reverse self.old.history.items) }
    {
        add_events(&mut self.history, shown)?;
        self.rows.push(row)?;
        Ok(())
    }
}
