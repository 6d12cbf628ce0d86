//! The processes of a trace.
ghost use Rattle.std.specs.Prelude.{◌≡◌, [], OnOk};
ghost use Rattle.bus_transcript.specs.Processes.{new_process, process_after, process_of, with_last, IsLast, with_process};
ghost use Rattle.bus_transcript.specs.Keys.{key_of};

use crate::item::Name;
use std::alloc::{AllocError, Global};
use std::collections::BTreeMap;
use std::marker::Model;

/// What is kept of a process from one connection to the next.
#[derive(Clone, Copy)]
pub struct Process {
    pub name: Name,
    /// The saved data pointer.
    pub saved: u32,
    /// The status that it has carried.
    pub status: Option<u8>,
    /// A STATUS phase of it has begun.
    pub shown: bool,
}

fn new_process(name: Name, number: u32) -> Process
    ensures { result ≡ new_process name number }
{
    Process {
        name: Name { number, ..name },
        saved: 0,
        status: None,
        shown: false,
    }
}

/// The process of a connection that has this name but for its number, by the last process of that nexus. A reselection
/// began it or not, and an abort message came in it or not.
pub(crate) fn process_after(again: bool, aborts: bool, last: Option<Process>, name: Name) -> Process
    ensures { result ≡ process_after again aborts last name }
{
    match last {
        None => new_process(name, if aborts && !again { 0 } else { 1 }),
        Some(process) => {
            if again {
                process
            } else {
                let number = process.name.number.saturating_add(1);
                new_process(name, if aborts { 0 } else { number })
            }
        }
    }
}

/// A nexus: initiator and target, and unit and tag.
type Key = ((u8, u8), (Option<u8>, Option<u8>));

/// The last process of each nexus.
#[derive(Drop)]
pub(crate) struct Processes {
    last: BTreeMap<Key, Process>,
}

impl Model for Processes {
    ghost use Rattle.std.specs.Prelude.{List};
    ghost use Rattle.bus_transcript.specs.declared.process.Process.{Process};
    ghost use Rattle.bus_transcript.specs.Keys.{Key};

    ghost Value = { List (Key × Process) };

    ghost view = { λ a. a.last.entries };
}

fn key(name: Name) -> Key
    ensures { result ≡ key_of name }
{
    ((name.initiator, name.target), (name.unit, name.tag))
}

impl Processes {
    /// None yet.
    pub(crate) fn new(alloc: Global) -> Processes
        ensures { result ≡ [] }
    {
        Processes {
            last: BTreeMap::new(alloc),
        }
    }

    /// The last process of this nexus.
    pub(crate) fn of(&self, name: Name) -> Option<Process>
        ensures { result ≡ process_of self.now name }
    {
        self.last.get(&key(name)).copied()
    }

    // A process more.
    fn add(&mut self, process: Process) -> Result<(), AllocError>
        ensures exact { OnOk result (self.new ≡ with_last self.old process) }
        ensures last { OnOk result (IsLast self.old self.new process) }
    {
        self.last.insert(key(process.name), process)?;
        Ok(())
    }

    /// A connection of this process has ended; an initiator's abort is no process.
    pub(crate) fn keep(
        &mut self,
        again: bool,
        aborts: bool,
        process: Process,
    ) -> Result<(), AllocError>
        ensures { OnOk result (self.new ≡ with_process again aborts self.old process) }
    {
        if aborts && !again {
            return Ok(());
        }
        self.add(process)
    }
}
