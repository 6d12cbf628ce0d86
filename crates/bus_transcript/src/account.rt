//! The items of a connection.
ghost use Rattle.std.specs.Prelude.{◌≡◌, ◌++◌, ◌∷◌, [], OnOk, List};
ghost use Rattle.bus_transcript.specs.Numbers.{advanced};
ghost use Rattle.bus_transcript.specs.Accounts.{account_of, with_item, with_block, with_cdb, is_whole, arrived, after_command, after_data, after_status_phase, after_status, restored, after_in, account_after, account_after_all};

use crate::item::{Item, Name};
use crate::part::Part;
use crate::process::Process;
use bus_base::Octets;
use cdb_codec::group_len;
use msg_grammar::MsgIn;
use std::alloc::{AllocError, Global};
use std::collections::VecDeque;
use std::marker::Model;

/// The items so far, and what a connection has carried of its process.
#[derive(Drop)]
pub(crate) struct Account {
    process: Process,
    /// The active data pointer.
    active: u32,
    /// The status pointer is 0.
    status_first: bool,
    /// The bytes of COMMAND since the pointers were last restored, and whether a fault struck one.
    block: Vec<u8>,
    struck: bool,
    items: Vec<Item>,
}

impl Model for Account {
    ghost use Rattle.bus_transcript.specs.Accounts.{AccountValue};

    ghost Value = { AccountValue };

    ghost view = { λ a. record {
      process = a.process;
      active = a.active;
      status_first = a.status_first;
      block = a.block.items;
      struck = a.struck;
      items = a.items.items;
    } };
}

// A pointer after so many bytes.
fn advanced(at: u32, count: usize) -> u32
    ensures { result ≡ advanced at count }
{
    let room = u32::MAX - at;
    if count < room as usize {
        at + count as u32
    } else {
        u32::MAX
    }
}

// The command block stands whole, and no fault struck it.
fn is_whole(block: &[u8], struck: bool) -> bool
    ensures { result ≡ is_whole block.now struck }
{
    match block {
        [] => false,
        [first, ..] => group_len(*first) == Some(block.len()) && !struck,
    }
}

impl Account {
    /// A connection of this process begins, after these items.
    pub(crate) fn new(alloc: Global, process: Process, items: Vec<Item>) -> Account
        ensures { result ≡ account_of process items.items }
    {
        Account {
            process,
            active: process.saved,
            status_first: true,
            block: Vec::new(alloc),
            struck: false,
            items,
        }
    }

    /// The process.
    pub(crate) fn process(&self) -> Process
        ensures { result ≡ self.now.process }
    {
        self.process
    }

    /// Its name.
    pub(crate) fn name(&self) -> Name
        ensures { result ≡ self.now.process.name }
    {
        self.process.name
    }

    /// The items.
    pub(crate) fn into_items(self) -> Vec<Item>
        ensures { result.items ≡ self.items }
    {
        self.items
    }

    /// An item more.
    pub(crate) fn add(&mut self, item: Item) -> Result<(), AllocError>
        ensures { OnOk result (self.new ≡ with_item self.old item) }
    {
        self.items.push(item)?;
        Ok(())
    }

    fn add_block(&mut self, bytes: &[u8], struck: bool) -> Result<(), AllocError>
        ensures { OnOk result (self.new ≡ with_block self.old bytes.now struck) }
    {
        self.block.extend_from_slice(bytes)?;
        self.struck = self.struck || struck;
        Ok(())
    }

    fn add_cdb(&mut self, bytes: Octets) -> Result<(), AllocError>
        ensures { OnOk result (self.new ≡ with_cdb self.old bytes) }
    {
        if bytes.as_slice().is_empty() {
            return Ok(());
        }
        self.add(Item::Cdb(bytes))
    }

    fn arrive(&mut self, left: bool) -> Result<(), AllocError>
        ensures { OnOk result (self.new ≡ arrived self.old left) }
    {
        if left && is_whole(self.block.as_slice(), self.struck) {
            let name = self.process.name;
            self.add(Item::Arrive(name))?;
        }
        Ok(())
    }

    fn take_command(&mut self, bytes: Octets, struck: bool, left: bool) -> Result<(), AllocError>
        ensures { OnOk result (self.new ≡ after_command self.old bytes struck left) }
    {
        self.add_block(bytes.as_slice(), struck)?;
        self.add_cdb(bytes)?;
        self.arrive(left)
    }

    fn take_data(&mut self, out: bool, bytes: Octets) -> Result<(), AllocError>
        ensures { OnOk result (self.new ≡ after_data self.old out bytes) }
    {
        let at = self.active;
        let next = advanced(at, bytes.as_slice().len());
        self.add(Item::Payload { out, at, bytes })?;
        self.active = next;
        Ok(())
    }

    fn begin_status(&mut self) -> Result<(), AllocError>
        ensures { OnOk result (self.new ≡ after_status_phase self.old) }
    {
        if self.process.shown {
            return Ok(());
        }
        let name = self.process.name;
        self.add(Item::Ready(name))?;
        self.process.shown = true;
        Ok(())
    }

    fn take_status(&mut self, byte: u8) -> Result<(), AllocError>
        ensures { OnOk result (self.new ≡ after_status self.old byte) }
    {
        self.add(Item::Status(byte))?;
        if self.status_first {
            self.process.status = Some(byte);
        }
        self.status_first = false;
        Ok(())
    }

    fn restore(&mut self)
        ensures { self.new ≡ restored self.old }
    {
        self.active = self.process.saved;
        self.status_first = true;
        self.block.clear();
        self.struck = false;
    }

    fn hear(&mut self, message: MsgIn)
        ensures { self.new ≡ after_in self.old message }
    {
        match message {
            MsgIn::SavePointer => self.process.saved = self.active,
            MsgIn::RestorePointers => self.restore(),
            _ => {}
        }
    }

    fn take_in(&mut self, message: MsgIn) -> Result<(), AllocError>
        ensures { OnOk result (self.new ≡ account_after self.old (Part.In message)) }
    {
        self.add(Item::In(message))?;
        self.hear(message);
        Ok(())
    }

    fn take(&mut self, part: Part) -> Result<(), AllocError>
        ensures { OnOk result (self.new ≡ account_after self.old part) }
    {
        match part {
            Part::Out(message) => self.add(Item::Out(message)),
            Part::In(message) => self.take_in(message),
            Part::BrokenOff => Ok(()),
            Part::Command(bytes, struck, left) => self.take_command(bytes, struck, left),
            Part::Data(out, bytes) => self.take_data(out, bytes),
            Part::StatusPhase => self.begin_status(),
            Part::Status(byte) => self.take_status(byte),
            Part::Completion => {
                let Process { name, status, .. } = self.process;
                self.add(Item::End(name, status))
            }
        }
    }

    /// These parts, the oldest first.
    pub(crate) fn take_all(&mut self, parts: VecDeque<Part>) -> Result<(), AllocError>
        ensures { OnOk result (self.new ≡ account_after_all self.old parts.items) }
    {
        let mut left = parts;
        while let Some(part) = left.pop_front() {
            self.take(part)?;
        }
        Ok(())
    }
}
