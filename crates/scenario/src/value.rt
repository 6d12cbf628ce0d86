//! What a scenario says.
ghost use Rattle.std.specs.Prelude.{◌≡◌, ◌∷◌, [], ◌++◌, ◌==◌, ◌&&◌, OnOk};
ghost use Rattle.std.specs.List.{find, list_any};
ghost use Rattle.scenario.specs.Value.{nothing_said};
ghost use Rattle.scenario.specs.Lookups.{has_host, has_target, unit_of, is_tape};

use crate::lookup::{tape_line, unit_or_tape};
use bus_base::{AbortKind, Octets, Pick};
use std::alloc::{AllocError, Global};
use std::marker::Model;

/// An initiator.
#[derive(Clone, Copy, Debug, PartialEq, Eq)]
pub struct HostDef {
    /// Its device, 0 to 7.
    pub dev: u8,
    /// Its latency, 0 to 100 ns.
    pub latency: u32,
    /// How many of its commands may be open at once, 1 to 32.
    pub most: u32,
    /// How often it tries again, 0 to 16 times.
    pub retries: u32,
    /// Its transfer period factor, in units of 4 ns: 0, or 25 to 255. With 0 it does not negotiate.
    pub period: u8,
    /// Its REQ/ACK offset.
    pub offset: u8,
    /// By how much, in ns, it delays the ACK pulses of a synchronous transfer, 0 to 10,000.
    pub lag: u32,
    /// Whether it offers synchronous transfer; true in text 1.
    pub offers: bool,
}

/// When a target disconnects in a command that enters a queue.
#[derive(Clone, Copy, Debug, PartialEq, Eq)]
pub enum Policy {
    /// Only where the command may not run at once.
    Never,
    /// After the command block.
    Command,
    /// After the command block, and after each run of this many blocks, 1 to 65,536, with SAVE DATA
    /// POINTER.
    Burst(u32),
    /// After the command block, and after the first run of this many blocks, 1 to 65,536, without
    /// SAVE DATA POINTER.
    NoSave(u32),
}

/// A target.
#[derive(Clone, Copy, Debug, PartialEq, Eq)]
pub struct TargetDef {
    /// Its device, 0 to 7.
    pub dev: u8,
    /// Its latency, 0 to 100 ns.
    pub latency: u32,
    /// How often it tries again after an error, 0 to 16 times.
    pub retries: u32,
    /// When it disconnects.
    pub disc: Policy,
    /// Which waiting command it chooses.
    pub pick: Pick,
    /// How long, in ns, a chosen command takes to be ready, 0 to 10^9.
    pub seek: u32,
    /// Its transfer period factor, as an initiator's.
    pub period: u8,
    /// Its REQ/ACK offset, 0 to 254.
    pub offset: u8,
    /// Whether it begins a negotiation that the initiator did not; false in text 1.
    pub begins: bool,
}

/// A logical unit that is a disk.
#[derive(Clone, Copy, Debug, PartialEq, Eq)]
pub struct UnitDef {
    /// Its target.
    pub target: u8,
    /// Its number, 0 to 7.
    pub unit: u8,
    /// How many blocks it has, 1 to 4,294,967,296.
    pub blocks: u64,
    /// How many bytes a block has: a power of two, 16 to 2048.
    pub size: u32,
    /// How many commands its queue holds, 1 to 256.
    pub depth: u32,
}

/// What a block holds at the start.
#[derive(Debug, Drop)]
pub struct FillDef {
    /// The target.
    pub target: u8,
    /// The unit.
    pub unit: u8,
    /// The block.
    pub lba: u32,
    /// Its bytes, as many as a block of the unit has.
    pub bytes: Octets,
}

/// A logical unit that is a tape with blocks of one size.
#[derive(Clone, Copy, Debug, PartialEq, Eq)]
pub struct TapeDef {
    /// Its target.
    pub target: u8,
    /// Its number, 0 to 7; no disk of the target has it.
    pub unit: u8,
    /// How many objects it has room for, blocks and filemarks together, 1 to 65,536.
    pub objects: u32,
    /// How many bytes a block has: a power of two, 16 to 2048.
    pub size: u32,
    /// How many commands its queue holds, 1 to 256.
    pub depth: u32,
}

/// An object of a tape.
#[derive(Debug, Drop)]
pub enum Load {
    /// A block of these bytes, as many as a block of the tape has.
    Block(Octets),
    /// A filemark.
    Mark,
}

/// One object more that a tape holds at the start, after those of the loads before it.
#[derive(Debug, Drop)]
pub struct LoadDef {
    /// The target.
    pub target: u8,
    /// The unit, a tape.
    pub unit: u8,
    /// The object.
    pub what: Load,
}

/// How a command is queued, with its tag.
#[derive(Clone, Copy, Debug, PartialEq, Eq)]
pub enum Tag {
    /// Without a tag.
    Untagged,
    /// SIMPLE QUEUE TAG.
    Simple(u8),
    /// ORDERED QUEUE TAG.
    Ordered(u8),
    /// HEAD OF QUEUE TAG.
    Head(u8),
}

/// The bytes that the initiator sends.
#[derive(Debug, Drop)]
pub enum Payload {
    /// None.
    Nothing,
    /// These bytes.
    Hex(Octets),
    /// As many as the command needs: this one, then each one more than the last, modulo 256.
    From(u8),
}

/// A command.
#[derive(Debug, Drop)]
pub struct CmdDef {
    /// The initiator.
    pub host: u8,
    /// The target, which need not be declared.
    pub target: u8,
    /// The unit, which need not be declared.
    pub unit: u8,
    /// When the initiator begins to want it, 0 to 10^12 ns.
    pub at: u64,
    /// How it is queued.
    pub tag: Tag,
    /// Its command descriptor block, of group 0 or 1.
    pub cdb: Octets,
    /// What it sends.
    pub payload: Payload,
}

/// An abort message.
#[derive(Clone, Copy, Debug, PartialEq, Eq)]
pub struct AbortDef {
    /// The initiator.
    pub host: u8,
    /// The target, which need not be declared.
    pub target: u8,
    /// The unit.
    pub unit: u8,
    /// When the initiator begins to want it, 0 to 10^12 ns.
    pub at: u64,
    /// What it aborts.
    pub what: AbortKind,
}

/// A reset: the device drives RST.
#[derive(Clone, Copy, Debug, PartialEq, Eq)]
pub struct ResetDef {
    /// The device.
    pub dev: u8,
    /// When, 0 to 10^12 ns.
    pub at: u64,
}

/// A fault: one line of the data bus is read wrong once.
#[derive(Clone, Copy, Debug, PartialEq, Eq)]
pub struct FaultDef {
    /// From when on, 0 to 10^12 ns.
    pub at: u64,
    /// Which line: DB(0) to DB(7), or 8 for DB(P).
    pub bit: u8,
}

/// What a bus has on it and what happens there.
#[derive(Debug, Drop)]
pub struct Scenario {
    /// The version of its text, 1, 2 or 3. Text 1 tells neither who offers nor who begins, and text 3 alone has tapes.
    pub version: u8,
    /// The initiators.
    pub hosts: Vec<HostDef>,
    /// The targets.
    pub targets: Vec<TargetDef>,
    /// The disks.
    pub units: Vec<UnitDef>,
    /// The blocks that hold other bytes than 0 at the start.
    pub fills: Vec<FillDef>,
    /// The tapes.
    pub tapes: Vec<TapeDef>,
    /// The objects that tapes hold at the start, those of each tape in their order.
    pub loads: Vec<LoadDef>,
    /// The commands.
    pub commands: Vec<CmdDef>,
    /// The abort messages.
    pub aborts: Vec<AbortDef>,
    /// The resets.
    pub resets: Vec<ResetDef>,
    /// The faults.
    pub faults: Vec<FaultDef>,
}

impl Model for Scenario {
    ghost use Rattle.scenario.specs.Value.{ScenarioValue};

    ghost Value = { ScenarioValue };

    ghost view = { λ a. record {
      version = a.version;
      hosts = a.hosts.items;
      targets = a.targets.items;
      units = a.units.items;
      fills = a.fills.items;
      tapes = a.tapes.items;
      loads = a.loads.items;
      commands = a.commands.items;
      aborts = a.aborts.items;
      resets = a.resets.items;
      faults = a.faults.items;
    } };
}

impl Scenario {
    /// The scenario of which no line was read.
    pub(crate) fn new(alloc: Global) -> Scenario
        ensures { result ≡ nothing_said }
    {
        Scenario {
            version: 0,
            hosts: Vec::new(alloc),
            targets: Vec::new(alloc),
            units: Vec::new(alloc),
            fills: Vec::new(alloc),
            tapes: Vec::new(alloc),
            loads: Vec::new(alloc),
            commands: Vec::new(alloc),
            aborts: Vec::new(alloc),
            resets: Vec::new(alloc),
            faults: Vec::new(alloc),
        }
    }

    /// Whether the device is an initiator.
    pub(crate) fn has_host(&self, dev: u8) -> bool
        ensures { result ≡ has_host self.now dev }
    {
        self.hosts.iter().any(|h| h.dev == dev)
    }

    /// Whether the device is a target.
    pub(crate) fn has_target(&self, dev: u8) -> bool
        ensures { result ≡ has_target self.now dev }
    {
        self.targets.iter().any(|t| t.dev == dev)
    }

    /// The unit of this number of this target.
    pub(crate) fn unit(&self, target: u8, unit: u8) -> Option<UnitDef>
        ensures { result ≡ unit_of self.now target unit }
    {
        unit_or_tape(&self.units, &self.tapes, target, unit)
    }

    /// Whether the unit of this number of this target is a tape.
    pub(crate) fn is_tape(&self, target: u8, unit: u8) -> bool
        ensures { result ≡ is_tape self.now target unit }
    {
        tape_line(&self.tapes, target, unit).is_some()
    }

    pub(crate) fn set_version(&mut self, version: u8)
        ensures { self.new ≡ record self.old { version = version } }
    {
        self.version = version;
    }

    pub(crate) fn add_host(&mut self, def: HostDef) -> Result<(), AllocError>
        ensures { OnOk result (self.new ≡ record self.old { hosts = self.old.hosts ++ def ∷ [] }) }
    {
        self.hosts.push(def)?;
        Ok(())
    }

    pub(crate) fn add_target(&mut self, def: TargetDef) -> Result<(), AllocError>
        ensures { OnOk result (self.new ≡ record self.old { targets = self.old.targets ++ def ∷ [] }) }
    {
        self.targets.push(def)?;
        Ok(())
    }

    pub(crate) fn add_unit(&mut self, def: UnitDef) -> Result<(), AllocError>
        ensures { OnOk result (self.new ≡ record self.old { units = self.old.units ++ def ∷ [] }) }
    {
        self.units.push(def)?;
        Ok(())
    }

    pub(crate) fn add_fill(&mut self, def: FillDef) -> Result<(), AllocError>
        ensures { OnOk result (self.new ≡ record self.old { fills = self.old.fills ++ def ∷ [] }) }
    {
        self.fills.push(def)?;
        Ok(())
    }

    pub(crate) fn add_tape(&mut self, def: TapeDef) -> Result<(), AllocError>
        ensures { OnOk result (self.new ≡ record self.old { tapes = self.old.tapes ++ def ∷ [] }) }
    {
        self.tapes.push(def)?;
        Ok(())
    }

    pub(crate) fn add_load(&mut self, def: LoadDef) -> Result<(), AllocError>
        ensures { OnOk result (self.new ≡ record self.old { loads = self.old.loads ++ def ∷ [] }) }
    {
        self.loads.push(def)?;
        Ok(())
    }

    pub(crate) fn add_command(&mut self, def: CmdDef) -> Result<(), AllocError>
        ensures { OnOk result (self.new ≡ record self.old { commands = self.old.commands ++ def ∷ [] }) }
    {
        self.commands.push(def)?;
        Ok(())
    }

    pub(crate) fn add_abort(&mut self, def: AbortDef) -> Result<(), AllocError>
        ensures { OnOk result (self.new ≡ record self.old { aborts = self.old.aborts ++ def ∷ [] }) }
    {
        self.aborts.push(def)?;
        Ok(())
    }

    pub(crate) fn add_reset(&mut self, def: ResetDef) -> Result<(), AllocError>
        ensures { OnOk result (self.new ≡ record self.old { resets = self.old.resets ++ def ∷ [] }) }
    {
        self.resets.push(def)?;
        Ok(())
    }

    pub(crate) fn add_fault(&mut self, def: FaultDef) -> Result<(), AllocError>
        ensures { OnOk result (self.new ≡ record self.old { faults = self.old.faults ++ def ∷ [] }) }
    {
        self.faults.push(def)?;
        Ok(())
    }
}
