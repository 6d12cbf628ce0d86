//! What stands on a tape at the start, and the memory that its commands need.
ghost use Rattle.std.specs.Prelude.{◌≡◌, ◌+◌, ◌-◌, ◌^◌, ◌<◌, ◌≤◌, ◌==◌, ◌&&◌, [], ◌∷◌, length, min, if◌then◌else◌, IfOk};
ghost use Rattle.scenario.specs.Lookups.{tape_unit};
ghost use Rattle.array_model.specs.Contents.{object_of, loaded_objects};
ghost use Rattle.array_model.specs.Reels.{AreWhole, IsWhole};
ghost use Rattle.disk_unit.specs.Held.{a_tape};
ghost use Rattle.tape_unit.specs.Tape.{with_objects};
ghost use Rattle.target_units.specs.Fillings.{blocks_by, blocks_by_all as blocks_of_all};
ghost use Rattle.target_units.specs.Loads.{is_loaded_by, load_blocks, blocks_loaded as blocks_of_loads};

use crate::fillings::blocks_in_all;
use bus_base::NoMemory;
use scenario::{CmdDef, Load, LoadDef, TapeDef};
use tape_unit::{TapeMedium, tape_cost};

// ---- how many blocks

fn is_of(def: &TapeDef, load: &LoadDef) -> bool
    ensures { result ≡ is_loaded_by def.now load.now }
{
    load.target == def.target && load.unit == def.unit
}

fn blocks_of(what: &Load) -> usize
    ensures exact { result ≡ load_blocks what.now }
    ensures most { result ≤ 1 }
{
    match what {
        Load::Block(_) => 1,
        Load::Mark => 0,
    }
}

fn blocks_of_load(def: &TapeDef, load: &LoadDef) -> usize
    ensures exact { result ≡ (if is_loaded_by def.now load.now then load_blocks load.now.what else 0) }
    ensures most { result ≤ 1 }
{
    if is_of(def, load) {
        blocks_of(&load.what)
    } else {
        0
    }
}

// How many blocks these loads put on this tape.
fn blocks_loaded(def: &TapeDef, loads: &[LoadDef]) -> usize
    ensures { result ≡ blocks_of_loads def.now loads.now }
{
    let mut blocks = 0;
    for one in loads {
        blocks += blocks_of_load(def, one);
    }
    blocks
}

fn blocks_of_command(def: &TapeDef, command: &CmdDef) -> u64
    ensures { result ≡ blocks_by a_tape (tape_unit def.now) command.now }
{
    if command.target == def.target && command.unit == def.unit {
        tape_cost(command.cdb.as_slice())
    } else {
        0
    }
}

// How many blocks the commands write on this tape at most.
fn blocks_written(def: &TapeDef, commands: &[CmdDef]) -> u64
    ensures { result ≡ min (blocks_of_all a_tape (tape_unit def.now) commands.now) (2 ^ 64 - 1) }
{
    let mut blocks: u64 = 0;
    for command in commands {
        blocks = blocks.saturating_add(blocks_of_command(def, command));
    }
    blocks
}

/// How many blocks the loads put on this tape and the commands write on it, together, unless they are more than a tape
/// counts.
pub fn blocks_on(def: &TapeDef, loads: &[LoadDef], commands: &[CmdDef]) -> Result<u32, NoMemory>
    ensures { IfOk result (λ blocks.
        blocks ≡ blocks_of_loads def.now loads.now + blocks_of_all a_tape (tape_unit def.now) commands.now) }
{
    let blocks = blocks_in_all(blocks_loaded(def, loads), blocks_written(def, commands))?;
    if blocks <= 4294967295 {
        Ok(blocks as u32)
    } else {
        Err(NoMemory)
    }
}

// ---- the objects

fn load_object(tape: &mut TapeMedium, what: &Load)
    requires whole { IsWhole tape.old.tape.size (object_of what.now) }
    requires room { length tape.old.tape.reel.objects < tape.old.tape.capacity }
    requires spare { load_blocks what.now ≤ tape.old.spare }
    ensures tape { tape.new.tape ≡ with_objects tape.old.tape (object_of what.now ∷ []) }
    ensures spare { tape.old.spare ≡ tape.new.spare + load_blocks what.now }
{
    match what {
        Load::Block(bytes) => tape.load_block(bytes.as_slice()),
        Load::Mark => tape.load_mark(),
    }
}

// The object of a load, where that is of this tape.
fn load_one(tape: &mut TapeMedium, def: &TapeDef, load: &LoadDef)
    requires whole { AreWhole tape.old.tape.size (loaded_objects (tape_unit def.now) (load.now ∷ [])) }
    requires room { length tape.old.tape.reel.objects + length (loaded_objects (tape_unit def.now) (load.now ∷ []))
        ≤ tape.old.tape.capacity }
    requires spare { blocks_of_loads def.now (load.now ∷ []) ≤ tape.old.spare }
    ensures tape { tape.new.tape
        ≡ with_objects tape.old.tape (loaded_objects (tape_unit def.now) (load.now ∷ [])) }
    ensures spare { tape.old.spare ≡ tape.new.spare + blocks_of_loads def.now (load.now ∷ []) }
{
    if is_of(def, load) {
        load_object(tape, &load.what);
    }
}

/// The objects of the loads that are of this tape stand on it, behind those that stood there. Its position stays.
pub fn load(tape: &mut TapeMedium, def: &TapeDef, loads: &[LoadDef])
    requires whole { AreWhole tape.old.tape.size (loaded_objects (tape_unit def.now) loads.now) }
    requires room { length tape.old.tape.reel.objects + length (loaded_objects (tape_unit def.now) loads.now)
        ≤ tape.old.tape.capacity }
    requires spare { blocks_of_loads def.now loads.now ≤ tape.old.spare }
    ensures tape { tape.new.tape ≡ with_objects tape.old.tape (loaded_objects (tape_unit def.now) loads.now) }
    ensures spare { tape.old.spare ≡ tape.new.spare + blocks_of_loads def.now loads.now }
{
    for one in loads {
        load_one(tape, def, one);
    }
}
