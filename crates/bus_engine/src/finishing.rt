//! What a run leaves: how its commands ended, and what its disks and tapes hold.
ghost use Rattle.std.specs.Prelude.{ℕ, ◌≡◌, ◌≤◌, ◌<◌, ◌+◌, ◌==◌, ◌&&◌, List, [], Some, true, false, is_some, IfOk, IfSome, map, length};
ghost use Rattle.std.specs.List.{AllByRecursion};
ghost use Rattle.bus_trace.specs.declared.Row.{Row as TraceRow};
ghost use Rattle.scenario.specs.declared.value.CmdDef.{CmdDef as CmdLine};
ghost use Rattle.scenario.specs.declared.value.UnitDef.{UnitDef as UnitLine};
ghost use Rattle.scenario.specs.Lookups.{tape_unit};
ghost use Rattle.scenario.specs.Value.{ScenarioValue};
ghost use Rattle.array_model.specs.Contents.{Contents, is_reeled};
ghost use Rattle.array_model.specs.Processes.{command_at};
ghost use Rattle.array_model.specs.Seats.{is_initiator};
ghost use Rattle.due_model.specs.story_model.specs.Outcomes.{outcome_of, outcomes};
ghost use Rattle.due_model.specs.RunSteps.{run_state};
ghost use Rattle.delivery_laws.specs.scsi_device.specs.Lines.{FitsBus};
ghost use Rattle.run_record.specs.declared.outcome.Outcome.{Outcome as OutcomeValue};
ghost use Rattle.initiator.specs.Received.{undoes_no_byte};
ghost use Rattle.run_record.specs.Value.{held_by, reeled_by};
ghost use Rattle.delivery_laws.specs.target_units.specs.Units.{contents_handed};
ghost use Rattle.bus_engine.specs.Answers.{is_answered, are_answered};
ghost use Rattle.bus_engine.specs.Over.{IsPlaceOver, AreOver, AreUnitsIf};
ghost use Rattle.bus_engine.specs.Disks.{AreUnitsByTarget, held_if, held_at, AreHeld, AreLinesApart, AreOfKind, AreParted, IsWithin, IsTapeWithin};
ghost use Rattle.bus_engine.specs.Runs.{told_reply};

use crate::member::Member;
use bus_base::NoMemory;
use disk_target::the_target_units::Units;
use disk_unit::{Blocks, SparseBlocks};
use run_record::Outcome;
use scenario::{CmdDef, TapeDef, UnitDef};
use std::alloc::Global;
use tape_unit::{Drive, TapeMedium};

// ---- how the commands ended

// An outcome that is known. A command without one has no reply to tell of.
fn known(outcome: Option<Outcome>) -> Outcome
    ensures { (other : OutcomeValue) → outcome ≡ Some other → result ≡ other }
{
    match outcome {
        None => Outcome::Lost,
        Some(outcome) => outcome,
    }
}

fn outcome_in(place: &mut Option<Member>, alloc: Global, number: u16) -> Outcome
    ensures told { (s : ScenarioValue) (rows : List TraceRow) (dev : ℕ) (c : CmdLine)
        → IsPlaceOver s rows dev number place.old → command_at s.commands number ≡ Some c → c.host ≡ dev
        → is_initiator s.hosts dev ≡ true → undoes_no_byte s rows ≡ true
        → is_answered s (run_state s rows).story number c ≡ true
        → told_reply result ≡ outcome_of s (run_state s rows).story number }
    ensures over { (s : ScenarioValue) (rows : List TraceRow) (dev first : ℕ) → first ≤ number + 1
        → IsPlaceOver s rows dev first place.old → IsPlaceOver s rows dev (number + 1) place.new }
{
    match place {
        None => Outcome::Lost,
        Some(member) => known(member.take_outcome(alloc, number)),
    }
}

// The outcome of a command, as its initiator has it.
fn outcome_at(
    places: &mut [Option<Member>],
    alloc: Global,
    command: &CmdDef,
    number: u16,
) -> Outcome
    requires eight { length places.old ≡ 8 }
    requires host { command.now.host < 8 }
    ensures told { (s : ScenarioValue) (rows : List TraceRow) → AreOver s rows number places.old
        → command_at s.commands number ≡ Some command.now → is_initiator s.hosts command.now.host ≡ true
        → undoes_no_byte s rows ≡ true → is_answered s (run_state s rows).story number command.now ≡ true
        → told_reply result ≡ outcome_of s (run_state s rows).story number }
    ensures over { (s : ScenarioValue) (rows : List TraceRow) → AreOver s rows number places.old
        → AreOver s rows (number + 1) places.new }
{
    outcome_in(&mut places[command.host as usize], alloc, number)
}

/// How each command ended, in the order of the commands.
pub fn replies(
    alloc: Global,
    commands: &[CmdDef],
    places: &mut [Option<Member>],
) -> Result<Vec<Outcome>, NoMemory>
    requires hosts { AllByRecursion (λ (c : CmdLine). c.host < 8) commands.now }
    requires few { length commands.now ≤ 4096 }
    requires eight { length places.old ≡ 8 }
    ensures count { IfOk result (λ replies. length replies.items ≡ length commands.now) }
    ensures told { (s : ScenarioValue) (rows : List TraceRow) → FitsBus s → commands.now ≡ s.commands
        → AreOver s rows 1 places.old → are_answered s rows ≡ true
        → IfOk result (λ replies. map told_reply replies.items ≡ outcomes s (run_state s rows).story) }
    ensures over { (s : ScenarioValue) (rows : List TraceRow) → AreOver s rows 1 places.old
        → IfOk result (λ replies. AreOver s rows (length commands.now + 1) places.new) }
{
    let mut replies = Vec::new(alloc);
    for index in 0..commands.len() {
        let outcome = outcome_at(places, alloc, &commands[index], index as u16 + 1);
        replies.push(outcome)?;
    }
    Ok(replies)
}

// ---- what the units hold

/// The disks and the tapes of a run that is over.
#[derive(Drop)]
pub struct Media {
    /// The blocks of each disk, in the order of the units.
    pub disks: Vec<SparseBlocks>,
    /// Each tape, in the order of their lines.
    pub tapes: Vec<TapeMedium>,
}

// The units of the target in this place, which is over.
fn units_in(place: &mut Option<Member>) -> Option<Units>
    ensures { (s : ScenarioValue) (rows : List TraceRow) (dev first : ℕ)
        → IsPlaceOver s rows dev first place.old → AreUnitsIf s rows dev result }
{
    match place.take() {
        None => None,
        Some(member) => member.into_units(),
    }
}

/// The units of the targets in these places, by their IDs; the targets are over.
pub fn units_by_target(
    alloc: Global,
    places: &mut [Option<Member>],
) -> Result<Vec<Option<Units>>, NoMemory>
    requires eight { length places.old ≡ 8 }
    ensures eight { IfOk result (λ units. length units.items ≡ 8) }
    ensures units { (s : ScenarioValue) (rows : List TraceRow) (first : ℕ) → AreOver s rows first places.old
        → IfOk result (λ units. AreUnitsByTarget s rows units.items) }
{
    let mut units = Vec::new(alloc);
    for dev in 0..8 {
        units.push(units_in(&mut places[dev]))?;
    }
    Ok(units)
}

// The disk or the tape of a unit, which is handed out.
fn drive_of(units: &mut Option<Units>, unit: u8) -> Option<Drive>
    requires unit { unit < 8 }
    ensures held { contents_handed result ≡ held_if units.old unit }
    ensures others { (n : ℕ) → n < 8 → (n == unit) ≡ false → held_if units.new n ≡ held_if units.old n }
{
    match units {
        None => None,
        Some(units) => units.take_drive(unit),
    }
}

// That of this target and unit.
fn drive_at(of_target: &mut [Option<Units>], target: u8, unit: u8) -> Option<Drive>
    requires target { target < 8 }
    requires unit { unit < 8 }
    requires eight { length of_target.old ≡ 8 }
    ensures held { contents_handed result ≡ held_at of_target.old target unit }
    ensures others { (dev n : ℕ) → n < 8 → (dev == target && n == unit) ≡ false
        → held_at of_target.new dev n ≡ held_at of_target.old dev n }
{
    drive_of(&mut of_target[target as usize], unit)
}

// ---- what the disks hold

// The blocks of a disk.
fn blocks_of(drive: Option<Drive>) -> Option<SparseBlocks>
    ensures held { (c : Contents) → contents_handed drive ≡ Some c → is_reeled c ≡ false
        → IfSome result (λ blocks. blocks.contents ≡ c) }
    ensures some { (c : Contents) → contents_handed drive ≡ Some c → is_reeled c ≡ false → is_some result ≡ true }
{
    match drive {
        Some(Drive::Disk(disk)) => Some(disk.into_blocks()),
        Some(Drive::Tape(_)) => None,
        None => None,
    }
}

// The same, where it is there; else blocks of this line that are all zero.
fn blocks_or_zero(
    alloc: Global,
    drive: Option<Drive>,
    def: &UnitDef,
) -> Result<SparseBlocks, NoMemory>
    requires line { IsWithin def.now }
    ensures held { (c : Contents) → contents_handed drive ≡ Some c → is_reeled c ≡ false
        → IfOk result (λ blocks. blocks.contents ≡ c) }
{
    match blocks_of(drive) {
        Some(blocks) => Ok(blocks),
        None => SparseBlocks::new(alloc, def.blocks, def.size as usize),
    }
}

// The blocks of the unit of this line.
fn blocks_at(
    alloc: Global,
    of_target: &mut [Option<Units>],
    def: &UnitDef,
) -> Result<SparseBlocks, NoMemory>
    requires line { IsWithin def.now }
    requires eight { length of_target.old ≡ 8 }
    ensures held { (c : Contents) → held_at of_target.old def.now.target def.now.unit ≡ Some c
        → is_reeled c ≡ false → IfOk result (λ blocks. blocks.contents ≡ c) }
    ensures others { (target unit : ℕ) → unit < 8 → (target == def.now.target && unit == def.now.unit) ≡ false
        → held_at of_target.new target unit ≡ held_at of_target.old target unit }
{
    blocks_or_zero(alloc, drive_at(of_target, def.target, def.unit), def)
}

/// What each disk holds, in the order of the units.
pub fn disks(
    alloc: Global,
    units: &[UnitDef],
    of_target: &mut [Option<Units>],
) -> Result<Vec<SparseBlocks>, NoMemory>
    requires lines { AllByRecursion IsWithin units.now }
    requires eight { length of_target.old ≡ 8 }
    ensures count { IfOk result (λ disks. length disks.items ≡ length units.now) }
    ensures held { (contents there : List Contents) (others : List UnitLine)
        → AreParted false of_target.old units.now contents others there
        → IfOk result (λ disks. (map held_by disks.items ≡ contents) × AreHeld of_target.new others there) }
{
    let mut disks = Vec::new(alloc);
    for index in 0..units.len() {
        disks.push(blocks_at(alloc, of_target, &units[index])?)?;
    }
    Ok(disks)
}

// ---- what stands on the tapes

// Blocks have no reel.
fn is_no_tape(blocks: &SparseBlocks)
    ensures { is_reeled blocks.now.contents ≡ false }
{
    let _ = blocks.count();
}

// The tape.
fn tape_of(drive: Option<Drive>) -> Option<TapeMedium>
    ensures held { (c : Contents) → contents_handed drive ≡ Some c → is_reeled c ≡ true
        → IfSome result (λ tape. reeled_by tape ≡ c) }
    ensures some { (c : Contents) → contents_handed drive ≡ Some c → is_reeled c ≡ true → is_some result ≡ true }
{
    match drive {
        Some(Drive::Tape(tape)) => Some(tape),
        Some(Drive::Disk(disk)) => {
            is_no_tape(disk.blocks());
            None
        }
        None => None,
    }
}

// The same, where it is there; else a tape of this line with nothing on it.
fn tape_or_blank(alloc: Global, drive: Option<Drive>, def: &TapeDef) -> Result<TapeMedium, NoMemory>
    requires line { IsTapeWithin def.now }
    ensures held { (c : Contents) → contents_handed drive ≡ Some c → is_reeled c ≡ true
        → IfOk result (λ tape. reeled_by tape ≡ c) }
{
    match tape_of(drive) {
        Some(tape) => Ok(tape),
        None => TapeMedium::new(alloc, def.objects, def.size as usize, def.objects, 0),
    }
}

// The tape of the unit of this line.
fn tape_at(
    alloc: Global,
    of_target: &mut [Option<Units>],
    def: &TapeDef,
) -> Result<TapeMedium, NoMemory>
    requires line { IsTapeWithin def.now }
    requires eight { length of_target.old ≡ 8 }
    ensures held { (c : Contents) → held_at of_target.old def.now.target def.now.unit ≡ Some c
        → is_reeled c ≡ true → IfOk result (λ tape. reeled_by tape ≡ c) }
    ensures others { (target unit : ℕ) → unit < 8 → (target == def.now.target && unit == def.now.unit) ≡ false
        → held_at of_target.new target unit ≡ held_at of_target.old target unit }
{
    tape_or_blank(alloc, drive_at(of_target, def.target, def.unit), def)
}

/// What stands on each tape, in the order of their lines.
pub fn tapes(
    alloc: Global,
    lines: &[TapeDef],
    of_target: &mut [Option<Units>],
) -> Result<Vec<TapeMedium>, NoMemory>
    requires lines { AllByRecursion IsTapeWithin lines.now }
    requires eight { length of_target.old ≡ 8 }
    ensures count { IfOk result (λ tapes. length tapes.items ≡ length lines.now) }
    ensures held { (contents : List Contents) → AreParted true of_target.old (map tape_unit lines.now) contents [] []
        → IfOk result (λ tapes. map reeled_by tapes.items ≡ contents) }
{
    let mut tapes = Vec::new(alloc);
    for index in 0..lines.len() {
        tapes.push(tape_at(alloc, of_target, &lines[index])?)?;
    }
    Ok(tapes)
}

// ---- both

/// What the disks and the tapes of these lines hold.
pub fn media_by_line(
    alloc: Global,
    units: &[UnitDef],
    lines: &[TapeDef],
    of_target: &mut [Option<Units>],
) -> Result<Media, NoMemory>
    requires lines { AllByRecursion IsWithin units.now }
    requires tape_lines { AllByRecursion IsTapeWithin lines.now }
    requires eight { length of_target.old ≡ 8 }
    ensures count { IfOk result (λ media. length media.disks.items ≡ length units.now) }
    ensures tape_count { IfOk result (λ media. length media.tapes.items ≡ length lines.now) }
    ensures held { (on_disks on_tapes : List Contents)
        → AreParted false of_target.old units.now on_disks (map tape_unit lines.now) on_tapes
        → AreOfKind true on_tapes → AreLinesApart (map tape_unit lines.now)
        → IfOk result (λ media. (map held_by media.disks.items ≡ on_disks)
        × (map reeled_by media.tapes.items ≡ on_tapes)) }
{
    let disks = disks(alloc, units, of_target)?;
    let tapes = tapes(alloc, lines, of_target)?;
    Ok(Media { disks, tapes })
}
