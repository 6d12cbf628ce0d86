//! What each kind of line declares, with its reasons in rising order.
ghost use Rattle.std.specs.Prelude.{◌≡◌, ◌≤◌, ◌<◌, ◌-◌, ◌+◌, ◌^◌, true, IfOk};
ghost use Rattle.scenario.specs.Forms.{fill_said, load_said, cmd_said};
ghost use Rattle.scenario.specs.Parts.{object_said, payload_said};
ghost use Rattle.scenario.specs.Needs.{need_of};
ghost use Rattle.scenario.specs.declared.bounds.TheConstants.{NEEDS_LIMIT};
ghost use Rattle.scenario.specs.Lookups.{has_device, unit_of, tape_of, loads_at};
ghost use Rattle.scenario.specs.Index.{IsIndexOf, IsCountOf};
ghost use Rattle.scenario.specs.Reading.{Gives, host_def, target_def, unit_def, found, is_block_of, fill_def, tape_def, load_of, is_object_of, fits_tape, load_def, are_ends, payload_of, cmd_def, full_cmd_def, has_abort_room, abort_def, reset_def, fault_def};

use crate::bounds::{
    ABORT_LIMIT, BLOCK_LIMIT, DEPTH_LIMIT, FAULT_LIMIT, HOST_OFFSET_LIMIT, LAG_LIMIT,
    LATENCY_LIMIT, OBJECT_LIMIT, OPEN_LIMIT, RETRY_LIMIT, SEEK_LIMIT, TARGET_OFFSET_LIMIT,
};
use crate::fault::Refusal;
use crate::form::{
    AbortForm, CmdForm, FaultForm, FillForm, HostForm, LoadForm, ObjectForm, PayloadForm,
    ResetForm, TapeForm, TargetForm, UnitForm,
};
use crate::index::{is_filled, loads_at};
use crate::limits::{
    answer_or, byte, decoded, in_8, is_block, period_in, policy_in, require, size_in, small,
    tag_in, time_in, what_in, within,
};
use crate::lookup::tape_line;
use crate::needs::{has_room, is_payload, need_of, sent_of};
use crate::value::{
    AbortDef, CmdDef, FaultDef, FillDef, HostDef, Load, LoadDef, Payload, ResetDef, Scenario,
    TapeDef, TargetDef, UnitDef,
};
use bus_base::Octets;
use std::alloc::{AllocError, Global};
use std::collections::BTreeSet;

// Whether the device is declared.
fn has_device(scenario: &Scenario, dev: u8) -> bool
    ensures { result ≡ has_device scenario.now dev }
{
    scenario.has_host(dev) || scenario.has_target(dev)
}

/// An initiator.
#[tactic(auto, unfolding(crate::specs::Reading::host_def))]
pub(crate) fn host_def(scenario: &Scenario, form: HostForm) -> Result<HostDef, Refusal>
    ensures { Gives (λ def. def) result (host_def scenario.now form) }
{
    let dev = in_8(form.device)?;
    let latency = small(form.latency, 0, LATENCY_LIMIT)?;
    let most = small(form.open, 1, OPEN_LIMIT)?;
    let retries = small(form.retries, 0, RETRY_LIMIT)?;
    let period = period_in(form.period)?;
    let offset = byte(form.offset, HOST_OFFSET_LIMIT)?;
    let lag = small(form.lag, 0, LAG_LIMIT)?;
    require(5, !has_device(scenario, dev))?;
    Ok(HostDef {
        dev,
        latency,
        most,
        retries,
        period,
        offset,
        lag,
        offers: answer_or(true, form.offers),
    })
}

/// A target.
#[tactic(auto, unfolding(crate::specs::Reading::target_def))]
pub(crate) fn target_def(scenario: &Scenario, form: TargetForm) -> Result<TargetDef, Refusal>
    ensures { Gives (λ def. def) result (target_def scenario.now form) }
{
    let dev = in_8(form.device)?;
    let latency = small(form.latency, 0, LATENCY_LIMIT)?;
    let retries = small(form.retries, 0, RETRY_LIMIT)?;
    let disc = policy_in(form.disc)?;
    let seek = small(form.seek, 0, SEEK_LIMIT)?;
    let period = period_in(form.period)?;
    let offset = byte(form.offset, TARGET_OFFSET_LIMIT)?;
    require(5, !has_device(scenario, dev))?;
    Ok(TargetDef {
        dev,
        latency,
        retries,
        disc,
        pick: form.pick,
        seek,
        period,
        offset,
        begins: answer_or(false, form.begins),
    })
}

/// A unit.
#[tactic(auto, unfolding(crate::specs::Reading::unit_def))]
pub(crate) fn unit_def(scenario: &Scenario, form: UnitForm) -> Result<UnitDef, Refusal>
    ensures { Gives (λ def. def) result (unit_def scenario.now form) }
{
    let target = in_8(form.target)?;
    let unit = in_8(form.unit)?;
    let blocks = within(form.blocks, 1, BLOCK_LIMIT)?;
    let size = size_in(form.size)?;
    let depth = small(form.depth, 1, DEPTH_LIMIT)?;
    require(5, scenario.unit(target, unit).is_none())?;
    require(6, scenario.has_target(target))?;
    Ok(UnitDef {
        target,
        unit,
        blocks,
        size,
        depth,
    })
}

fn found(scenario: &Scenario, target: u8, unit: u8) -> Result<UnitDef, Refusal>
    ensures { Gives (λ def. def) result (found (unit_of scenario.now target unit)) }
{
    match scenario.unit(target, unit) {
        Some(def) => Ok(def),
        None => Err(Refusal::Reason(6)),
    }
}

// Whether the bytes are one block of the unit, and the block is one of its blocks.
fn is_block_of(unit: &UnitDef, lba: u64, bytes: &[u8]) -> bool
    ensures exact { result ≡ is_block_of unit.now lba bytes.now }
    ensures short { result ≡ true → lba < 2 ^ 32 }
{
    lba < unit.blocks && lba <= u64::from(u32::MAX) && bytes.len() as u64 == u64::from(unit.size)
}

/// What a block holds. `blocks` are those that were filled before.
#[tactic(auto, unfolding(crate::specs::Reading::fill_def))]
pub(crate) fn fill_def(
    alloc: Global,
    scenario: &Scenario,
    blocks: &BTreeSet<u64>,
    form: FillForm<'_>,
) -> Result<FillDef, Refusal>
    requires { IsIndexOf blocks.now scenario.now.fills }
    ensures exact { Gives (λ def. def) result (fill_def scenario.now (fill_said form.entry)) }
    ensures place { IfOk result (λ def. (def.target < 8) × (def.unit < 8)) }
{
    let target = in_8(form.target)?;
    let unit = in_8(form.unit)?;
    let lba = within(form.lba, 0, u64::MAX)?;
    require(5, !is_filled(blocks, target, unit, lba))?;
    let def = found(scenario, target, unit)?;
    let bytes = decoded(alloc, form.digits)?;
    require(7, is_block_of(&def, lba, &bytes))?;
    Ok(FillDef {
        target,
        unit,
        lba: lba as u32,
        bytes: Octets::new(bytes),
    })
}

/// A tape.
#[tactic(auto, unfolding(crate::specs::Reading::tape_def))]
pub(crate) fn tape_def(scenario: &Scenario, form: TapeForm) -> Result<TapeDef, Refusal>
    ensures { Gives (λ def. def) result (tape_def scenario.now form) }
{
    let target = in_8(form.target)?;
    let unit = in_8(form.unit)?;
    let objects = small(form.objects, 1, OBJECT_LIMIT)?;
    let size = size_in(form.size)?;
    let depth = small(form.depth, 1, DEPTH_LIMIT)?;
    require(5, scenario.unit(target, unit).is_none())?;
    require(6, scenario.has_target(target))?;
    Ok(TapeDef {
        target,
        unit,
        objects,
        size,
        depth,
    })
}

fn found_tape(scenario: &Scenario, target: u8, unit: u8) -> Result<TapeDef, Refusal>
    ensures { Gives (λ def. def) result (found (tape_of scenario.now target unit)) }
{
    match tape_line(&scenario.tapes, target, unit) {
        Some(def) => Ok(def),
        None => Err(Refusal::Reason(6)),
    }
}

fn load_of(alloc: Global, form: ObjectForm<'_>) -> Result<Load, AllocError>
    ensures { IfOk result (λ what. what ≡ load_of (object_said form.entry)) }
{
    match form {
        ObjectForm::Block(digits) => {
            let bytes = decoded(alloc, digits)?;
            Ok(Load::Block(Octets::new(bytes)))
        }
        ObjectForm::Mark => Ok(Load::Mark),
    }
}

// Whether the object is a filemark, or one block of the tape.
fn is_object_of(tape: &TapeDef, what: &Load) -> bool
    ensures { result ≡ is_object_of tape.now what.now }
{
    match what {
        Load::Block(bytes) => bytes.as_slice().len() as u64 == u64::from(tape.size),
        Load::Mark => true,
    }
}

// Whether the object fits on the tape, on which `count` stand.
fn fits_tape(tape: &TapeDef, count: u32, what: &Load) -> bool
    ensures exact { result ≡ fits_tape tape.now count what.now }
    ensures room { result ≡ true → count < 2 ^ 32 - 1 }
{
    is_object_of(tape, what) && count < tape.objects
}

/// One object more on a tape. `loaded` tells how many stand on each.
#[tactic(auto, unfolding(crate::specs::Reading::load_def))]
pub(crate) fn load_def(
    alloc: Global,
    scenario: &Scenario,
    loaded: &[u32; 64],
    form: LoadForm<'_>,
) -> Result<LoadDef, Refusal>
    requires { IsCountOf loaded.now scenario.now.loads }
    ensures exact { Gives (λ def. def) result (load_def scenario.now (load_said form.entry)) }
    ensures place { IfOk result (λ def. (def.target < 8) × (def.unit < 8)) }
    ensures room { IfOk result (λ def. loads_at scenario.now.loads def.target def.unit < 2 ^ 32 - 1) }
{
    let target = in_8(form.target)?;
    let unit = in_8(form.unit)?;
    let tape = found_tape(scenario, target, unit)?;
    let what = load_of(alloc, form.what)?;
    require(7, fits_tape(&tape, loads_at(loaded, target, unit), &what))?;
    Ok(LoadDef { target, unit, what })
}

fn payload_of(alloc: Global, form: PayloadForm<'_>) -> Result<Payload, AllocError>
    ensures { IfOk result (λ payload. payload ≡ payload_of (payload_said form.entry)) }
{
    match form {
        PayloadForm::Nothing => Ok(Payload::Nothing),
        PayloadForm::Hex(digits) => {
            let bytes = decoded(alloc, digits)?;
            Ok(Payload::Hex(Octets::new(bytes)))
        }
        PayloadForm::From(first) => Ok(Payload::From(first)),
    }
}

// Whether the initiator is one and the target is none.
fn are_ends(scenario: &Scenario, host: u8, target: u8) -> bool
    ensures { result ≡ are_ends scenario.now host target }
{
    scenario.has_host(host) && !scenario.has_host(target)
}

#[tactic(auto, unfolding(crate::specs::Reading::cmd_def))]
fn cmd_def(alloc: Global, scenario: &Scenario, form: CmdForm<'_>) -> Result<CmdDef, Refusal>
    ensures { Gives (λ def. def) result (cmd_def scenario.now (cmd_said form.entry)) }
{
    let host = in_8(form.host)?;
    let target = in_8(form.target)?;
    let unit = in_8(form.unit)?;
    let at = time_in(form.at)?;
    let tag = tag_in(form.tag)?;
    let cdb = decoded(alloc, form.cdb)?;
    require(4, is_block(&cdb))?;
    require(6, are_ends(scenario, host, target))?;
    let payload = payload_of(alloc, form.payload)?;
    Ok(CmdDef {
        host,
        target,
        unit,
        at,
        tag,
        cdb: Octets::new(cdb),
        payload,
    })
}

/// A command, those before needing `needs` bytes.
#[tactic(auto, unfolding(crate::specs::Reading::full_cmd_def))]
pub(crate) fn full_cmd_def(
    alloc: Global,
    scenario: &Scenario,
    needs: u32,
    form: CmdForm<'_>,
) -> Result<CmdDef, Refusal>
    ensures exact { Gives (λ def. def) result (full_cmd_def scenario.now needs (cmd_said form.entry)) }
    ensures room { IfOk result (λ def. needs + need_of scenario.now def ≤ NEEDS_LIMIT) }
{
    let def = cmd_def(alloc, scenario, form)?;
    require(7, is_payload(sent_of(scenario, &def), &def.payload))?;
    require(8, has_room(scenario, needs, need_of(scenario, &def)))?;
    Ok(def)
}

fn has_abort_room(scenario: &Scenario) -> bool
    ensures { result ≡ has_abort_room scenario.now }
{
    let aborts = scenario.aborts.len();
    aborts < ABORT_LIMIT && scenario.resets.len() < ABORT_LIMIT - aborts
}

/// An abort message.
#[tactic(auto, unfolding(crate::specs::Reading::abort_def))]
pub(crate) fn abort_def(scenario: &Scenario, form: AbortForm) -> Result<AbortDef, Refusal>
    ensures { Gives (λ def. def) result (abort_def scenario.now form) }
{
    let host = in_8(form.host)?;
    let target = in_8(form.target)?;
    let unit = in_8(form.unit)?;
    let at = time_in(form.at)?;
    let what = what_in(form.what)?;
    require(6, are_ends(scenario, host, target))?;
    require(8, has_abort_room(scenario))?;
    Ok(AbortDef {
        host,
        target,
        unit,
        at,
        what,
    })
}

/// A reset.
#[tactic(auto, unfolding(crate::specs::Reading::reset_def))]
pub(crate) fn reset_def(scenario: &Scenario, form: ResetForm) -> Result<ResetDef, Refusal>
    ensures { Gives (λ def. def) result (reset_def scenario.now form) }
{
    let dev = in_8(form.device)?;
    let at = time_in(form.at)?;
    require(6, has_device(scenario, dev))?;
    require(8, has_abort_room(scenario))?;
    Ok(ResetDef { dev, at })
}

/// A fault.
#[tactic(auto, unfolding(crate::specs::Reading::fault_def))]
pub(crate) fn fault_def(scenario: &Scenario, form: FaultForm) -> Result<FaultDef, Refusal>
    ensures { Gives (λ def. def) result (fault_def scenario.now form) }
{
    let at = time_in(form.at)?;
    let bit = byte(form.bit, 8)?;
    require(8, scenario.faults.len() < FAULT_LIMIT)?;
    Ok(FaultDef { at, bit })
}
