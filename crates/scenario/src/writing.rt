//! From a scenario to its text.
ghost use Rattle.std.specs.Prelude.{◌≡◌, ◌++◌, ◌∷◌, [], OnOk, IfOk, map, codes, decimal};
ghost use Rattle.std.specs.List.{flat_map};
ghost use Rattle.text_words.specs.Spelling.{hex_text};
ghost use Rattle.scenario.specs.Writing.{scsi_text, yes_no_text, flag_text, policy_text, pick_text, tag_text, object_text, payload_text, what_text, host_sync_text, target_seek_text, target_disc_text, cmd_tag_text, said_line, said_flag, host_form, target_form, cmd_form, events_of, body_of, said_host, said_policy, said_target, said_unit, said_fill, said_tape, said_object, said_load, said_tag, said_payload, said_cmd, said_what, said_abort, said_reset, said_fault, text_of};

use crate::value::{
    AbortDef, CmdDef, FaultDef, FillDef, HostDef, Load, LoadDef, Payload, Policy, ResetDef,
    Scenario, Tag, TapeDef, TargetDef, UnitDef,
};
use bus_base::{AbortKind, NoMemory, Pick};
use std::alloc::{AllocError, Global};
use text_words::byte_text;

fn put(out: &mut Vec<u8>, text: &[u8]) -> Result<(), AllocError>
    ensures { OnOk result (out.new.items ≡ out.old.items ++ text.now) }
{
    out.extend_from_slice(text)?;
    Ok(())
}

// A text, and a number after it.
fn put_number(alloc: Global, out: &mut Vec<u8>, text: &[u8], number: u64) -> Result<(), AllocError>
    ensures { OnOk result (out.new.items ≡ out.old.items ++ (text.now ++ decimal number)) }
{
    let digits = format!(in alloc; "{number}")?;
    put(out, text)?;
    put(out, digits.as_bytes())
}

fn put_hex(out: &mut Vec<u8>, bytes: &[u8]) -> Result<(), AllocError>
    ensures { OnOk result (out.new.items ≡ out.old.items ++ hex_text bytes.now) }
{
    for byte in bytes {
        put(out, &byte_text(*byte))?;
    }
    Ok(())
}

// The end of an initiator's or target's line, which text 1 has not.
fn put_flag(out: &mut Vec<u8>, text: &[u8], version: u8, answer: bool) -> Result<(), AllocError>
    ensures { OnOk result (out.new.items ≡ out.old.items ++ flag_text text.now (said_flag version answer)) }
{
    if version != 1 {
        put(out, text)?;
        put(
            out,
            if answer {
                b"yes".as_slice()
            } else {
                b"no".as_slice()
            },
        )?;
    }
    Ok(())
}

fn put_scsi(out: &mut Vec<u8>, version: u8) -> Result<(), AllocError>
    ensures { OnOk result (out.new.items ≡ out.old.items ++ (scsi_text version ++ 10 ∷ [])) }
{
    if version == 3 {
        put(out, b"scsi 3\n")
    } else if version == 2 {
        put(out, b"scsi 2\n")
    } else {
        put(out, b"scsi 1\n")
    }
}

#[tactic(auto, unfolding(crate::specs::Writing::host_sync_text))]
fn put_host_sync(
    alloc: Global,
    out: &mut Vec<u8>,
    version: u8,
    def: &HostDef,
) -> Result<(), AllocError>
    ensures { OnOk result (out.new.items ≡ out.old.items ++ host_sync_text (host_form version def.now)) }
{
    put_number(alloc, out, b" sync ", u64::from(def.period))?;
    put_number(alloc, out, b" ", u64::from(def.offset))?;
    put_number(alloc, out, b" lag ", u64::from(def.lag))?;
    put_flag(out, b" offers ", version, def.offers)
}

#[tactic(auto, unfolding(crate::specs::Writing::initiator_text))]
fn put_host(alloc: Global, out: &mut Vec<u8>, version: u8, def: &HostDef) -> Result<(), AllocError>
    ensures { OnOk result (out.new.items ≡ out.old.items ++ said_line (said_host version def.now)) }
{
    put_number(alloc, out, b"initiator ", u64::from(def.dev))?;
    put_number(alloc, out, b" latency ", u64::from(def.latency))?;
    put_number(alloc, out, b" open ", u64::from(def.most))?;
    put_number(alloc, out, b" retries ", u64::from(def.retries))?;
    put_host_sync(alloc, out, version, def)?;
    put(out, b"\n")
}

fn put_policy(alloc: Global, out: &mut Vec<u8>, policy: Policy) -> Result<(), AllocError>
    ensures { OnOk result (out.new.items ≡ out.old.items ++ policy_text (said_policy policy)) }
{
    match policy {
        Policy::Never => put(out, b"never"),
        Policy::Command => put(out, b"command"),
        Policy::Burst(k) => put_number(alloc, out, b"burst ", u64::from(k)),
        Policy::NoSave(k) => put_number(alloc, out, b"nosave ", u64::from(k)),
    }
}

fn put_pick(out: &mut Vec<u8>, pick: Pick) -> Result<(), AllocError>
    ensures { OnOk result (out.new.items ≡ out.old.items ++ pick_text pick) }
{
    match pick {
        Pick::First => put(out, b"first"),
        Pick::Last => put(out, b"last"),
    }
}

#[tactic(auto, unfolding(crate::specs::Writing::target_seek_text))]
fn put_target_seek(
    alloc: Global,
    out: &mut Vec<u8>,
    version: u8,
    def: &TargetDef,
) -> Result<(), AllocError>
    ensures { OnOk result (out.new.items ≡ out.old.items ++ target_seek_text (target_form version def.now)) }
{
    put_number(alloc, out, b" seek ", u64::from(def.seek))?;
    put_number(alloc, out, b" sync ", u64::from(def.period))?;
    put_number(alloc, out, b" ", u64::from(def.offset))?;
    put_flag(out, b" begins ", version, def.begins)
}

#[tactic(auto, unfolding(crate::specs::Writing::target_disc_text))]
fn put_target_disc(
    alloc: Global,
    out: &mut Vec<u8>,
    version: u8,
    def: &TargetDef,
) -> Result<(), AllocError>
    ensures { OnOk result (out.new.items ≡ out.old.items ++ target_disc_text (target_form version def.now)) }
{
    put(out, b" disc ")?;
    put_policy(alloc, out, def.disc)?;
    put(out, b" pick ")?;
    put_pick(out, def.pick)?;
    put_target_seek(alloc, out, version, def)
}

#[tactic(auto, unfolding(crate::specs::Writing::target_text))]
fn put_target(
    alloc: Global,
    out: &mut Vec<u8>,
    version: u8,
    def: &TargetDef,
) -> Result<(), AllocError>
    ensures { OnOk result (out.new.items ≡ out.old.items ++ said_line (said_target version def.now)) }
{
    put_number(alloc, out, b"target ", u64::from(def.dev))?;
    put_number(alloc, out, b" latency ", u64::from(def.latency))?;
    put_number(alloc, out, b" retries ", u64::from(def.retries))?;
    put_target_disc(alloc, out, version, def)?;
    put(out, b"\n")
}

#[tactic(auto, unfolding(crate::specs::Writing::unit_text))]
fn put_unit(alloc: Global, out: &mut Vec<u8>, def: &UnitDef) -> Result<(), AllocError>
    ensures { OnOk result (out.new.items ≡ out.old.items ++ said_line (said_unit def.now)) }
{
    put_number(alloc, out, b"unit ", u64::from(def.target))?;
    put_number(alloc, out, b" ", u64::from(def.unit))?;
    put_number(alloc, out, b" blocks ", def.blocks)?;
    put_number(alloc, out, b" size ", u64::from(def.size))?;
    put_number(alloc, out, b" depth ", u64::from(def.depth))?;
    put(out, b"\n")
}

#[tactic(auto, unfolding(crate::specs::Writing::fill_text))]
fn put_fill(alloc: Global, out: &mut Vec<u8>, def: &FillDef) -> Result<(), AllocError>
    ensures { OnOk result (out.new.items ≡ out.old.items ++ said_line (said_fill def.now)) }
{
    put_number(alloc, out, b"fill ", u64::from(def.target))?;
    put_number(alloc, out, b" ", u64::from(def.unit))?;
    put_number(alloc, out, b" ", u64::from(def.lba))?;
    put(out, b" ")?;
    put_hex(out, def.bytes.as_slice())?;
    put(out, b"\n")
}

#[tactic(auto, unfolding(crate::specs::Writing::tape_text))]
fn put_tape(alloc: Global, out: &mut Vec<u8>, def: &TapeDef) -> Result<(), AllocError>
    ensures { OnOk result (out.new.items ≡ out.old.items ++ said_line (said_tape def.now)) }
{
    put_number(alloc, out, b"tape ", u64::from(def.target))?;
    put_number(alloc, out, b" ", u64::from(def.unit))?;
    put_number(alloc, out, b" objects ", u64::from(def.objects))?;
    put_number(alloc, out, b" size ", u64::from(def.size))?;
    put_number(alloc, out, b" depth ", u64::from(def.depth))?;
    put(out, b"\n")
}

fn put_object(out: &mut Vec<u8>, what: &Load) -> Result<(), AllocError>
    ensures { OnOk result (out.new.items ≡ out.old.items ++ object_text (said_object what.now)) }
{
    match what {
        Load::Block(bytes) => put_hex(out, bytes.as_slice()),
        Load::Mark => put(out, b"mark"),
    }
}

#[tactic(auto, unfolding(crate::specs::Writing::load_text))]
fn put_load(alloc: Global, out: &mut Vec<u8>, def: &LoadDef) -> Result<(), AllocError>
    ensures { OnOk result (out.new.items ≡ out.old.items ++ said_line (said_load def.now)) }
{
    put_number(alloc, out, b"load ", u64::from(def.target))?;
    put_number(alloc, out, b" ", u64::from(def.unit))?;
    put(out, b" ")?;
    put_object(out, &def.what)?;
    put(out, b"\n")
}

fn put_tag(alloc: Global, out: &mut Vec<u8>, tag: Tag) -> Result<(), AllocError>
    ensures { OnOk result (out.new.items ≡ out.old.items ++ tag_text (said_tag tag)) }
{
    match tag {
        Tag::Untagged => put(out, b"untagged"),
        Tag::Simple(n) => put_number(alloc, out, b"simple ", u64::from(n)),
        Tag::Ordered(n) => put_number(alloc, out, b"ordered ", u64::from(n)),
        Tag::Head(n) => put_number(alloc, out, b"head ", u64::from(n)),
    }
}

fn put_payload(out: &mut Vec<u8>, payload: &Payload) -> Result<(), AllocError>
    ensures { OnOk result (out.new.items ≡ out.old.items ++ payload_text (said_payload payload.now)) }
{
    match payload {
        Payload::Nothing => put(out, b"none"),
        Payload::Hex(bytes) => {
            put(out, b"out hex ")?;
            put_hex(out, bytes.as_slice())
        }
        Payload::From(first) => {
            put(out, b"out from ")?;
            put(out, &byte_text(*first))
        }
    }
}

#[tactic(auto, unfolding(crate::specs::Writing::cmd_tag_text))]
fn put_cmd_tag(alloc: Global, out: &mut Vec<u8>, def: &CmdDef) -> Result<(), AllocError>
    ensures { OnOk result (out.new.items ≡ out.old.items ++ cmd_tag_text (cmd_form def.now)) }
{
    put(out, b" ")?;
    put_tag(alloc, out, def.tag)?;
    put(out, b" cdb ")?;
    put_hex(out, def.cdb.as_slice())?;
    put(out, b" ")?;
    put_payload(out, &def.payload)
}

#[tactic(auto, unfolding(crate::specs::Writing::cmd_text))]
fn put_cmd(alloc: Global, out: &mut Vec<u8>, def: &CmdDef) -> Result<(), AllocError>
    ensures { OnOk result (out.new.items ≡ out.old.items ++ said_line (said_cmd def.now)) }
{
    put_number(alloc, out, b"cmd ", u64::from(def.host))?;
    put_number(alloc, out, b" ", u64::from(def.target))?;
    put_number(alloc, out, b" ", u64::from(def.unit))?;
    put_number(alloc, out, b" at ", def.at)?;
    put_cmd_tag(alloc, out, def)?;
    put(out, b"\n")
}

fn put_what(alloc: Global, out: &mut Vec<u8>, what: AbortKind) -> Result<(), AllocError>
    ensures { OnOk result (out.new.items ≡ out.old.items ++ what_text (said_what what)) }
{
    match what {
        AbortKind::All => put(out, b"all"),
        AbortKind::Tag(n) => put_number(alloc, out, b"tag ", u64::from(n)),
        AbortKind::WholeQueue => put(out, b"queue"),
        AbortKind::Device => put(out, b"device"),
    }
}

#[tactic(auto, unfolding(crate::specs::Writing::abort_text))]
fn put_abort(alloc: Global, out: &mut Vec<u8>, def: &AbortDef) -> Result<(), AllocError>
    ensures { OnOk result (out.new.items ≡ out.old.items ++ said_line (said_abort def.now)) }
{
    put_number(alloc, out, b"abort ", u64::from(def.host))?;
    put_number(alloc, out, b" ", u64::from(def.target))?;
    put_number(alloc, out, b" ", u64::from(def.unit))?;
    put_number(alloc, out, b" at ", def.at)?;
    put(out, b" ")?;
    put_what(alloc, out, def.what)?;
    put(out, b"\n")
}

#[tactic(auto, unfolding(crate::specs::Writing::reset_text))]
fn put_reset(alloc: Global, out: &mut Vec<u8>, def: &ResetDef) -> Result<(), AllocError>
    ensures { OnOk result (out.new.items ≡ out.old.items ++ said_line (said_reset def.now)) }
{
    put_number(alloc, out, b"reset ", u64::from(def.dev))?;
    put_number(alloc, out, b" at ", def.at)?;
    put(out, b"\n")
}

#[tactic(auto, unfolding(crate::specs::Writing::fault_text))]
fn put_fault(alloc: Global, out: &mut Vec<u8>, def: &FaultDef) -> Result<(), AllocError>
    ensures { OnOk result (out.new.items ≡ out.old.items ++ said_line (said_fault def.now)) }
{
    put_number(alloc, out, b"fault at ", def.at)?;
    put_number(alloc, out, b" bit ", u64::from(def.bit))?;
    put(out, b"\n")
}

fn put_hosts(
    alloc: Global,
    out: &mut Vec<u8>,
    version: u8,
    defs: &[HostDef],
) -> Result<(), AllocError>
    ensures { OnOk result (out.new.items ≡ out.old.items ++ flat_map said_line (map (said_host version) defs.now)) }
{
    for def in defs {
        put_host(alloc, out, version, def)?;
    }
    Ok(())
}

fn put_targets(
    alloc: Global,
    out: &mut Vec<u8>,
    version: u8,
    defs: &[TargetDef],
) -> Result<(), AllocError>
    ensures { OnOk result (out.new.items ≡ out.old.items ++ flat_map said_line (map (said_target version) defs.now)) }
{
    for def in defs {
        put_target(alloc, out, version, def)?;
    }
    Ok(())
}

fn put_units(alloc: Global, out: &mut Vec<u8>, defs: &[UnitDef]) -> Result<(), AllocError>
    ensures { OnOk result (out.new.items ≡ out.old.items ++ flat_map said_line (map said_unit defs.now)) }
{
    for def in defs {
        put_unit(alloc, out, def)?;
    }
    Ok(())
}

fn put_fills(alloc: Global, out: &mut Vec<u8>, defs: &[FillDef]) -> Result<(), AllocError>
    ensures { OnOk result (out.new.items ≡ out.old.items ++ flat_map said_line (map said_fill defs.now)) }
{
    for def in defs {
        put_fill(alloc, out, def)?;
    }
    Ok(())
}

fn put_tapes(alloc: Global, out: &mut Vec<u8>, defs: &[TapeDef]) -> Result<(), AllocError>
    ensures { OnOk result (out.new.items ≡ out.old.items ++ flat_map said_line (map said_tape defs.now)) }
{
    for def in defs {
        put_tape(alloc, out, def)?;
    }
    Ok(())
}

fn put_loads(alloc: Global, out: &mut Vec<u8>, defs: &[LoadDef]) -> Result<(), AllocError>
    ensures { OnOk result (out.new.items ≡ out.old.items ++ flat_map said_line (map said_load defs.now)) }
{
    for def in defs {
        put_load(alloc, out, def)?;
    }
    Ok(())
}

fn put_cmds(alloc: Global, out: &mut Vec<u8>, defs: &[CmdDef]) -> Result<(), AllocError>
    ensures { OnOk result (out.new.items ≡ out.old.items ++ flat_map said_line (map said_cmd defs.now)) }
{
    for def in defs {
        put_cmd(alloc, out, def)?;
    }
    Ok(())
}

fn put_aborts(alloc: Global, out: &mut Vec<u8>, defs: &[AbortDef]) -> Result<(), AllocError>
    ensures { OnOk result (out.new.items ≡ out.old.items ++ flat_map said_line (map said_abort defs.now)) }
{
    for def in defs {
        put_abort(alloc, out, def)?;
    }
    Ok(())
}

fn put_resets(alloc: Global, out: &mut Vec<u8>, defs: &[ResetDef]) -> Result<(), AllocError>
    ensures { OnOk result (out.new.items ≡ out.old.items ++ flat_map said_line (map said_reset defs.now)) }
{
    for def in defs {
        put_reset(alloc, out, def)?;
    }
    Ok(())
}

fn put_faults(alloc: Global, out: &mut Vec<u8>, defs: &[FaultDef]) -> Result<(), AllocError>
    ensures { OnOk result (out.new.items ≡ out.old.items ++ flat_map said_line (map said_fault defs.now)) }
{
    for def in defs {
        put_fault(alloc, out, def)?;
    }
    Ok(())
}

// What happens: commands, aborts, resets and faults.
fn put_events(alloc: Global, out: &mut Vec<u8>, s: &Scenario) -> Result<(), AllocError>
    ensures { OnOk result (out.new.items ≡ out.old.items ++ flat_map said_line (events_of s.now)) }
{
    put_cmds(alloc, out, &s.commands)?;
    put_aborts(alloc, out, &s.aborts)?;
    put_resets(alloc, out, &s.resets)?;
    put_faults(alloc, out, &s.faults)
}

// All lines but the first and the last.
fn put_body(alloc: Global, out: &mut Vec<u8>, s: &Scenario) -> Result<(), AllocError>
    ensures { OnOk result (out.new.items ≡ out.old.items ++ flat_map said_line (body_of s.now)) }
{
    put_hosts(alloc, out, s.version, &s.hosts)?;
    put_targets(alloc, out, s.version, &s.targets)?;
    put_units(alloc, out, &s.units)?;
    put_fills(alloc, out, &s.fills)?;
    put_tapes(alloc, out, &s.tapes)?;
    put_loads(alloc, out, &s.loads)?;
    put_events(alloc, out, s)
}

/// The text of a scenario: its lines in the order of their kinds, none of them skipped.
pub fn print(alloc: Global, s: &Scenario) -> Result<Vec<u8>, NoMemory>
    ensures { IfOk result (λ v. v.items ≡ text_of s.now) }
{
    let mut out = Vec::new(alloc);
    put_scsi(&mut out, s.version)?;
    put_body(alloc, &mut out, s)?;
    put(&mut out, b"end\n")?;
    Ok(out)
}
