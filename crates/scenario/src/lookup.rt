//! The line of an initiator, of a target, of a unit and of a tape.
ghost use Rattle.std.specs.Prelude.{◌≡◌, ◌==◌, ◌&&◌, ◌++◌, map};
ghost use Rattle.std.specs.Option.{option_or, option_map};
ghost use Rattle.std.specs.List.{find};
ghost use Rattle.scenario.specs.declared.value.UnitDef.{UnitDef};
ghost use Rattle.scenario.specs.declared.value.TapeDef.{TapeDef};
ghost use Rattle.scenario.specs.Lookups.{tape_unit};

use crate::value::{HostDef, TapeDef, TargetDef, UnitDef};
use bus_base::Dev;

/// The line of an initiator, where these have one.
pub fn host_line(hosts: &[HostDef], dev: Dev) -> Option<HostDef>
    ensures { result ≡ find (λ (h : HostDef). h.dev == dev) hosts.now }
{
    for def in hosts {
        if def.dev == dev {
            return Some(*def);
        }
    }
    None
}

/// The line of a target, where these have one.
pub fn target_line(targets: &[TargetDef], dev: Dev) -> Option<TargetDef>
    ensures { result ≡ find (λ (t : TargetDef). t.dev == dev) targets.now }
{
    for def in targets {
        if def.dev == dev {
            return Some(*def);
        }
    }
    None
}

/// The line of a disk of a target, where these have one.
pub fn unit_line(units: &[UnitDef], target: u8, unit: u8) -> Option<UnitDef>
    ensures { result ≡ find (λ u. u.target == target && u.unit == unit) units.now }
{
    for def in units {
        if def.target == target && def.unit == unit {
            return Some(*def);
        }
    }
    None
}

/// The line of a tape of a target, where these have one.
pub fn tape_line(tapes: &[TapeDef], target: u8, unit: u8) -> Option<TapeDef>
    ensures { result ≡ find (λ (t : TapeDef). t.target == target && t.unit == unit) tapes.now }
{
    for def in tapes {
        if def.target == target && def.unit == unit {
            return Some(*def);
        }
    }
    None
}

/// A tape as a unit: its objects count as blocks.
pub fn tape_unit(tape: &TapeDef) -> UnitDef
    ensures { result ≡ tape_unit tape.now }
{
    UnitDef {
        target: tape.target,
        unit: tape.unit,
        blocks: u64::from(tape.objects),
        size: tape.size,
        depth: tape.depth,
    }
}

fn first_of(unit: Option<UnitDef>, tape: Option<TapeDef>) -> Option<UnitDef>
    ensures { result ≡ option_or unit (option_map tape_unit tape) }
{
    if let Some(def) = unit {
        return Some(def);
    }
    match tape {
        Some(tape) => Some(tape_unit(&tape)),
        None => None,
    }
}

/// The unit of a target, where these have one: its line as a disk, or its line as a tape, with its objects as blocks.
pub fn unit_or_tape(units: &[UnitDef], tapes: &[TapeDef], target: u8, unit: u8) -> Option<UnitDef>
    ensures { result ≡ find (λ (u : UnitDef). u.target == target && u.unit == unit)
        (units.now ++ map tape_unit tapes.now) }
{
    first_of(
        unit_line(units, target, unit),
        tape_line(tapes, target, unit),
    )
}
