//! The blocks that were filled, in a set, and how many objects were loaded on each tape, so that no line is compared
//! with all those before it.
ghost use Rattle.std.specs.Prelude.{◌≡◌, ◌==◌, ◌<◌, ◌+◌, ◌-◌, ◌*◌, ◌^◌, ◌∷◌, [], ◌++◌, List, OnOk};
ghost use Rattle.std.specs.List.{list_any};
ghost use Rattle.scenario.specs.declared.value.FillDef.{FillDef};
ghost use Rattle.scenario.specs.declared.value.LoadDef.{LoadDef};
ghost use Rattle.scenario.specs.Lookups.{has_fill, loads_at};
ghost use Rattle.scenario.specs.Index.{block_number, IsIndexOf, IsCountOf};

use crate::value::{FillDef, LoadDef, Scenario};
use std::alloc::AllocError;
use std::collections::BTreeSet;

// Where a unit stands among all units.
fn place(target: u8, unit: u8) -> usize
    requires target { target < 8 }
    requires unit { unit < 8 }
    ensures exact { result ≡ target * 8 + unit }
    ensures inside { result < 64 }
{
    usize::from(target) * 8 + usize::from(unit)
}

// The number of a block among those of all units, of which each has 2^32.
fn block_number(target: u8, unit: u8, lba: u32) -> u64
    requires target { target < 8 }
    requires unit { unit < 8 }
    ensures exact { result ≡ block_number target unit lba }
    ensures low { lba < 2 ^ 32 }
{
    place(target, unit) as u64 * (1 << 32) + u64::from(lba)
}

// Whether the set has the number. Most texts fill blocks in rising order, and the greatest number tells then.
fn has_number(blocks: &BTreeSet<u64>, number: u64) -> bool
    ensures { result ≡ list_any (λ k. k == number) blocks.now.keys }
{
    match blocks.last() {
        Some(last) if *last < number => false,
        _ => blocks.contains(&number),
    }
}

/// Whether the block was filled.
pub(crate) fn is_filled(blocks: &BTreeSet<u64>, target: u8, unit: u8, lba: u64) -> bool
    requires target { target < 8 }
    requires unit { unit < 8 }
    ensures { (fills : List FillDef) → IsIndexOf blocks.now fills → result ≡ has_fill fills target unit lba }
{
    if lba > u64::from(u32::MAX) {
        return false;
    }
    has_number(blocks, block_number(target, unit, lba as u32))
}

/// One fill more.
pub(crate) fn add_fill(
    scenario: &mut Scenario,
    blocks: &mut BTreeSet<u64>,
    def: FillDef,
) -> Result<(), AllocError>
    requires target { def.target < 8 }
    requires unit { def.unit < 8 }
    ensures added { OnOk result (scenario.new ≡ record scenario.old { fills = scenario.old.fills ++ def ∷ [] }) }
    ensures index { OnOk result (IsIndexOf blocks.old scenario.old.fills → IsIndexOf blocks.new scenario.new.fills) }
{
    blocks.insert(block_number(def.target, def.unit, def.lba))?;
    scenario.add_fill(def)?;
    Ok(())
}

/// How many objects were loaded there.
pub(crate) fn loads_at(loaded: &[u32; 64], target: u8, unit: u8) -> u32
    requires target { target < 8 }
    requires unit { unit < 8 }
    ensures { (loads : List LoadDef) → IsCountOf loaded.now loads → result ≡ loads_at loads target unit }
{
    loaded[place(target, unit)]
}

/// One object more.
pub(crate) fn add_load(
    scenario: &mut Scenario,
    loaded: &mut [u32; 64],
    def: LoadDef,
) -> Result<(), AllocError>
    requires target { def.target < 8 }
    requires unit { def.unit < 8 }
    requires count { IsCountOf loaded.old scenario.old.loads }
    requires room { loads_at scenario.old.loads def.target def.unit < 2 ^ 32 - 1 }
    ensures added { OnOk result (scenario.new ≡ record scenario.old { loads = scenario.old.loads ++ def ∷ [] }) }
    ensures count { OnOk result (IsCountOf loaded.new scenario.new.loads) }
{
    loaded[place(def.target, def.unit)] += 1;
    scenario.add_load(def)?;
    Ok(())
}
