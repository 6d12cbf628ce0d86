//! Rules 3 to 6: the free bus and arbitration (ANSI X3.131-1994, 6.1.1 and 6.1.2).
ghost use Rattle.std.specs.Prelude.{◌≡◌, ◌<◌};
ghost use Rattle.bus_trace.specs.Trace.{free_time};
ghost use Rattle.bus_rules.specs.FreeBus.{is_entry, is_contender, is_idle, keeps_off, is_cleared, keeps_free_bus, free_before, is_soon, enters_well, contends_well, keeps_arbitration, raises_sel, keeps_arbitration_delay, wins_well};

use crate::seen::Seen;
use bus_base::Ns;
use bus_trace::{
    ARBITRATION_DELAY, BUS_SET_DELAY, ENTRY_DELAY, Lines, QUIET_TIME, Row, is_within, rises,
};

// Whether the device raises BSY while SEL is false and no connection stands.
fn is_entry(seen: &Seen) -> bool
    ensures { result ≡ is_entry seen.now }
{
    let change = &seen.change;
    rises(change.own.bsy(), change.next.bsy()) && !change.before.sel() && seen.connection.is_none()
}

// Whether the device entered in the arbitration that stands and has not released BSY since.
fn is_contender(seen: &Seen) -> bool
    ensures { result ≡ is_contender seen.now }
{
    seen.arbitration.is_some() && seen.change.own.bsy()
}

fn is_idle(seen: &Seen) -> bool
    ensures { result ≡ is_idle seen.now }
{
    !seen.change.before.bsy() && !seen.change.before.sel()
}

fn keeps_off(seen: &Seen) -> bool
    ensures { result ≡ keeps_off seen.now }
{
    !is_idle(seen) || (seen.change.raises_none() || is_entry(seen))
}

/// The latest time of rule 3: no line but RST is true where BSY and SEL have been false for longer than a bus
/// clear delay and a bus settle delay.
pub fn is_cleared(seen: &Seen, time: Ns) -> bool
    ensures { result ≡ is_cleared seen.now time }
{
    let since = seen.times.bsy.max(seen.times.sel);
    !is_idle(seen)
        || (time.saturating_sub(since) <= QUIET_TIME || is_within(seen.change.before, Lines::RST))
}

/// Rule 3: while BSY and SEL are false a row only lowers lines or is an entry, and all lines are released in
/// time.
pub fn keeps_free_bus(seen: &Seen, row: &Row) -> bool
    ensures { result ≡ keeps_free_bus seen.now row.now }
{
    keeps_off(seen) && is_cleared(seen, row.time)
}

fn free_before(seen: &Seen) -> Ns
    ensures { result ≡ free_before (free_time seen.now.times) seen.now.arbitration }
{
    match seen.arbitration {
        None => seen.times.free(),
        Some(arbitration) => arbitration.free,
    }
}

fn is_soon(seen: &Seen, time: Ns) -> bool
    ensures { result ≡ is_soon seen.now.arbitration time }
{
    match seen.arbitration {
        None => true,
        Some(arbitration) => time.saturating_sub(arbitration.first) <= BUS_SET_DELAY,
    }
}

fn enters_well(seen: &Seen, row: &Row) -> bool
    requires { row.now.dev < 8 }
    ensures { result ≡ enters_well seen.now row.now }
{
    seen.change.own.is_none()
        && seen.change.next.same(Lines::BSY.with(Lines::id(row.dev)))
        && row.time.saturating_sub(free_before(seen)) >= ENTRY_DELAY
        && is_soon(seen, row.time)
}

fn contends_well(seen: &Seen) -> bool
    ensures { result ≡ contends_well seen.now }
{
    seen.change.next.is_none() || raises_sel(seen)
}

/// Rule 4: a device enters an arbitration as clause 6.1.2 says; otherwise a contender only releases all its
/// lines or raises SEL.
pub fn keeps_arbitration(seen: &Seen, row: &Row) -> bool
    requires { row.now.dev < 8 }
    ensures { result ≡ keeps_arbitration seen.now row.now }
{
    let enters = is_entry(seen);
    (!enters || enters_well(seen, row)) && (!(is_contender(seen) && !enters) || contends_well(seen))
}

fn raises_sel(seen: &Seen) -> bool
    ensures { result ≡ raises_sel seen.now }
{
    rises(seen.change.own.sel(), seen.change.next.sel())
}

/// Rule 5: a row that raises SEL is of a contender, at least an arbitration delay after its entry.
pub fn keeps_arbitration_delay(seen: &Seen, row: &Row) -> bool
    ensures { result ≡ keeps_arbitration_delay seen.now row.now }
{
    !raises_sel(seen)
        || (is_contender(seen) && row.time.saturating_sub(seen.bsy_raised) >= ARBITRATION_DELAY)
}

/// Rule 6: where a row raises SEL no higher ID is true, and it adds SEL alone.
pub fn wins_well(seen: &Seen, row: &Row) -> bool
    requires { row.now.dev < 8 }
    ensures { result ≡ wins_well seen.now row.now }
{
    !raises_sel(seen) || (!seen.change.before.has_id_above(row.dev) && seen.change.adds(Lines::SEL))
}
