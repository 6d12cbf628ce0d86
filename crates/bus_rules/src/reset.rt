//! Rule 28: the reset condition (ANSI X3.131-1994, 6.2.2).
ghost use Rattle.std.specs.Prelude.{◌≡◌};
ghost use Rattle.bus_rules.specs.Reset.{is_reset, raises_rst_alone, is_quiet_in_reset, holds_reset, keeps_reset};

use crate::seen::Seen;
use bus_base::Ns;
use bus_trace::{BUS_CLEAR_DELAY, Lines, RESET_HOLD_TIME, Row, falls, is_within, rises};

/// Whether RST is true, or rises in this row.
pub fn is_reset(seen: &Seen) -> bool
    ensures { result ≡ is_reset seen.now }
{
    seen.change.before.rst() || seen.change.after.rst()
}

fn raises_rst_alone(seen: &Seen) -> bool
    ensures { result ≡ raises_rst_alone seen.now }
{
    let change = &seen.change;
    !(change.before.rst() || rises(change.own.rst(), change.next.rst()))
        || change.raises_only(Lines::RST)
}

/// The latest time of rule 28: where RST has been true for longer than a bus clear delay no other line is.
pub fn is_quiet_in_reset(seen: &Seen, time: Ns) -> bool
    ensures { result ≡ is_quiet_in_reset seen.now time }
{
    let bus = seen.change.before;
    !bus.rst()
        || (time.saturating_sub(seen.times.rst) <= BUS_CLEAR_DELAY || is_within(bus, Lines::RST))
}

fn holds_reset(seen: &Seen, row: &Row) -> bool
    ensures { result ≡ holds_reset seen.now row.now }
{
    !falls(seen.change.own.rst(), seen.change.next.rst())
        || row.time.saturating_sub(seen.rst_raised) >= RESET_HOLD_TIME
}

/// Rule 28: RST rises alone, all other lines fall in time, and a device holds RST for a reset hold time.
pub fn keeps_reset(seen: &Seen, row: &Row) -> bool
    ensures { result ≡ keeps_reset seen.now row.now }
{
    raises_rst_alone(seen) && is_quiet_in_reset(seen, row.time) && holds_reset(seen, row)
}
