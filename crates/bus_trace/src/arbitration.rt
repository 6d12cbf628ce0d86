//! Arbitration (ANSI X3.131-1994, 6.1.2).
ghost use Rattle.std.specs.Prelude.{◌≡◌};
ghost use Rattle.bus_trace.specs.Terms.{is_free, arbitration_after};

use crate::changes::Change;
use crate::line_set::Lines;
use crate::rows::Row;
use bus_base::Ns;

/// An arbitration that stands.
#[derive(Clone, Copy)]
pub struct Arbitration {
    /// Since when the bus had been free before it, in ns.
    pub free: Ns,
    /// The time of its first entry, in ns.
    pub first: Ns,
}

/// Whether BSY, SEL and RST are all false.
fn is_free(lines: Lines) -> bool
    ensures { result ≡ is_free lines }
{
    !(lines.bsy() || lines.sel() || lines.rst())
}

/// The arbitration after a row, on a bus that was free since `free` where none stood.
pub fn arbitration_after(
    old: Option<Arbitration>,
    free: Ns,
    change: &Change,
    row: &Row,
) -> Option<Arbitration>
    ensures { result ≡ arbitration_after old free change.now row.now }
{
    match old {
        None => {
            if is_free(change.before) && change.after.bsy() && !change.after.sel() {
                Some(Arbitration {
                    free,
                    first: row.time,
                })
            } else {
                None
            }
        }
        Some(arbitration) => {
            if change.after.sel() || is_free(change.after) {
                None
            } else {
                Some(arbitration)
            }
        }
    }
}

/// The same in place. Where no arbitration stands and BSY is true before the row, none begins.
pub fn see_arbitration(arbitration: &mut Option<Arbitration>, free: Ns, change: &Change, row: &Row)
    ensures { arbitration.new ≡ arbitration_after arbitration.old free change.now row.now }
{
    if arbitration.is_some() || !change.before.bsy() {
        *arbitration = arbitration_after(*arbitration, free, change, row);
    }
}
