//! The rows of a dump.
ghost use Rattle.std.specs.Prelude.{◌≡◌, ◌<◌, [], reverse, OnOk};
ghost use Rattle.std.specs.List.{AllByRecursion};
ghost use Rattle.bus_trace.specs.OfTrace.{IsRow};
ghost use Rattle.vcd_text.specs.Steps.{with_change};

use bus_base::{Dev, Ns};
use bus_trace::{Kind, Lines, Row};
use row_store::RowStore;
use std::alloc::{AllocError, Global};
use std::marker::Model;

/// Rows of lines, and what each device drives after them. In the clauses the newest row stands first.
#[derive(Drop)]
pub(crate) struct DrivenRows {
    rows: RowStore,
    driven: [Lines; 8],
}

impl Model for DrivenRows {
    ghost use Rattle.std.specs.Prelude.{ℕ, List, reverse, ◌≡◌, ◌<◌};
    ghost use Rattle.bus_trace.specs.declared.rows.Row.{Row};
    ghost use Rattle.bus_trace.specs.Trace.{drives};
    ghost use Rattle.bus_trace.specs.View.{driven_at};
    ghost use Rattle.bus_trace.specs.OfTrace.{IsRow};
    ghost use Rattle.std.specs.List.{AllByRecursion};

    ghost Value = { List Row };

    ghost view = { λ a. reverse a.rows };

    ghost invariant = { λ a. ((dev : ℕ) → dev < 8 → driven_at a.driven dev ≡ drives (reverse a.rows) dev)
        × AllByRecursion IsRow a.rows };
}

impl DrivenRows {
    pub(crate) fn new(alloc: Global) -> DrivenRows
        ensures { result ≡ [] }
    {
        DrivenRows {
            rows: RowStore::new(alloc),
            driven: [Lines::none(); 8],
        }
    }

    /// At this time the device drives these lines: a row more, where it is a change.
    pub(crate) fn set(&mut self, time: Ns, dev: Dev, lines: Lines) -> Result<(), AllocError>
        requires { dev < 8 }
        ensures { OnOk result (self.new ≡ with_change self.old time dev lines) }
    {
        if self.driven[dev as usize].same(lines) {
            return Ok(());
        }
        self.rows.push(&Row {
            time,
            dev,
            kind: Kind::Drives(lines),
        })?;
        self.driven[dev as usize] = lines;
        Ok(())
    }

    /// The rows, the oldest first.
    pub(crate) fn into_rows(self) -> RowStore
        ensures rows { result ≡ reverse self }
        ensures named { AllByRecursion IsRow result }
    {
        self.rows
    }
}
