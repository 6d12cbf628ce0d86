//! The law of dumps: what was written is read again.
ghost use Rattle.std.specs.Prelude.{ℕ, ◌≡◌, ◌<◌, ◌≤◌, ◌^◌, List, reverse, Ok};
ghost use Rattle.bus_trace.specs.declared.Row.{Row};
ghost use Rattle.bus_trace.specs.Trace.{last_time};
ghost use Rattle.vcd_text.specs.DumpText.{dump_text};
ghost use Rattle.vcd_text.specs.Reading.{vcd_of};
ghost use Rattle.vcd_text.specs.Readable.{AreChanges};

/// A dump says the rows and the end that it was written for, where each row is one of lines that differ from what its
/// device drove, and times do not fall.
pub fn dumps_read_back()
    ensures { (rows : List Row) (end : ℕ) → AreChanges (reverse rows) → last_time (reverse rows) ≤ end → end < 2 ^ 63
        → vcd_of (dump_text rows end) ≡ Ok (rows, end) }
{}
