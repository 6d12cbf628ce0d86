//! Laws of the texts: a trace that is printed is read again.
ghost use Rattle.std.specs.Prelude.{ℕ, ◌≡◌, ◌<◌, ◌≤◌, ◌^◌, ◌++◌, List, length, Ok, codes};
ghost use Rattle.std.specs.List.{AllByRecursion};
ghost use Rattle.bus_trace.specs.declared.Row.{Row};
ghost use Rattle.run_record.specs.Value.{RunValue};
ghost use Rattle.trace_text.specs.declared.limit.TheConstants.{LIMIT as TRACE_LIMIT};
ghost use Rattle.trace_text.specs.RowText.{trace_text};
ghost use Rattle.trace_text.specs.ReportText.{report_text};
ghost use Rattle.trace_text.specs.Readable.{IsTraceRow};
ghost use Rattle.trace_text.specs.Whole.{trace_of};

/// The text of a trace says its rows and its end, by itself and where the line `history` and any bytes
/// follow it.
pub fn traces_read_back()
    ensures alone { (rows : List Row) (end : ℕ) → AllByRecursion IsTraceRow rows → end < 2 ^ 63
        → length (trace_text rows end) ≤ TRACE_LIMIT → trace_of (trace_text rows end) ≡ Ok (rows, end) }
    ensures followed { (rows : List Row) (end : ℕ) (rest : List ℕ) → AllByRecursion IsTraceRow rows → end < 2 ^ 63
        → length (trace_text rows end ++ (codes "history\n" ++ rest)) ≤ TRACE_LIMIT
        → trace_of (trace_text rows end ++ (codes "history\n" ++ rest)) ≡ Ok (rows, end) }
{}

/// The report of a run says the rows and the end of the run.
pub fn reports_read_back()
    ensures { (units tapes : List (ℕ × ℕ)) (run : RunValue) → AllByRecursion IsTraceRow run.rows → run.end < 2 ^ 63
        → length (report_text units tapes run) ≤ TRACE_LIMIT
        → trace_of (report_text units tapes run) ≡ Ok (run.rows, run.end) }
{}

/// A text that is read says rows that a trace can hold, and an end below 2^63.
pub fn reads_only()
    ensures { (bytes : List ℕ) (rows : List Row) (end : ℕ) → trace_of bytes ≡ Ok (rows, end)
        → AllByRecursion IsTraceRow rows × (end < 2 ^ 63) }
{}
