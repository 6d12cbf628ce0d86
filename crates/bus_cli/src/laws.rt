//! The law of the words `vcd` and `unvcd`.
ghost use Rattle.std.specs.Prelude.{ℕ, ◌≡◌, List, Ok};
ghost use Rattle.std.specs.List.{AllByRecursion};
ghost use Rattle.bus_trace.specs.declared.rows.Row.{Row};
ghost use Rattle.vcd_text.specs.DumpText.{dump_text};
ghost use Rattle.vcd_text.specs.Reading.{vcd_of};
ghost use Rattle.bus_cli.specs.Vcd.{IsLawful, IsOfLines};

/// What `vcd` writes of a lawful trace without a fault says that trace: `unvcd` reads the same rows and end.
pub fn lawful_dumps_read_back()
    ensures { (bytes : List ℕ) (rows : List Row) (end : ℕ) → IsLawful bytes rows end → AllByRecursion IsOfLines rows
        → vcd_of (dump_text rows end) ≡ Ok (rows, end) }
{}
