//! What a judge says.

use std::fmt;

/// The number of a rule, 1 to 28.
pub type RuleNo = u8;

/// What a judge says of a trace.
#[derive(Clone, Copy, Debug, PartialEq, Eq)]
pub enum Verdict {
    /// Every row, and the end, obeys every rule.
    Lawful,
    /// The first row that breaks a rule, counted from 1, with the lowest rule that it breaks. The end
    /// counts as one row more.
    Broken { row: usize, rule: RuleNo },
}

impl fmt::Display for Verdict {
    ghost use Rattle.std.specs.Prelude.{Some};
    ghost use Rattle.bus_rules.specs.VerdictText.{verdict_text};

    ghost output = { λ verdict. Some (verdict_text verdict) };

    fn fmt<W: fmt::Write>(&self, f: &mut fmt::Formatter<W>) -> fmt::Result {
        match *self {
            Verdict::Lawful => f.write_str("lawful"),
            Verdict::Broken { row, rule } => write!(f, "row {row} breaks rule {rule}"),
        }
    }
}
