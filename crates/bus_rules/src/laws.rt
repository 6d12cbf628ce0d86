//! What the definitions of the judge mean, each law named by the contract of a function that does nothing.
ghost use Rattle.std.specs.Prelude.{ℕ, ◌≡◌, ◌↔◌, List, Some, None};
ghost use Rattle.bus_trace.specs.declared.Row.{Row};
ghost use Rattle.bus_rules.specs.declared.verdict.Verdict.TheVariants.{Lawful, Broken};
ghost use Rattle.bus_rules.specs.Rules.{obeys, obeys_at_end, broken_rule, broken_at_end, judged_whole};
ghost use Rattle.bus_rules.specs.Lawful.{KeepsAll, IsLowest, IsLawful, IsFirst};

/// The broken rule of a row, or of the end, is the lowest of those that are judged, and there is none exactly
/// where all are kept.
pub fn broken_rules_are_lowest()
    ensures row { (rows : List Row) (row : Row) (rule : ℕ) → broken_rule rows row ≡ Some rule
        → IsLowest (obeys rows row) rule }
    ensures none { (rows : List Row) (row : Row) → (broken_rule rows row ≡ None) ↔ KeepsAll (obeys rows row) }
    ensures end { (rows : List Row) (time rule : ℕ) → broken_at_end rows time ≡ Some rule
        → IsLowest (obeys_at_end rows time) rule }
    ensures none_at_end { (rows : List Row) (time : ℕ)
        → (broken_at_end rows time ≡ None) ↔ KeepsAll (obeys_at_end rows time) }
{}

/// A verdict tells the first row that breaks a rule, and none exactly where the trace is lawful. The newest
/// row stands first.
pub fn verdicts_are_first()
    ensures lawful { (rows : List Row) (end : ℕ) → (judged_whole rows end ≡ Lawful) ↔ IsLawful rows end }
    ensures broken { (rows : List Row) (end place rule : ℕ) → judged_whole rows end ≡ Broken place rule
        → IsFirst rows end place rule }
{}
