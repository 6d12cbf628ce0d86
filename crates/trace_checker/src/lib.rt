//! A judge of traces of any length, with no memory.
//!
//! A [`Judge`] takes the rows of a trace one by one, and holds nothing but the running terms of the rules.
//! It stands on `bus_rules`, `bus_trace` and `bus_base`. Its contract: after any rows [`Judge::feed`] tells
//! the first that broke a rule with the lowest rule that it broke, and [`Judge::finish`] the same of the
//! trace with its end; both are what `judge_plain` of `bus_rules` tells of all rows at once.
#![tactic(auto)]

ghost use Rattle.std.specs.Prelude.{◌≡◌, ◌<◌, ◌∷◌, ◌^◌, [], List, length};
ghost use Rattle.bus_trace.specs.declared.Row.{Row};
ghost use Rattle.bus_rules.specs.Rules.{judged, judged_whole, verdict_of, if_lawful};

mod saved;

use bus_base::Ns;
pub use bus_rules::Verdict;
use bus_rules::{RuleNo, Terms, end_row, lowest_at_end};
pub use bus_trace::{Kind, Lines, Row};
pub use saved::{SavedJudge, SavedVerdict};

/// A judge of the rows of a trace so far.
///
/// # Examples
///
/// With the trait `bitflags::Flags`, by which [`Lines`] are made of their bits:
///
/// ```rust
/// let mut judge = Judge::new();
/// // Device 7 enters an arbitration as soon as it may.
/// let mut row = Row {
///     time: 1200,
///     dev: 7,
///     kind: Kind::Drives(Lines::from_bits_retain(0x280)),
/// };
/// assert!(rt; judge.feed(&row) == Verdict::Lawful);
/// // At 1300 it drives what it drove already.
/// row.time = 1300;
/// assert!(rt; judge.feed(&row) == Verdict::Broken { row: 2, rule: 2 });
/// assert!(rt; judge.finish(1300) == Verdict::Broken { row: 2, rule: 2 });
/// ```
#[derive(Drop)]
pub struct Judge {
    terms: Terms,
    count: usize,
    verdict: Verdict,
}

// A verdict, if none was given before; the row's place is counted from 1.
fn joined(old: Verdict, broken: Option<RuleNo>, row: usize) -> Verdict
    ensures { result ≡ if_lawful old (verdict_of row broken) }
{
    match (old, broken) {
        (Verdict::Broken { .. }, _) => old,
        (Verdict::Lawful, None) => Verdict::Lawful,
        (Verdict::Lawful, Some(rule)) => Verdict::Broken { row, rule },
    }
}

impl Judge {
    ghost use Rattle.trace_checker.specs.Judging.{IsJudgeOf};
    ghost use Rattle.trace_checker.specs.Saved.{judge_in};

    /// A judge that has seen no row.
    pub fn new() -> Judge
        ensures { IsJudgeOf [] result }
    {
        Judge {
            terms: Terms::new(),
            count: 0,
            verdict: Verdict::Lawful,
        }
    }

    /// The judge as plain words.
    pub fn saved(&self) -> SavedJudge
        ensures { judge_in result ≡ self.now }
    {
        SavedJudge {
            terms: self.terms.saved(),
            count: self.count as u64,
            verdict: SavedVerdict::of(self.verdict),
        }
    }

    /// The judge that plain words say.
    pub fn restored(saved: &SavedJudge) -> Judge
        ensures { result ≡ judge_in saved.now }
    {
        Judge {
            terms: Terms::restored(&saved.terms),
            count: saved.count as usize,
            verdict: saved.verdict.get(),
        }
    }

    /// The verdict on the rows so far.
    pub fn verdict(&self) -> Verdict
        ensures { (rows : List Row) → IsJudgeOf rows self.now → result ≡ judged rows }
    {
        self.verdict
    }

    /// Takes one row more, and tells nothing.
    #[inline(always)]
    pub fn take(&mut self, row: &Row)
        requires { row.now.dev < 8 }
        ensures { (rows : List Row) → IsJudgeOf rows self.old → length rows < 2 ^ 63
            → IsJudgeOf (row.now ∷ rows) self.new }
    {
        let broken = self.terms.judge(row);
        self.count = self.count.saturating_add(1);
        if broken.is_some() {
            self.verdict = joined(self.verdict, broken, self.count);
        }
    }

    /// Takes one row more: the verdict on the rows so far. A broken verdict stays.
    pub fn feed(&mut self, row: &Row) -> Verdict
        requires { row.now.dev < 8 }
        ensures kept { (rows : List Row) → IsJudgeOf rows self.old → length rows < 2 ^ 63
            → IsJudgeOf (row.now ∷ rows) self.new }
        ensures verdict { (rows : List Row) → IsJudgeOf rows self.old → length rows < 2 ^ 63
            → result ≡ judged (row.now ∷ rows) }
    {
        self.take(row);
        self.verdict
    }

    /// The verdict on the whole trace with its end, in ns, which counts as one row more.
    pub fn finish(self, end: Ns) -> Verdict
        ensures { (rows : List Row) → IsJudgeOf rows self → length rows < 2 ^ 63 → result ≡ judged_whole rows end }
    {
        let row = end_row(end);
        let mut terms = self.terms;
        let seen = terms.step(&row);
        joined(
            self.verdict,
            lowest_at_end(&seen, end),
            self.count.saturating_add(1),
        )
    }
}
