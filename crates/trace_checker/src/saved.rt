//! The judge as plain words, which can be copied, written to a file and read back. Any words say some judge.
//!
//! Rows are judged on these words as they stand.
ghost use Rattle.std.specs.Prelude.{true, false, ◌≡◌, ◌<◌, ◌∷◌, ◌^◌, List, length};
ghost use Rattle.bus_trace.specs.declared.Row.{Row};
ghost use Rattle.bus_trace.specs.Changes.{change_of};
ghost use Rattle.bus_rules.specs.DataRows.{standing_after, passes};
ghost use Rattle.bus_rules.specs.Rules.{judged};

use crate::{Verdict, joined};
use bus_rules::SavedTerms;
use bus_trace::{Row, byte_in, byte_word};

/// A verdict as plain words.
#[repr(C)]
#[derive(Clone, Copy)]
pub struct SavedVerdict {
    /// Whether a row broke a rule.
    pub is_broken: u64,
    /// The row, counted from 1.
    pub row: u64,
    /// The lowest rule that it broke.
    pub rule: u64,
}

impl SavedVerdict {
    ghost use Rattle.trace_checker.specs.Saved.{verdict_in};

    /// Saves a verdict.
    pub fn of(verdict: Verdict) -> SavedVerdict
        ensures { verdict_in result ≡ verdict }
    {
        match verdict {
            Verdict::Lawful => SavedVerdict {
                is_broken: 0,
                row: 0,
                rule: 0,
            },
            Verdict::Broken { row, rule } => SavedVerdict {
                is_broken: 1,
                row: row as u64,
                rule: byte_word(rule),
            },
        }
    }

    /// The verdict that was saved.
    pub fn get(&self) -> Verdict
        ensures { result ≡ verdict_in self.now }
    {
        if self.is_broken == 0 {
            Verdict::Lawful
        } else {
            Verdict::Broken {
                row: self.row as usize,
                rule: byte_in(self.rule),
            }
        }
    }
}

/// A judge as plain words, which can be copied, written to a file and read back. Any words say some judge.
#[repr(C)]
#[derive(Clone, Copy)]
pub struct SavedJudge {
    /// The terms of the rules.
    pub terms: SavedTerms,
    /// How many rows it has seen.
    pub count: u64,
    /// Its verdict on them.
    pub verdict: SavedVerdict,
}

impl SavedJudge {
    ghost use Rattle.trace_checker.specs.Judging.{IsJudgeOf};
    ghost use Rattle.trace_checker.specs.Saved.{judge_in};

    /// The verdict on the rows so far.
    pub fn verdict(&self) -> Verdict
        ensures { (rows : List Row) → IsJudgeOf rows (judge_in self.now) → result ≡ judged rows }
    {
        self.verdict.get()
    }

    /// Takes one row more where it passes the short test of `bus_rules`, so that it breaks no rule, and tells whether
    /// it did. Most rows do. Any other changes nothing, and is for [`SavedJudge::feed`].
    #[inline(always)]
    pub fn pass(&mut self, row: &Row) -> bool
        requires { row.now.dev < 8 }
        ensures exact { (rows : List Row) → IsJudgeOf rows (judge_in self.old)
            → result ≡ passes (standing_after rows) (change_of rows row.now) row.now }
        ensures kept { (rows : List Row) → IsJudgeOf rows (judge_in self.old) → length rows < 2 ^ 63 → result ≡ true
            → IsJudgeOf (row.now ∷ rows) (judge_in self.new) }
        ensures other { result ≡ false → self.new ≡ self.old }
    {
        if self.terms.pass(row) {
            self.count = self.count.saturating_add(1);
            return true;
        }
        false
    }

    /// Takes one row more, by the rules.
    pub fn feed(&mut self, row: &Row)
        requires { row.now.dev < 8 }
        ensures { (rows : List Row) → IsJudgeOf rows (judge_in self.old) → length rows < 2 ^ 63
            → IsJudgeOf (row.now ∷ rows) (judge_in self.new) }
    {
        let broken = self.terms.judge(row);
        self.count = self.count.saturating_add(1);
        if broken.is_some() {
            let verdict = joined(self.verdict.get(), broken, self.count as usize);
            self.verdict = SavedVerdict::of(verdict);
        }
    }
}
