//! The judge of a whole trace.
ghost use Rattle.std.specs.Prelude.{◌≡◌, ◌<◌, ◌+◌, length, reverse, take, slice_get, IfSome};
ghost use Rattle.std.specs.List.{AllByRecursion};
ghost use Rattle.bus_trace.specs.OfTrace.{IsRow};
ghost use Rattle.bus_rules.specs.Rules.{broken_rule, broken_at_end, judged_whole};
ghost use Rattle.bus_rules.specs.Seen.{seen, end_row};

use crate::rules::{lowest_at_end, lowest_broken};
use crate::seen::Seen;
use crate::terms::Terms;
use crate::verdict::{RuleNo, Verdict};
use bus_base::Ns;
use bus_trace::{Kind, Row};

/// The end as a row of its time, in ns, that changes nothing.
pub fn end_row(time: Ns) -> Row
    ensures { result ≡ end_row time }
{
    Row {
        time,
        dev: 0,
        kind: Kind::Fault(0),
    }
}

/// The first row that breaks a rule with the lowest rule that it breaks. The end, in ns, counts as one row
/// more.
pub fn judge_plain(rows: &[Row], end: Ns) -> Verdict
    requires { AllByRecursion IsRow rows.now }
    ensures { result ≡ judged_whole (reverse rows.now) end }
{
    let mut terms = Terms::new();
    for (i, row) in rows.iter().enumerate() {
        if let Some(rule) = terms.judge(row) {
            return Verdict::Broken { row: i + 1, rule };
        }
    }
    let seen = terms.step(&end_row(end));
    match lowest_at_end(&seen, end) {
        Some(rule) => Verdict::Broken {
            row: rows.len() + 1,
            rule,
        },
        None => Verdict::Lawful,
    }
}

/// The lowest rule that row `k`, counted from 0, breaks after the rows before it.
pub fn broken(rows: &[Row], k: usize) -> Option<RuleNo>
    requires rows { AllByRecursion IsRow rows.now }
    requires inside { k < length rows.now }
    ensures { IfSome (slice_get rows.now k) (λ row. result ≡ broken_rule (reverse (take k rows.now)) row) }
{
    let seen = seen_after(&rows[..k], &rows[k]);
    lowest_broken(&seen, &rows[k])
}

/// The lowest rule that the end of a trace, in ns, breaks.
pub fn broken_end(rows: &[Row], end: Ns) -> Option<RuleNo>
    requires { AllByRecursion IsRow rows.now }
    ensures { result ≡ broken_at_end (reverse rows.now) end }
{
    let seen = seen_after(rows, &end_row(end));
    lowest_at_end(&seen, end)
}

// What a row meets after these rows.
fn seen_after(rows: &[Row], row: &Row) -> Seen
    requires rows { AllByRecursion IsRow rows.now }
    requires device { row.now.dev < 8 }
    ensures { result ≡ seen (reverse rows.now) row.now }
{
    let mut terms = Terms::new();
    for row in rows {
        let _ = terms.step(row);
    }
    terms.step(row)
}
