//! The verdict on rows that are kept.
ghost use Rattle.std.specs.Prelude.{◌≡◌, reverse};
ghost use Rattle.std.specs.List.{AllByRecursion};
ghost use Rattle.bus_trace.specs.OfTrace.{IsRow};
ghost use Rattle.bus_rules.specs.Rules.{judged_whole};

use bus_base::Ns;
use bus_rules::Verdict;
use row_store::RowStore;
use trace_checker::Judge;

/// The verdict on these rows and this end, in ns.
pub fn judged(rows: &RowStore, end: Ns) -> Verdict
    requires { AllByRecursion IsRow rows.now }
    ensures { result ≡ judged_whole (reverse rows.now) end }
{
    let mut judge = Judge::new();
    for row in rows.iter() {
        judge.take(&row);
    }
    judge.finish(end)
}
