//! Tests of `bus_rules` and `trace_checker`: one arbitration, before the judge of whole traces and, row by row,
//! before the other. The kernel computes more traces in `proofs/RuleCases.antt` of `bus_cases`.

use crate::driven_rows::drive;
use bus_rules::{Verdict, broken, broken_end, judge_plain};
use trace_checker::Judge;

#[test]
fn judges_an_arbitration(rt: HostRuntime) {
    // Device 6 loses, and has a bus clear delay of 800 ns to leave.
    let rows = [
        drive(1200, 7, 0x280),
        drive(1200, 6, 0x240),
        drive(3600, 7, 0x680),
        drive(4401, 6, 0),
    ];
    let late = Verdict::Broken { row: 4, rule: 7 };
    assert!(rt; judge_plain(&rows, 4401) == late);
    assert!(rt; judge_plain(&rows[..3], 4401) == late);
    assert!(rt; judge_plain(&rows[..3], 4400) == Verdict::Lawful);
    assert!(rt; broken(&rows, 3) == Some(7));
    assert!(rt; broken(&rows, 2) == None);
    assert!(rt; broken_end(&rows[..3], 4401) == Some(7));
    assert!(rt; broken_end(&rows[..3], 4400) == None);
    let mut judge = Judge::new();
    assert!(rt; judge.feed(&rows[0]) == Verdict::Lawful);
    assert!(rt; judge.feed(&rows[1]) == Verdict::Lawful);
    assert!(rt; judge.feed(&rows[2]) == Verdict::Lawful);
    assert!(rt; judge.feed(&rows[3]) == late);
    assert!(rt; judge.finish(4401) == late);
}
