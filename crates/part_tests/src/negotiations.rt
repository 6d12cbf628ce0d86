//! Tests of `sync_nego`: two ends that negotiate, and the answers.

use bus_trace::Agreement;
use msg_grammar::{MsgIn, MsgOut};
use sync_nego::Nego;

fn agreement(period: u8, offset: u8) -> Agreement {
    Agreement { period, offset }
}

#[test]
fn answers_a_request(rt: HostRuntime) {
    for (own, heard, want) in [
        ((50u8, 8u8), (50u8, 8u8), Some((50u8, 8u8))),
        ((80, 16), (60, 4), Some((80, 4))),
        ((60, 4), (80, 16), Some((80, 4))),
        ((0, 0), (50, 8), Some((50, 0))),
        ((50, 8), (60, 0), Some((60, 0))),
        ((50, 8), (50, 255), None),
    ] {
        let answer = Nego::answer(&agreement(own.0, own.1), &agreement(heard.0, heard.1));
        match (answer, want) {
            (Some(a), Some((period, offset))) => assert!(rt; a == agreement(period, offset)),
            (None, None) => {}
            (Some(_), None) | (None, Some(_)) => panic!(rt; "own {own:?}, heard {heard:?}"),
        }
    }
}

#[test]
fn offers_until_settled(rt: HostRuntime) {
    let mut nego = Nego::new(agreement(50, 8));
    assert!(rt; nego.agreed() == agreement(0, 0));
    assert!(rt; nego.offer() == Some(MsgOut::Sdtr(agreement(50, 8))));
    assert!(rt; nego.request() == Some(MsgIn::Sdtr(agreement(50, 8))));
    nego.settle(Some(agreement(80, 4)));
    assert!(rt; nego.agreed() == agreement(80, 4));
    assert!(rt; nego.offer() == None);
    nego.again();
    assert!(rt; nego.agreed() == agreement(0, 0));
    assert!(rt; nego.offer() == Some(MsgOut::Sdtr(agreement(50, 8))));
    // It is rejected.
    nego.settle(None);
    assert!(rt; nego.agreed() == agreement(0, 0));
    assert!(rt; nego.offer() == None);
}

#[test]
fn offers_no_more_once_cleared(rt: HostRuntime) {
    let mut nego = Nego::new(agreement(50, 8));
    nego.clear();
    assert!(rt; nego.offer() == None);
    assert!(rt; nego.request() == None);
    assert!(rt; nego.agreed() == agreement(0, 0));
    assert!(rt; Nego::new(agreement(0, 8)).offer() == None);
}
