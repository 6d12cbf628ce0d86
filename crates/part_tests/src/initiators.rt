//! Tests of `initiator`: what it wants over a selection and the end of a command, and what it says.

ghost use Rattle.std.specs.Prelude.{◌<◌};

use crate::driven_rows::drive;
use bus_base::{Event, ProcId};
use bus_lines::BusView;
use bus_trace::Row;
use initiator::{Intent, OwnItem, Speech, process_opening};
use scenario::{HostDef, Tag, read};
use scsi_device::Itself;
use std::test::Fail;

// Two untagged commands at one unit, an abort and a reset.
const TEXT: &str = "scsi 1
initiator 7 latency 0 open 2 retries 1 sync 50 8 lag 0
target 0 latency 0 retries 2 disc never pick first seek 0 sync 0 0
unit 0 0 blocks 2 size 16 depth 2
cmd 7 0 0 at 0 untagged cdb 080000000100 none
cmd 7 0 0 at 5000 untagged cdb 080000000100 none
abort 7 0 0 at 20000 all
reset 7 at 30000
end
";

// One row more, which shows these events.
fn tell(view: &mut BusView, intent: &mut Intent, row: &Row, shown: &[Event])
    requires { row.now.dev < 8 }
{
    view.step(row);
    intent.see(view, row, shown);
}

// Initiator 7 enters arbitration, wins, and selects target 0, which answers.
fn select(view: &mut BusView, intent: &mut Intent) {
    tell(view, intent, &drive(1200, 7, 0x00280), [].as_slice());
    tell(view, intent, &drive(3600, 7, 0x00680), [].as_slice());
    tell(view, intent, &drive(4800, 7, 0x10781), [].as_slice());
    tell(view, intent, &drive(4890, 7, 0x10581), [].as_slice());
    tell(view, intent, &drive(5300, 0, 0x00200), [].as_slice());
}

#[test]
fn wants_its_commands_in_order(rt: HostRuntime) -> Result<(), Fail> {
    let scenario = read(rt.alloc(), TEXT.as_bytes())
        .ok()
        .ok_or("it is a text")?;
    assert!(rt; scenario.commands.len() < 0xffff);
    assert!(rt; scenario.aborts.len() < 0xffff);
    let itself = Itself::new(rt.alloc(), &scenario, 7)?;
    assert!(rt; itself.reset() == Some(30000));
    let mut view = BusView::new();
    let mut intent = Intent::new(rt.alloc(), &scenario, 7, 1)?;
    assert!(rt; intent.since() == Some(0));
    assert!(rt; intent.callee().is_none());
    select(&mut view, &mut intent);
    assert!(rt; matches!(intent.aim(), Some(OwnItem::Command(1))));
    assert!(rt; intent.callee() == Some(0));
    assert!(rt; intent.since() == Some(0));
    // The connection begins. Beside an untagged command no other may be open at its unit, so the abort comes next.
    tell(
        &mut view,
        &mut intent,
        &drive(5390, 7, 0x10000),
        [].as_slice(),
    );
    assert!(rt; intent.since() == Some(20000));
    let id = ProcId {
        command: 1,
        sense: false,
    };
    let row = drive(5400, 0, 0x02a00);
    tell(&mut view, &mut intent, &row, [Event::End(id, 2)].as_slice());
    // It ended with CHECK CONDITION: its REQUEST SENSE is sent before the second command.
    assert!(rt; intent.since() == Some(0));
    Ok(())
}

#[test]
fn says_its_opening(rt: HostRuntime) {
    let host = HostDef {
        dev: 7,
        latency: 0,
        most: 2,
        retries: 1,
        period: 50,
        offset: 8,
        lag: 0,
        offers: true,
    };
    let words = process_opening(&host, true, false, 2, Tag::Simple(3));
    assert!(rt; words.as_slice() == [0xc2, 0x20, 3, 1, 3, 1, 50, 8].as_slice());
    let mut speech = Speech::new();
    speech.say(words.as_slice());
    assert!(rt; speech.next_word() == 0xc2);
    assert!(rt; speech.attends());
    let sense = process_opening(&host, false, true, 2, Tag::Untagged);
    assert!(rt; sense.as_slice() == [0x82].as_slice());
    speech.say(sense.as_slice());
    assert!(rt; !speech.attends());
}
