//! When the process of a connection gives bytes, and whose a connection is.
ghost use Rattle.std.specs.Prelude.{◌≡◌, ◌<◌, ◌&&◌, ◌∷◌, true, List, Some};
ghost use Rattle.bus_trace.specs.declared.Row.{Row};
ghost use Rattle.bus_trace.specs.Terms.{connection};
ghost use Rattle.bus_trace.specs.Trace.{bus};
ghost use Rattle.bus_lines.specs.BusView.{IsBusViewOf};
ghost use Rattle.due_model.specs.dialogue_model.specs.Hearing.{begun};
ghost use Rattle.due_model.specs.dialogue_model.specs.NextPhase.{phase_of};
ghost use Rattle.due_model.specs.dialogue_model.specs.Observer.{IsObserverOf};
ghost use Rattle.target_course.specs.Courses.{name_of};
ghost use Rattle.target_course.specs.States.{IsReadyWithin};
ghost use Rattle.target_course.specs.declared.course.Name.{Name as NameValue};
ghost use Rattle.disk_target.specs.Bytes.{status_in, gives_data, own_in, are_own, IsOwnIf, StandsInOwn};

use bus_base::Dev;
use bus_lines::BusView;
use bus_trace::{Change, Connection};
use disk_unit::Reply;
use due_model::the_dialogue_model::{Next, Observer, Phase};
use target_course::the_target_units::Ready;
use target_course::{Course, phase_of};

/// The status of a reply.
pub fn status_in(reply: Option<Reply>) -> Option<u8>
    ensures { result ≡ status_in reply }
{
    match reply {
        None => None,
        Some(reply) => Some(reply.status),
    }
}

/// Whether the bytes that the process gives are driven in this phase, or as it is left (6.1.6, 6.6).
pub fn gives_data(phase: Phase, next: Next) -> bool
    ensures { result ≡ gives_data phase next }
{
    match phase {
        Phase::DataIn => true,
        Phase::MessageIn => matches!(next, Next::GoOn),
        Phase::MessageOut | Phase::Command | Phase::Status | Phase::DataOut => false,
    }
}

/// The same for the phase that stands, of a connection in which it has heard this; false before the first phase.
pub fn gives_now(observer: &Observer, course: &Course) -> bool
    ensures { (rows : List Row) → IsObserverOf rows observer.now
        → result ≡ (begun rows && gives_data (phase_of (bus rows)) course.now.plan.next) }
{
    let gives = gives_data(phase_of(observer.view().bus()), course.plan().next);
    observer.begun() && gives
}

/// The connection that stands, where this is its target and RST is false.
pub fn own_connection(view: &BusView, dev: Dev) -> Option<Connection>
    ensures value { result ≡ own_in view.now.connection view.now.lines.present.rst dev }
    ensures trace { (rows : List Row) → IsBusViewOf rows view.now → IsOwnIf rows dev result }
{
    match view.connection() {
        Some(connection) if connection.target.get() == dev && !view.bus().rst() => Some(connection),
        _ => None,
    }
}

/// The connection that stood before the last row.
pub fn connection_before(view: &BusView) -> Option<Connection>
    ensures value { result ≡ view.now.effect.before }
    ensures trace { (rows : List Row) (row : Row) → IsBusViewOf (row ∷ rows) view.now → result ≡ connection rows }
{
    view.effect().before
}

/// The connection that stood before the last row, where this was its target and RST was false.
pub fn own_before(view: &BusView, dev: Dev) -> Option<Connection>
    ensures { (rows : List Row) (row : Row) → IsBusViewOf (row ∷ rows) view.now → IsOwnIf rows dev result }
{
    let effect = view.effect();
    match effect.before {
        Some(connection) if connection.target.get() == dev && !effect.change.before.rst() => {
            Some(connection)
        }
        _ => None,
    }
}

// These connections stood before a row that changed this, and stand after it.
fn are_own(
    before: &Option<Connection>,
    after: &Option<Connection>,
    change: &Change,
    dev: Dev,
) -> bool
    ensures { result ≡ are_own before.now after.now change.now dev }
{
    match (before, after) {
        (Some(before), Some(_)) => before.target.get() == dev && !change.before.rst(),
        _ => false,
    }
}

/// Whether a connection stood before the last row, where this was its target and RST was false, and one stands after
/// it.
pub fn stands_in_own(view: &BusView, dev: Dev) -> bool
    ensures { (rows : List Row) (row : Row) → IsBusViewOf (row ∷ rows) view.now → result ≡ true
        → StandsInOwn rows row dev }
{
    let effect = view.effect();
    are_own(&effect.before, &effect.after, &effect.change, dev)
}

/// The unit of the process of a connection, once that is named; 0 before.
pub fn unit_named(course: &Course) -> u8
    ensures small { result < 8 }
    ensures named { (name : NameValue) → course.now.named ≡ Some name → name.unit < 8 → result ≡ name.unit }
{
    match course.name() {
        Some(name) if name.unit < 8 => name.unit,
        _ => 0,
    }
}

/// A unit that is ready before 2^63 ns, as all times of a run are.
pub fn bounded(ready: Option<Ready>) -> Option<Ready>
    ensures bound { IsReadyWithin result }
    ensures same { IsReadyWithin ready → result ≡ ready }
{
    match ready {
        Some(ready) if ready.time < 1 << 63 && ready.unit < 8 => Some(ready),
        _ => None,
    }
}
