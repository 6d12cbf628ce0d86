//! The reply of the process that the target of a connection serves, once it has one (ANSI X3.131-1994, 7.3).
ghost use Rattle.std.specs.Prelude.{ℕ, ◌≡◌, true, false, List, ◌∷◌, None};
ghost use Rattle.bus_trace.specs.declared.Row.{Row};
ghost use Rattle.bus_trace.specs.declared.connection.Connection.{Connection};
ghost use Rattle.bus_trace.specs.Terms.{connection};
ghost use Rattle.bus_trace.specs.Trace.{bus};
ghost use Rattle.scenario.specs.Value.{ScenarioValue};
ghost use Rattle.array_model.specs.Execution.{queue_full, aborted_reply};
ghost use Rattle.array_model.specs.SoundArray.{HasSeats};
ghost use Rattle.disk_unit.specs.Units.{told_of, planned_reply};
ghost use Rattle.due_model.specs.Allowed.{allowed};
ghost use Rattle.due_model.specs.Plain.{AreOfDevices};
ghost use Rattle.due_model.specs.Telling.{telling};
ghost use Rattle.target_units.specs.scsi_device.specs.Heard.{heard};
ghost use Rattle.target_course.specs.Courses.{events_of_target};
ghost use Rattle.target_course.specs.Replies.{reply_if, reply_after, IsReplyOf, IsOutlookAt};
ghost use Rattle.target_course.specs.Shown.{shown_list};
ghost use Rattle.target_course.specs.States.{IsOwnConnection};

use crate::events::Shown;
use bus_base::Event;
use disk_unit::{Plan, Reply, aborted_reply, planned_reply, refusal};
use due_model::{hearings_are_plain, kept_is_plain};

fn reply_with(was: Option<Reply>, event: Option<Event>, plan: &Plan) -> Option<Reply>
    ensures { result ≡ reply_if plan.now event was }
{
    match event {
        Some(Event::Run(_)) => Some(planned_reply(*plan)),
        Some(Event::Fail(_, code)) => Some(aborted_reply(code)),
        Some(Event::Refuse(_)) => Some(refusal()),
        _ => was,
    }
}

fn reply_by(was: Option<Reply>, shown: &Shown, plan: &Plan) -> Option<Reply>
    ensures { result ≡ reply_after plan.now (shown_list shown.now) was }
{
    reply_with(reply_with(was, shown.event, plan), shown.second, plan)
}

/// The reply of the process that the target serves in a connection of its own, after it showed this with a row; it was
/// this one before, and `plan` says how the command would end. None while it has none.
pub fn reply_after(was: Option<Reply>, shown: &Shown, plan: &Plan) -> Option<Reply>
    ensures exact { result ≡ reply_after plan.now (shown_list shown.now) was }
    ensures trace { (s : ScenarioValue) (rows : List Row) (row : Row) (m : Connection) (dev : ℕ)
        → AreOfDevices (row ∷ rows) → HasSeats s → IsOwnConnection rows dev m → (bus rows).rst ≡ false
        → telling s (row ∷ rows) ≡ true → allowed s (row ∷ rows) ≡ true
        → shown_list shown.now ≡ events_of_target s rows row m → IsOutlookAt s rows (shown_list shown.now) plan.now
        → IsReplyOf s rows dev was → IsReplyOf s (row ∷ rows) dev result }
{
    kept_is_plain();
    hearings_are_plain();
    reply_by(was, shown, plan)
}

/// As a connection begins, the process that its target serves has no reply.
pub fn replies_come_later()
    ensures { (s : ScenarioValue) (rows : List Row) (row : Row) (dev : ℕ) → AreOfDevices (row ∷ rows)
        → connection rows ≡ None → heard s (row ∷ rows) ≡ true → IsReplyOf s (row ∷ rows) dev None }
{
    kept_is_plain();
}
