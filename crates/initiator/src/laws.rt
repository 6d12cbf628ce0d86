// Laws of an initiator, each named by the contract of a function that does nothing.
ghost use Rattle.std.specs.Prelude.{ℕ, ◌≡◌, ◌<◌, ◌==◌, false, List, ◌∷◌, Option, Some, None};
ghost use Rattle.bus_trace.specs.declared.Row.{Row};
ghost use Rattle.scenario.specs.declared.value.FaultDef.{FaultDef};
ghost use Rattle.scenario.specs.declared.value.HostDef.{HostDef};
ghost use Rattle.scenario.specs.Value.{ScenarioValue};
ghost use Rattle.due_model.specs.Next.{due};
ghost use Rattle.due_model.specs.Plain.{AreOfDevices};
ghost use Rattle.due_model.specs.RunSteps.{run_state};
ghost use Rattle.due_model.specs.Wants.{ready_of};
ghost use Rattle.due_model.specs.dialogue_model.specs.Exchange.{Speech};
ghost use Rattle.due_model.specs.dialogue_model.specs.Sending.{Sending};
ghost use Rattle.due_model.specs.Sights.{sending_of};
ghost use Rattle.initiator_books.specs.scsi_device.specs.Itself.{ItselfValue, IsItselfOf};
ghost use Rattle.initiator_books.specs.Intents.{IntentValue, IsIntentOf};
ghost use Rattle.initiator_books.specs.scsi_device.specs.Told.{told, first_fault};
ghost use Rattle.initiator.specs.States.{AreSameBytes, InitiatorState, IsOwnConnection, IsInitiatorOf, IsHostOf, IsNoTarget, state_by};
ghost use Rattle.initiator_books.specs.scsi_device.specs.NoUnits.{HasNoUnit};
ghost use Rattle.initiator.specs.Dues.{initiator_next};
ghost use Rattle.initiator.specs.Speeches.{first_words, speech_at};
ghost use Rattle.bus_trace.specs.declared.connection.Connection.{Connection};
ghost use Rattle.bus_trace.specs.Terms.{connection};
ghost use Rattle.due_model.specs.dialogue_model.specs.Exchange.{no_speech, speech_of};
ghost use Rattle.due_model.specs.dialogue_model.specs.Speaking.{speech_after};
ghost use Rattle.due_model.specs.dialogue_model.specs.Hearing.{hearing};
ghost use Rattle.due_model.specs.Defs.{host_of};

use due_model::{end_reactions_are_due, hearings_are_plain, kept_is_plain};
use initiator_books::the_scsi_device::devices_know_enough;

/// What is due of an initiator is what it does next by what all devices are told, by what it knows itself, and by the
/// first fault that has not struck yet.
pub fn dues_are_of_initiators()
    ensures { (s : ScenarioValue) (rows : List Row) (h : HostDef) (i : InitiatorState) (f : Option FaultDef)
        → IsHostOf s h → AreOfDevices rows → IsNoTarget s rows h.dev → IsInitiatorOf s rows h i
        → f ≡ first_fault (run_state s rows).faults
        → due s rows h.dev ≡ initiator_next h (told rows h.dev) f i }
{
    end_reactions_are_due();
    kept_is_plain();
    devices_know_enough();
}

/// What the initiator of a connection says goes on by what each row tells it (`Speech::hear`), whatever the rows of the
/// eight devices are, and begins with its opening; after a reselection it has nothing to say yet.
pub fn speeches_are_heard()
    ensures more { (s : ScenarioValue) (rows : List Row) (row : Row) (m n : Connection) → AreOfDevices (row ∷ rows)
        → connection rows ≡ Some m → connection (row ∷ rows) ≡ Some n
        → speech_at s (row ∷ rows) ≡ speech_after (host_of s n.initiator) (hearing rows row) (speech_at s rows) }
    ensures first { (s : ScenarioValue) (rows : List Row) (row : Row) (n : Connection) → AreOfDevices (row ∷ rows)
        → connection rows ≡ None → connection (row ∷ rows) ≡ Some n
        → speech_at s (row ∷ rows) ≡ speech_of no_speech (first_words s rows n) }
{
    kept_is_plain();
    hearings_are_plain();
}

/// What an initiator knows itself is what its parts keep: of its own rows ([`Itself`](scsi_device::Itself)), of what it
/// wants ([`Intent`](crate::Intent)), and, in a connection of its own, of what it says and what it sends.
pub fn initiators_are_their_parts()
    ensures { (s : ScenarioValue) (rows : List Row) (h : HostDef) (v : ItselfValue) (w : IntentValue)
        (speech : Speech) (sending : Sending) → AreOfDevices rows → h.dev < 8 → v.dev ≡ h.dev → w.dev ≡ h.dev
        → IsItselfOf s rows v → IsIntentOf s rows w
        → ((n : Connection) → IsOwnConnection rows h.dev n → speech ≡ speech_at s rows)
        → ((n : Connection) → IsOwnConnection rows h.dev n → AreSameBytes sending (sending_of s (run_state s rows)))
        → IsInitiatorOf s rows h (state_by v w speech sending) }
{}

/// No process is ever ready at a device of which the scenario has no unit, whatever the rows are (`ready`); so where no
/// connection stands of which it is the target, it is no target (`no_target`).
pub fn initiators_have_no_unit()
    ensures ready { (s : ScenarioValue) (rows : List Row) (dev : ℕ) → HasNoUnit s dev
        → ready_of s (run_state s rows) dev ≡ None }
    ensures no_target { (s : ScenarioValue) (rows : List Row) (dev : ℕ) → HasNoUnit s dev
        → ((n : Connection) → connection rows ≡ Some n → (n.target == dev) ≡ false)
        → IsNoTarget s rows dev }
{}
