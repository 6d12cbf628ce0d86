//! The outcome of a command of an initiator's own (ANSI X3.131-1994, 7.3 and 8.2.14).
ghost use Rattle.std.specs.Prelude.{ℕ, ◌≡◌, List, true};
ghost use Rattle.scenario.specs.Value.{ScenarioValue};
ghost use Rattle.story_model.specs.Outcomes.{sense_in};
ghost use Rattle.story_model.specs.Story.{Story};
ghost use Rattle.initiator_books.specs.Endings.{IsEndOf};
ghost use Rattle.initiator.specs.Outcomes.{is_settled_by, is_settled, outcome_by_status, outcome_by, outcome_after, told_outcome_if, are_replies, settled_outcome};

use bus_base::Octets;
use cdb_codec::{GOOD, QUEUE_FULL, Sense, sense_of_data};
use initiator_books::{CommandEnd, Ending};
use run_record::Outcome;

// The sense that the bytes of sense data name, if any came (8.2.14).
fn sense_in(bytes: &[u8]) -> Option<Sense>
    ensures { result ≡ sense_in bytes.now }
{
    if bytes.is_empty() {
        return None;
    }
    Some(sense_of_data(bytes))
}

fn is_settled_by(ending: Ending, sensed: bool, over: bool) -> bool
    ensures { result ≡ is_settled_by ending sensed over }
{
    match ending {
        Ending::Status(status) => status == GOOD || status == QUEUE_FULL || sensed || over,
        Ending::Loss | Ending::Reset | Ending::Abort | Ending::Unanswered => true,
    }
}

/// Whether the outcome of a command that ended so is known: it has ended, and after CHECK CONDITION its automatic
/// REQUEST SENSE has ended too, or is over without an end.
pub fn is_settled(end: CommandEnd, sense_over: bool) -> bool
    ensures { result ≡ is_settled end sense_over }
{
    match end.ending {
        None => false,
        Some(ending) => is_settled_by(ending, end.sense_ended, sense_over),
    }
}

fn outcome_by_status(status: u8, sensed: bool, bytes: Octets, sense: &[u8]) -> Outcome
    ensures { result ≡ outcome_by_status status sensed bytes sense.now }
{
    if status == GOOD {
        Outcome::Good(bytes)
    } else if status == QUEUE_FULL {
        Outcome::QFull
    } else if sensed {
        Outcome::Check(sense_in(sense))
    } else {
        Outcome::Check(None)
    }
}

fn outcome_by(ending: Ending, sensed: bool, bytes: Octets, sense: &[u8]) -> Outcome
    ensures { result ≡ outcome_by ending sensed bytes sense.now }
{
    match ending {
        Ending::Status(status) => outcome_by_status(status, sensed, bytes, sense),
        Ending::Loss => Outcome::Lost,
        Ending::Reset => Outcome::Reset,
        Ending::Abort => Outcome::Aborted,
        Ending::Unanswered => Outcome::SelTimeout,
    }
}

fn outcome_after(end: CommandEnd, sense_over: bool, bytes: Octets, sense: &[u8]) -> Option<Outcome>
    ensures { result ≡ outcome_after end sense_over bytes sense.now }
{
    if !is_settled(end, sense_over) {
        return None;
    }
    let Some(ending) = end.ending else {
        return None;
    };
    Some(outcome_by(ending, end.sense_ended, bytes, sense))
}

/// The outcome of a command by how it ended, whether its automatic REQUEST SENSE is over, the bytes that came to it,
/// and those that came to its automatic REQUEST SENSE. None until it is known ([`is_settled`]). It takes no memory.
pub fn command_outcome(
    end: CommandEnd,
    sense_over: bool,
    bytes: Octets,
    sense: &[u8],
) -> Option<Outcome>
    ensures exact { result ≡ outcome_after end sense_over bytes sense.now }
    ensures trace { (s : ScenarioValue) (b : Story) (n : ℕ) → IsEndOf b n end
        → are_replies s b n end bytes sense.now ≡ true
        → told_outcome_if result ≡ settled_outcome s b n end sense_over }
{
    outcome_after(end, sense_over, bytes, sense)
}
