//! The bytes that the target gives, and how many bytes a phase has (ANSI X3.131-1994, 6.1.5, 6.1.9, 6.2.1).
ghost use Rattle.std.specs.Prelude.{ℕ, ◌≡◌, ◌<◌, List, slice_index_or, Some, length};
ghost use Rattle.msg_grammar.specs.Messages.{FitsIn, in_bytes};
ghost use Rattle.due_model.specs.dialogue_model.specs.Arrivals.{policy_of};
ghost use Rattle.due_model.specs.dialogue_model.specs.Exchange.{message_bytes, bytes_of_messages};
ghost use Rattle.due_model.specs.dialogue_model.specs.NextPhase.{phase_lines};
ghost use Rattle.due_model.specs.dialogue_model.specs.PhaseBytes.{status_byte, data_byte, phase_byte, has_whole_block, follows_in, lines_by, one_if};
ghost use Rattle.target_course.specs.Servings.{serving_with};
ghost use Rattle.target_course.specs.Fits.{FitsIf, AreFit};

use crate::data_runs::run_length_if;
use crate::plans::message_length;
use crate::serving::Serving;
use bus_lines::Handshakes;
use bus_trace::Lines;
use due_model::the_dialogue_model::{Leaving, Messages, Phase, Task};
use msg_grammar::{MsgIn, encode_in};

// The byte at this place of a message; 00 past the last one.
fn message_byte(message: Option<MsgIn>, place: u64) -> u8
    requires { FitsIf message }
    ensures { result ≡ slice_index_or (message_bytes message) place 0 }
{
    let Some(message) = message else {
        return 0;
    };
    let bytes = encode_in(&message);
    match bytes.as_slice().get(place as usize) {
        Some(byte) => *byte,
        None => 0,
    }
}

// The byte at this place of messages that are sent one after the other; 00 past the last one.
fn messages_byte(messages: &Messages, place: u64) -> u8
    requires { AreFit messages.now }
    ensures { result ≡ slice_index_or (bytes_of_messages messages.now) place 0 }
{
    let length = message_length(messages.first);
    if place < length {
        message_byte(messages.first, place)
    } else {
        message_byte(messages.second, place - length)
    }
}

// How many bytes they have.
fn messages_length(messages: &Messages) -> u64
    ensures { result ≡ length (bytes_of_messages messages.now) }
{
    message_length(messages.first) + message_length(messages.second)
}

fn status_byte(task: &Option<Task>) -> u8
    ensures { result ≡ status_byte task.now }
{
    match task {
        None => 0,
        Some(task) => task.status,
    }
}

/// The byte that the target gives at this place of a phase in which it sends these messages; `process_byte` is the one
/// that its process gives there, before which so many more data runs than yet are made.
pub fn phase_byte(
    serving: &Serving,
    phase: Phase,
    messages: &Messages,
    process_byte: u8,
    place: u64,
) -> u8
    requires { AreFit messages.now }
    ensures { (given : List ℕ) (more : ℕ)
        → process_byte ≡ data_byte (policy_of (Some serving.now.def)) serving.now.task given more place
        → result ≡ phase_byte (serving_with serving.now given) phase messages.now more place }
{
    match phase {
        Phase::MessageIn => messages_byte(messages, place),
        Phase::Status => status_byte(&serving.task),
        Phase::DataIn => process_byte,
        Phase::MessageOut | Phase::Command | Phase::DataOut => 0,
    }
}

fn has_whole_block(task: &Option<Task>) -> bool
    ensures { result ≡ has_whole_block task.now }
{
    match task {
        None => true,
        Some(task) => task.whole,
    }
}

/// Whether a byte follows in this phase, after so many REQ and ACK, where ATN is true or not.
pub fn follows_in(serving: &Serving, handshakes: &Handshakes, attention: bool, phase: Phase) -> bool
    ensures { (given : List ℕ) → result ≡ follows_in (serving_with serving.now given) handshakes.now attention phase }
{
    let requests = handshakes.requests();
    let answers = handshakes.answers();
    match phase {
        Phase::MessageOut => answers == 0 || attention || serving.plan.struck,
        Phase::MessageIn => {
            (requests == 0 || !attention) && requests < messages_length(&serving.plan.messages)
        }
        Phase::Command => !serving.plan.struck && !has_whole_block(&serving.task),
        Phase::Status => requests == 0,
        Phase::DataIn => requests < run_length_if(serving.def.disc, &serving.task),
        Phase::DataOut => answers < run_length_if(serving.def.disc, &serving.task),
    }
}

/// What the target drives in a phase beside its bytes: BSY and the phase lines (6.1.5).
pub fn phase_lines(phase: Phase) -> Lines
    ensures { result ≡ phase_lines phase }
{
    match phase {
        Phase::DataOut => Lines::BSY,
        Phase::DataIn => Lines::BSY.with(Lines::IO),
        Phase::Command => Lines::BSY.with(Lines::CD),
        Phase::Status => Lines::BSY.with(Lines::CD.with(Lines::IO)),
        Phase::MessageOut => Lines::BSY.with(Lines::MSG.with(Lines::CD)),
        Phase::MessageIn => Lines::BSY.with(Lines::MSG.with(Lines::CD.with(Lines::IO))),
    }
}

/// What it drives as it leaves a phase so: the lines of the next one, with its first byte where I/O, `io` before the
/// row, stays true. `process_byte` is the first byte of data that its process gives then.
pub fn lines_by(serving: &Serving, io: bool, leaving: &Leaving, process_byte: u8) -> Lines
    requires { AreFit leaving.now.messages }
    ensures { (given : List ℕ)
        → process_byte ≡ data_byte (policy_of (Some serving.now.def)) serving.now.task given (one_if leaving.now.done) 0
        → result ≡ lines_by (serving_with serving.now given) io leaving.now leaving.now.to }
{
    let Some(phase) = leaving.to else {
        return Lines::none();
    };
    let lines = phase_lines(phase);
    if io && lines.io() {
        lines.with_byte(phase_byte(serving, phase, &leaving.messages, process_byte, 0))
    } else {
        lines
    }
}
