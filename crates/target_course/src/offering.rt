//! What the target of a connection has to do in the phase: whether a byte follows, and how long it waits before it
//! leaves the phase (ANSI X3.131-1994, 6.1.5, 6.1.9).
ghost use Rattle.std.specs.Prelude.{ℕ, ◌≡◌, ◌<◌, ◌^◌, List};
ghost use Rattle.due_model.specs.dialogue_model.specs.Ends.{seek_before, follows_by};
ghost use Rattle.target_course.specs.Servings.{serving_with};

use crate::data_runs::run_length_if;
use crate::next_phase::{phase_of, waits_seek};
use crate::phase_bytes::follows_in;
use crate::serving::Serving;
use bus_base::Ns;
use bus_lines::Handshakes;
use bus_trace::{Lines, is_command};

/// How long the target of a connection waits before it leaves the phase of these lines.
pub fn seek_before(serving: &Serving, bus: Lines) -> Ns
    ensures exact { (given : List ℕ) → result ≡ seek_before (serving_with serving.now given) bus }
    ensures bound { result < 2 ^ 62 }
{
    if is_command(bus) && waits_seek(&serving.plan, serving.arrival) {
        Ns::from(serving.def.seek)
    } else {
        0
    }
}

/// Whether a byte follows in the phase of these lines; a data run of pulses has one for each REQ.
pub fn follows_by(serving: &Serving, pulsed: bool, bus: Lines, handshakes: &Handshakes) -> bool
    ensures { (given : List ℕ) → result ≡ follows_by (serving_with serving.now given) pulsed bus handshakes.now }
{
    if pulsed {
        handshakes.requests() < run_length_if(serving.def.disc, &serving.task)
    } else {
        follows_in(serving, handshakes, bus.atn(), phase_of(bus))
    }
}
