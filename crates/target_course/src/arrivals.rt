//! What becomes of a command as it arrives (ANSI X3.131-1994, 6.6.6, 7.8).
ghost use Rattle.std.specs.Prelude.{◌≡◌};
ghost use Rattle.due_model.specs.dialogue_model.specs.Arrivals.{is_never, arrival_in, arrival_by};

use due_model::the_dialogue_model::{Arrival, Room};
use scenario::Policy;

fn is_never(policy: Policy) -> bool
    ensures { result ≡ is_never policy }
{
    matches!(policy, Policy::Never)
}

fn arrival_in(policy: Policy, room: Room) -> Arrival
    ensures { result ≡ arrival_in policy room }
{
    if room.full {
        Arrival::Refused
    } else if is_never(policy) && room.idle {
        Arrival::AtOnce
    } else {
        Arrival::Queued
    }
}

/// What becomes of a command as it arrives at a target of this policy, by the room of its unit, if that is there;
/// `senses` says that it is a REQUEST SENSE. One of those, and any command to a unit that is not there, stays outside
/// the queue; at a full queue it is refused; of a target that never disconnects it runs at once at an idle unit.
pub fn arrival_by(policy: Policy, senses: bool, room: Option<Room>) -> Arrival
    ensures { result ≡ arrival_by policy senses room }
{
    match room {
        None => Arrival::Guest,
        Some(_) if senses => Arrival::Guest,
        Some(room) => arrival_in(policy, room),
    }
}
