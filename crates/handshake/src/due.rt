// What an end of a connection does next, by the view of the bus.
ghost use Rattle.std.specs.Prelude.{◌≡◌, ◌^◌, List};
ghost use Rattle.bus_trace.specs.declared.rows.Row.{Row};
ghost use Rattle.bus_trace.specs.Trace.{last_time};
ghost use Rattle.bus_lines.specs.Handshakes.{handshakes};
ghost use Rattle.bus_lines.specs.BusView.{IsBusViewOf};
ghost use Rattle.bus_lines.specs.Timely.{IsTimely};
ghost use Rattle.reaction_model.specs.Sight.{sight};
ghost use Rattle.reaction_model.specs.Ends.{plain_due, hand_due};
ghost use Rattle.handshake.specs.Bounds.{IsReady, IsSteady, IsHandBefore};

use crate::initiator::initiator_due_at;
use crate::situation::Situation;
use crate::target::target_due_at;
use bus_lines::BusView;
use bus_trace::Kind;
use reaction_model::{Due, Hand, Myself, Pace, sight_of};

fn plain_due(begun: bool, at: &Situation<'_>, hand: &Hand) -> Option<Due>
    requires { IsHandBefore hand.now }
    ensures { result ≡ plain_due begun at.now.view at.now.handshakes at.now.me at.now.pace hand.now }
{
    match hand {
        Hand::Initiator(answering) => initiator_due_at(begun, at, answering),
        Hand::Target(offering) => target_due_at(begun, at, offering),
    }
}

/// What an end of a connection does next (6.1.5): nothing where it waits. `begun` says that the first phase of the
/// connection has begun. `flip` is the bit, 0 to 8, that a fault strikes of a byte that it received in the last row: it
/// tells that first, at the time of that row.
pub fn hand_due(
    begun: bool,
    view: &BusView,
    me: &Myself,
    pace: &Pace,
    hand: &Hand,
    flip: Option<u8>,
) -> Option<Due>
    requires timely { IsTimely (2 ^ 63) view.now }
    requires ready { IsReady me.now }
    requires steady { IsSteady pace.now }
    requires hand { IsHandBefore hand.now }
    ensures exact { (rows : List Row) → IsBusViewOf rows view.now →
        result ≡ hand_due begun (last_time rows) flip (sight rows) (handshakes rows) me.now pace.now hand.now }
{
    if let Some(bit) = flip {
        return Some(Due {
            time: view.last_time(),
            kind: Kind::Fault(bit),
        });
    }
    let seen = sight_of(view);
    let at = Situation {
        view: &seen,
        handshakes: view.handshakes(),
        me,
        pace,
    };
    plain_due(begun, &at, hand)
}
