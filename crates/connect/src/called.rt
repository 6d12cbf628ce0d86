// The devices that see another one call: the called device, and those that have lost (6.1.2 to 6.1.4).
ghost use Rattle.std.specs.Prelude.{◌≡◌, ◌<◌};
ghost use Rattle.reaction_model.specs.Calling.{answer_at, answer, is_called, called_due};
ghost use Rattle.reaction_model.specs.Reactions.{release_after};
ghost use Rattle.connect.specs.Ready.{IsReady, time_limit};

use bus_base::Ns;
use bus_trace::{BUS_SETTLE_DELAY, Calling, Kind, Lines};
use reaction_model::{Due, Myself, due_at};

/// The release of all lines, the latency of the device after this time: of one that has lost an arbitration, after SEL,
/// and of each under RST.
pub fn release(me: &Myself, time: Ns) -> Option<Due>
    requires ready { IsReady me.now }
    requires time { time < time_limit }
    ensures { result ≡ release_after time me.now }
{
    if me.own.is_none() {
        return None;
    }
    due_at(time + me.latency, Lines::none())
}

fn answer_at(time: Ns, flip: Option<u8>) -> Option<Due>
    ensures { result ≡ answer_at time flip }
{
    match flip {
        None => due_at(time, Lines::BSY),
        Some(bit) => Some(Due {
            time,
            kind: Kind::Fault(bit),
        }),
    }
}

fn answer(me: &Myself, bsy: Ns, flip: Option<u8>) -> Option<Due>
    requires ready { IsReady me.now }
    requires bsy { bsy < time_limit }
    ensures { result ≡ answer bsy me.now flip }
{
    answer_at(bsy + BUS_SETTLE_DELAY + me.latency, flip)
}

/// Whether this calling asks for an answer: its caller has released BSY, and still drives the IDs, and no fault has
/// struck the called device.
pub fn is_called(calling: &Calling) -> bool
    ensures { result ≡ is_called calling.now }
{
    calling.released.is_some() && calling.withdrawn.is_none() && !calling.struck
}

/// What is due of a device while another one calls.
pub fn called_due(
    me: &Myself,
    bsy: Ns,
    sel: Ns,
    flip: Option<u8>,
    calling: &Option<Calling>,
) -> Option<Due>
    requires ready { IsReady me.now }
    requires bsy { bsy < time_limit }
    requires sel { sel < time_limit }
    ensures { result ≡ called_due bsy sel me.now flip calling.now }
{
    let Some(calling) = calling else {
        return release(me, sel);
    };
    if calling.called.get() != me.dev {
        release(me, sel)
    } else if is_called(calling) {
        answer(me, bsy, flip)
    } else {
        None
    }
}
