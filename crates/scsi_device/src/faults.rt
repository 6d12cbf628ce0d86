// Faults: which sample they strike.
ghost use Rattle.std.specs.Prelude.{◌≡◌, List};
ghost use Rattle.bus_trace.specs.declared.Row.{Row};
ghost use Rattle.bus_trace.specs.Terms.{receiver};
ghost use Rattle.bus_trace.specs.Trace.{last_time};
ghost use Rattle.reaction_model.specs.Ends.{sample_due};
ghost use Rattle.due_model.specs.dialogue_model.specs.Observer.{IsObserverOf};
ghost use Rattle.scsi_device.specs.Told.{flip_by};
ghost use Rattle.due_model.specs.bus_rules.specs.Order.{is_of_device};

use bus_base::{Dev, Ns};
use bus_trace::{Kind, ScsiId};
use due_model::the_bus_rules::is_of_device;
use due_model::the_dialogue_model::Observer;
use reaction_model::Due;
use scenario::FaultDef;

/// The bit that the first fault which has not struck yet strikes in a sample of this time, in ns.
pub fn flip(fault: Option<FaultDef>, time: Ns) -> Option<u8>
    ensures { result ≡ flip_by fault time }
{
    match fault {
        Some(fault) if fault.at <= time => Some(fault.bit),
        _ => None,
    }
}

// Where it receives the byte of the last row or not: the receiver samples it at once, and takes a fault of it before
// all else.
fn sample_due(receives: bool, last: Ns, flip: Option<u8>, plain: Option<Due>) -> Option<Due>
    ensures { result ≡ sample_due receives last flip plain }
{
    match flip {
        Some(bit) if receives => Some(Due {
            time: last,
            kind: Kind::Fault(bit),
        }),
        _ => plain,
    }
}

/// What a device does next that does `plain` but for faults: it samples a byte that crossed to it in the last row first
/// (6.2.1), and `fault` is the first fault that has not struck yet.
pub fn sampled(
    observer: &Observer,
    dev: Dev,
    fault: Option<FaultDef>,
    plain: Option<Due>,
) -> Option<Due>
    ensures { (rows : List Row) → IsObserverOf rows observer.now
        → result
        ≡ sample_due (is_of_device (receiver rows) dev) (last_time rows) (flip_by fault (last_time rows)) plain }
{
    let view = observer.view();
    let last = view.last_time();
    let receives = is_of_device(view.effect().receiver, dev);
    sample_due(receives, last, flip(fault, last), plain)
}
