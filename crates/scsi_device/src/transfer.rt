// How bytes cross between the two ends of a connection (6.1.5, 6.6.21).
ghost use Rattle.std.specs.Prelude.{ℕ, ◌≡◌, List, Option};
ghost use Rattle.bus_trace.specs.declared.Row.{Row};
ghost use Rattle.bus_trace.specs.Agreements.{times_of};
ghost use Rattle.due_model.specs.dialogue_model.specs.Ends.{lag_by};
ghost use Rattle.due_model.specs.dialogue_model.specs.Observer.{IsObserverOf};
ghost use Rattle.due_model.specs.dialogue_model.specs.Words.{agreement_answer};
ghost use Rattle.handshake.specs.Bounds.{IsSteady};
ghost use Rattle.scenario.specs.declared.value.HostDef.{HostDef};
ghost use Rattle.scsi_device.specs.Told.{told, pace_of};

use bus_base::Ns;
use bus_trace::{Agreement, is_data, times_of};
use due_model::the_dialogue_model::Observer;
use reaction_model::Pace;

/// Whether bytes cross by pulses in the phase: in a data phase under an agreement with an offset (6.1.5.2).
pub fn is_pulsed(observer: &Observer) -> bool
    ensures { (rows : List Row) (dev : ℕ) (host : Option HostDef) → IsObserverOf rows observer.now
        → result ≡ (pace_of (told rows dev) host).pulsed }
{
    observer.begun() && is_data(observer.view().bus()) && observer.agreement().offset > 0
}

/// How bytes cross in the phase: by pulses where an agreement with an offset holds (6.1.5.2). An initiator has this
/// lag, in ns; a target has none.
pub fn pace(observer: &Observer, lag: u32) -> Pace
    ensures exact { (rows : List Row) (dev : ℕ) (host : Option HostDef) → IsObserverOf rows observer.now
        → lag ≡ lag_by host → result ≡ pace_of (told rows dev) host }
    ensures steady { IsSteady result }
{
    let agreement = observer.agreement();
    Pace {
        pulsed: is_pulsed(observer),
        offset: agreement.offset,
        times: times_of(agreement.period),
        lag: Ns::from(lag),
    }
}

/// The answer to a synchronous data transfer request of an end that has this period and this offset (6.6.21).
pub fn agreement_answer(period: u8, offset: u8, heard: Agreement) -> Agreement
    ensures { result ≡ agreement_answer period offset heard }
{
    if period == 0 {
        return Agreement {
            period: heard.period,
            offset: 0,
        };
    }
    Agreement {
        period: period.max(heard.period),
        offset: offset.min(heard.offset),
    }
}
