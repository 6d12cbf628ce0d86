// The initiator in a phase.
ghost use Rattle.std.specs.Prelude.{ℕ, ◌≡◌, ◌<◌, ◌≤◌, ◌^◌, List, Option, None, true, false};
ghost use Rattle.std.specs.Option.{ForSome};
ghost use Rattle.bus_trace.specs.declared.rows.Row.{Row};
ghost use Rattle.bus_lines.specs.BusView.{IsBusViewOf};
ghost use Rattle.bus_lines.specs.Timely.{IsTimely};
ghost use Rattle.handshake.specs.Steps.{new_state, initiator_hand};

use crate::end_state::{EndState, new_state};
use crate::hand::Hand;
use crate::steps::initiator_hand;
use bus_base::Ns;
use bus_lines::BusView;
use bus_trace::Agreement;
use std::marker::Model;

/// The initiator in a phase in which it sends bytes (6.1.5): MESSAGE OUT, COMMAND or DATA OUT. After a DATA OUT phase
/// by pulses it also owes the release of the last byte.
#[derive(Clone, Copy)]
pub struct HostSend {
    state: EndState,
}

impl Model for HostSend {
    ghost use Rattle.handshake.specs.declared.end_state.EndState.{EndState};
    ghost use Rattle.handshake.specs.Steps.{IsBounded};

    ghost Value = { EndState };

    ghost view = { λ a. a.state };

    ghost invariant = { λ a. IsBounded a.state };

    ghost inverse = { λ e. record { state = e } };

    ghost inverse_ok = { λ a h i. record { state = a.state } };
}

impl HostSend {
    /// The initiator as a phase begins under this agreement, of offset 0 for a phase without pulses, with its latency
    /// and its lag, in ns.
    pub fn new(agreed: Agreement, latency: Ns, lag: Ns) -> HostSend
        requires latency { latency ≤ 100 }
        requires lag { lag ≤ 10000 }
        ensures { result ≡ new_state agreed latency lag }
    {
        HostSend {
            state: new_state(agreed, latency, lag),
        }
    }

    /// A step at the time `now`, in ns. `offered` is the byte after those that have crossed, `None` where none follows;
    /// `flip` is the bit, 0 to 8, that a fault strikes of the byte that crossed in the last row.
    pub fn step(
        self,
        view: &BusView,
        now: Ns,
        offered: Option<u8>,
        flip: Option<u8>,
    ) -> Hand<HostSend>
        requires timely { IsTimely (2 ^ 63) view.now }
        requires now { now < 2 ^ 63 }
        requires flip { ForSome flip (λ bit. bit ≤ 8) }
        ensures { (rows : List Row) → IsBusViewOf rows view.now →
            result ≡ initiator_hand false rows self now offered flip }
    {
        let hand = initiator_hand(false, view, &self.state, now, offered, flip);
        Hand {
            next: HostSend { state: hand.next },
            drives: hand.drives,
            wake: hand.wake,
            crossed: hand.crossed,
            idle: hand.idle,
        }
    }
}

/// The initiator in a phase in which it takes bytes (6.1.5): DATA IN, STATUS or MESSAGE IN.
#[derive(Clone, Copy)]
pub struct HostTake {
    state: EndState,
}

impl Model for HostTake {
    ghost use Rattle.handshake.specs.declared.end_state.EndState.{EndState};
    ghost use Rattle.handshake.specs.Steps.{IsBounded};

    ghost Value = { EndState };

    ghost view = { λ a. a.state };

    ghost invariant = { λ a. IsBounded a.state };

    ghost inverse = { λ e. record { state = e } };

    ghost inverse_ok = { λ a h i. record { state = a.state } };
}

impl HostTake {
    /// The initiator as a phase begins under this agreement, of offset 0 for a phase without pulses, with its latency
    /// and its lag, in ns.
    pub fn new(agreed: Agreement, latency: Ns, lag: Ns) -> HostTake
        requires latency { latency ≤ 100 }
        requires lag { lag ≤ 10000 }
        ensures { result ≡ new_state agreed latency lag }
    {
        HostTake {
            state: new_state(agreed, latency, lag),
        }
    }

    /// A step at the time `now`, in ns. `offered` is not read; `flip` is the bit, 0 to 8, that a fault strikes of the
    /// byte that crossed in the last row.
    pub fn step(
        self,
        view: &BusView,
        now: Ns,
        offered: Option<u8>,
        flip: Option<u8>,
    ) -> Hand<HostTake>
        requires timely { IsTimely (2 ^ 63) view.now }
        requires now { now < 2 ^ 63 }
        requires flip { ForSome flip (λ bit. bit ≤ 8) }
        ensures { (rows : List Row) → IsBusViewOf rows view.now →
            result ≡ initiator_hand true rows self now None flip }
    {
        let hand = initiator_hand(true, view, &self.state, now, None, flip);
        Hand {
            next: HostTake { state: hand.next },
            drives: hand.drives,
            wake: hand.wake,
            crossed: hand.crossed,
            idle: hand.idle,
        }
    }
}
