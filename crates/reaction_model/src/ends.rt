// What an end of a connection goes by: how bytes cross in the phase, and what it has to do in it.

use bus_lines::the_bus_base::Ns;
use bus_lines::the_bus_trace::{Lines, TransferTimes};

/// How bytes cross in the phase.
#[derive(Clone, Copy)]
pub struct Pace {
    /// Whether by pulses, under the offset.
    pub pulsed: bool,
    /// How many pulses may be unanswered.
    pub offset: u8,
    /// The times of the transfer period.
    pub times: TransferTimes,
    /// How long the initiator lets a pulse wait for its answer.
    pub lag: Ns,
}

/// What the target has to do in the phase.
#[derive(Clone, Copy)]
pub struct Offering {
    /// The byte after those that it has given.
    pub byte: u8,
    /// Whether a byte follows.
    pub follows: bool,
    /// What it drives when it leaves the phase.
    pub to: Lines,
    /// How long it waits before that.
    pub wait: Ns,
}

/// What the initiator has to do in the phase.
#[derive(Clone, Copy)]
pub struct Answering {
    /// The byte after those that it has given.
    pub byte: u8,
    /// Whether ATN stands in MESSAGE OUT with this byte: whether a further one follows.
    pub attends: bool,
    /// Whether it asks for MESSAGE OUT with its next ACK.
    pub speaks: bool,
    /// When it last raised ACK.
    pub raised: Ns,
}

/// What an end of a connection has to do in the phase.
#[derive(Clone, Copy)]
pub enum Hand {
    /// The initiator.
    Initiator(Answering),
    /// The target.
    Target(Offering),
}
