// What a step tells.

use bus_base::Ns;
use bus_trace::Lines;

/// A byte that has crossed.
#[derive(Clone, Copy, PartialEq, Eq, Debug)]
pub struct Crossed {
    /// The byte, as its receiver takes it.
    pub byte: u8,
    /// Whether it has odd parity with DB(P).
    pub good: bool,
    /// Whether ATN is true with it.
    pub atn: bool,
}

/// What a step of one end tells, and how it goes on.
#[derive(Clone, Copy)]
pub struct Hand<N> {
    /// The end after the step.
    pub next: N,
    /// The row that it makes now: its data lines, DB(P), REQ and ACK. The device adds the lines of the phase, or ATN.
    pub drives: Option<Lines>,
    /// When its next row is due, in ns, where that is later.
    pub wake: Option<Ns>,
    /// The byte that crossed in the last row, where no step has told it.
    pub crossed: Option<Crossed>,
    /// Whether REQ and ACK are false, no byte is unanswered, and the last byte of a pulsed phase has been held.
    pub idle: bool,
}
