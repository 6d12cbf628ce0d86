//! The outcome of a command (ANSI X3.131-1994, 7.3 and 8.2.14).
use bus_base::Octets;
use cdb_codec::Sense;

/// The outcome of a command.
#[derive(Drop)]
pub enum Outcome {
    /// GOOD, with the bytes that came to the initiator.
    Good(Octets),
    /// CHECK CONDITION, with the sense that its automatic REQUEST SENSE brought, if that ended.
    Check(Option<Sense>),
    /// QUEUE FULL.
    QFull,
    /// Its initiator called for it in vain once too often.
    SelTimeout,
    /// The target went to BUS FREE where it should not.
    Lost,
    /// A reset of the bus.
    Reset,
    /// An abort that concerned it.
    Aborted,
}
