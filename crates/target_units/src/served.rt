//! A process, as its target knows it.
use bus_base::{Class, Dev, ProcId};

/// A process, as its target knows it.
#[derive(Clone, Copy)]
pub struct Served<'a> {
    /// Its logical unit.
    pub unit: u8,
    /// Its number.
    pub id: ProcId,
    /// Its initiator.
    pub from: Dev,
    /// The number of its queue tag message.
    pub tag: Option<u8>,
    /// How it is queued.
    pub class: Class,
    /// The command descriptor block.
    pub cdb: &'a [u8],
    /// The bytes that it sent.
    pub sent: &'a [u8],
}
