//! The process of a connection, as its target knows it.
use disk_unit::Reply;

/// What the process of a connection is to its target.
#[derive(Clone, Copy)]
pub enum Standing {
    /// It has not arrived at its unit, or was lost there, or has ended.
    Nowhere,
    /// It stands in the queue of its unit, and waits or is current (ANSI X3.131-1994, 7.8).
    Queued,
    /// It stands outside the queue, with its reply once it has one (7.5).
    Guest(Option<Reply>),
}
