//! What is due away from a connection.
ghost use Rattle.std.specs.Prelude.{◌<◌, IfSome};
ghost use Rattle.std.proofs.Props.{props};

use bus_trace::{Connection, Row};

/// The first row that the devices are due to make which are no ends of a connection.
#[derive(Clone, Copy)]
pub struct Away {
    /// The connection.
    pub connection: Connection,
    /// The row.
    pub first: Option<Row>,
    ghost device: { IfSome first (λ row. row.dev < 8) } by { Prim.hlevel props },
}
