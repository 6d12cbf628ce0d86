//! What a row meets.
use bus_base::Ns;
use bus_phases::{CommandBytes, Duty, Pulses, Reading};
use bus_trace::{Agreement, Arbitration, Call, Change, Connection, LineTimes, ScsiId};

/// What a row meets: all that the rules ask of the rows before it. Times are in ns, 0 where the trace
/// has nothing of the kind.
#[derive(Clone, Copy)]
pub struct Seen {
    /// What the row changes.
    pub change: Change,
    /// The time of the row before.
    pub last: Ns,
    /// Since when each line but the data lines stands as it does.
    pub times: LineTimes,
    /// Since when the ID of the called device stands as it does.
    pub id_since: Ns,
    /// When the device of the row last raised BSY.
    pub bsy_raised: Ns,
    /// When the device of the row last raised RST.
    pub rst_raised: Ns,
    /// While SEL is true: whether a device but the caller drives a line.
    pub others_drive: bool,
    /// Whether the initiator drives BSY.
    pub initiator_bsy: bool,
    /// Whether the initiator of the connection drives data lines.
    pub initiator_data: bool,
    /// Whether its target does.
    pub target_data: bool,
    /// The receiver of the byte that crossed in the row before, if one did.
    pub receiver: Option<ScsiId>,
    /// The arbitration that stands, if one does.
    pub arbitration: Option<Arbitration>,
    /// The call that stands, while SEL is true.
    pub call: Option<Call>,
    /// The connection that stands, if one does.
    pub connection: Option<Connection>,
    /// Since when the data lines stand as they do.
    pub data_since: Ns,
    /// The pulses in the present phase.
    pub pulses: Pulses,
    /// Whether I/O became true in the connection.
    pub turned: bool,
    /// What ATN asks of the target.
    pub duty: Duty,
    /// The agreement of the two devices of the connection.
    pub agreement: Agreement,
    /// Whether a synchronous data transfer request is open.
    pub is_open: bool,
    /// The bytes of COMMAND that have crossed since the command pointer was restored.
    pub command: CommandBytes,
    /// Whether a message is half sent in this phase.
    pub is_half: bool,
    /// Whether a byte has crossed in the connection.
    pub begun: bool,
    /// What the byte of the row makes of a message, if one crosses.
    pub reading: Reading,
}
