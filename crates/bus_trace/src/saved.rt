//! What stands on the bus as plain words, which can be copied, written to a file and read back.
//!
//! Any words say something: what is out of range is cut to its range. What is saved and read back is the same.
ghost use Rattle.std.specs.Prelude.{◌≡◌, ◌%◌, Some, None};
ghost use Rattle.bus_trace.specs.Saved.{is_yes, time_in, arbitration_in, calling_in, call_in, connection_in, id_or_none_in, lines_in};

use crate::arbitration::Arbitration;
use crate::connection::Connection;
use crate::line_set::Lines;
use crate::line_times::LineTimes;
use crate::scsi_id::ScsiId;
use crate::selection::{Call, Calling};
use bitflags::Flags;
use bus_base::Ns;

/// A truth value as a word: 0 says no, 1 yes.
pub fn word_of(yes: bool) -> u64
    ensures { is_yes result ≡ yes }
{
    if yes { 1 } else { 0 }
}

/// Whether a word says yes.
pub fn is_yes(word: u64) -> bool
    ensures { result ≡ is_yes word }
{
    word != 0
}

/// A byte as a word.
pub fn byte_word(byte: u8) -> u64
    ensures { result % 256 ≡ byte }
{
    u64::from(byte)
}

/// The byte of a word, its lowest eight bits.
pub fn byte_in(word: u64) -> u8
    ensures { result ≡ word % 256 }
{
    (word % 256) as u8
}

fn id_word(id: ScsiId) -> u64
    ensures { result % 8 ≡ id }
{
    u64::from(id.get())
}

fn id_in(word: u64) -> ScsiId
    ensures { result ≡ word % 8 }
{
    ScsiId::new((word % 8) as u8)
}

/// A device, if there is one, as a word: 0 for none, else its ID and 1.
pub fn id_or_none_word(id: Option<ScsiId>) -> u64
    ensures { id_or_none_in result ≡ id }
{
    match id {
        None => 0,
        Some(id) => u64::from(id.get()) + 1,
    }
}

/// The device of a word, if it says one.
pub fn id_or_none_in(word: u64) -> Option<ScsiId>
    ensures { result ≡ id_or_none_in word }
{
    if word == 0 {
        None
    } else {
        Some(id_in(word - 1))
    }
}

/// A time, if there is one.
#[repr(C)]
#[derive(Clone, Copy)]
pub struct SavedTime {
    /// Whether there is one.
    pub is_some: u64,
    /// The time, in ns.
    pub time: Ns,
}

impl SavedTime {
    ghost use Rattle.bus_trace.specs.Saved.{time_in};

    /// Saves a time.
    pub fn of(time: Option<Ns>) -> SavedTime
        ensures { time_in result ≡ time }
    {
        match time {
            None => SavedTime {
                is_some: 0,
                time: 0,
            },
            Some(time) => SavedTime { is_some: 1, time },
        }
    }

    /// The time that was saved.
    pub fn get(&self) -> Option<Ns>
        ensures { result ≡ time_in self.now }
    {
        if is_yes(self.is_some) {
            Some(self.time)
        } else {
            None
        }
    }
}

/// An arbitration, if one stands.
#[repr(C)]
#[derive(Clone, Copy)]
pub struct SavedArbitration {
    /// Whether one stands.
    pub is_some: u64,
    /// Since when the bus had been free before it, in ns.
    pub free: Ns,
    /// The time of its first entry, in ns.
    pub first: Ns,
}

impl SavedArbitration {
    ghost use Rattle.bus_trace.specs.Saved.{arbitration_in};

    /// Saves an arbitration.
    pub fn of(arbitration: Option<Arbitration>) -> SavedArbitration
        ensures { arbitration_in result ≡ arbitration }
    {
        match arbitration {
            None => SavedArbitration {
                is_some: 0,
                free: 0,
                first: 0,
            },
            Some(arbitration) => SavedArbitration {
                is_some: 1,
                free: arbitration.free,
                first: arbitration.first,
            },
        }
    }

    /// The arbitration that was saved.
    pub fn get(&self) -> Option<Arbitration>
        ensures { result ≡ arbitration_in self.now }
    {
        if is_yes(self.is_some) {
            Some(Arbitration {
                free: self.free,
                first: self.first,
            })
        } else {
            None
        }
    }
}

/// A calling, if one has come.
#[repr(C)]
#[derive(Clone, Copy)]
pub struct SavedCalling {
    /// Whether one has come.
    pub is_some: u64,
    /// The device that is called.
    pub called: u64,
    /// Whether the caller reselects.
    pub reselects: u64,
    /// The time of the calling.
    pub at: Ns,
    /// When the caller last released BSY.
    pub released: SavedTime,
    /// When the caller last released the IDs.
    pub withdrawn: SavedTime,
    /// When the caller last raised BSY again.
    pub resumed: SavedTime,
    /// When the called device last raised BSY.
    pub answered: SavedTime,
    /// Whether a fault struck the called device.
    pub struck: u64,
}

fn saved_calling(calling: Calling) -> SavedCalling
    ensures { calling_in result ≡ Some calling }
{
    SavedCalling {
        is_some: 1,
        called: id_word(calling.called),
        reselects: word_of(calling.reselects),
        at: calling.at,
        released: SavedTime::of(calling.released),
        withdrawn: SavedTime::of(calling.withdrawn),
        resumed: SavedTime::of(calling.resumed),
        answered: SavedTime::of(calling.answered),
        struck: word_of(calling.struck),
    }
}

fn no_calling() -> SavedCalling
    ensures { calling_in result ≡ None }
{
    SavedCalling {
        is_some: 0,
        called: 0,
        reselects: 0,
        at: 0,
        released: SavedTime::of(None),
        withdrawn: SavedTime::of(None),
        resumed: SavedTime::of(None),
        answered: SavedTime::of(None),
        struck: 0,
    }
}

impl SavedCalling {
    ghost use Rattle.bus_trace.specs.Saved.{calling_in};

    /// Saves a calling.
    pub fn of(calling: Option<Calling>) -> SavedCalling
        ensures { calling_in result ≡ calling }
    {
        match calling {
            None => no_calling(),
            Some(calling) => saved_calling(calling),
        }
    }

    /// The calling that was saved.
    pub fn get(&self) -> Option<Calling>
        ensures { result ≡ calling_in self.now }
    {
        if is_yes(self.is_some) {
            Some(Calling {
                called: id_in(self.called),
                reselects: is_yes(self.reselects),
                at: self.at,
                released: self.released.get(),
                withdrawn: self.withdrawn.get(),
                resumed: self.resumed.get(),
                answered: self.answered.get(),
                struck: is_yes(self.struck),
            })
        } else {
            None
        }
    }
}

/// A call, if one stands.
#[repr(C)]
#[derive(Clone, Copy)]
pub struct SavedCall {
    /// Whether one stands.
    pub is_some: u64,
    /// The device whose row raised SEL.
    pub caller: u64,
    /// When SEL rose, in ns.
    pub at: Ns,
    /// The calling.
    pub calling: SavedCalling,
}

impl SavedCall {
    ghost use Rattle.bus_trace.specs.Saved.{call_in};

    /// Saves a call.
    pub fn of(call: Option<Call>) -> SavedCall
        ensures { call_in result ≡ call }
    {
        match call {
            None => SavedCall {
                is_some: 0,
                caller: 0,
                at: 0,
                calling: no_calling(),
            },
            Some(call) => SavedCall {
                is_some: 1,
                caller: id_word(call.caller),
                at: call.at,
                calling: SavedCalling::of(call.calling),
            },
        }
    }

    /// The call that was saved.
    pub fn get(&self) -> Option<Call>
        ensures { result ≡ call_in self.now }
    {
        if is_yes(self.is_some) {
            Some(Call {
                caller: id_in(self.caller),
                at: self.at,
                calling: self.calling.get(),
            })
        } else {
            None
        }
    }
}

/// A connection, if one stands.
#[repr(C)]
#[derive(Clone, Copy)]
pub struct SavedConnection {
    /// Whether one stands.
    pub is_some: u64,
    /// Its initiator.
    pub initiator: u64,
    /// Its target.
    pub target: u64,
    /// The time of the row in which it began, in ns.
    pub began: Ns,
    /// Whether a reselection began it.
    pub reselected: u64,
}

impl SavedConnection {
    ghost use Rattle.bus_trace.specs.Saved.{connection_in};

    /// Saves a connection.
    pub fn of(connection: Option<Connection>) -> SavedConnection
        ensures { connection_in result ≡ connection }
    {
        match connection {
            None => SavedConnection {
                is_some: 0,
                initiator: 0,
                target: 0,
                began: 0,
                reselected: 0,
            },
            Some(connection) => SavedConnection {
                is_some: 1,
                initiator: id_word(connection.initiator),
                target: id_word(connection.target),
                began: connection.began,
                reselected: word_of(connection.reselected),
            },
        }
    }

    /// The connection that was saved.
    pub fn get(&self) -> Option<Connection>
        ensures { result ≡ connection_in self.now }
    {
        if is_yes(self.is_some) {
            Some(Connection {
                initiator: id_in(self.initiator),
                target: id_in(self.target),
                began: self.began,
                reselected: is_yes(self.reselected),
            })
        } else {
            None
        }
    }
}

/// A view of the lines of the bus.
#[repr(C)]
#[derive(Clone, Copy)]
pub struct SavedView {
    /// What each device drives: the lines as the bits of a number.
    pub driven: [u64; 8],
    /// What is on the bus.
    pub present: u64,
    /// When each data line last changed, in ns.
    pub data_lines: [Ns; 9],
    /// When a data line last changed, in ns.
    pub data_changed: Ns,
    /// When each other line last changed.
    pub times: LineTimes,
    /// The time of the last row, in ns.
    pub last: Ns,
}

/// Lines as a word.
pub fn lines_word(lines: Lines) -> u64
    ensures { lines_in result ≡ lines }
{
    u64::from(lines.bits())
}

/// The lines of a word: its lowest eighteen bits.
pub fn lines_in(word: u64) -> Lines
    ensures { result ≡ lines_in word }
{
    Lines::from_bits_retain((word % 0x4_0000) as u32)
}
