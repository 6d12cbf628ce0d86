// Sets of lines.

ghost use Rattle.std.specs.Prelude.{ℕ, ◌≡◌, ◌≢◌, ◌==◌, ◌<◌, ◌^◌, ◌%◌, ◌↔◌, IsTrue, false, not};
ghost use Rattle.std.specs.Int.{bit_at};
ghost use Rattle.std.specs.Int.RustNames.{count_ones};
ghost use Rattle.bus_trace.specs.LineSet.{LineSet, none, union, set_of, number_of, same_set, line_of, byte_set, parity_of, has_odd_parity, id_set, ids_set, ids_in, has_id, has_id_above};

use bitflags::{Flag, Flags};
use bus_base::Dev;
use std::marker::Model;

/// A set of the eighteen lines of the bus. As a number: bits 0 to 7 are DB(0) to DB(7), 8 is DB(P), and
/// 9 to 17 are BSY, SEL, C/D, I/O, MSG, REQ, ACK, ATN and RST.
#[derive(Clone, Copy, Debug)]
pub struct Lines {
    bits: u32,
}

impl Model for Lines {
    ghost use Rattle.std.specs.Prelude.{◌<◌, ◌^◌};
    ghost use Rattle.bus_trace.specs.LineSet.{LineSet, set_of, number_of};
    ghost use Rattle.bus_trace.specs.Numbers.{number_back};

    ghost Value = { LineSet };

    ghost view = { λ a. set_of a.bits };

    ghost invariant = { λ a. a.bits < 2 ^ 18 };

    ghost inverse = { λ s. record { bits = number_of s } };

    ghost inverse_ok = { λ a h i. record { bits = number_back a.bits h i } };
}

impl Flags for Lines {
    type Bits = u32;

    // No table of names: a constant cannot hold a type with a model.
    fn flags<'a>() -> &'a [Flag<Lines>] {
        &[]
    }

    fn bits(&self) -> u32
        ensures number { result ≡ number_of self.now }
        ensures small { result < 2 ^ 18 }
        ensures back { set_of result ≡ self.now }
        ensures data_below { self.now.data_bits < 512 }
    {
        self.bits
    }

    fn from_bits_retain(bits: u32) -> Lines
        ensures masked { result ≡ set_of (bits % 2 ^ 18) }
        ensures whole { bits < 2 ^ 18 → result ≡ set_of bits }
    {
        Lines {
            bits: bits & 0x3_ffff,
        }
    }
}

impl Lines {
    /// Busy: the bus is in use.
    pub const BSY: Lines = Lines { bits: 0x200 };
    /// Select: an initiator selects a target, or a target reselects an initiator.
    pub const SEL: Lines = Lines { bits: 0x400 };
    /// Control/data: true for control on the data bus.
    pub const CD: Lines = Lines { bits: 0x800 };
    /// Input/output: true for input to the initiator.
    pub const IO: Lines = Lines { bits: 0x1000 };
    /// Message: the message phase.
    pub const MSG: Lines = Lines { bits: 0x2000 };
    /// Request: the target asks for a transfer.
    pub const REQ: Lines = Lines { bits: 0x4000 };
    /// Acknowledge: the initiator acknowledges a transfer.
    pub const ACK: Lines = Lines { bits: 0x8000 };
    /// Attention: the initiator has a message.
    pub const ATN: Lines = Lines { bits: 0x1_0000 };
    /// Reset.
    pub const RST: Lines = Lines { bits: 0x2_0000 };

    /// No line.
    pub fn none() -> Lines
        ensures { result ≡ none }
    {
        Lines { bits: 0 }
    }

    /// Whether no line is true.
    pub fn is_none(self) -> bool
        ensures exact { result ≡ same_set self none }
        ensures same { IsTrue result ↔ (self ≡ none) }
    {
        self.same(Lines::none())
    }

    /// Whether the two sets have the same lines.
    pub fn same(self, other: Lines) -> bool
        ensures exact { result ≡ same_set self other }
        ensures same { IsTrue result ↔ (self ≡ other) }
    {
        self.bits == other.bits
    }

    /// The lines of either set, as the bus has them where two devices drive.
    pub fn with(self, other: Lines) -> Lines
        ensures { result ≡ union self other }
    {
        Lines {
            bits: self.bits | other.bits,
        }
    }

    /// The same lines without BSY.
    pub fn without_bsy(self) -> Lines
        ensures { result ≡ record self { bsy = false } }
    {
        if self.bsy() {
            Lines::from_bits_retain(self.bits() - 0x200)
        } else {
            self
        }
    }

    /// The same lines without REQ.
    pub fn without_req(self) -> Lines
        ensures { result ≡ record self { req = false } }
    {
        if self.req() {
            Lines::from_bits_retain(self.bits() - 0x4000)
        } else {
            self
        }
    }

    /// The same lines without ACK.
    pub fn without_ack(self) -> Lines
        ensures { result ≡ record self { ack = false } }
    {
        if self.ack() {
            Lines::from_bits_retain(self.bits() - 0x8000)
        } else {
            self
        }
    }

    /// The same lines without DB(7-0) and DB(P).
    pub fn without_data(self) -> Lines
        ensures { result ≡ record self { data_bits = 0 } }
    {
        Lines::from_bits_retain(self.bits() - self.data_bits() as u32)
    }

    /// The same lines with this byte on DB(7-0) and its parity on DB(P), in place of what they had there.
    pub fn with_byte(self, byte: u8) -> Lines
        ensures { result ≡ record self { data_bits = (byte_set byte).data_bits } }
    {
        byte_lines(byte).with(self.without_data())
    }

    /// DB(7-0), as a byte.
    pub fn data(self) -> u8
        ensures { result ≡ self.data_bits % 256 }
    {
        (self.bits & 0xff) as u8
    }

    /// DB(7-0), with DB(P) as bit 8.
    pub fn data_bits(self) -> u16
        ensures exact { result ≡ self.data_bits }
        ensures small { result < 512 }
    {
        (self.bits & 0x1ff) as u16
    }

    /// Whether DB(P), the parity line, is true.
    pub fn parity_bit(self) -> bool
        ensures { result ≡ (bit_at self.data_bits 8 == 1) }
    {
        self.bits & 0x100 != 0
    }

    /// Whether BSY is true.
    pub fn bsy(self) -> bool
        ensures { result ≡ self.bsy }
    {
        self.bits & 0x200 != 0
    }

    /// Whether SEL is true.
    pub fn sel(self) -> bool
        ensures { result ≡ self.sel }
    {
        self.bits & 0x400 != 0
    }

    /// Whether C/D is true.
    pub fn cd(self) -> bool
        ensures { result ≡ self.cd }
    {
        self.bits & 0x800 != 0
    }

    /// Whether I/O is true.
    pub fn io(self) -> bool
        ensures { result ≡ self.io }
    {
        self.bits & 0x1000 != 0
    }

    /// Whether MSG is true.
    pub fn msg(self) -> bool
        ensures { result ≡ self.msg }
    {
        self.bits & 0x2000 != 0
    }

    /// Whether REQ is true.
    pub fn req(self) -> bool
        ensures { result ≡ self.req }
    {
        self.bits & 0x4000 != 0
    }

    /// Whether ACK is true.
    pub fn ack(self) -> bool
        ensures { result ≡ self.ack }
    {
        self.bits & 0x8000 != 0
    }

    /// Whether ATN is true.
    pub fn atn(self) -> bool
        ensures { result ≡ self.atn }
    {
        self.bits & 0x1_0000 != 0
    }

    /// Whether RST is true.
    pub fn rst(self) -> bool
        ensures { result ≡ self.rst }
    {
        self.bits & 0x2_0000 != 0
    }

    /// Whether the line of this number is true.
    pub fn has(self, line: u8) -> bool
        requires { line < 18 }
        ensures { result ≡ (line_of line self == 1) }
    {
        (self.bits >> line) & 1 == 1
    }

    /// Whether the line of this number is true in one of the two sets alone.
    pub fn differs(self, other: Lines, line: u8) -> bool
        requires { line < 18 }
        ensures { result ≡ not (line_of line self == line_of line other) }
    {
        (self.bits >> line) & 1 != (other.bits >> line) & 1
    }

    /// The ID bit of a device alone, without parity, as arbitration has it (clause 6).
    pub fn id(dev: Dev) -> Lines
        requires { dev < 8 }
        ensures { result ≡ id_set dev }
    {
        match dev {
            0 => Lines { bits: 0x1 },
            1 => Lines { bits: 0x2 },
            2 => Lines { bits: 0x4 },
            3 => Lines { bits: 0x8 },
            4 => Lines { bits: 0x10 },
            5 => Lines { bits: 0x20 },
            6 => Lines { bits: 0x40 },
            _ => Lines { bits: 0x80 },
        }
    }

    /// The ID bits of two devices, with their parity, as a selection has them (clause 6).
    pub fn ids(a: Dev, b: Dev) -> Lines
        requires a { a < 8 }
        requires b { b < 8 }
        requires apart { a ≢ b }
        ensures { result ≡ ids_set a b }
    {
        Lines {
            bits: Lines::id(a).bits + Lines::id(b).bits + 0x100,
        }
    }

    /// Whether the ID bit of this device is true.
    pub fn has_id(self, dev: Dev) -> bool
        requires { dev < 8 }
        ensures { result ≡ has_id self dev }
    {
        (self.bits >> dev) & 1 == 1
    }

    /// Whether the ID bit of a device above this one is true, which then has the higher priority.
    pub fn has_id_above(self, dev: Dev) -> bool
        requires { dev < 8 }
        ensures { result ≡ has_id_above self dev }
    {
        self.data_bits() % 256 >= 1 << (dev + 1)
    }

    /// How many of DB(7-0) are true: two in a selection.
    pub fn number_of_ids(self) -> u8
        ensures { result ≡ ids_in self }
    {
        (self.bits & 0xff).count_ones() as u8
    }

    /// Whether the nine data lines have odd parity, as all data on the bus has.
    pub fn odd_parity(self) -> bool
        ensures { result ≡ has_odd_parity self }
    {
        (self.bits & 0x1ff).count_ones() % 2 == 1
    }
}

/// Whether DB(P) is true with this byte: where its number of ones is even, since parity is odd.
pub fn parity(byte: u8) -> bool
    ensures { result ≡ parity_of byte }
{
    byte.count_ones() % 2 == 0
}

/// The byte on DB(7-0), with its parity on DB(P).
pub fn byte_lines(byte: u8) -> Lines
    ensures { result ≡ byte_set byte }
{
    if parity(byte) {
        Lines {
            bits: byte as u32 + 0x100,
        }
    } else {
        Lines { bits: byte as u32 }
    }
}
