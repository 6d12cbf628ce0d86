//! The data that a target returns for REQUEST SENSE, INQUIRY and READ CAPACITY.
ghost use Rattle.std.specs.Prelude.{ℕ, ◌≡◌, ◌∷◌, [], slice_index};
ghost use Rattle.cdb_codec.specs.declared.command.Sense.{Sense};
ghost use Rattle.cdb_codec.specs.Replies.{plain_sense, FitsSense, error_of, information_of, sense_data, residue_in, sense_of_data, peripheral, inquiry_data, tape_inquiry_data, capacity_data};

use crate::command::Sense;
use byteorder::{BigEndian, ByteOrder};

/// How many bytes sense data of the fixed format have (clause 8.2.14.3).
pub const SENSE_LEN: usize = 18;

/// How many bytes standard inquiry data have (clause 8.2.5.1).
pub const INQUIRY_LEN: usize = 36;

/// How many bytes READ CAPACITY data have (clause 9.2.7).
pub const CAPACITY_LEN: usize = 8;

/// Sense data of the fixed format (clause 8.2.14.3), of which the marks and the sense key are byte 2, the residue, if
/// there is one, is bytes 3 to 6, and the additional sense code and its qualifier are bytes 12 and 13.
pub fn sense_bytes(sense: &Sense) -> [u8; SENSE_LEN]
    ensures { result ≡ sense_data sense.now }
{
    let mut bytes = [0; SENSE_LEN];
    bytes[0] = error_of(sense.residue);
    bytes[2] = sense.marks | sense.key;
    BigEndian::write_u32(&mut bytes[3..], information_of(sense.residue));
    bytes[7] = 0x0a;
    bytes[12] = sense.asc;
    bytes[13] = sense.ascq;
    bytes
}

// A current error, and whether the information is valid.
fn error_of(residue: Option<u32>) -> u8
    ensures { result ≡ error_of residue }
{
    match residue {
        None => 0x70,
        Some(_) => 0xf0,
    }
}

// The information: the residue, or 0.
fn information_of(residue: Option<u32>) -> u32
    ensures { result ≡ information_of residue }
{
    match residue {
        None => 0,
        Some(residue) => residue,
    }
}

/// The sense that sense data of the fixed format name (clause 8.2.14.3).
pub fn read_sense(bytes: &[u8; SENSE_LEN]) -> Sense
    ensures exact { result ≡ sense_of_data bytes.now }
    ensures fits { FitsSense result }
{
    sense_of_data(bytes)
}

/// The same of as many bytes as came, where there was no room for all: those that did not come count as 00. Of byte 2
/// the filemark and the end of medium are looked at and the sense key; the residue is there where byte 0 says that the
/// information is valid. All other bytes are passed over.
pub fn sense_of_data(bytes: &[u8]) -> Sense
    ensures exact { result ≡ sense_of_data bytes.now }
    ensures fits { FitsSense result }
{
    let flags = byte_at(bytes, 2);
    Sense {
        key: flags % 0x10,
        asc: byte_at(bytes, 12),
        ascq: byte_at(bytes, 13),
        marks: flags / 0x40 * 0x40,
        residue: residue_in(bytes),
    }
}

// The information, where it is valid.
fn residue_in(bytes: &[u8]) -> Option<u32>
    ensures { result ≡ residue_in bytes.now }
{
    if byte_at(bytes, 0) < 0x80 {
        return None;
    }
    let information = [
        byte_at(bytes, 3),
        byte_at(bytes, 4),
        byte_at(bytes, 5),
        byte_at(bytes, 6),
    ];
    Some(BigEndian::read_u32(&information))
}

// A byte, or 00 where it did not come.
fn byte_at(bytes: &[u8], place: usize) -> u8
    ensures { result ≡ slice_index bytes.now place }
{
    match bytes.get(place) {
        None => 0x00,
        Some(byte) => *byte,
    }
}

/// A sense that is written reads back as it was, if its key has four bits and its marks are the two high ones of a
/// byte.
pub fn sense_reads_back()
    ensures { (s : Sense) → FitsSense s → sense_of_data (sense_data s) ≡ s }
{}

/// The sense data of a disk: its sense names no marks and no residue, so that all but the key and the codes stands
/// fixed.
pub fn plain_sense_data()
    ensures { (key asc ascq : ℕ) → sense_data (plain_sense key asc ascq)
        ≡ 0x70 ∷ 0x00 ∷ key ∷ 0x00 ∷ 0x00 ∷ 0x00 ∷ 0x00 ∷ 0x0a ∷ 0x00 ∷ 0x00 ∷ 0x00 ∷ 0x00 ∷ asc ∷ ascq ∷ 0x00 ∷ 0x00
        ∷ 0x00 ∷ 0x00 ∷ [] }
{}

/// Standard inquiry data (clause 8.2.5.1). It tells of a disk where the logical unit is `present`, and else
/// that the target has no such unit.
pub fn inquiry_bytes(present: bool) -> [u8; INQUIRY_LEN]
    ensures { result ≡ inquiry_data present }
{
    let mut bytes = *b"\x00\x00\x02\x02\x1f\x00\x00\x12BUSMODELSIMULATED DISK  0001";
    bytes[0] = peripheral(present);
    bytes
}

/// Standard inquiry data (clause 8.2.5.1) of a logical unit that is a tape, whose medium can be taken out.
pub fn tape_inquiry_bytes() -> [u8; INQUIRY_LEN]
    ensures { result ≡ tape_inquiry_data }
{
    *b"\x01\x80\x02\x02\x1f\x00\x00\x12BUSMODELSIMULATED TAPE  0001"
}

// The peripheral qualifier and device type: a disk, or that there is none.
fn peripheral(present: bool) -> u8
    ensures { result ≡ peripheral present }
{
    if present { 0x00 } else { 0x7f }
}

/// READ CAPACITY data (clause 9.2.7): the number of the last block, and the size of a block in
/// bytes.
pub fn capacity_bytes(last: u32, size: u32) -> [u8; CAPACITY_LEN]
    ensures { result ≡ capacity_data last size }
{
    let mut bytes = [0; CAPACITY_LEN];
    BigEndian::write_u32(&mut bytes, last);
    BigEndian::write_u32(&mut bytes[4..], size);
    bytes
}
