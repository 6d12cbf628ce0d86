//! From messages to bytes.

ghost use Rattle.std.specs.Prelude.{ℕ, ◌≡◌, ◌++◌, List, [], ◌∷◌, length, Some};
ghost use Rattle.msg_grammar.specs.declared.message.Got.TheVariants.{Whole};
ghost use Rattle.msg_grammar.specs.Messages.{FitsIn, FitsOut, got_in, got_out, in_bytes, msg_in_of, msg_out_of, out_bytes};

use crate::message::{MsgIn, MsgOut};
use arrayvec::ArrayVec;
use bus_trace::Agreement;

/// The bytes of a message to the target, one to five. A logical unit must be below 8.
#[tactic(auto, unfolding(crate::specs::Messages::form_out))]
pub fn encode_out(m: &MsgOut) -> ArrayVec<u8, 5>
    requires { FitsOut m.now }
    ensures bytes { result.items ≡ out_bytes m.now }
    ensures message { msg_out_of result.items ≡ Some m.now }
    ensures read_again { (rest : List ℕ) → got_out (result.items ++ rest) ≡ Whole m.now (length result.items) }
{
    match m {
        MsgOut::Identify { disc: true, lun } => one(0xc0 + *lun),
        MsgOut::Identify { disc: false, lun } => one(0x80 + *lun),
        MsgOut::SimpleTag(tag) => two(0x20, *tag),
        MsgOut::HeadTag(tag) => two(0x21, *tag),
        MsgOut::OrderedTag(tag) => two(0x22, *tag),
        MsgOut::Sdtr(offered) => request(offered),
        MsgOut::Abort => one(0x06),
        MsgOut::AbortTag => one(0x0d),
        MsgOut::ClearQueue => one(0x0e),
        MsgOut::DeviceReset => one(0x0c),
        MsgOut::DetectedError => one(0x05),
        MsgOut::ParityError => one(0x09),
        MsgOut::Reject => one(0x07),
        MsgOut::Nop => one(0x08),
    }
}

/// The bytes of a message to the initiator, one to five. A logical unit must be below 8.
#[tactic(auto, unfolding(crate::specs::Messages::form_in))]
pub fn encode_in(m: &MsgIn) -> ArrayVec<u8, 5>
    requires { FitsIn m.now }
    ensures bytes { result.items ≡ in_bytes m.now }
    ensures message { msg_in_of result.items ≡ Some m.now }
    ensures read_again { (rest : List ℕ) → got_in (result.items ++ rest) ≡ Whole m.now (length result.items) }
{
    match m {
        MsgIn::CommandComplete => one(0x00),
        MsgIn::SavePointer => one(0x02),
        MsgIn::RestorePointers => one(0x03),
        MsgIn::Disconnect => one(0x04),
        MsgIn::Identify { lun } => one(0x80 + *lun),
        MsgIn::SimpleTag(tag) => two(0x20, *tag),
        MsgIn::Sdtr(offered) => request(offered),
        MsgIn::Reject => one(0x07),
    }
}

/// A message of one byte.
fn one(byte: u8) -> ArrayVec<u8, 5>
    ensures { result.items ≡ byte ∷ [] }
{
    let mut bytes = ArrayVec::new();
    bytes.push(byte);
    bytes
}

/// A message of two bytes.
fn two(first: u8, second: u8) -> ArrayVec<u8, 5>
    ensures { result.items ≡ first ∷ second ∷ [] }
{
    let mut bytes = ArrayVec::new();
    bytes.push(first);
    bytes.push(second);
    bytes
}

/// A synchronous data transfer request: an extended message (01) of length 3, its code (01), the
/// transfer period factor and the REQ/ACK offset.
fn request(offered: &Agreement) -> ArrayVec<u8, 5>
    ensures { result.items ≡ 0x01 ∷ 0x03 ∷ 0x01 ∷ offered.now.period ∷ offered.now.offset ∷ [] }
{
    let mut bytes = ArrayVec::new();
    bytes.push(0x01);
    bytes.push(0x03);
    bytes.push(0x01);
    bytes.push(offered.period);
    bytes.push(offered.offset);
    bytes
}
