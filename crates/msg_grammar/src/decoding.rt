//! From bytes to messages.

ghost use Rattle.std.specs.Prelude.{◌≡◌};
ghost use Rattle.msg_grammar.specs.declared.message.MsgOut.TheVariants as to_target;
ghost use Rattle.msg_grammar.specs.declared.message.MsgIn.TheVariants as to_initiator;
ghost use Rattle.msg_grammar.specs.Grammar.{IfWhole, as_got, got_tag, got_code, got_offer};
ghost use Rattle.msg_grammar.specs.Messages.{FitsIn, FitsOut, got_in, got_out};

use crate::message::{Got, MsgIn, MsgOut};
use bus_trace::Agreement;

/// The message to the target that the bytes begin with.
///
/// # Examples
///
/// ```rust
/// let identify = MsgOut::Identify {
///     disc: false,
///     lun: 3,
/// };
/// assert!(rt; decode_out(&[0x83, 0x20, 9]) == Got::Whole(identify, 1));
/// // A queue tag message is whole with its tag.
/// assert!(rt; decode_out(&[0x20]) == Got::More);
/// assert!(rt; decode_out(&[0x20, 9]) == Got::Whole(MsgOut::SimpleTag(9), 2));
/// ```
#[tactic(auto, unfolding(crate::specs::Messages::form_out))]
pub fn decode_out(bytes: &[u8]) -> Got<MsgOut>
    ensures exact { result ≡ got_out bytes.now }
    ensures fits { IfWhole result FitsOut }
{
    let [first, rest @ ..] = bytes else {
        return Got::More;
    };
    match *first {
        0x01 => offer_out(rest),
        0x05 => Got::Whole(MsgOut::DetectedError, 1),
        0x06 => Got::Whole(MsgOut::Abort, 1),
        0x07 => Got::Whole(MsgOut::Reject, 1),
        0x08 => Got::Whole(MsgOut::Nop, 1),
        0x09 => Got::Whole(MsgOut::ParityError, 1),
        0x0c => Got::Whole(MsgOut::DeviceReset, 1),
        0x0d => Got::Whole(MsgOut::AbortTag, 1),
        0x0e => Got::Whole(MsgOut::ClearQueue, 1),
        0x20..=0x22 => tag_out(*first, rest),
        0x80..=0x87 => Got::Whole(
            MsgOut::Identify {
                disc: false,
                lun: *first - 0x80,
            },
            1,
        ),
        0xc0..=0xc7 => Got::Whole(
            MsgOut::Identify {
                disc: true,
                lun: *first - 0xc0,
            },
            1,
        ),
        _ => Got::Unknown,
    }
}

/// The message to the initiator that the bytes begin with.
///
/// # Examples
///
/// ```rust
/// assert!(rt; decode_in(&[0x85]) == Got::Whole(MsgIn::Identify { lun: 5 }, 1));
/// // BUS DEVICE RESET goes to the target alone.
/// assert!(rt; decode_in(&[0x0c]) == Got::Unknown);
/// ```
#[tactic(auto, unfolding(crate::specs::Messages::form_in))]
pub fn decode_in(bytes: &[u8]) -> Got<MsgIn>
    ensures exact { result ≡ got_in bytes.now }
    ensures fits { IfWhole result FitsIn }
{
    let [first, rest @ ..] = bytes else {
        return Got::More;
    };
    match *first {
        0x00 => Got::Whole(MsgIn::CommandComplete, 1),
        0x01 => offer_in(rest),
        0x02 => Got::Whole(MsgIn::SavePointer, 1),
        0x03 => Got::Whole(MsgIn::RestorePointers, 1),
        0x04 => Got::Whole(MsgIn::Disconnect, 1),
        0x07 => Got::Whole(MsgIn::Reject, 1),
        0x20 => tag_in(rest),
        0x80..=0x87 => Got::Whole(MsgIn::Identify { lun: *first - 0x80 }, 1),
        _ => Got::Unknown,
    }
}

/// A queue tag message to the target, whose first byte is 20, 21 or 22, from the bytes after that.
fn tag_out(first: u8, rest: &[u8]) -> Got<MsgOut>
    ensures simple { first ≡ 0x20 → result ≡ as_got to_target.SimpleTag (got_tag rest.now) }
    ensures head { first ≡ 0x21 → result ≡ as_got to_target.HeadTag (got_tag rest.now) }
    ensures ordered { first ≡ 0x22 → result ≡ as_got to_target.OrderedTag (got_tag rest.now) }
    ensures fits { IfWhole result FitsOut }
{
    let [tag, ..] = rest else {
        return Got::More;
    };
    let message = match first {
        0x20 => MsgOut::SimpleTag(*tag),
        0x21 => MsgOut::HeadTag(*tag),
        _ => MsgOut::OrderedTag(*tag),
    };
    Got::Whole(message, 2)
}

/// A queue tag message to the initiator, from the bytes after the first one.
fn tag_in(rest: &[u8]) -> Got<MsgIn>
    ensures exact { result ≡ as_got to_initiator.SimpleTag (got_tag rest.now) }
    ensures fits { IfWhole result FitsIn }
{
    match rest {
        [tag, ..] => Got::Whole(MsgIn::SimpleTag(*tag), 2),
        [] => Got::More,
    }
}

/// A synchronous data transfer request to the target, from the bytes after the first one.
fn offer_out(rest: &[u8]) -> Got<MsgOut>
    ensures exact { result ≡ as_got to_target.Sdtr (got_offer rest.now) }
    ensures fits { IfWhole result FitsOut }
{
    match offer(rest) {
        Got::Whole(offered, len) => Got::Whole(MsgOut::Sdtr(offered), len),
        Got::More => Got::More,
        Got::Unknown => Got::Unknown,
    }
}

/// A synchronous data transfer request to the initiator, from the bytes after the first one.
fn offer_in(rest: &[u8]) -> Got<MsgIn>
    ensures exact { result ≡ as_got to_initiator.Sdtr (got_offer rest.now) }
    ensures fits { IfWhole result FitsIn }
{
    match offer(rest) {
        Got::Whole(offered, len) => Got::Whole(MsgIn::Sdtr(offered), len),
        Got::More => Got::More,
        Got::Unknown => Got::Unknown,
    }
}

/// What is offered, from the bytes after the first one of an extended message: its length, and more.
fn offer(rest: &[u8]) -> Got<Agreement>
    ensures { result ≡ got_offer rest.now }
{
    match rest {
        [] => Got::More,
        [0x03, after @ ..] => offer_after_length(after),
        _ => Got::Unknown,
    }
}

/// What is offered, from the bytes after the length of an extended message: its code, and the fields
/// of that.
fn offer_after_length(rest: &[u8]) -> Got<Agreement>
    ensures { result ≡ got_code rest.now }
{
    match rest {
        [0x01, period, offset, ..] => Got::Whole(
            Agreement {
                period: *period,
                offset: *offset,
            },
            5,
        ),
        [] | [0x01] | [0x01, _] => Got::More,
        _ => Got::Unknown,
    }
}
