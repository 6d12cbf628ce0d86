//! What is kept of a token that has not ended.
ghost use Rattle.std.specs.Prelude.{◌≡◌, ◌<◌, ◌≤◌, ◌∷◌, ◌++◌, ◌||◌, [], true, false, length, nat_lt, IfOk, OnOk};
ghost use Rattle.vcd_text.specs.Tokens.{is_printable};
ghost use Rattle.vcd_text.specs.Kept.{Keeps, token_limit, is_new_code, IsShort, tail_after, change_tail, tail_of};

use crate::awaits::Awaits;
use crate::dump::Dump;
use crate::tokens::{is_letter, is_printable, is_state};
use crate::word::Word;
use std::alloc::AllocError;

/// What a token goes on with that is longer than any that matters by all of its bytes.
#[derive(Clone, Copy)]
pub(crate) enum Tail {
    /// Bytes that do not matter.
    Any,
    /// The states of a value of a variable that is no device.
    States,
    /// The digits of a number, which stands in the token from this place on.
    Digits(usize),
}

fn is_new_code(awaits: Awaits) -> bool
    ensures { result ≡ is_new_code awaits }
{
    matches!(awaits, Awaits::VarCode(_))
}

// Whether a byte more is kept after so many.
fn has_room(dump: &Dump, len: usize) -> bool
    ensures { result ≡ (is_new_code dump.now.awaits || nat_lt len (token_limit dump.now)) }
{
    let codes = dump.codes.longest();
    let devices = dump.devices.longest();
    is_new_code(dump.awaits) || len < 24 || len - 24 < codes || len - 24 - codes < devices
}

fn tail_after(first: u8) -> Tail
    ensures { result ≡ tail_after first }
{
    if first == b'#' {
        Tail::Digits(1)
    } else if is_letter(b'b', b'B', first) {
        Tail::States
    } else {
        Tail::Any
    }
}

fn tail_of(awaits: Awaits, kept: &[u8]) -> Tail
    ensures { result ≡ tail_of awaits kept.now }
{
    match awaits {
        Awaits::VarWidth => Tail::Digits(0),
        Awaits::Change => match kept {
            [first, ..] => tail_after(*first),
            [] => Tail::Any,
        },
        _ => Tail::Any,
    }
}

// A byte more of a token of which no more bytes are kept.
fn keep_long(dump: &Dump, kept: &mut Word, byte: u8) -> Result<bool, AllocError>
    requires told { is_new_code dump.now.awaits ≡ false }
    requires long { token_limit dump.now ≤ length kept.old }
    requires printable { is_printable byte ≡ true }
    ensures kept { IfOk result (λ ok. Keeps ok dump.now kept.new (kept.old ++ byte ∷ [])) }
    ensures len { OnOk result (length kept.new ≡ length kept.old) }
{
    match tail_of(dump.awaits, kept.as_slice()) {
        Tail::Any => Ok(true),
        Tail::States => Ok(is_state(byte)),
        Tail::Digits(at) => kept.push_digit(at, byte),
    }
}

/// One byte more of a token, and whether the form allows one that begins so.
fn keep(dump: &Dump, kept: &mut Word, byte: u8) -> Result<bool, AllocError>
    ensures kept { IfOk result (λ ok. Keeps ok dump.now kept.new (kept.old ++ byte ∷ [])) }
    ensures short { OnOk result (IsShort dump.now kept.old → IsShort dump.now kept.new) }
{
    if has_room(dump, kept.len()) {
        kept.push(byte)?;
        return Ok(true);
    }
    if is_printable(byte) {
        keep_long(dump, kept, byte)
    } else {
        Ok(false)
    }
}

/// Some bytes more of a token, and whether the form allows one that begins so.
pub(crate) fn keep_all(dump: &Dump, kept: &mut Word, text: &[u8]) -> Result<bool, AllocError>
    ensures kept { IfOk result (λ ok. Keeps ok dump.now kept.new (kept.old ++ text.now)) }
    ensures short { OnOk result (IsShort dump.now kept.old → IsShort dump.now kept.new) }
{
    for byte in text {
        if !keep(dump, kept, *byte)? {
            return Ok(false);
        }
    }
    Ok(true)
}
