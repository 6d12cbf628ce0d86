//! What a token of a dump says by itself.
ghost use Rattle.std.specs.Prelude.{◌≡◌, ◌<◌, ◌^◌, nat_eq, Some, IfSome, if◌then◌else◌};
ghost use Rattle.std.specs.List.{list_all};
ghost use Rattle.std.specs.Cmp.Lexicographic.{pointwise};
ghost use Rattle.vcd_text.specs.Tokens.{is_space, is_printable, is_token, is_end, more_decimal, decimal_of, more_bits, bits_of, lines_of, is_bit, is_state, are_states, is_letter, device_named, given, after_keyword, after_timescale, after_width, after_part, after_change_keyword, after_value};

use crate::awaits::Awaits;
use bitflags::Flags;
use bus_base::Dev;
use bus_trace::Lines;

/// Whether tokens end before this byte.
#[inline]
pub(crate) fn is_space(byte: u8) -> bool
    ensures { result ≡ is_space byte }
{
    byte == b' ' || byte == b'\t' || byte == b'\r' || byte == b'\n'
}

/// Whether a token may have this byte.
#[inline]
pub(crate) fn is_printable(byte: u8) -> bool
    ensures { result ≡ is_printable byte }
{
    33 <= byte && byte <= 126
}

/// Whether all bytes are 21 to 7e.
pub(crate) fn is_token(token: &[u8]) -> bool
    ensures { result ≡ is_token token.now }
{
    token.iter().all(|b| is_printable(*b))
}

/// Whether the token is this word.
pub(crate) fn is_word(word: &[u8], token: &[u8]) -> bool
    ensures { result ≡ pointwise nat_eq token.now word.now }
{
    token == word
}

fn is_end(token: &[u8]) -> bool
    ensures { result ≡ is_end token.now }
{
    is_word(b"$end", token)
}

// A number with one decimal digit more at its end.
fn more_decimal(value: u64, digit: u8) -> Option<u64>
    ensures { result ≡ more_decimal (Some value) digit }
{
    if digit.is_ascii_digit() {
        value.checked_mul(10)?.checked_add(u64::from(digit - b'0'))
    } else {
        None
    }
}

/// The decimal number that the token is, below 2^64.
pub(crate) fn decimal(token: &[u8]) -> Option<u64>
    ensures { result ≡ decimal_of token.now }
{
    if token.is_empty() {
        return None;
    }
    let mut value = 0;
    let mut rest = token;
    while let [digit, others @ ..] = rest {
        value = more_decimal(value, *digit)?;
        rest = others;
    }
    Some(value)
}

fn is_bit(byte: u8) -> bool
    ensures { result ≡ is_bit byte }
{
    byte == b'0' || byte == b'1'
}

// A number of lines with one binary digit more at its end.
fn more_bits(value: u32, digit: u8) -> Option<u32>
    requires { value < 2 ^ 18 }
    ensures exact { result ≡ more_bits (Some value) digit }
    ensures small { IfSome result (λ n. n < 2 ^ 18) }
{
    if !is_bit(digit) {
        return None;
    }
    let value = value * 2 + u32::from(digit - b'0');
    if value < 1 << 18 { Some(value) } else { None }
}

/// The number that at most 18 binary digits are.
fn bits(digits: &[u8]) -> Option<u32>
    ensures exact { result ≡ bits_of digits.now }
    ensures small { IfSome result (λ n. n < 2 ^ 18) }
{
    if digits.len() > 18 {
        return None;
    }
    let mut value = 0;
    let mut rest = digits;
    while let [digit, others @ ..] = rest {
        value = more_bits(value, *digit)?;
        rest = others;
    }
    Some(value)
}

// The lines that 1 to 18 binary digits are.
fn lines(digits: &[u8]) -> Option<Lines>
    ensures { result ≡ lines_of digits.now }
{
    match bits(digits) {
        Some(bits) => Some(Lines::from_bits_retain(bits)),
        None => None,
    }
}

/// Whether the byte is one of 0, 1, x, X, z and Z.
pub(crate) fn is_state(byte: u8) -> bool
    ensures { result ≡ is_state byte }
{
    is_bit(byte) || byte == b'x' || byte == b'X' || byte == b'z' || byte == b'Z'
}

fn all_states(digits: &[u8]) -> bool
    ensures { result ≡ list_all is_state digits.now }
{
    digits.iter().all(|d| is_state(*d))
}

fn are_states(digits: &[u8]) -> bool
    ensures { result ≡ are_states digits.now }
{
    !digits.is_empty() && all_states(digits)
}

/// Whether the byte is one of these two.
pub(crate) fn is_letter(lower: u8, upper: u8, byte: u8) -> bool
    ensures { result ≡ is_letter lower upper byte }
{
    byte == lower || byte == upper
}

/// The device that a variable of this name is.
pub(crate) fn device_named(name: &[u8]) -> Option<Dev>
    ensures exact { result ≡ device_named name.now }
    ensures small { IfSome result (λ device. device < 8) }
{
    match name {
        [b'd', digit] if b'0' <= *digit && *digit <= b'7' => Some(*digit - b'0'),
        _ => None,
    }
}

/// What is awaited next, where the token is right.
pub(crate) fn given(is_right: bool, next: Awaits) -> Option<Awaits>
    ensures { result ≡ given is_right next }
{
    if is_right { Some(next) } else { None }
}

/// What is awaited after the keyword of a declaration, but `$timescale`.
pub(crate) fn after_keyword(has_timescale: bool, token: &[u8]) -> Option<Awaits>
    ensures { result ≡ after_keyword has_timescale token.now }
{
    if is_word(b"$date", token) {
        Some(Awaits::Remark)
    } else if is_word(b"$version", token) {
        Some(Awaits::Remark)
    } else if is_word(b"$comment", token) {
        Some(Awaits::Remark)
    } else if is_word(b"$scope", token) {
        Some(Awaits::ScopeKind)
    } else if is_word(b"$upscope", token) {
        Some(Awaits::End)
    } else if is_word(b"$var", token) {
        Some(Awaits::VarKind)
    } else if is_word(b"$enddefinitions", token) {
        given(has_timescale, Awaits::LastEnd)
    } else {
        None
    }
}

fn after_timescale(token: &[u8]) -> Option<Awaits>
    ensures { result ≡ after_timescale token.now }
{
    if is_word(b"1ns", token) {
        Some(Awaits::End)
    } else if is_word(b"1", token) {
        Some(Awaits::Nanoseconds)
    } else {
        None
    }
}

fn after_width(width: Option<u64>) -> Option<Awaits>
    ensures { result ≡ after_width width }
{
    match width {
        Some(width) => Some(Awaits::VarCode(width == 18)),
        None => None,
    }
}

// This, or another where the token is `$end`.
fn until_end(token: &[u8], ended: Awaits, on: Awaits) -> Awaits
    ensures { result ≡ (if is_end token.now then ended else on) }
{
    if is_end(token) { ended } else { on }
}

/// What is awaited after a token within a declaration or a comment.
pub(crate) fn after_part(awaits: Awaits, token: &[u8]) -> Option<Awaits>
    ensures { result ≡ after_part awaits token.now }
{
    match awaits {
        Awaits::Remark => Some(until_end(token, Awaits::Declaration, Awaits::Remark)),
        Awaits::Timescale => after_timescale(token),
        Awaits::Nanoseconds => given(is_word(b"ns", token), Awaits::End),
        Awaits::ScopeKind => Some(Awaits::ScopeName),
        Awaits::ScopeName => Some(Awaits::End),
        Awaits::End => given(is_end(token), Awaits::Declaration),
        Awaits::VarKind => Some(Awaits::VarWidth),
        Awaits::VarWidth => after_width(decimal(token)),
        Awaits::VarRange => Some(until_end(token, Awaits::Declaration, Awaits::End)),
        Awaits::LastEnd => given(is_end(token), Awaits::Change),
        Awaits::ChangeRemark => Some(until_end(token, Awaits::Change, Awaits::ChangeRemark)),
        Awaits::Declaration
        | Awaits::VarCode(_)
        | Awaits::VarName(_)
        | Awaits::Change
        | Awaits::Code(_) => None,
    }
}

/// What is awaited after a keyword among the changes.
pub(crate) fn after_change_keyword(token: &[u8]) -> Option<Awaits>
    ensures { result ≡ after_change_keyword token.now }
{
    if is_word(b"$dumpvars", token) {
        Some(Awaits::Change)
    } else if is_word(b"$dumpall", token) {
        Some(Awaits::Change)
    } else if is_word(b"$dumpon", token) {
        Some(Awaits::Change)
    } else if is_end(token) {
        Some(Awaits::Change)
    } else if is_word(b"$comment", token) {
        Some(Awaits::ChangeRemark)
    } else {
        None
    }
}

/// What is awaited after the digits of a value.
pub(crate) fn after_value(digits: &[u8]) -> Option<Awaits>
    ensures { result ≡ after_value digits.now }
{
    given(are_states(digits), Awaits::Code(lines(digits)))
}
