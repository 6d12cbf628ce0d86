//! From a text to its words.
ghost use Rattle.std.specs.Prelude.{◌≡◌, ◌≤◌, ◌<◌, ◌*◌, ◌%◌, length, take, Some, IfSome};
ghost use Rattle.std.specs.Char.{is_ascii_digit};
ghost use Rattle.std.specs.List.{prefix_len};
ghost use Rattle.text_words.specs.Digits.{IsDecimalSoFar};
ghost use Rattle.text_words.specs.Words.{Sees, after, small, pushed, value_after, is_decimal, number_at, is_digit, digit_at, hex_digits_at, hex_array_at, is_hex, hex_value, hex_or_16, bytes_of, is_whole};

use core::dec2flt::read_digits;

/// The value of a number in a text: `None` from 2^64 on.
pub type Number = Option<u64>;

/// What follows `text` at the front of `bytes`, or `None` where they do not begin with it.
#[tactic(auto, unfolding(crate::specs::Words::after))]
pub fn after<'a>(text: &[u8], bytes: &'a [u8]) -> Option<&'a [u8]>
    ensures { Sees (λ x. x.now) result (after text.now bytes.now) }
{
    bytes.strip_prefix(text)
}

/// A number below 2^64 with one digit more at its end.
#[inline]
fn pushed(number: u64, digit: u8) -> Number
    ensures { result ≡ pushed (Some number) digit }
{
    let digit = u64::from(digit.saturating_sub(b'0'));
    // Below this no digit takes it to 2^64.
    if number < 1 << 60 {
        Some(number * 10 + digit)
    } else {
        number.checked_mul(10)?.checked_add(digit)
    }
}

/// Whether digits spell a number: one or more, and no leading zero.
fn is_decimal(digits: &[u8]) -> bool
    ensures { result ≡ is_decimal digits.now }
{
    !digits.is_empty() && !(digits.len() > 1 && digits[0] == b'0')
}

#[cold]
fn decimal_len(bytes: &[u8]) -> usize
    ensures exact { result ≡ prefix_len is_ascii_digit bytes.now }
    ensures within { result ≤ length bytes.now }
{
    bytes.iter().take_while(|b| b.is_ascii_digit()).count()
}

/// The value of all digits at the front, and how many they are, where those before `from` have the value `so_far`. It
/// is left at the first digit that takes the value to 2^64, since the value never falls again.
#[inline(always)]
fn decimal_from(bytes: &[u8], so_far: u64, from: usize) -> (Number, usize)
    requires { IsDecimalSoFar bytes.now so_far from }
    ensures len { result.1 ≡ prefix_len is_ascii_digit bytes.now }
    ensures within { result.1 ≤ length bytes.now }
    ensures value { result.0 ≡ small (value_after 0 (take result.1 bytes.now)) }
{
    let mut value = so_far;
    let mut len = from;
    while len < bytes.len() && bytes[len].is_ascii_digit() {
        match pushed(value, bytes[len]) {
            Some(more) => value = more,
            None => return (None, decimal_len(bytes)),
        }
        len += 1;
    }
    (Some(value), len)
}

#[cold]
fn short_decimal(bytes: &[u8]) -> (Number, usize)
    ensures len { result.1 ≡ prefix_len is_ascii_digit bytes.now }
    ensures within { result.1 ≤ length bytes.now }
    ensures value { result.0 ≡ small (value_after 0 (take result.1 bytes.now)) }
{
    decimal_from(bytes, 0, 0)
}

/// The value of all digits at the front, and how many they are: the library reads the first eight bytes at once, and
/// others follow one by one.
#[inline(always)]
fn decimal(bytes: &[u8]) -> (Number, usize)
    ensures len { result.1 ≡ prefix_len is_ascii_digit bytes.now }
    ensures within { result.1 ≤ length bytes.now }
    ensures value { result.0 ≡ small (value_after 0 (take result.1 bytes.now)) }
{
    if bytes.len() < 8 {
        return short_decimal(bytes);
    }
    let (len, value) = read_digits(&bytes[..8], 0, 0);
    if len < 8 {
        (Some(value), len)
    } else {
        decimal_from(bytes, value, 8)
    }
}

/// The decimal number at the front, and what follows it: all digits there, one or more, with no
/// leading zero. `None` where there is none.
#[inline(always)]
#[tactic(auto, unfolding(crate::specs::Words::number_at))]
pub fn number(bytes: &[u8]) -> Option<(Number, &[u8])>
    ensures { Sees (λ x. (x.0, x.1.now)) result (number_at bytes.now) }
{
    let (value, len) = decimal(bytes);
    let (digits, rest) = bytes.split_at(len);
    if is_decimal(digits) {
        Some((value, rest))
    } else {
        None
    }
}

fn is_digit(byte: u8) -> bool
    ensures { result ≡ is_digit byte }
{
    b'0' <= byte && byte <= b'7'
}

/// The device, 0 to 7, that the digit at the front names, and what follows it.
pub fn digit(bytes: &[u8]) -> Option<(u8, &[u8])>
    ensures exact { Sees (λ x. (x.0, x.1.now)) result (digit_at bytes.now) }
    ensures small { IfSome result (λ x. x.0 < 8) }
{
    let (first, rest) = bytes.split_first()?;
    if is_digit(*first) {
        Some((*first - b'0', rest))
    } else {
        None
    }
}

/// Whether a byte is a hexadecimal digit, in lower case.
pub fn is_hex_digit(byte: u8) -> bool
    ensures { result ≡ is_hex byte }
{
    hex_or_16(byte) < 16
}

fn hex_len(bytes: &[u8]) -> usize
    ensures exact { result ≡ prefix_len is_hex bytes.now }
    ensures within { result ≤ length bytes.now }
{
    bytes.iter().take_while(|b| is_hex_digit(**b)).count()
}

/// The hexadecimal digits at the front, and what follows them: all digits there, two for each of
/// one or more bytes. `None` where there are none, or an odd number of them.
#[tactic(auto, unfolding(crate::specs::Words::hex_digits_at))]
pub fn hex_digits(bytes: &[u8]) -> Option<(&[u8], &[u8])>
    ensures exact { Sees (λ x. (x.0.now, x.1.now)) result (hex_digits_at bytes.now) }
    ensures even { IfSome result (λ x. length x.0.now % 2 ≡ 0) }
{
    let len = hex_len(bytes);
    let is_odd = len % 2 == 1;
    if len == 0 || is_odd {
        None
    } else {
        Some(bytes.split_at(len))
    }
}

/// The value of a hexadecimal digit, below 16.
pub fn hex_value(digit: u8) -> u8
    ensures exact { result ≡ hex_value digit }
    ensures small { result < 16 }
{
    if digit < b'a' {
        digit.saturating_sub(b'0') % 16
    } else {
        (digit - 87) % 16
    }
}

/// The value of each byte that is a hexadecimal digit in lower case, and 16 for any other.
static HEX_VALUES: [u8; 256] = [
    16, 16, 16, 16, 16, 16, 16, 16, 16, 16, 16, 16, 16, 16, 16, 16, 16, 16, 16, 16, 16, 16, 16, 16,
    16, 16, 16, 16, 16, 16, 16, 16, 16, 16, 16, 16, 16, 16, 16, 16, 16, 16, 16, 16, 16, 16, 16, 16,
    0, 1, 2, 3, 4, 5, 6, 7, 8, 9, 16, 16, 16, 16, 16, 16, 16, 16, 16, 16, 16, 16, 16, 16, 16, 16,
    16, 16, 16, 16, 16, 16, 16, 16, 16, 16, 16, 16, 16, 16, 16, 16, 16, 16, 16, 16, 16, 16, 16, 10,
    11, 12, 13, 14, 15, 16, 16, 16, 16, 16, 16, 16, 16, 16, 16, 16, 16, 16, 16, 16, 16, 16, 16, 16,
    16, 16, 16, 16, 16, 16, 16, 16, 16, 16, 16, 16, 16, 16, 16, 16, 16, 16, 16, 16, 16, 16, 16, 16,
    16, 16, 16, 16, 16, 16, 16, 16, 16, 16, 16, 16, 16, 16, 16, 16, 16, 16, 16, 16, 16, 16, 16, 16,
    16, 16, 16, 16, 16, 16, 16, 16, 16, 16, 16, 16, 16, 16, 16, 16, 16, 16, 16, 16, 16, 16, 16, 16,
    16, 16, 16, 16, 16, 16, 16, 16, 16, 16, 16, 16, 16, 16, 16, 16, 16, 16, 16, 16, 16, 16, 16, 16,
    16, 16, 16, 16, 16, 16, 16, 16, 16, 16, 16, 16, 16, 16, 16, 16, 16, 16, 16, 16, 16, 16, 16, 16,
    16, 16, 16, 16, 16, 16, 16, 16, 16, 16, 16, 16, 16, 16,
];

/// The value of a hexadecimal digit in lower case, and 16 for any other byte: the test and the value in one.
#[inline]
pub fn hex_or_16(byte: u8) -> u8
    ensures exact { result ≡ hex_or_16 byte }
    ensures small { result ≤ 16 }
{
    HEX_VALUES[byte as usize]
}

/// Writes the bytes that `digits` spell into `bytes`, which has room for exactly these.
pub fn decode(digits: &[u8], bytes: &mut [u8])
    requires { length digits.now ≡ 2 * length bytes.old }
    ensures { bytes.new ≡ bytes_of digits.now }
{
    let mut at = 0;
    let mut rest = digits;
    while let [high, low, others @ ..] = rest {
        bytes[at] = hex_value(*high) * 16 + hex_value(*low);
        at += 1;
        rest = others;
    }
}

/// The `N` bytes that the hexadecimal digits at the front spell, and what follows them. `None`
/// where they are not the digits of `N` bytes.
#[tactic(auto, unfolding(crate::specs::Words::hex_array_at))]
pub fn hex_array<const N: usize>(bytes: &[u8]) -> Option<([u8; N], &[u8])>
    ensures { Sees (λ x. (x.0, x.1.now)) result (hex_array_at N bytes.now) }
{
    let (digits, rest) = hex_digits(bytes)?;
    if digits.len() / 2 != N {
        return None;
    }
    let mut array = [0; N];
    decode(digits, &mut array);
    Some((array, rest))
}

/// Whether nothing follows: `Some` where `rest` is empty.
pub fn whole(rest: &[u8]) -> Option<()>
    ensures { result ≡ is_whole rest.now }
{
    if rest.is_empty() { Some(()) } else { None }
}
