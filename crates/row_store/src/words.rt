//! The words that rows are kept in.
ghost use Rattle.std.specs.Prelude.{◌≡◌, ◌+◌, ◌*◌, ◌/◌, ◌%◌, ◌<◌, ◌^◌, ◌==◌, ◌-◌, ◌||◌, true, false, IfSome, None, nat_lt, nat_le};
ghost use Rattle.row_store.specs.Words.{lines_in, device_in, mark_in, apart_in, is_time, kind_in, row_in, time_after};

use bitflags::Flags;
use bus_base::Ns;
use bus_trace::{Kind, Lines, Row};

/// How many values the lines of a row have.
const LINES: u64 = 0x4_0000;

/// How many values a device has.
const DEVICES: u64 = 256;

/// How many marks there are: what a word is.
const MARKS: u64 = 4;

/// The mark of a row that drives lines.
const DRIVES: u64 = 0;

/// The mark of a row that is a fault.
const FAULT: u64 = 1;

/// The mark of a time alone.
const TIME: u64 = 2;

/// The word of a row has room for fewer ns.
pub(crate) const APART: Ns = 0x10_0000_0000;

/// How many units of so many ns a time has at most.
const UNITS: u64 = 0x1000_0000;

/// Whether a word is a time alone.
#[inline(always)]
pub(crate) fn is_time(word: u64) -> bool
    ensures { result ≡ is_time word }
{
    word / LINES / DEVICES % MARKS == TIME
}

/// The time of a word, where this was that of the word before.
#[inline(always)]
pub(crate) fn time_after(time: Ns, word: u64) -> Ns
    ensures { result ≡ time_after time word }
{
    let apart = word / LINES / DEVICES / MARKS;
    if is_time(word) {
        apart % UNITS * APART
    } else {
        time.wrapping_add(apart)
    }
}

fn kind_in(word: u64) -> Kind
    ensures { result ≡ kind_in word }
{
    if word / LINES / DEVICES % MARKS == FAULT {
        Kind::Fault((word % 256) as u8)
    } else {
        Kind::Drives(Lines::from_bits_retain((word % LINES) as u32))
    }
}

/// The row of a word at this time.
#[inline(always)]
pub(crate) fn row_in(time: Ns, word: u64) -> Row
    ensures { result ≡ row_in time word }
{
    Row {
        time,
        dev: (word / LINES % DEVICES) as u8,
        kind: kind_in(word),
    }
}

// A word of these fields.
fn word_of(apart: u64, mark: u64, dev: u8, low: u32) -> u64
    requires apart { apart < 2 ^ 36 }
    requires mark { mark < 4 }
    requires low { low < 2 ^ 18 }
    ensures lines { lines_in result ≡ low }
    ensures device { device_in result ≡ dev }
    ensures mark { mark_in result ≡ mark }
    ensures apart { apart_in result ≡ apart }
{
    ((apart * MARKS + mark) * DEVICES + dev as u64) * LINES + low as u64
}

/// How long after the row before a row of this time comes, in ns, where its word has room for that.
#[inline(always)]
pub(crate) fn apart(last: Ns, time: Ns) -> Option<Ns>
    ensures room { IfSome result (λ n. n < 2 ^ 36) }
    ensures far { result ≡ None → (nat_lt time last || nat_le (2 ^ 36) (time - last)) ≡ true }
    ensures sum { IfSome result (λ n. last + n ≡ time) }
    ensures fits { time < 2 ^ 64 }
{
    if time < last || time - last >= APART {
        return None;
    }
    Some(time - last)
}

/// The word of a row, so long after the row before.
#[inline(always)]
pub(crate) fn row_word(apart: Ns, row: &Row) -> u64
    requires { apart < 2 ^ 36 }
    ensures row { is_time result ≡ false }
    ensures apart { apart_in result ≡ apart }
    ensures device { device_in result ≡ row.now.dev }
    ensures kind { kind_in result ≡ row.now.kind }
{
    match row.kind {
        Kind::Drives(lines) => word_of(apart, DRIVES, row.dev, lines.bits()),
        Kind::Fault(code) => word_of(apart, FAULT, row.dev, code as u32),
    }
}

/// The word of the time from which a row of this time counts.
pub(crate) fn time_word(time: Ns) -> u64
    ensures time { is_time result ≡ true }
    ensures units { apart_in result ≡ time / 2 ^ 36 }
    ensures fits { time < 2 ^ 64 }
{
    word_of(time / APART, TIME, 0, 0)
}
