//! The lines of a trace text: what each says after those before it.
ghost use Rattle.std.specs.Prelude.{◌≡◌, ◌<◌, ◌+◌, ◌^◌, [], ◌∷◌, IfSome};
ghost use Rattle.text_words.specs.Words.{Sees};
ghost use Rattle.trace_text.specs.Lines.{below, kind_at, row_at, end_at, is_first, is_history, stage_after, row_told, count_of, stepped, IsOfBus, SaysOfBus, TellsOfBus};
ghost use Rattle.trace_text.specs.Pieces.{StartsWithRow, front_row};

use bitflags::Flags;
use bus_base::Ns;
use bus_trace::{Kind, Lines, Row};
use text_words::{Number, after, digit, hex_or_16, number, whole};

/// Where a text stands.
#[derive(Clone, Copy)]
pub(crate) enum Stage {
    /// Before the line `trace 1`.
    Start,
    /// Among the rows.
    Rows,
    /// After the line of the end, which told this time.
    Ended(Ns),
    /// After the line `history`, from which on nothing is looked at.
    History(Ns),
}

/// The stage and the number of lines so far; or the first line that breaks the form.
#[derive(Clone, Copy)]
pub(crate) enum State {
    Open { stage: Stage, count: u32 },
    Bad(u32),
}

/// What a byte of a trace text told.
#[derive(Clone, Copy)]
pub enum Told {
    /// Nothing yet.
    Quiet,
    /// It is the line feed that ends the line of this row.
    RowRead(Row),
    /// This line, the first being 1, breaks the form; it came with its line feed, and stays.
    Bad(u32),
}

fn below(time: Number) -> Option<Ns>
    ensures { result ≡ below time }
{
    match time {
        Some(t) if t < 1 << 63 => Some(t),
        _ => None,
    }
}

// The lines that five hexadecimal digits tell.
#[inline(always)]
fn driven(a: u8, b: u8, c: u8, d: u8, e: u8) -> Option<Kind>
    ensures { result ≡ kind_at (a ∷ b ∷ c ∷ d ∷ e ∷ []) }
{
    let (a, b, c) = (hex_or_16(a), hex_or_16(b), hex_or_16(c));
    let (d, e) = (hex_or_16(d), hex_or_16(e));
    if a < 4 && b < 16 && c < 16 && d < 16 && e < 16 {
        let high = u32::from(a) * 16 + u32::from(b);
        let low = (u32::from(c) * 16 + u32::from(d)) * 16 + u32::from(e);
        Some(Kind::Drives(Lines::from_bits_retain(high * 4096 + low)))
    } else {
        None
    }
}

// What a row tells.
fn kind(bytes: &[u8]) -> Option<Kind>
    ensures { result ≡ kind_at bytes.now }
{
    match bytes {
        [b'f', bit] if b'0' <= *bit && *bit <= b'8' => Some(Kind::Fault(*bit - b'0')),
        [a, b, c, d, e] => driven(*a, *b, *c, *d, *e),
        _ => None,
    }
}

#[tactic(auto, unfolding(crate::specs::Lines::row_at))]
fn row_of(line: &[u8]) -> Option<Row>
    ensures exact { result ≡ row_at line.now }
    ensures device { IsOfBus result }
{
    let (time, rest) = number(line)?;
    let time = below(time)?;
    let rest = after(b" ", rest)?;
    let (dev, rest) = digit(rest)?;
    let rest = after(b" ", rest)?;
    let kind = kind(rest)?;
    Some(Row { time, dev, kind })
}

// The row of the line that the bytes begin with, and how many bytes that line has with its line feed: in one pass,
// with no search for the line feed. It leaves to others what is rare: the rows of faults.
#[inline(always)]
#[tactic(auto, unfolding(crate::specs::Pieces::front_row))]
pub(crate) fn row_front(bytes: &[u8]) -> Option<(Row, usize)>
    ensures exact { result ≡ front_row bytes.now }
    ensures starts { IfSome result (λ x. StartsWithRow bytes.now x.0 x.1) }
    ensures device { IfSome result (λ x. x.0.dev < 8) }
{
    let (time, rest) = number(bytes)?;
    let time = below(time)?;
    match rest {
        [b' ', dev, b' ', a, b, c, d, e, b'\n', others @ ..] if b'0' <= *dev && *dev <= b'7' => {
            let kind = driven(*a, *b, *c, *d, *e)?;
            let dev = *dev - b'0';
            Some((Row { time, dev, kind }, bytes.len() - others.len()))
        }
        _ => None,
    }
}

#[tactic(auto, unfolding(crate::specs::Lines::end_at))]
fn end_of(line: &[u8]) -> Option<Ns>
    ensures { result ≡ end_at line.now }
{
    let rest = after(b"end ", line)?;
    let (time, rest) = number(rest)?;
    whole(rest)?;
    below(time)
}

fn is_first(line: &[u8]) -> bool
    ensures { result ≡ is_first line.now }
{
    line == b"trace 1".as_slice()
}

fn is_history(line: &[u8]) -> bool
    ensures { result ≡ is_history line.now }
{
    line == b"history".as_slice()
}

// Where the text stands after a line, and the row of that line.
fn stage_after(stage: Stage, line: &[u8]) -> Option<(Stage, Option<Row>)>
    ensures exact { result ≡ stage_after stage line.now }
    ensures device { SaysOfBus result }
{
    match stage {
        Stage::Start => {
            if is_first(line) {
                Some((Stage::Rows, None))
            } else {
                None
            }
        }
        Stage::Rows => {
            if let Some(row) = row_of(line) {
                return Some((Stage::Rows, Some(row)));
            }
            let end = end_of(line)?;
            Some((Stage::Ended(end), None))
        }
        Stage::Ended(end) => {
            if is_history(line) {
                Some((Stage::History(end), None))
            } else {
                None
            }
        }
        Stage::History(end) => Some((Stage::History(end), None)),
    }
}

fn row_told(row: Option<Row>) -> Told
    requires { IsOfBus row }
    ensures exact { result ≡ row_told row }
    ensures device { TellsOfBus result }
{
    match row {
        Some(row) => Told::RowRead(row),
        None => Told::Quiet,
    }
}

/// The state after a line, and what its line feed tells.
pub(crate) fn stepped(state: State, line: &[u8]) -> (State, Told)
    ensures exact { count_of state + 1 < 2 ^ 32 → result ≡ stepped state line.now }
    ensures device { TellsOfBus result.1 }
{
    match state {
        State::Bad(at) => (State::Bad(at), Told::Bad(at)),
        State::Open { stage, count } => {
            let count = count.saturating_add(1);
            match stage_after(stage, line) {
                None => (State::Bad(count), Told::Bad(count)),
                Some((stage, row)) => (State::Open { stage, count }, row_told(row)),
            }
        }
    }
}
