//! Rows and verdicts as C has them.
ghost use Rattle.std.specs.Prelude.{◌≡◌, ◌<◌, ◌^◌, length, IfSome};
ghost use Rattle.std.specs.List.{position};
ghost use Rattle.scsibus_c.specs.Rows.{is_row, is_off, row_of, told};

use bus_rules::Verdict;
use bus_trace::{Kind, Row, lines_in};

/// A row of a trace.
#[repr(C)]
#[derive(Clone, Copy)]
pub struct ScsibusRow {
    /// When, in ns.
    pub time: u64,
    /// Of kind 0 the lines that the device drives from then on, below 2^18. Of kind 1 the bit that a fault strikes,
    /// 0 to 7, or 8 for parity.
    pub value: u32,
    /// The device, 0 to 7.
    pub dev: u8,
    /// What the row says: 0 for lines, 1 for a fault.
    pub kind: u8,
}

/// A verdict. Rule 0: lawful. Rule 1 to 28: row `row`, counted from 1, is the first that breaks a rule, and this the
/// lowest that it breaks. Rule 255: row `row` of those that were handed is out of range. Rule 254: the memory holds no
/// judge.
#[repr(C)]
#[derive(Clone, Copy)]
pub struct ScsibusVerdict {
    /// The row, counted from 1; 0 where there is none to name.
    pub row: u64,
    /// The rule.
    pub rule: u64,
}

/// Whether a row is in range.
pub fn is_row(row: &ScsibusRow) -> bool
    ensures { result ≡ is_row row.now }
{
    let has_value = if row.kind == 0 {
        row.value < 0x4_0000
    } else {
        row.kind == 1 && row.value < 9
    };
    row.dev < 8 && has_value
}

/// Where the first row that is out of range stands, from 0.
pub fn first_off(rows: &[ScsibusRow]) -> Option<usize>
    ensures exact { result ≡ position is_off rows.now }
    ensures within { IfSome result (λ at. at < length rows.now) }
    ensures few { length rows.now < 2 ^ 63 }
{
    // One row alone.
    if let [row] = rows {
        return if is_row(row) { None } else { Some(0) };
    }
    rows.iter().position(|row| !is_row(row))
}

/// The row that a row of C says.
pub fn row_of(row: &ScsibusRow) -> Row
    ensures { result ≡ row_of row.now }
{
    let kind = if row.kind == 0 {
        Kind::Drives(lines_in(u64::from(row.value)))
    } else {
        Kind::Fault((row.value % 256) as u8)
    };
    Row {
        time: row.time,
        dev: row.dev,
        kind,
    }
}

/// A verdict as C reads it.
pub fn told(verdict: Verdict) -> ScsibusVerdict
    ensures { result ≡ told verdict }
{
    match verdict {
        Verdict::Lawful => ScsibusVerdict { row: 0, rule: 0 },
        Verdict::Broken { row, rule } => ScsibusVerdict {
            row: row as u64,
            rule: u64::from(rule),
        },
    }
}
