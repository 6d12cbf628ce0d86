//! A row as a line, with no memory.
ghost use Rattle.std.specs.Prelude.{◌≡◌, ◌<◌, ◌≤◌, ◌+◌, ◌^◌, ◌++◌, ◌∷◌, [], length};
ghost use Rattle.arrayvec.specs.ArrayString.{array_string_len};
ghost use Rattle.text_words.specs.Spelling.{hex_digit};
ghost use Rattle.trace_text.specs.RowText.{lines_text, kind_text, row_text};
ghost use Rattle.bus_trace.specs.OfTrace.{IsKind};

use arrayvec::ArrayString;
use bitflags::Flags;
use bus_trace::{Kind, Row};
use itoa::Buffer;
use text_words::hex_digit;

/// A hexadecimal digit, which is a character by itself.
pub(crate) fn glyph(value: u32) -> u8
    requires { value < 16 }
    ensures exact { result ≡ hex_digit value }
    ensures ascii { result < 128 }
{
    hex_digit(value as u8)
}

// One character more.
fn put(text: &mut ArrayString<40>, byte: u8)
    requires room { array_string_len text.old < 40 }
    requires ascii { byte < 128 }
    ensures bytes { text.new.bytes ≡ text.old.bytes ++ byte ∷ [] }
    ensures len { array_string_len text.new ≡ array_string_len text.old + 1 }
{
    text.push(char::from(byte));
}

// The five digits of the lines.
fn put_lines(text: &mut ArrayString<40>, lines: u32)
    requires room { array_string_len text.old < 35 }
    requires few { lines < 2 ^ 18 }
    ensures bytes { text.new.bytes ≡ text.old.bytes ++ lines_text lines }
    ensures len { array_string_len text.new ≡ array_string_len text.old + 5 }
{
    put(text, glyph(lines / 0x1_0000));
    put(text, glyph(lines / 0x1000 % 16));
    put(text, glyph(lines / 0x100 % 16));
    put(text, glyph(lines / 0x10 % 16));
    put(text, glyph(lines % 16));
}

// What the row tells.
fn put_kind(text: &mut ArrayString<40>, kind: Kind)
    requires room { array_string_len text.old < 35 }
    requires kind { IsKind kind }
    ensures bytes { text.new.bytes ≡ text.old.bytes ++ kind_text kind }
    ensures len { array_string_len text.new ≤ array_string_len text.old + 5 }
{
    match kind {
        Kind::Drives(lines) => put_lines(text, lines.bits()),
        Kind::Fault(bit) => {
            put(text, b'f');
            put(text, b'0' + bit);
        }
    }
}

/// The line of a row, with its line feed: `T D HHHHH`, the time in ns, the device and the bits of the
/// lines that it drives from then on, or `T D fB` for a fault on bit B.
pub fn print_row(row: &Row) -> ArrayString<40>
    requires device { row.now.dev < 8 }
    requires kind { IsKind row.now.kind }
    ensures { result.bytes ≡ row_text row.now }
{
    let mut text = ArrayString::new();
    let mut buffer = Buffer::new();
    text.push_str(buffer.format(row.time));
    put(&mut text, b' ');
    put(&mut text, b'0' + row.dev);
    put(&mut text, b' ');
    put_kind(&mut text, row.kind);
    put(&mut text, b'\n');
    text
}
