//! Bytes in hexadecimal, numbers that a space follows, and what an abort is aimed at, on a page.
ghost use Rattle.std.specs.Prelude.{◌++◌, ◌∷◌, [], decimal};
ghost use Rattle.text_words.specs.Spelling.{byte_text, hex_text};
ghost use Rattle.text_pages.specs.AbortText.{abort_text};
ghost use Rattle.text_pages.specs.Pages.{Prints};

use crate::pages::{Page, put, put_number};
use bus_base::{AbortKind, Sink};
use text_words::byte_text;

/// Puts the two hexadecimal digits of a byte.
pub fn put_byte<K: Sink>(out: &mut K, page: &mut Page, byte: u8)
    ensures { Prints K.written K.faults out.old out.new page.old page.new (byte_text byte) }
{
    put(out, page, &byte_text(byte));
}

/// Puts the two hexadecimal digits of each byte.
pub fn put_hex<K: Sink>(out: &mut K, page: &mut Page, bytes: &[u8])
    ensures { Prints K.written K.faults out.old out.new page.old page.new (hex_text bytes.now) }
{
    for byte in bytes {
        put_byte(out, page, *byte);
    }
}

/// Puts a number in decimal, and a space.
pub fn put_spaced<K: Sink>(out: &mut K, page: &mut Page, number: u64)
    ensures { Prints K.written K.faults out.old out.new page.old page.new (decimal number ++ 32 ∷ []) }
{
    put_number(out, page, number);
    put(out, page, b" ");
}

/// Puts what an abort message is aimed at.
pub fn put_abort<K: Sink>(out: &mut K, page: &mut Page, what: AbortKind)
    ensures { Prints K.written K.faults out.old out.new page.old page.new (abort_text what) }
{
    match what {
        AbortKind::All => put(out, page, b"all"),
        AbortKind::Tag(tag) => {
            put(out, page, b"tag ");
            put_number(out, page, tag as u64)
        }
        AbortKind::WholeQueue => put(out, page, b"queue"),
        AbortKind::Device => put(out, page, b"device"),
    }
}
