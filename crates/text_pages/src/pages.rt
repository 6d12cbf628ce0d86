//! The page.
ghost use Rattle.std.specs.Prelude.{◌≡◌, ◌≤◌, [], ◌∷◌, ◌++◌, take, decimal, false};
ghost use Rattle.text_pages.specs.Pages.{IsSent, Puts, Prints};

use crate::held::{Held, SHORT};
use bus_base::{Sink, write_all};
use itoa::Buffer;

/// Bytes that a sink takes together. Once a write of them fails no more is written, and the flag stays: so
/// what puts text has no errors of its own, and only the end asks for the flag.
#[derive(Drop)]
pub struct Page {
    bytes: Held,
    failed: bool,
}

/// An empty page, of which no write has failed.
pub fn new_page() -> Page
    ensures empty { result.bytes.items ≡ [] }
    ensures fresh { result.failed ≡ false }
{
    Page {
        bytes: Held::new(),
        failed: false,
    }
}

/// Whether a write of the page failed.
pub fn is_failed(page: &Page) -> bool
    ensures { result ≡ page.now.failed }
{
    page.failed
}

// Writes a piece, unless a write failed before, and answers whether one has failed now.
fn send<K: Sink>(out: &mut K, failed: bool, piece: &[u8]) -> bool
    ensures sent { IsSent failed result (K.written out.old) (K.written out.new) (K.faults out.old)
        (K.faults out.new) piece.now }
    ensures never_falls { K.faults out.old ≤ K.faults out.new }
{
    if failed {
        return true;
    }
    write_all(out, piece).is_err()
}

/// Writes what stands on the page.
pub fn flush<K: Sink>(out: &mut K, page: &mut Page)
    ensures put { Prints K.written K.faults out.old out.new page.old page.new [] }
    ensures clear { page.new.bytes.items ≡ [] }
{
    page.failed = send(out, page.failed, page.bytes.as_slice());
    page.bytes.clear();
}

// Puts a text for which the page has no room.
#[cold]
#[inline(never)]
fn put_past<K: Sink>(out: &mut K, page: &mut Page, text: &[u8])
    ensures { Prints K.written K.faults out.old out.new page.old page.new text.now }
{
    flush(out, page);
    if page.bytes.has_added(text) {
        return;
    }
    page.failed = send(out, page.failed, text);
}

/// Puts a text after what was put so far.
#[inline]
pub fn put<K: Sink>(out: &mut K, page: &mut Page, text: &[u8])
    ensures { Prints K.written K.faults out.old out.new page.old page.new text.now }
{
    if page.bytes.has_added(text) {
        return;
    }
    put_past(out, page, text);
}

/// Puts the first `len` of these bytes, as quickly as a text of a fixed length.
#[inline]
pub fn put_short<K: Sink>(out: &mut K, page: &mut Page, bytes: &[u8; SHORT], len: usize)
    requires { len ≤ 32 }
    ensures { Prints K.written K.faults out.old out.new page.old page.new (take len bytes.now) }
{
    if page.bytes.has_added_short(bytes, len) {
        return;
    }
    put_past(out, page, &bytes[..len]);
}

// Puts a byte, the first `len` of these bytes and then others, for which the page has no room together.
#[cold]
#[inline(never)]
fn put_marked_past<K: Sink>(
    out: &mut K,
    page: &mut Page,
    mark: u8,
    bytes: &[u8; SHORT],
    len: usize,
    end: &[u8],
)
    requires { len ≤ 32 }
    ensures { Prints K.written K.faults out.old out.new page.old page.new (mark ∷ take len bytes.now ++ end.now) }
{
    put(out, page, &[mark]);
    put_short(out, page, bytes, len);
    put(out, page, end);
}

/// Puts a byte, the first `len` of these bytes and then others, with one look whether there is room.
#[inline]
pub fn put_marked<K: Sink>(
    out: &mut K,
    page: &mut Page,
    mark: u8,
    bytes: &[u8; SHORT],
    len: usize,
    end: &[u8],
)
    requires { len ≤ 32 }
    ensures { Prints K.written K.faults out.old out.new page.old page.new (mark ∷ take len bytes.now ++ end.now) }
{
    if page.bytes.has_added_marked(mark, bytes, len, end) {
        return;
    }
    put_marked_past(out, page, mark, bytes, len, end);
}

/// Puts a number in decimal.
pub fn put_number<K: Sink>(out: &mut K, page: &mut Page, number: u64)
    ensures { Prints K.written K.faults out.old out.new page.old page.new (decimal number) }
{
    let mut buffer = Buffer::new();
    put(out, page, buffer.format(number).as_bytes());
}
