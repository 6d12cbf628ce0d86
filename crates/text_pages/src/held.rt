//! The bytes on a page.
ghost use Rattle.std.specs.Prelude.{◌≡◌, ◌≤◌, [], ◌∷◌, ◌++◌, take, true, false};

use std::marker::Model;

/// How many bytes a page holds.
const PAGE: usize = 65_536;

/// How long a short text is at most.
pub const SHORT: usize = 32;

/// The bytes on a page. A short text is copied together with the bytes behind it, which the next text covers: a copy of
/// a length that is known beforehand costs a few instructions.
#[derive(Drop)]
pub(crate) struct Held {
    bytes: [u8; PAGE],
    len: usize,
}

impl Model for Held {
    ghost use Rattle.std.specs.Prelude.{take, ◌≤◌};
    ghost use Rattle.text_pages.specs.Held.{HeldBytes};

    ghost Value = { HeldBytes };

    ghost view = { λ h. record { items = take h.len h.bytes } };

    ghost invariant = { λ h. h.len ≤ 65536 };
}

impl Held {
    pub(crate) fn new() -> Held
        ensures { result.items ≡ [] }
    {
        Held {
            bytes: [0; PAGE],
            len: 0,
        }
    }

    pub(crate) fn as_slice(&self) -> &[u8]
        ensures { result.now ≡ self.now.items }
    {
        &self.bytes[..self.len]
    }

    pub(crate) fn clear(&mut self)
        ensures { self.new.items ≡ [] }
    {
        self.len = 0;
    }

    /// Adds a text, if there is room.
    #[inline]
    pub(crate) fn has_added(&mut self, text: &[u8]) -> bool
        ensures added { result ≡ true → self.new.items ≡ self.old.items ++ text.now }
        ensures kept { result ≡ false → self.new.items ≡ self.old.items }
    {
        let has_room = text.len() <= PAGE - self.len;
        if has_room {
            self.bytes[self.len..self.len + text.len()].copy_from_slice(text);
            self.len += text.len();
        }
        has_room
    }

    /// Adds the first `len` of these bytes, if there is room for all.
    #[inline]
    pub(crate) fn has_added_short(&mut self, bytes: &[u8; SHORT], len: usize) -> bool
        requires { len ≤ 32 }
        ensures added { result ≡ true → self.new.items ≡ self.old.items ++ take len bytes.now }
        ensures kept { result ≡ false → self.new.items ≡ self.old.items }
    {
        let has_room = SHORT <= PAGE - self.len;
        if has_room {
            self.bytes[self.len..self.len + SHORT].copy_from_slice(bytes);
            self.len += len;
        }
        has_room
    }

    /// Adds a byte, the first `len` of these bytes and then others, if there is room for all of them.
    #[inline(always)]
    pub(crate) fn has_added_marked(
        &mut self,
        mark: u8,
        bytes: &[u8; SHORT],
        len: usize,
        end: &[u8],
    ) -> bool
        requires { len ≤ 32 }
        ensures added { result ≡ true → self.new.items ≡ self.old.items ++ mark ∷ take len bytes.now ++ end.now }
        ensures kept { result ≡ false → self.new.items ≡ self.old.items }
    {
        let has_room = 1 + SHORT + end.len() <= PAGE - self.len;
        if has_room {
            let from = self.len + 1;
            let at = from + len;
            self.bytes[self.len] = mark;
            self.bytes[from..from + SHORT].copy_from_slice(bytes);
            self.bytes[at..at + end.len()].copy_from_slice(end);
            self.len = at + end.len();
        }
        has_room
    }
}
