//! From a text to its lines.
ghost use Rattle.std.specs.Prelude.{◌≡◌, ◌<◌, ◌∷◌, ◌==◌, length, IfSome};
ghost use Rattle.std.specs.List.{position};
ghost use Rattle.text_words.specs.Lines.{lines_of};

use memchr::memchr;

/// The first line of a text, and what follows it.
#[derive(Clone, Copy)]
pub struct FirstLine<'a> {
    /// The line without its line feed.
    pub text: &'a [u8],
    /// Whether a line feed ends it.
    pub ended: bool,
    /// What follows the line feed.
    pub rest: &'a [u8],
}

/// Where the first line feed stands.
pub fn feed_at(bytes: &[u8]) -> Option<usize>
    ensures exact { result ≡ position (λ b. b == 10) bytes.now }
    ensures within { IfSome result (λ at. at < length bytes.now) }
{
    memchr(b'\n', bytes)
}

/// The first line of a text that is not empty: up to its line feed, or all of it where there is none.
pub fn first_line(bytes: &[u8]) -> FirstLine<'_>
    requires { 0 < length bytes.now }
    ensures exact { lines_of bytes.now
        ≡ record { text = result.text.now; ended = result.ended } ∷ lines_of result.rest.now }
    ensures shorter { length result.rest.now < length bytes.now }
{
    match feed_at(bytes) {
        Some(at) => FirstLine {
            text: &bytes[..at],
            ended: true,
            rest: &bytes[at + 1..],
        },
        None => FirstLine {
            text: bytes,
            ended: false,
            rest: &[],
        },
    }
}
