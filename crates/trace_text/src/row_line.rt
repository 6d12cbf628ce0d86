//! The line of a row that drives lines, after the upper digits of its time.
ghost use Rattle.std.specs.Prelude.{◌≡◌, ◌+◌, ◌/◌, ◌%◌, ◌<◌, ◌^◌, ◌++◌, ◌∷◌, []};
ghost use Rattle.trace_text.specs.RowText.{lines_text};

use bus_base::Dev;
use text_pages::two_digits;
use text_words::byte_text;

/// How long that part of a line is.
const END: usize = 13;

/// The last four digits of a time, the device and its lines.
pub(crate) fn line_end(low: u32, dev: Dev, lines: u32) -> [u8; END]
    requires low { low < 10000 }
    requires device { dev < 8 }
    requires few { lines < 2 ^ 18 }
    ensures { result ≡ (48 + low / 100 / 10) ∷ (48 + low / 100 % 10) ∷ (48 + low % 100 / 10) ∷ (48 + low % 100 % 10)
        ∷ (32 ∷ (48 + dev) ∷ 32 ∷ [] ++ lines_text lines ++ 10 ∷ []) }
{
    let high = two_digits((low / 100) as u8);
    let last = two_digits((low % 100) as u8);
    let upper = byte_text((lines / 0x100 % 0x100) as u8);
    let lower = byte_text((lines % 0x100) as u8);
    [
        high[0],
        high[1],
        last[0],
        last[1],
        b' ',
        b'0' + dev,
        b' ',
        b'0' + (lines / 0x1_0000) as u8,
        upper[0],
        upper[1],
        lower[0],
        lower[1],
        b'\n',
    ]
}
