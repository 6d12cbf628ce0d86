//! A call of the program.
ghost use Rattle.std.specs.Prelude.{◌≡◌, ◌<◌, IfSome};
ghost use Rattle.scsibus_main_c.specs.Calls.{IsAnswer, IsCall};
ghost use Rattle.scsibus_main_c.specs.declared.calls.TheConstants.{VERSION};

use crate::input::Bytes;
use crate::text::{Text, show};
use crate::words::words_in;
use bus_base::Steps;
use bus_cli::{Status, bus_main};
use std::alloc::Global;
use std::marker::Brand;
use std::sync::ledger::{Blank, Ledger};

/// How a call ended.
#[repr(C)]
#[derive(Clone, Copy)]
pub struct ScsibusAnswer {
    /// The exit status of the program.
    pub status: u64,
    /// How many bytes the text has.
    pub length: u64,
}

/// The version of what C sees of this library.
const VERSION: u64 = 1;

// What the program says with these words of this input, and its status; or `None` where there was no memory.
fn answer<L: Ledger>(
    alloc: Global,
    blank: Blank,
    words: &[u8],
    input: &[u8],
) -> Option<(Status, Vec<u8>)>
    requires name { blank.name ≡ L.name }
    requires parts { blank.parts ≡ L.parts }
    requires some { 0 < blank.parts }
    ensures { IfSome result (λ said. IsAnswer words.now input.now said.0 said.1.items) }
{
    let words = words_in(alloc, words).ok()?;
    let mut input = Bytes { left: input };
    let mut text = Text::new(alloc);
    let mut steps = Steps::<L>::new(blank);
    let status = bus_main(alloc, &words, &mut input, &mut text, &mut steps);
    if text.faults > 0 {
        return None;
    }
    Some((status, text.bytes))
}

/// Does what the program does with the words of `words`, which single blanks part, and this input. What it writes
/// stands in `out` as far as it fits.
#[unsafe(no_mangle)]
pub extern "C" fn scsibus_main(
    alloc: Global,
    words: &[u8],
    input: &[u8],
    out: &mut [u8],
    answer: &mut ScsibusAnswer,
)
    ensures { IsCall words.now input.now out.old out.new answer.new }
{
    *answer = match self::answer::<Brand>(alloc, Blank::new(1), words, input) {
        Some((status, text)) => {
            show(&text, out);
            ScsibusAnswer {
                status: u64::from(status.code()),
                length: text.len() as u64,
            }
        }
        None => {
            show(b"no memory\n", out);
            ScsibusAnswer {
                status: u64::from(Status::Memory.code()),
                length: 10,
            }
        }
    };
}

/// The version of what C sees of this library.
#[unsafe(no_mangle)]
pub extern "C" fn scsibus_main_version() -> u64
    ensures { result ≡ VERSION }
{
    VERSION
}
