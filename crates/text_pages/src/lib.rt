//! Text on its way to a sink, through a page.
//!
//! A text is put piece by piece on a [`Page`] of some KiB, which the sink takes whole when it is full, so a long
//! text costs few writes and no memory. What puts text has no errors of its own: once a write fails nothing more is
//! written, and the page says so at the end.
//!
//! It stands on `bus_base` and `text_words`. Its contract: the sink and the page hold the texts that were put one
//! after another; after a fault the sink holds a front of them, and its count of faults rose.
#![tactic(auto)]

mod digits;
mod held;
mod pages;
mod parts;
mod upper_digits;

pub use digits::two_digits;
pub use held::SHORT;
pub use pages::{Page, flush, is_failed, new_page, put, put_marked, put_number, put_short};
pub use parts::{put_abort, put_byte, put_hex, put_spaced};
pub use upper_digits::{SPAN, UpperDigits};
