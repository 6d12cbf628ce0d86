//! Lines of the line-based texts and their words: literals, decimal numbers, the digits of devices, and bytes in
//! hexadecimal.
//!
//! A word is read at the front of a slice, and the reader gives its value and what follows it. So
//! a line is read from left to right by a chain of `?`, with no memory, as its definition is a `do`
//! chain over the same words.
//!
//! Public contract: each function answers exactly what its definition in `specs/Words.antt` says, and
//! each word has one spelling (`specs/Spelling.antt`): what is spelled is read again, whatever
//! follows that does not go on with a digit, and what is read was spelled so (the laws).
#![tactic(auto)]

mod laws;
mod lines;
mod reading;
mod writing;

pub use laws::{
    after_only, after_same, digit_again, digit_only, hex_again, hex_array_again, hex_array_only,
    hex_only, number_again, number_only, whole_only,
};
pub use lines::{FirstLine, feed_at, first_line};
pub use reading::{
    Number, after, decode, digit, hex_array, hex_digits, hex_or_16, hex_value, is_hex_digit,
    number, whole,
};
pub use writing::{byte_text, hex_digit};
