//! Value change dumps (IEEE 1364) of the bus, which wave viewers read.
//!
//! A dump has a variable of eighteen lines for each device, `d0` to `d7`, and the changes of its value with their
//! times. `specs/DumpText.antt` defines the dump of a trace, byte by byte; `specs/Tokens.antt`, `Steps.antt` and
//! `Reading.antt` what is read of one, token by token, with the first token that breaks the form.
//!
//! It stands on `text_pages` for writing and on `bus_trace` and `row_store` for rows. Its contract: [`write_vcd`]
//! writes the dump of some rows and an end to any sink, or a front of it where the sink fails; [`VcdReader`], which
//! takes a dump in any pieces, and [`read_vcd`] give its rows and its end, or the line of the first token that breaks
//! the form; of a token that has not ended few bytes are kept, however long it is (`specs/Kept.antt`). What was written
//! is read again ([`dumps_read_back`]).
#![tactic(auto)]

mod awaits;
mod codes;
mod driven_rows;
mod dump;
mod kept;
mod laws;
mod limit;
mod reader;
mod steps;
mod tokens;
mod whole;
mod word;
mod writing;

pub use bus_base::{Failed, Ns, Sink};
pub use bus_trace::{Kind, Lines, Row};
pub use laws::dumps_read_back;
pub use limit::LIMIT;
pub use reader::VcdReader;
pub use whole::{VcdBad, VcdRows, read_vcd};
pub use writing::write_vcd;
