//! The whole program in process for C and whatever calls C: a static library.
//!
//! `scsibus_main` does what the program does with these words and this input: it is [`bus_main`] over memory. The
//! text that the program would print comes into memory of the caller, or as much of it as fits, and [`ScsibusAnswer`]
//! has the exit status and the length of the whole text. It takes memory by `malloc`, `realloc` and `free`, keeps
//! nothing between calls and never stops the program. `include/scsibus_main.h` declares it for C. It stands on
//! `bus_cli`, and on `bus_base` for input and output.
//!
//! Its contract (`IsCall` of `specs/Calls.antt`): status and text are those that the contract of `bus_main` permits for
//! these words and this input where neither a read nor a write fails; or memory ran out.
//!
//! [`bus_main`]: bus_cli::bus_main
#![tactic(auto)]

mod calls;
mod input;
mod text;
mod words;

pub use calls::{ScsibusAnswer, scsibus_main, scsibus_main_version};
