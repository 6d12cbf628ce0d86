//! The judge of bus traces for C and whatever calls C: a static library.
//!
//! A caller hands rows as an array of [`ScsibusRow`], and gets a [`ScsibusVerdict`]. `scsibus_judge_trace` judges a
//! whole trace. [`ScsibusJudge`] is a judge in memory of the caller, which sees rows as they come: it holds plain words
//! and no pointer, so it can be copied, written to a file and read back. The library takes no memory, keeps nothing
//! between calls and never stops the program. It stands on `trace_checker`, `bus_rules` and `bus_trace`;
//! `include/scsibus.h` declares it for C.
//!
//! Its contract: the verdict on a whole trace is `judged_whole` of its rows; after `scsibus_judge_start` and any calls
//! of `scsibus_judge_feed` the verdict is `judged` of all rows so far, and `scsibus_judge_finish` tells what
//! `judged_whole` is of them. A row that is out of range, and memory that holds no judge, get an answer of their own.
#![tactic(auto)]

mod judge;
mod rows;

pub use judge::{
    ScsibusJudge, scsibus_judge_feed, scsibus_judge_finish, scsibus_judge_size,
    scsibus_judge_start, scsibus_judge_trace, scsibus_judge_try, scsibus_version,
};
pub use rows::{ScsibusRow, ScsibusVerdict};
