//! The text of traces and reports.
//!
//! A trace is the line `trace 1`, a line for each row and the line `end T`. A report is a trace, and
//! then the history, the replies, the blocks of the disks and what stands on the tapes of a run. `specs/` defines these
//! texts over plain lists; whoever prints or reads one cites these definitions.
//!
//! It stands on `text_words`, `text_pages`, `bus_base`, `bus_trace`, `row_store`, `cdb_codec`, `scenario`, `disk_unit`,
//! `tape_unit` and `run_record`. Its contract: [`report`] writes the report of a run to any sink, or a front of it
//! where the sink fails, and [`short_report`] the short one, and [`write_trace`] the text of a trace alone;
//! [`print_row`] is the line of a row; [`TraceReader`], which takes a trace text byte by byte or in pieces and keeps no
//! row, tells each row and the first line that breaks the form, however the text is cut, and where rows follow one
//! another it is a [`RowsReader`]; [`KeptTrace`] keeps the rows of a text that comes in pieces, and [`read_trace`] is
//! all rows and the end, or that line. What is printed is read again ([`traces_read_back`], [`reports_read_back`]), and
//! only such rows and ends are read ([`reads_only`]).
#![tactic(auto)]

mod blocks_part;
mod history_part;
mod kept_trace;
mod laws;
mod limit;
mod line_front;
mod reader;
mod replies_part;
mod row_line;
mod rows;
mod rows_reader;
mod short_form;
mod stages;
mod tapes_part;
mod trace_part;
mod whole;
mod whole_report;
mod whole_trace;

pub use bus_base::Ns;
pub use bus_trace::{Kind, Lines, Row};
pub use kept_trace::KeptTrace;
pub use laws::{reads_only, reports_read_back, traces_read_back};
pub use limit::LIMIT;
pub use reader::TraceReader;
pub use rows::print_row;
pub use rows_reader::RowsReader;
pub use short_form::short_report;
pub use stages::Told;
pub use whole::{Trace, TraceBad, read_trace};
pub use whole_report::report;
pub use whole_trace::write_trace;
