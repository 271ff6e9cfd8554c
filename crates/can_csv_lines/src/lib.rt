//! Log lines in, rows of CSV out.
//!
//! [`csv_stream_by`] writes a row for each signal that is shown of each line of a log. [`header`] names the columns. A row contains
//! what the object of the line in `can_json_lines` contains for that signal.
#![tactic(auto)]

mod field;
pub mod laws;
mod line;
mod plan_texts;
mod signals;
mod stream;

pub use plan_texts::RowTexts;
pub use stream::{CsvDecoding, csv_stream_by, header};
