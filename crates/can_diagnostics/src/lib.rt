//! Diagnostics of a database: each as data, and as a line.
//!
//! A [`Diagnostic`] is a [`Code`] and the [`Subject`] that it is about. [`write_lines`] writes many of them.
#![tactic(auto)]

mod code;
mod diagnostic;
pub mod laws;
mod row_line;
mod showing;
mod subject;
mod writing;

pub use code::Code;
pub use diagnostic::Diagnostic;
pub use subject::Subject;
pub use writing::{send_diagnostic, send_lines, write_diagnostic, write_lines};
