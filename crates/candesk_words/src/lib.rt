//! The words of the program's command line.
//!
//! [`job_of`] reads them: a command and the path of its database, or why there is no job. clap determines how words are read at
//! all, with options, `--` and `help`.
#![tactic(auto)]

mod job;
mod line;
mod notes;
mod version;

pub use job::{Command, DumpForm, Job, LogForm, NoJob, ReportForm, job_of};
pub use session_kept_lines::{Keep, LineCount};
