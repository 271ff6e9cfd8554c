//! The program's calls: what it does with its words, a database and the standard streams.
//!
//! [`job_of`] of `candesk_words` reads the words, [`run`] does a job on the bytes of its file, and [`refuse`] reports why there is
//! none. [`run_keyed`] is for programs that read untrusted lines, as its session can't be slowed down by crafted identifiers.
//! [`run`] uses the runs of `candesk_runs` and the session of `session_script`, whose contracts state what is written.
#![tactic(auto)]

mod refusing;
mod running;

pub use candesk_runs::{
    RunFault, Short, StreamFault, Verdict, check_run, decode_csv_run, decode_json_run, decode_run,
    dump_run, explain_run, print_run, status,
};
pub use candesk_words::{Command, DumpForm, Job, LogForm, NoJob, ReportForm, job_of};
pub use refusing::{refuse, refuse_file};
pub use running::{run, run_keyed};
pub use session_script::{Keep, LineCount, Options, Session, serve};
