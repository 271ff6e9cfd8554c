//! The diagnostics of a database: all of them, in one list and in a fixed order.
//!
//! [`all_faults`] looks at the whole of a database, [`message_faults`] at one message, and [`all_faults_with`] finds entries by an
//! existing index. [`report_all`] reports what it finds as it goes, so that no list of all is kept, and [`report_message`] what it
//! finds of one message. [`push_own_faults`] adds only a message's own diagnostics, which no other message can change. Nothing that
//! is found keeps a database from being used.
#![tactic(auto)]

mod all;
pub mod laws;
mod layout_rules;
mod overlap_rules;
mod own;
mod report;
mod signal_rules;
mod value_rules;
mod walk_rules;

pub use all::{all_faults, all_faults_with, message_faults, report_all, report_message};
pub use can_diagnostics::{
    Code, Diagnostic, Subject, send_diagnostic, send_lines, write_diagnostic, write_lines,
};
pub use can_overlap::Occupancy;
pub use own::push_own_faults;
pub use report::Report;
