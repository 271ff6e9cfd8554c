//! The open session: a database that is edited, a log that is kept, and what is shown of both at every moment.
//!
//! After each edit and each line a [`Session`] shows what compiling its database from scratch, and decoding each line with it,
//! would show: the diagnostics, the decode plans, the diagrams and the decoded texts. What is refused leaves everything as it was.
//! An edit recomputes only what it can change.
#![tactic(auto)]

mod compiled_bus;
mod logged_edit;
mod options;
mod session;

pub use can_check::Diagnostic;
pub use can_decode::Short;
pub use can_layout::{Meter, Plan};
pub use dbc_edits::{Change, Edit, Refusal};
pub use options::{KeyedOptions, Options};
pub use session::Session;
pub use session_kept_lines::{Keep, LineCount};
