//! Edits of a database: sixteen changes, each one exact step.
//!
//! [`edited`] returns the changed database, or why the edit is refused; the database itself stays as it is. `specs/Edits.antt`
//! defines what each edit does, over whole lists.
#![tactic(auto)]

mod attributes;
mod change;
mod databases;
mod edit;
mod editing;
mod key;
mod messages;
mod refusal;
mod renamed_rows;
mod renaming;
mod renumbering;
mod rows;
mod signal_rows;
mod signals;
mod tables;

pub use change::Change;
pub use edit::Edit;
pub use editing::edited;
pub use refusal::Refusal;
pub use renaming::renamed;
