//! A database with all that is shown of it: its diagnostics, and the plan and the diagram of each message.
//!
//! [`CompiledDatabase::of`] makes all of it. An edit is first [`Accepted`], and then [`Accepted::applied`] recomputes what the edit
//! can change. The plans, the diagrams and the own diagnostics of all other messages are kept.
#![tactic(auto)]

mod accepted;
mod compiled;
mod diagnosing;
mod recompiling;
mod rediagnosing;
mod shown;
mod splitting;

pub use accepted::{Accepted, AppliedEdit};
pub use shown::CompiledDatabase;
