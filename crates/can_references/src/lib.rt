//! Diagnostics about how parts of a database refer to each other: CAN identifiers, names and parameter groups that several messages
//! have, nodes, messages, signals and definitions that are named but don't exist, and entries that occur twice.
//!
//! [`CrossReferences`] has the keys of the whole database. With it each call adds the diagnostics of one message, of one entry
//! or of all entries.
//!
//! Keys are kept in sets: each reports of a key whether it was added, and how often, in logarithmic time. Most keys are
//! distinguished by a hash. Those that agree in it are compared whole, so no answer depends on it, and no keys, however crafted,
//! make a set slow. Contracts see a set as the list of all keys that were added, in order.
#![tactic(auto)]

mod apart;
mod cross_references;
mod entry_keys;
mod hash;
mod hashed_signals;
mod hashes;
mod integers;
mod keys;
mod many_rows;
mod many_values;
mod message_rules;
mod names;
mod node_rules;
mod numbered;
mod numbered_signals;
mod numbers;
mod raw_range;
mod row_rules;
mod signal_names;
mod signal_search;
mod sorted;
mod spans;
mod values;

pub use apart::all_differ;
pub use cross_references::CrossReferences;
pub use entry_keys::EntryKeys;
pub use hash::entry_hash;
pub use message_rules::{is_pseudo, push_head_faults};
pub use names::Names;
pub use node_rules::push_unknown_nodes;
pub use numbers::Numbers;
pub use row_rules::{push_row, row_faults};
pub use signal_names::SignalNames;
