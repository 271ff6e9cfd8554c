//! Tests of command lines and of whole runs: what no contract states about them. They are separate, as a crate with tests is
//! proved once more with them.
#![tactic(auto)]

#[cfg(test)]
mod calls;
#[cfg(test)]
mod words;
