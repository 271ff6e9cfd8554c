//! Tests of checks, plans, diagrams and decoding, and of the entries, diagnostics, keys, frames and ready texts below them: what no
//! contract states about them. They are separate, as a crate with tests is proved once more with them.
#![tactic(auto)]

#[cfg(test)]
mod checking;
#[cfg(test)]
mod decoding;
#[cfg(test)]
mod diagnostics;
#[cfg(test)]
mod entries;
#[cfg(test)]
mod frames;
#[cfg(test)]
mod identifiers;
#[cfg(test)]
mod keys;
#[cfg(test)]
mod layouts;
#[cfg(test)]
mod reading;
#[cfg(test)]
mod ready;
#[cfg(test)]
mod visiting;
