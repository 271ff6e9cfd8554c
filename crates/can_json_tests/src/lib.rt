//! Tests of JSON objects: what no contract states about them.
#![tactic(auto)]

#[cfg(test)]
mod lines;
