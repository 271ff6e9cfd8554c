//! Tests of sessions and their scripts: what no contract states about them. They are separate, as a crate with tests is proved once
//! more with them. So are those of the streams of lines below.
#![tactic(auto)]

#[cfg(test)]
mod renaming;
#[cfg(test)]
mod runs;
#[cfg(test)]
mod scripts;
#[cfg(test)]
mod sessions;
#[cfg(test)]
mod streams;
#[cfg(test)]
mod transcripts;
