//! The jobs, each through the calls that the program `candesk` makes.

use crate::chance::Chance;
use crate::digest::Digest;
use crate::scripts::{changes, edits, lines_of};
use crate::texts::{overlapping, shared_values, vehicle};
use crate::traffic::{Traffic, frames_of};
use byte_devices::{FromRead, Source};
use candesk_calls::{job_of, run};
use dbc_reader::read;
use std::alloc::{AllocError, Global};

/// What keeps a job from being done.
#[derive(Debug, Drop)]
pub enum Undone {
    /// Memory ran out.
    Memory,
    /// A file is no text, no database or doesn't exist.
    File,
    /// The words name no job.
    Words,
}

impl From<AllocError> for Undone {
    fn from(_error: AllocError) -> Undone {
        Undone::Memory
    }
}

// Runs a command over a database, and adds what it writes and its status to the digest.
fn perform<R: Source>(
    alloc: Global,
    command: &str,
    text: &[u8],
    source: &mut R,
    digest: &mut Digest,
) -> Result<(), Undone> {
    let job = job_of(alloc, &[command, "database"]).map_err(|_| Undone::Words)?;
    let mut errors = Digest::new();
    let status = run(alloc, &job, text, source, digest, &mut errors);
    let (count, hash) = errors.result();
    digest.add(&[status]);
    digest.add(&count.to_le_bytes());
    digest.add(&hash.to_le_bytes());
    Ok(())
}

// Runs a command that reads this text on its standard input.
fn perform_over(
    alloc: Global,
    command: &str,
    text: &str,
    input: &[u8],
    digest: &mut Digest,
) -> Result<(), Undone> {
    let mut source = FromRead::new(input);
    perform(alloc, command, text.as_bytes(), &mut source, digest)
}

/// Decodes a log of this many frames of the database's messages.
pub fn decode(
    alloc: Global,
    chance: Chance,
    text: &[u8],
    lines: u32,
    digest: &mut Digest,
) -> Result<(), Undone> {
    let database = read(alloc, text).map_err(|_| Undone::File)?;
    let frames = frames_of(alloc, database.messages.as_slice())?;
    let mut source = Traffic::new(alloc, frames.as_slice(), chance, lines, (b"", b""));
    perform(alloc, "decode", text, &mut source, digest)
}

/// Checks, prints, draws and explains a database of this many messages.
pub fn texts(
    alloc: Global,
    chance: &mut Chance,
    messages: usize,
    digest: &mut Digest,
) -> Result<(), Undone> {
    let text = vehicle(alloc, chance, messages)?;
    for command in ["check", "print", "dump", "explain"] {
        perform_over(alloc, command, text.as_str(), b"", digest)?;
    }
    Ok(())
}

/// Opens a database of this many messages and edits it this many times.
pub fn edit(
    alloc: Global,
    chance: &mut Chance,
    messages: usize,
    count: usize,
    digest: &mut Digest,
) -> Result<(), Undone> {
    let text = vehicle(alloc, chance, messages)?;
    let script = edits(alloc, chance, messages, count)?;
    perform_over(alloc, "session", text.as_str(), script.as_bytes(), digest)
}

/// Keeps a log of this many lines, of this many messages, in a session, and then edits the message that most of them are of.
pub fn keep(
    alloc: Global,
    chance: &mut Chance,
    messages: usize,
    (lines, count): (u32, usize),
    digest: &mut Digest,
) -> Result<(), Undone> {
    let text = vehicle(alloc, chance, messages)?;
    let script = changes(alloc, chance, 0, count)?;
    let database = read(alloc, text.as_bytes()).map_err(|_| Undone::File)?;
    let frames = frames_of(alloc, database.messages.as_slice())?;
    let parts = (b"log ".as_slice(), script.as_bytes());
    let mut source = Traffic::new(alloc, frames.as_slice(), *chance, lines, parts);
    perform(alloc, "session", text.as_bytes(), &mut source, digest)
}

/// Runs what awkward inputs make expensive: a shared `VAL_` entry decoded with and checked, signals on one bit, and a session's
/// log of these identifiers.
pub fn awkward(
    alloc: Global,
    chance: &mut Chance,
    size: usize,
    identifiers: &str,
    digest: &mut Digest,
) -> Result<(), Undone> {
    let shared = shared_values(alloc, chance, size)?;
    perform_over(
        alloc,
        "decode",
        shared.as_str(),
        b"(0.0) can0 001#0000000000000000\n",
        digest,
    )?;
    perform_over(alloc, "check", shared.as_str(), b"", digest)?;
    let overlaps = overlapping(alloc, chance, size / 10)?;
    perform_over(alloc, "check", overlaps.as_str(), b"", digest)?;
    let script = lines_of(alloc, chance, identifiers)?;
    perform_over(alloc, "session", "BU_: Body\n", script.as_bytes(), digest)
}
