//! workloads: the jobs that users of candesk wait for, over inputs that a seed determines, for `bench/run`.
//!
//! `workloads decode SEED LINES FILE..` decodes this many lines with each database, `texts SEED MESSAGES` checks, prints,
//! draws and explains a database, `edit SEED MESSAGES EDITS` edits one in a session, `keep SEED MESSAGES LINES EDITS` edits
//! one under a log, and `awkward SEED SIZE FILE` runs what awkward inputs make expensive. Each prints a digest of all that was
//! written, and no times.
#![tactic(auto)]

mod chance;
mod digest;
mod jobs;
mod scripts;
mod texts;
mod traffic;

use crate::chance::Chance;
use crate::digest::Digest;
use crate::jobs::Undone;
use std::process::ExitCode;
use std::{env, fs};

// The words after the program's name.
fn words_of(rt: &HostRuntime) -> Result<Vec<String>, Undone> {
    let mut words = Vec::new(rt.alloc());
    for word in env::args(rt).map_err(|_| Undone::Words)?.skip(1) {
        words.push(word).map_err(|_| Undone::Memory)?;
    }
    Ok(words)
}

fn number(words: &[String], index: usize) -> Result<u32, Undone> {
    words
        .get(index)
        .and_then(|word| word.as_str().parse::<u32>().ok())
        .ok_or(Undone::Words)
}

fn size(words: &[String], index: usize) -> Result<usize, Undone> {
    Ok(number(words, index)? as usize)
}

// Decodes a log with each database.
fn decode_all(rt: &HostRuntime, words: &[String], digest: &mut Digest) -> Result<(), Undone> {
    let mut seed = number(words, 1)?;
    let lines = number(words, 2)?;
    for file in words.iter().skip(3) {
        let text = fs::read(rt, file.as_str()).map_err(|_| Undone::File)?;
        jobs::decode(
            rt.alloc(),
            Chance::new(seed),
            text.as_slice(),
            lines,
            digest,
        )?;
        seed = seed.wrapping_add(1);
    }
    Ok(())
}

fn awkward(
    rt: &HostRuntime,
    words: &[String],
    chance: &mut Chance,
    digest: &mut Digest,
) -> Result<(), Undone> {
    let file = words.get(3).ok_or(Undone::Words)?;
    let identifiers = fs::read_to_string(rt, file.as_str()).map_err(|_| Undone::File)?;
    jobs::awkward(
        rt.alloc(),
        chance,
        size(words, 2)?,
        identifiers.as_str(),
        digest,
    )
}

fn work(rt: &HostRuntime, words: &[String], digest: &mut Digest) -> Result<(), Undone> {
    let word = words.first().ok_or(Undone::Words)?;
    let mut chance = Chance::new(number(words, 1)?);
    match word.as_str() {
        "decode" => decode_all(rt, words, digest),
        "texts" => jobs::texts(rt.alloc(), &mut chance, size(words, 2)?, digest),
        "edit" => jobs::edit(
            rt.alloc(),
            &mut chance,
            size(words, 2)?,
            size(words, 3)?,
            digest,
        ),
        "keep" => {
            let parts = (number(words, 3)?, size(words, 4)?);
            jobs::keep(rt.alloc(), &mut chance, size(words, 2)?, parts, digest)
        }
        "awkward" => awkward(rt, words, &mut chance, digest),
        _ => Err(Undone::Words),
    }
}

fn run(rt: &HostRuntime) -> Result<(), Undone> {
    let words = words_of(rt)?;
    let mut digest = Digest::new();
    work(rt, words.as_slice(), &mut digest)?;
    let (count, hash) = digest.result();
    println!(rt; "{count} bytes, digest {hash:016x}").map_err(|_| Undone::File)
}

fn main(rt: HostRuntime) -> ExitCode {
    match run(&rt) {
        Ok(()) => ExitCode::from(0),
        Err(why) => {
            let _ = eprintln!(rt; "workloads: {why:?}");
            ExitCode::from(1)
        }
    }
}
