//! candesk_probe: makes calls of candesk's libraries one by one, and reports for each its answer and all that is returned
//! by reference after it.
//!
//! `candesk_probe WORD FILE` reads a database text. Right before a call it writes the line `begin`, and right after it `end`, so
//! that a preloaded library can refuse the allocations of one call alone, or fail its reads and writes. It isn't installed;
//! `tests/test_refused_calls.py` and `tests/test_failing_devices.py` judge what it writes.
#![tactic(auto)]

mod calls;
mod reporting;
mod sessions;
mod showing;

use crate::calls::call_with_database;
use crate::sessions::{Asked, call_with_session};
use byte_devices::{FromRead, FromWrite, Sink, Source};
use std::alloc::Global;
use std::io::Read;
use std::{env, fs};

// The words after the program's name.
fn words_of(rt: &HostRuntime) -> Option<Vec<String>> {
    let mut words = Vec::new(rt.alloc());
    for word in env::args(rt).ok()?.skip(1) {
        words.push(word).ok()?;
    }
    Some(words)
}

// All of standard input.
fn input_of(rt: &HostRuntime) -> Option<Vec<u8>> {
    let mut input = Vec::new(rt.alloc());
    rt.stdin().read_to_end(&mut input).ok()?;
    Some(input)
}

// Makes the calls of a word. What reads or opens, and nothing else, is done twice.
fn call<R: Source, W: Sink>(
    alloc: Global,
    word: &str,
    asked: Asked<'_>,
    source: &mut R,
    sink: &mut W,
) {
    match word {
        "read" => {
            call_with_database(alloc, word, asked.text, asked.input, sink);
            call_with_database(alloc, word, asked.text, asked.input, sink);
        }
        "open" => {
            call_with_session(alloc, asked, source, sink);
            call_with_session(alloc, asked, source, sink);
        }
        "session" | "kept" | "serve" => call_with_session(alloc, asked, source, sink),
        _ => call_with_database(alloc, word, asked.text, asked.input, sink),
    }
}

// Standard input is read before the calls, except by a call that reads it itself.
fn work(rt: &HostRuntime, word: &str, text: &[u8]) -> Option<()> {
    let input = if word == "serve" {
        Vec::new(rt.alloc())
    } else {
        input_of(rt)?
    };
    let mut source = FromRead::new(rt.stdin());
    let mut sink = FromWrite::new(rt.stdout());
    let asked = Asked {
        text,
        input: input.as_slice(),
        serves: word == "serve",
        bounded: word == "kept",
    };
    call(rt.alloc(), word, asked, &mut source, &mut sink);
    Some(())
}

fn run(rt: &HostRuntime) -> Option<()> {
    let words = words_of(rt)?;
    let word = words.as_slice().first()?;
    let file = words.as_slice().get(1)?;
    let text = fs::read(rt, file.as_str()).ok()?;
    work(rt, word.as_str(), text.as_slice())
}

fn main(rt: HostRuntime) {
    run(&rt);
}
