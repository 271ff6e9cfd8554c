//! The calls that no session makes.
ghost use Rattle.std.specs.Prelude.{◌≡◌, ◌<◌, length, map};
ghost use Rattle.can_layout.specs.Plans.{plan_of};

use crate::reporting::{begin, end, put, put_line, report};
use crate::showing::{show_database, show_diagnostics, show_meter, show_plan};
use byte_devices::{FromRead, Sink};
use can_check::all_faults;
use can_decode::{Short, decode_line, decode_stream};
use can_layout::{Meter, Plan, make_plan, make_plans, picture};
use dbc_reader::read;
use dbc_records::Database;
use std::alloc::Global;
use std::fmt::Display;

// The call has ended: writes its answer, and shows what it made.
fn given<T: Drop, E: Display + Drop, W: Sink>(sink: &mut W, answer: Result<T, E>) -> Option<T> {
    end(sink);
    match answer {
        Ok(made) => {
            report(sink, "ok");
            Some(made)
        }
        Err(fault) => {
            report(sink, fault);
            None
        }
    }
}

fn call_plan<W: Sink>(alloc: Global, database: &Database, index: usize, sink: &mut W)
    requires { index < length database.now.messages }
{
    let mut meter = Meter::new();
    begin(sink);
    let answer = make_plan(alloc, database, index, &mut meter);
    if let Some(plan) = given(sink, answer) {
        show_plan(sink, &plan);
    }
    show_meter(sink, &meter);
}

fn call_picture<W: Sink>(alloc: Global, database: &Database, index: usize, sink: &mut W)
    requires { index < length database.now.messages }
{
    let mut meter = Meter::new();
    begin(sink);
    let answer = picture(alloc, database, index, &mut meter);
    if let Some(picture) = given(sink, answer) {
        put(sink, picture.as_slice());
    }
    show_meter(sink, &meter);
}

fn call_faults<W: Sink>(alloc: Global, database: &Database, sink: &mut W) {
    begin(sink);
    let answer = all_faults(alloc, database);
    if let Some(found) = given(sink, answer) {
        show_diagnostics(sink, found.as_slice());
    }
}

// Decodes a line by itself.
fn call_decode<W: Sink>(
    alloc: Global,
    database: &Database,
    plans: &[Plan],
    line: &[u8],
    sink: &mut W,
)
    requires { plans.now ≡ map (plan_of database.now) database.now.messages }
{
    let mut meter = Meter::new();
    begin(sink);
    let answer = decode_line(alloc, database, plans, line, &mut meter, Short::Refuse);
    if let Some(text) = given(sink, answer) {
        put_line(sink, text.as_slice());
    }
    show_meter(sink, &meter);
}

fn decode_lines<W: Sink>(
    alloc: Global,
    database: &Database,
    plans: &[Plan],
    input: &[u8],
    sink: &mut W,
)
    requires { plans.now ≡ map (plan_of database.now) database.now.messages }
{
    for line in input.split(|byte| *byte == b'\n') {
        call_decode(alloc, database, plans, line, sink);
        call_decode(alloc, database, plans, line, sink);
    }
}

// Decodes a log, as it is streamed.
fn call_stream<W: Sink>(
    alloc: Global,
    database: &Database,
    plans: &[Plan],
    input: &[u8],
    sink: &mut W,
)
    requires { plans.now ≡ map (plan_of database.now) database.now.messages }
{
    let mut meter = Meter::new();
    let mut source = FromRead::new(input);
    begin(sink);
    let ended = decode_stream(
        alloc,
        database,
        plans,
        &mut meter,
        &mut source,
        sink,
        Short::Refuse,
    );
    end(sink);
    match ended {
        Ok(count) => report(sink, count),
        Err(fault) => report(sink, fault),
    }
    show_meter(sink, &meter);
}

// Whether the word asks for a whole log to be streamed, or for each of its lines to be decoded.
fn decode<W: Sink>(alloc: Global, streams: bool, database: &Database, input: &[u8], sink: &mut W) {
    let mut meter = Meter::new();
    match make_plans(alloc, database, &mut meter) {
        Ok(plans) => {
            if streams {
                call_stream(alloc, database, plans.as_slice(), input, sink);
            } else {
                decode_lines(alloc, database, plans.as_slice(), input, sink);
            }
        }
        Err(fault) => report(sink, fault),
    }
}

fn call_plans<W: Sink>(alloc: Global, database: &Database, sink: &mut W) {
    for index in 0..database.messages.len() {
        call_plan(alloc, database, index, sink);
        call_plan(alloc, database, index, sink);
    }
}

fn call_pictures<W: Sink>(alloc: Global, database: &Database, sink: &mut W) {
    for index in 0..database.messages.len() {
        call_picture(alloc, database, index, sink);
        call_picture(alloc, database, index, sink);
    }
}

fn call<W: Sink>(alloc: Global, word: &str, database: &Database, input: &[u8], sink: &mut W) {
    report(sink, "ok");
    match word {
        "read" => show_database(sink, database),
        "plans" => call_plans(alloc, database, sink),
        "pictures" => call_pictures(alloc, database, sink),
        "faults" => {
            call_faults(alloc, database, sink);
            call_faults(alloc, database, sink);
        }
        "decode" => decode(alloc, false, database, input, sink),
        "stream" => decode(alloc, true, database, input, sink),
        _ => report(sink, "no such word"),
    }
}

/// Reads a text, and makes the calls of a word with its database: each twice, except `stream`.
pub(crate) fn call_with_database<W: Sink>(
    alloc: Global,
    word: &str,
    text: &[u8],
    input: &[u8],
    sink: &mut W,
) {
    begin(sink);
    let answer = read(alloc, text);
    end(sink);
    match answer {
        Ok(database) => call(alloc, word, &database, input, sink),
        Err(fault) => report(sink, fault),
    }
}
