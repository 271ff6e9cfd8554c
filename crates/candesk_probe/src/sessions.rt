//! The calls of a session.

use crate::reporting::{begin, end, report};
use crate::showing::show_session;
use byte_devices::{Sink, Source};
use can_session::{Keep, LineCount, Options, Refusal, Session, Short};
use dbc_tokens::ReadFault;
use session_script::{Command, command_of, serve};
use std::alloc::Global;

fn report_answer<W: Sink>(sink: &mut W, answer: Result<(), Refusal>) {
    match answer {
        Ok(()) => report(sink, "ok"),
        Err(refusal) => {
            let number = refusal.number();
            report(sink, format_args!("refused {number}"));
        }
    }
}

// Does what a line asks for.
fn do_command<W: Sink>(session: &mut Session, command: &Command<'_>, sink: &mut W) {
    begin(sink);
    let answer = match command {
        Command::Log(line) => session.add_line(line),
        Command::Change(edit) => session.apply(edit),
        _ => Ok(()),
    };
    end(sink);
    report_answer(sink, answer);
    show_session(sink, session);
}

// Does what a line of the input asks for, if that is an edit or a line of a log.
fn do_line<W: Sink>(alloc: Global, session: &mut Session, line: &[u8], sink: &mut W) {
    match command_of(alloc, line) {
        Ok(Some(command)) => do_command(session, &command, sink),
        Ok(None) => report(sink, "bad command"),
        Err(fault) => report(sink, fault),
    }
}

fn do_lines<W: Sink>(alloc: Global, session: &mut Session, input: &[u8], sink: &mut W) {
    for line in input.split(|byte| *byte == b'\n') {
        do_line(alloc, session, line, sink);
    }
}

// Runs a script, as one call.
fn serve_script<R: Source, W: Sink>(
    alloc: Global,
    session: &mut Session,
    source: &mut R,
    sink: &mut W,
) {
    begin(sink);
    let ended = serve(alloc, session, source, sink);
    end(sink);
    match ended {
        Ok(count) => report(sink, count),
        Err(fault) => report(sink, fault),
    }
    show_session(sink, session);
}

/// What is asked for in a session.
#[derive(Clone, Copy)]
pub(crate) struct Asked<'a> {
    /// The database text that it is opened on.
    pub text: &'a [u8],
    /// The commands, a line each, if no script is served.
    pub input: &'a [u8],
    /// Whether the script that the source gives is served.
    pub serves: bool,
    /// Whether only the last two lines are kept.
    pub bounded: bool,
}

fn call_in<R: Source, W: Sink>(
    alloc: Global,
    session: &mut Session,
    asked: Asked<'_>,
    source: &mut R,
    sink: &mut W,
) {
    report(sink, "ok");
    show_session(sink, session);
    if asked.serves {
        serve_script(alloc, session, source, sink);
    } else if !asked.input.is_empty() {
        do_lines(alloc, session, asked.input, sink);
    }
}

fn last_two() -> Keep {
    match LineCount::new(2) {
        Some(count) => Keep::Last(count),
        None => Keep::All,
    }
}

fn opened(alloc: Global, asked: Asked<'_>) -> Result<Session, ReadFault> {
    if asked.bounded {
        let options = Options {
            short: Short::Refuse,
            keep: last_two(),
        };
        Session::open_with(alloc, asked.text, options)
    } else {
        Session::open(alloc, asked.text)
    }
}

/// Opens a session, and in it runs the script that the source gives, or does what each line of the input asks for. (It is the one
/// owner of a session: each costs a proof of its own.)
pub(crate) fn call_with_session<R: Source, W: Sink>(
    alloc: Global,
    asked: Asked<'_>,
    source: &mut R,
    sink: &mut W,
) {
    begin(sink);
    let opened = opened(alloc, asked);
    end(sink);
    match opened {
        Ok(mut session) => call_in(alloc, &mut session, asked, source, sink),
        Err(fault) => report(sink, fault),
    }
}
