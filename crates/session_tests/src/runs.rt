//! Runs of a session: commands, what it replies, and what it shows after them.

use byte_devices::limp::Limp;
use can_line_stream::StreamFault;
use can_session::Short;
use session_script::{Keep, Options, Session, serve};
use std::alloc::Global;
use std::test::Fail;

/// More than any run reads or writes.
pub const ALL: usize = usize::MAX;

/// The state of a session: how many messages it has, how many signals the plan of the first has, how many diagnostics are reported,
/// and the first line with its text.
#[derive(Clone, Copy)]
pub struct SessionState {
    pub messages: usize,
    pub signals: usize,
    pub diagnostics: usize,
    pub line: &'static [u8],
    pub decoded: &'static [u8],
}

/// Commands, and what is seen after them.
#[derive(Clone, Copy)]
pub struct Run {
    pub commands: &'static [u8],
    pub replies: &'static [u8],
    pub ended: Result<u64, StreamFault>,
    pub standing: SessionState,
    /// How many plans and diagrams were made since the session was opened, and how many lines decoded.
    pub made: (u64, u64),
}

/// How commands are read and replies written: this many bytes are read at a time, and this many in all can be read and written.
#[derive(Clone, Copy)]
pub struct Devices {
    pub at_once: usize,
    pub read: usize,
    pub written: usize,
}

// Whether the first message has a plan of this many signals.
fn plans(session: &Session, signals: usize) -> bool {
    !session.database().messages.as_slice().is_empty() && session.plan(0).signals() == signals
}

// Whether the first line is this one, and decoded in this way.
fn shows(session: &Session, line: &[u8], decoded: &[u8]) -> bool {
    0 < session.line_count() && session.line(0) == line && session.decoded(0) == decoded
}

fn occurs(session: &Session, standing: &SessionState) -> bool {
    session.database().messages.len() == standing.messages
        && session.diagnostics().len() == standing.diagnostics
        && plans(session, standing.signals)
        && shows(session, standing.line, standing.decoded)
}

fn counts(session: &Session, (made, decoded): (u64, u64)) -> bool {
    let meter = session.meter();
    meter.plans() == made && meter.pictures() == made && meter.lines() == decoded
}

// Whether the session performs the commands as expected.
fn does(alloc: Global, session: &mut Session, devices: &Devices, run: &Run) -> Result<bool, Fail> {
    let commands = run.commands.to_vec(alloc)?;
    let mut source = Limp::new(commands, devices.at_once.max(1), u64::MAX, devices.read);
    let mut sink = Limp::new(Vec::new(alloc), 2, u64::MAX, devices.written);
    let ended = serve(alloc, session, &mut source, &mut sink);
    Ok(
        ended == run.ended
            && sink.bytes() == run.replies
            && occurs(session, &run.standing)
            && counts(session, run.made),
    )
}

// Whether the session performs the runs as expected, one after another.
fn does_all(
    alloc: Global,
    session: &mut Session,
    devices: &Devices,
    runs: &[Run],
) -> Result<bool, Fail> {
    for run in runs {
        if !does(alloc, session, devices, run)? {
            return Ok(false);
        }
    }
    Ok(true)
}

// The session of a text that keeps its last lines.
fn open_bounded(alloc: Global, text: &[u8], keep: Keep) -> Option<Session> {
    let options = Options {
        short: Short::Refuse,
        keep,
    };
    Session::open_with(alloc, text, options).ok()
}

fn open(alloc: Global, text: &[u8], keep: Keep) -> Option<Session> {
    match keep {
        Keep::All => Session::open(alloc, text).ok(),
        Keep::Last(_) => open_bounded(alloc, text, keep),
    }
}

/// Whether a session of the text, which keeps these lines, performs the runs as expected. No other function owns a session, and
/// this one passes it on at once: a function that owns one and has many exits takes long to prove.
pub fn all_done(
    alloc: Global,
    text: &[u8],
    keep: Keep,
    devices: &Devices,
    runs: &[Run],
) -> Result<bool, Fail> {
    let Some(mut session) = open(alloc, text, keep) else {
        return Err(Fail::from("no database"));
    };
    does_all(alloc, &mut session, devices, runs)
}
