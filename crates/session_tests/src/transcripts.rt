//! Whole runs: the answers, and what is shown after them, if there is enough memory.

use crate::scripts::SHARED;
use byte_devices::limp::Limp;
use can_session::{Edit, Keep, Options, Refusal, Session, Short};
use session_laws::{Command, Ran, Served, serve_text};
use std::alloc::Global;
use std::test::Fail;

const LINE: &[u8] = b"(1.5) can0 053#2A";

const DECODED: &[u8] = b"(1.5) can0 053#2A :: B(S: 84)";

const SCRIPT: &[u8] = b"log (1.5) can0 053#2A\nremove-message 0\nremove-message 1\n";

const REPLIES: &[u8] = b"ok\nok\nrefused 20 NoMessage\n";

fn options() -> Options {
    Options {
        short: Short::Refuse,
        keep: Keep::All,
    }
}

// A line, the first message removed, and one that doesn't exist.
fn commands(alloc: Global) -> Result<[Command; 3], Fail> {
    Ok([
        Command::Retain(LINE.to_vec(alloc)?),
        Command::Change(Edit::RemoveMessage(0)),
        Command::Change(Edit::RemoveMessage(1)),
    ])
}

// Whether the second message is left, and decodes the line.
fn shows(alloc: Global, ran: &Ran<'_>) -> Result<bool, Fail> {
    let all = ran.show(alloc)?;
    Ok(
        ran.answers() == [Ok(()), Ok(()), Err(Refusal::NoMessage)].as_slice()
            && all.diagnostics.is_empty()
            && all.plans.len() == 1
            && all.pictures.len() == 1
            && all.texts.as_slice() == [DECODED].as_slice(),
    )
}

fn run_shows(alloc: Global) -> Result<bool, Fail> {
    let commands = commands(alloc)?;
    match Ran::of(alloc, SHARED, options(), &commands) {
        Ok(ran) => shows(alloc, &ran),
        Err(_) => Err(Fail::from("no database")),
    }
}

#[test]
fn a_run(rt: HostRuntime) -> Result<(), Fail> {
    assert!(rt; run_shows(rt.alloc())?);
    Ok(())
}

// Whether the session of a script has one message and the line.
fn occurs(session: &Session) -> bool {
    session.database().messages.len() == 1
        && session.line_count() == 1
        && session.decoded(0) == DECODED
}

fn script_serves(alloc: Global) -> Result<bool, Fail> {
    let mut source = Limp::new(SCRIPT.to_vec(alloc)?, usize::MAX, u64::MAX, usize::MAX);
    let mut sink = Limp::new(Vec::new(alloc), usize::MAX, u64::MAX, usize::MAX);
    match serve_text(alloc, SHARED, options(), &mut source, &mut sink) {
        Ok(Served { session, ended }) => {
            Ok(ended == Ok(3) && sink.bytes() == REPLIES && occurs(&session))
        }
        Err(_) => Err(Fail::from("no database")),
    }
}

#[test]
fn a_script(rt: HostRuntime) -> Result<(), Fail> {
    assert!(rt; script_serves(rt.alloc())?);
    Ok(())
}
