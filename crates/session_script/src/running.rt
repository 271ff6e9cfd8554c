//! A database text and a script in, replies out.
ghost use Rattle.session_script.specs.Running.{RunsScript, ServesSession};

use crate::fault::SessionFault;
use crate::serving::serve;
use byte_devices::{Sink, Source};
use can_session::{KeyedOptions, Options, Session};
use std::alloc::Global;

// Runs the script in a session.
fn run_in<R: Source, W: Sink>(
    alloc: Global,
    session: &mut Session,
    source: &mut R,
    sink: &mut W,
) -> Result<u64, SessionFault>
    ensures { ServesSession session.old.state session.new.state (R.unread source.old) (R.unread source.new) (W.written sink.old)
        (W.written sink.new) result }
{
    match serve(alloc, session, source, sink) {
        Ok(count) => Ok(count),
        Err(fault) => Err(SessionFault::Stream(fault)),
    }
}

/// Reads the database text, opens a session on it with these options, and runs the script to its end. It returns how many commands
/// there are, up to `u64::MAX`.
#[inline(never)]
pub fn session_run<R: Source, W: Sink>(
    alloc: Global,
    text: &[u8],
    options: Options,
    source: &mut R,
    sink: &mut W,
) -> Result<u64, SessionFault>
    ensures { RunsScript text.now options (R.unread source.old) (R.unread source.new) (W.written sink.old) (W.written sink.new)
        result }
{
    let keyed = KeyedOptions {
        options,
        keys: None,
    };
    keyed_run(alloc, text, keyed, source, sink)
}

/// The same, with keys for the index of the session's log.
#[inline(never)]
pub fn keyed_run<R: Source, W: Sink>(
    alloc: Global,
    text: &[u8],
    keyed: KeyedOptions,
    source: &mut R,
    sink: &mut W,
) -> Result<u64, SessionFault>
    ensures { RunsScript text.now keyed.options (R.unread source.old) (R.unread source.new) (W.written sink.old)
        (W.written sink.new) result }
{
    match Session::open_keyed(alloc, text, keyed) {
        Ok(mut session) => run_in(alloc, &mut session, source, sink),
        Err(fault) => Err(SessionFault::Read(fault)),
    }
}
