//! The script as a stream of lines.
ghost use Rattle.std.specs.Prelude.{◌≡◌, [], IfOk};
ghost use Rattle.can_line_stream.specs.Runs.{Leads};
ghost use Rattle.session_script.specs.Replies.{Replies};
ghost use Rattle.session_script.specs.Serving.{Serves};

use crate::performing::reply;
use arrayvec::ArrayVec;
use byte_devices::{Out, Sink, Source, WriteFault};
use can_line_stream::{Handler, StreamFault, stream_lines};
use can_session::Session;
use dbc_text_buffer::TextBuffer;
use dbc_values::{Memory, Stop};
use std::alloc::Global;

// The most bytes of a line of a script.
const MAX_LINE_SIZE: usize = 65_536;

// Lines are handled as commands.
#[derive(Drop)]
struct Script {
    alloc: Global,
}

impl Handler for Script {
    ghost use Rattle.std.specs.Prelude.{refl};
    ghost use Rattle.can_session.specs.States.{State as SessionState};
    ghost use Rattle.session_script.specs.Serving.{script_rules};

    type State = Session;

    ghost View = { SessionState };

    ghost view = { λ session. session.state };

    ghost rules = { λ _. script_rules };

    fn handle<W: Sink>(
        &self,
        session: &mut Session,
        _space: &mut TextBuffer,
        out: &mut Out<'_, W>,
        line: &[u8],
    ) -> Result<(), Stop> {
        match reply(self.alloc, session, line, out.sink) {
            Ok(()) => Ok(()),
            Err(WriteFault) => Err(Stop::Write),
        }
    }

    ghost nothing_waits = { λ handler. refl };
}

// Space for a line. It is made on the stack and then moved, so nothing else should be on that stack frame.
#[inline(never)]
fn line_space(alloc: Global) -> Result<Box<ArrayVec<u8, MAX_LINE_SIZE>>, Memory>
    ensures { IfOk result (λ line. line.value.items ≡ []) }
{
    match Box::new(alloc, ArrayVec::new()) {
        Ok(line) => Ok(line),
        Err(_) => Err(Memory),
    }
}

/// Runs a script to its end: each line is a command, and its reply is written before the next is done. It returns how many commands
/// there are, up to `u64::MAX`. A line has at most 65,536 bytes.
///
/// If the script ends earlier, the session is as after the commands whose replies were written, or, if a write failed, as after the
/// one whose reply could not be written whole. Even if the source's bytes are unknown, some lines led to it.
pub fn serve<R: Source, W: Sink>(
    alloc: Global,
    session: &mut Session,
    source: &mut R,
    sink: &mut W,
) -> Result<u64, StreamFault>
    ensures serves { Serves session.old.state (W.written sink.old) (R.unread source.old) (R.unread source.new) session.new.state
        (W.written sink.new) result }
    ensures leads { Leads Replies session.old.state session.new.state }
{
    let Ok(mut line) = line_space(alloc) else {
        return Err(StreamFault::Memory);
    };
    let script = Script { alloc };
    stream_lines(alloc, &script, session, source, sink, &mut *line)
}
