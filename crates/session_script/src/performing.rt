//! What is done with a line.
ghost use Rattle.std.specs.Prelude.{◌≡◌, ℕ, List, Some, None, option_map};
ghost use Rattle.byte_devices.specs.Device.{Prints};
ghost use Rattle.session_script.specs.Commands.{seen, Means};
ghost use Rattle.session_script.specs.Replies.{Does, Replies};

use crate::command::Command;
use crate::commands::{command_of, log_line};
use crate::replies::{
    put_answer, put_bad, put_refusal, show_diagnostics, show_layout, show_lines, show_print,
};
use byte_devices::{Sink, WriteFault};
use can_session::{Refusal, Session};
use std::alloc::Global;

// Does what a command asks for, and writes the reply.
fn perform<W: Sink>(
    session: &mut Session,
    command: Option<Command<'_>>,
    sink: &mut W,
) -> Result<(), WriteFault>
    ensures { (text : List ℕ) × Does (option_map seen command.entry) session.old.state session.new.state text
        × Prints (W.written sink.old) (W.written sink.new) result text }
{
    match command {
        None => put_bad(sink),
        Some(Command::Log(line)) => put_answer(sink, session.add_line(line)),
        Some(Command::Change(edit)) => put_answer(sink, session.apply(&edit)),
        Some(Command::ShowDiagnostics) => show_diagnostics(sink, session),
        Some(Command::ShowLayout(index)) => show_layout(sink, session, index as usize),
        Some(Command::ShowLines) => show_lines(sink, session),
        Some(Command::Print) => show_print(sink, session),
    }
}

// Does what a line asks for, and writes the reply. It isn't inlined, since commands are large, and most lines are those of a log.
#[inline(never)]
fn reply_to_command<W: Sink>(
    alloc: Global,
    session: &mut Session,
    line: &[u8],
    sink: &mut W,
) -> Result<(), WriteFault>
    ensures { (text : List ℕ) × Replies session.old.state line.now session.new.state text
        × Prints (W.written sink.old) (W.written sink.new) result text }
{
    match command_of(alloc, line) {
        Ok(command) => perform(session, command, sink),
        Err(_) => put_refusal(sink, Refusal::Memory),
    }
}

/// Does what a line asks for, and writes the reply.
pub(crate) fn reply<W: Sink>(
    alloc: Global,
    session: &mut Session,
    line: &[u8],
    sink: &mut W,
) -> Result<(), WriteFault>
    ensures { (text : List ℕ) × Replies session.old.state line.now session.new.state text
        × Prints (W.written sink.old) (W.written sink.new) result text }
{
    match log_line(line) {
        Some(text) => put_answer(sink, session.add_line(text)),
        None => reply_to_command(alloc, session, line, sink),
    }
}
