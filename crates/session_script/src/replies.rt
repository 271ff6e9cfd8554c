//! Replies.
ghost use Rattle.std.specs.Prelude.{◌≡◌, ◌++◌, codes, option_map, slice_get};
ghost use Rattle.can_layout.specs.Diagrams.{picture_of};
ghost use Rattle.std.specs.List.{flat_map};
ghost use Rattle.byte_devices.specs.Device.{Prints};
ghost use Rattle.byte_devices.specs.Outs.{Sends};
ghost use Rattle.session_script.specs.Replies.{ok_text, bad_text, refused_text, answer_text, diagnostics_text, layout_text};
ghost use Rattle.session_script.specs.Replies.{decoded_texts, lines_text, print_text};

use byte_devices::{Out, Sink, WriteFault, put_all};
use can_check::write_lines;
use can_session::{Refusal, Session};
use dbc_model::print;
use itoa::Buffer;

/// `ok`, after what was asked for.
pub(crate) fn put_ok<W: Sink>(sink: &mut W) -> Result<(), WriteFault>
    ensures { Prints (W.written sink.old) (W.written sink.new) result ok_text }
{
    put_all(sink, b"ok\n")
}

/// The reply to a line that asks for nothing.
pub(crate) fn put_bad<W: Sink>(sink: &mut W) -> Result<(), WriteFault>
    ensures { Prints (W.written sink.old) (W.written sink.new) result bad_text }
{
    put_all(sink, b"bad command\n")
}

/// Why a command is refused.
#[tactic(auto, using(byte_devices::proofs::Outs::flushes), unfolding(crate::specs::Replies::refused_text))]
pub(crate) fn put_refusal<W: Sink>(sink: &mut W, refusal: Refusal) -> Result<(), WriteFault>
    ensures { Prints (W.written sink.old) (W.written sink.new) result (refused_text refusal) }
{
    let mut out = Out::new(sink);
    let mut number = Buffer::new();
    let pieces: [&[u8]; 5] = [
        b"refused ",
        number.format(refusal.number()).as_bytes(),
        b" ",
        refusal.word(),
        b"\n",
    ];
    out.send_pieces(&pieces)?;
    out.flush()
}

/// The answer to a command.
pub(crate) fn put_answer<W: Sink>(
    sink: &mut W,
    answer: Result<(), Refusal>,
) -> Result<(), WriteFault>
    ensures { Prints (W.written sink.old) (W.written sink.new) result (answer_text answer) }
{
    match answer {
        Ok(()) => put_ok(sink),
        Err(refusal) => put_refusal(sink, refusal),
    }
}

/// The diagnostics.
#[tactic(auto, using(crate::proofs::Printing::prints), unfolding(crate::specs::Replies::diagnostics_text))]
pub(crate) fn show_diagnostics<W: Sink>(sink: &mut W, session: &Session) -> Result<(), WriteFault>
    ensures { Prints (W.written sink.old) (W.written sink.new) result (diagnostics_text session.now.state.database) }
{
    write_lines(session.diagnostics(), sink)?;
    put_ok(sink)
}

#[tactic(auto, using(crate::proofs::Printing::prints))]
fn put_picture<W: Sink>(sink: &mut W, picture: &[u8]) -> Result<(), WriteFault>
    ensures { Prints (W.written sink.old) (W.written sink.new) result (picture.now ++ ok_text) }
{
    put_all(sink, picture)?;
    put_ok(sink)
}

// The diagram of the message at an index, if there is one.
fn picture_at(session: &Session, index: usize) -> Option<&[u8]>
    ensures { option_map (λ picture. picture.now) result ≡ option_map (picture_of session.now.state.database)
        (slice_get session.now.state.database.messages index) }
{
    if index < session.database().messages.len() {
        Some(session.picture(index))
    } else {
        None
    }
}

/// The diagram of the message at an index.
#[tactic(auto, using(crate::proofs::Layouts::by_picture), unfolding(crate::specs::Replies::layout_text))]
pub(crate) fn show_layout<W: Sink>(
    sink: &mut W,
    session: &Session,
    index: usize,
) -> Result<(), WriteFault>
    ensures { Prints (W.written sink.old) (W.written sink.new) result (layout_text session.now.state.database index) }
{
    match picture_at(session, index) {
        Some(picture) => put_picture(sink, picture),
        None => put_refusal(sink, Refusal::NoMessage),
    }
}

fn send_line<W: Sink>(out: &mut Out<'_, W>, text: &[u8]) -> Result<(), WriteFault>
    ensures { Sends W.written out.old out.new result (text.now ++ codes "\n") }
{
    let pieces: [&[u8]; 2] = [text, b"\n"];
    out.send_pieces(&pieces)
}

fn send_lines<W: Sink>(out: &mut Out<'_, W>, session: &Session) -> Result<(), WriteFault>
    ensures { Sends W.written out.old out.new result (flat_map (λ text. text ++ codes "\n") (decoded_texts session.now.state)) }
{
    for n in 0..session.line_count() {
        send_line(out, session.decoded(n))?;
    }
    Ok(())
}

#[tactic(auto, using(byte_devices::proofs::Outs::flushes))]
fn put_lines<W: Sink>(sink: &mut W, session: &Session) -> Result<(), WriteFault>
    ensures { Prints (W.written sink.old) (W.written sink.new) result (flat_map (λ text. text ++ codes "\n")
        (decoded_texts session.now.state)) }
{
    let mut out = Out::new(sink);
    send_lines(&mut out, session)?;
    out.flush()
}

/// The decoded lines.
#[tactic(auto, using(crate::proofs::Printing::prints), unfolding(crate::specs::Replies::lines_text))]
pub(crate) fn show_lines<W: Sink>(sink: &mut W, session: &Session) -> Result<(), WriteFault>
    ensures { Prints (W.written sink.old) (W.written sink.new) result (lines_text session.now.state) }
{
    put_lines(sink, session)?;
    put_ok(sink)
}

/// The canonical text of the database.
#[tactic(auto, using(crate::proofs::Printing::prints), unfolding(crate::specs::Replies::print_text))]
pub(crate) fn show_print<W: Sink>(sink: &mut W, session: &Session) -> Result<(), WriteFault>
    ensures { Prints (W.written sink.old) (W.written sink.new) result (print_text session.now.state.database) }
{
    print(session.database(), sink)?;
    put_ok(sink)
}
