//! Lines of diagnostics.
ghost use Rattle.std.specs.Prelude.{◌≡◌, ◌++◌, codes, decimal};
ghost use Rattle.std.specs.List.{flat_map};
ghost use Rattle.byte_devices.specs.Device.{Prints};
ghost use Rattle.byte_devices.specs.Outs.{Sends};
ghost use Rattle.can_diagnostics.specs.Lines.{subject_text, code_text, line_text};

use crate::code::Code;
use crate::diagnostic::Diagnostic;
use crate::row_line::send_row;
use crate::subject::Subject;
use byte_devices::{Out, Sink, WriteFault};
use itoa::Buffer;

#[tactic(auto, unfolding(crate::specs::Lines::code_text))]
fn send_code<W: Sink>(out: &mut Out<'_, W>, code: Code) -> Result<(), WriteFault>
    ensures { Sends W.written out.old out.new result (code_text code) }
{
    let mut number = Buffer::new();
    let pieces: [&[u8]; 4] = [
        number.format(code.number()).as_bytes(),
        b" ",
        code.word(),
        b" ",
    ];
    out.send_pieces(&pieces)
}

// The CAN identifier of a message, and pieces after it.
#[tactic(auto, using(byte_devices::proofs::Outs::sends))]
fn send_after<W: Sink>(
    out: &mut Out<'_, W>,
    number: u32,
    pieces: &[&[u8]],
) -> Result<(), WriteFault>
    ensures { Sends W.written out.old out.new result (decimal number ++ flat_map (λ piece. piece.now) pieces.now) }
{
    let mut buffer = Buffer::new();
    out.send(buffer.format(number).as_bytes())?;
    out.send_pieces(pieces)
}

#[tactic(auto, unfolding(crate::specs::Lines::subject_text))]
fn send_subject<W: Sink>(out: &mut Out<'_, W>, subject: &Subject) -> Result<(), WriteFault>
    ensures { Sends W.written out.old out.new result (subject_text subject.now) }
{
    let (blank, point) = (b" ".as_slice(), b".".as_slice());
    let mut decimal = Buffer::new();
    match subject {
        Subject::Message(number, message) => {
            send_after(out, *number, &[blank, message.as_bytes()])
        }
        Subject::Sender(number, message, node) => {
            let pieces = [blank, message.as_bytes(), blank, node.as_bytes()];
            send_after(out, *number, &pieces)
        }
        Subject::Signal(number, message, signal) => {
            let pieces = [blank, message.as_bytes(), point, signal.as_bytes()];
            send_after(out, *number, &pieces)
        }
        Subject::Pair(number, message, first, second) => {
            let name = message.as_bytes();
            let (first, second) = (first.as_bytes(), second.as_bytes());
            let pieces = [blank, name, point, first, blank, name, point, second];
            send_after(out, *number, &pieces)
        }
        Subject::Receiver(number, message, signal, node) => {
            let (name, signal) = (message.as_bytes(), signal.as_bytes());
            let pieces = [blank, name, point, signal, blank, node.as_bytes()];
            send_after(out, *number, &pieces)
        }
        Subject::Value(number, message, signal, value) => {
            let (name, signal) = (message.as_bytes(), signal.as_bytes());
            let value = decimal.format(*value).as_bytes();
            send_after(out, *number, &[blank, name, point, signal, blank, value])
        }
        Subject::Row(key) => send_row(out, key),
    }
}

/// Holds its line, without a line end, for a sink.
#[tactic(auto, using(byte_devices::proofs::Outs::sends), unfolding(crate::specs::Lines::line_text))]
pub fn send_diagnostic<W: Sink>(
    out: &mut Out<'_, W>,
    diagnostic: &Diagnostic,
) -> Result<(), WriteFault>
    ensures { Sends W.written out.old out.new result (line_text diagnostic.now) }
{
    send_code(out, diagnostic.code)?;
    send_subject(out, &diagnostic.subject)
}

/// Writes its line, without a line end: `6 Overlap 256 Motor.Speed Motor.Torque`. It allocates nothing. If the sink fails, a prefix
/// of the line was written.
#[tactic(auto, using(byte_devices::proofs::Outs::flushes))]
pub fn write_diagnostic<W: Sink>(diagnostic: &Diagnostic, sink: &mut W) -> Result<(), WriteFault>
    ensures { Prints (W.written sink.old) (W.written sink.new) result (line_text diagnostic.now) }
{
    let mut out = Out::new(sink);
    send_diagnostic(&mut out, diagnostic)?;
    out.flush()
}

#[tactic(auto, using(byte_devices::proofs::Outs::sends))]
fn send_line<W: Sink>(out: &mut Out<'_, W>, diagnostic: &Diagnostic) -> Result<(), WriteFault>
    ensures { Sends W.written out.old out.new result (line_text diagnostic.now ++ codes "\n") }
{
    send_diagnostic(out, diagnostic)?;
    out.send(b"\n")
}

/// Holds the line of each and an LF, for a sink.
pub fn send_lines<W: Sink>(out: &mut Out<'_, W>, found: &[Diagnostic]) -> Result<(), WriteFault>
    ensures { Sends W.written out.old out.new result (flat_map (λ diagnostic. line_text diagnostic ++ codes "\n") found.now) }
{
    for diagnostic in found {
        send_line(out, diagnostic)?;
    }
    Ok(())
}

/// Writes the line of each and an LF. It allocates nothing. If the sink fails, a prefix of the lines was written. They go out in
/// pieces of up to 16 KiB.
#[tactic(auto, using(byte_devices::proofs::Outs::flushes))]
pub fn write_lines<W: Sink>(found: &[Diagnostic], sink: &mut W) -> Result<(), WriteFault>
    ensures { Prints (W.written sink.old) (W.written sink.new) result (flat_map (λ diagnostic. line_text diagnostic ++ codes "\n")
        found.now) }
{
    let mut out = Out::new(sink);
    send_lines(&mut out, found)?;
    out.flush()
}
