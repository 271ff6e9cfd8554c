//! Bytes that are shown on one line.
ghost use Rattle.std.specs.Prelude.{◌≡◌, [], ◌∷◌};
ghost use Rattle.std.specs.List.{flat_map};
ghost use Rattle.byte_devices.specs.Outs.{Sends};
ghost use Rattle.can_diagnostics.specs.Lines.{shown_byte, blanked};

use byte_devices::{Out, Sink, WriteFault};

fn shown_byte(b: u8) -> u8
    ensures { result ≡ shown_byte b }
{
    if b == b'\r' || b == b'\n' { b' ' } else { b }
}

fn send_shown_byte<W: Sink>(out: &mut Out<'_, W>, b: u8) -> Result<(), WriteFault>
    ensures { Sends W.written out.old out.new result (shown_byte b ∷ []) }
{
    out.send(&[shown_byte(b)])
}

fn send_bytes<W: Sink>(out: &mut Out<'_, W>, text: &[u8]) -> Result<(), WriteFault>
    ensures { Sends W.written out.old out.new result (flat_map (λ b. shown_byte b ∷ []) text.now) }
{
    for b in text {
        send_shown_byte(out, *b)?;
    }
    Ok(())
}

// Holds the text with a blank for each CR and each LF.
#[tactic(auto, using(std::proofs::lemmas::List::Concat::flat_map_single), unfolding(crate::specs::Lines::blanked))]
fn send_blanked<W: Sink>(out: &mut Out<'_, W>, text: &[u8]) -> Result<(), WriteFault>
    ensures { Sends W.written out.old out.new result (blanked text.now) }
{
    send_bytes(out, text)
}

fn send_each<W: Sink>(out: &mut Out<'_, W>, pieces: &[&[u8]]) -> Result<(), WriteFault>
    ensures { Sends W.written out.old out.new result (flat_map (λ piece. blanked piece.now) pieces.now) }
{
    for piece in pieces {
        send_blanked(out, piece)?;
    }
    Ok(())
}

/// Holds the pieces, one after another, with a blank for each CR and each LF.
#[tactic(auto, using(crate::proofs::Shown::blanked_pieces))]
pub(crate) fn send_shown<W: Sink>(out: &mut Out<'_, W>, pieces: &[&[u8]]) -> Result<(), WriteFault>
    ensures { Sends W.written out.old out.new result (blanked (flat_map (λ piece. piece.now) pieces.now)) }
{
    send_each(out, pieces)
}
