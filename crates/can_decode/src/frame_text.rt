//! The decoded frame, as text.
ghost use Rattle.std.specs.Prelude.{◌≡◌, ◌++◌, OnOk, codes, option_map};
ghost use Rattle.std.specs.List.{flat_map};
ghost use Rattle.can_decode.specs.DecodedLines.{wrong_size_text, unknown_text, data_text, text_of_kind};

use crate::message::push_message;
use crate::target::Target;
use can_frames::{Frame, Kind};
use dbc_text_buffer::{TextBuffer, push_bytes};
use dbc_values::Memory;
use itoa::Buffer;
use std::alloc::Global;

// Appends the pieces in order.
fn push_pieces(text: &mut TextBuffer, pieces: &[&[u8]]) -> Result<(), Memory>
    ensures { OnOk result (text.new.items ≡ text.old.items ++ flat_map (λ piece. piece.now) pieces.now) }
{
    for piece in pieces {
        push_bytes(text, piece)?;
    }
    Ok(())
}

#[tactic(auto, unfolding(crate::specs::DecodedLines::wrong_size_text))]
fn push_wrong_size(text: &mut TextBuffer, there: usize, wanted: u16) -> Result<(), Memory>
    ensures { OnOk result (text.new.items ≡ text.old.items ++ wrong_size_text there wanted) }
{
    let mut there_number = Buffer::new();
    let mut wanted_number = Buffer::new();
    let pieces: [&[u8]; 5] = [
        b"Wrong data size: ",
        there_number.format(there).as_bytes(),
        b" instead of ",
        wanted_number.format(wanted).as_bytes(),
        b" bytes",
    ];
    push_pieces(text, &pieces)
}

#[tactic(auto, unfolding(crate::specs::DecodedLines::unknown_text))]
fn push_unknown(alloc: Global, text: &mut TextBuffer, identifier: u32) -> Result<(), Memory>
    ensures { OnOk result (text.new.items ≡ text.old.items ++ unknown_text identifier) }
{
    let mut number = Buffer::new();
    let hexadecimal = format!(in alloc; "{identifier:x}")?;
    let pieces: [&[u8]; 5] = [
        b"Unknown frame id ",
        number.format(identifier).as_bytes(),
        b" (0x",
        hexadecimal.as_bytes(),
        b")",
    ];
    push_pieces(text, &pieces)
}

// The text of a data frame.
fn push_data(
    alloc: Global,
    text: &mut TextBuffer,
    frame: &Frame,
    target: Option<&Target<'_>>,
) -> Result<(), Memory>
    ensures { OnOk result (text.new.items ≡ text.old.items ++ data_text frame.now (option_map (λ target. target.now)
        target.entry)) }
{
    match target {
        None => push_unknown(alloc, text, frame.identifier),
        Some(target) if target.short.refuses(frame.bytes.len(), target.plan.size()) => {
            push_wrong_size(text, frame.bytes.len(), target.plan.size())
        }
        Some(target) => push_message(text, frame, target),
    }
}

// The text of a frame, given what it goes to.
fn push_frame(
    alloc: Global,
    text: &mut TextBuffer,
    frame: &Frame,
    target: Option<&Target<'_>>,
) -> Result<(), Memory>
    ensures { OnOk result (text.new.items ≡ text.old.items ++ text_of_kind frame.now.kind frame.now
        (option_map (λ target. target.now) target.entry)) }
{
    match frame.kind {
        Kind::Error => text.push_piece(b"Error frame"),
        Kind::Remote => text.push_piece(b"Remote frame"),
        Kind::Classic | Kind::Fd => push_data(alloc, text, frame, target),
    }
}

/// The decoded frame of a line, given what it goes to, after ` :: `.
pub(crate) fn push_decoded(
    alloc: Global,
    text: &mut TextBuffer,
    frame: &Frame,
    target: Option<&Target<'_>>,
) -> Result<(), Memory>
    ensures { OnOk result (text.new.items ≡ text.old.items ++ (codes " :: " ++ text_of_kind frame.now.kind frame.now
        (option_map (λ target. target.now) target.entry))) }
{
    text.push_piece(b" :: ")?;
    push_frame(alloc, text, frame, target)
}
