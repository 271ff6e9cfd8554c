//! A decoded frame, as members after others.
ghost use Rattle.std.specs.Prelude.{◌≡◌, ◌++◌, ◌∷◌, [], true, OnOk, codes, decimal, option_map, Some, if◌then◌else◌};
ghost use Rattle.can_entries.specs.Groups.{priority_of, source_of};
ghost use Rattle.json.specs.Json.{string, number};
ghost use Rattle.can_json_texts.specs.Members.{further_member, further_members, keyed, object_of, object_text};
ghost use Rattle.can_json_lines.specs.Signals.{signal_members};
ghost use Rattle.can_json_lines.specs.Lines.{flag_members, data_members, frame_members};
ghost use Rattle.can_json_lines.specs.Lines.{destination_members, group_members, j1939_members};
ghost use Rattle.can_json_lines.specs.Lines.{number_member, message_members, not_decoded, wrong_size_members, values_members};
ghost use Rattle.can_json_lines.specs.Lines.{data_stated};
ghost use Rattle.can_json_lines.specs.Lines.{stated_members};

use crate::keys::{GroupKeys, Keys, LineKeys, StatedKeys};
use crate::signals::{JsonTarget, push_signal_object};
use can_decode::{J1939, group_number, push_number};
use can_frames::{Frame, Kind};
use can_json_texts::Key;
use dbc_text_buffer::{TextBuffer, push_small_number};
use dbc_values::Memory;

// From this PDU format on an identifier has no destination.
const FIRST_BROADCAST_FORMAT: u8 = 240;

fn push_number_member(text: &mut TextBuffer, key: &Key, n: u64) -> Result<(), Memory>
    ensures { OnOk result (text.new.items ≡ text.old.items ++ keyed key.now (number (decimal n))) }
{
    key.push_to(text)?;
    push_number(text, n)?;
    Ok(())
}

#[inline(always)]
fn push_byte_member(text: &mut TextBuffer, key: &Key, n: u8) -> Result<(), Memory>
    ensures { OnOk result (text.new.items ≡ text.old.items ++ keyed key.now (number (decimal n))) }
{
    key.push_to(text)?;
    push_small_number(text, u16::from(n))?;
    Ok(())
}

// The bytes of a data frame.
fn push_data(text: &mut TextBuffer, keys: &LineKeys, frame: &Frame) -> Result<(), Memory>
    ensures { OnOk result (text.new.items ≡ text.old.items ++ further_members (data_members frame.now)) }
{
    if frame.is_data() {
        keys.bytes.push_hexadecimal(text, frame.bytes.as_slice())
    } else {
        Ok(())
    }
}

// The identifier format, the kind, and the bytes of a data frame.
#[tactic(auto, using(crate::proofs::Given::both_further))]
fn push_after_id(text: &mut TextBuffer, keys: &LineKeys, frame: &Frame) -> Result<(), Memory>
    ensures { OnOk result (text.new.items ≡ text.old.items ++ further_members (flag_members frame.now.extended frame.now.kind
        ++ data_members frame.now)) }
{
    keys.flags.push_to(text, frame.extended, frame.kind)?;
    push_data(text, keys, frame)?;
    Ok(())
}

/// The identifier and its format, the kind, and the bytes of a data frame.
pub(crate) fn push_frame(
    text: &mut TextBuffer,
    keys: &LineKeys,
    frame: &Frame,
) -> Result<(), Memory>
    ensures { OnOk result (text.new.items ≡ text.old.items ++ further_members (frame_members frame.now)) }
{
    push_number_member(text, &keys.id, u64::from(frame.identifier))?;
    push_after_id(text, keys, frame)?;
    Ok(())
}

fn push_destination(text: &mut TextBuffer, keys: &GroupKeys, identifier: u32) -> Result<(), Memory>
    ensures { OnOk result (text.new.items ≡ text.old.items ++ further_members (destination_members identifier)) }
{
    let fields = J1939::of(identifier);
    if fields.format >= FIRST_BROADCAST_FORMAT {
        return Ok(());
    }
    push_byte_member(text, &keys.destination, fields.specific)
}

// Priority, source and destination.
fn push_addresses(text: &mut TextBuffer, keys: &GroupKeys, identifier: u32) -> Result<(), Memory>
    ensures { OnOk result (text.new.items ≡ text.old.items ++ (further_member (number_member (codes "priority")
        (priority_of identifier)) ++ (further_member (number_member (codes "source") (source_of identifier))
        ++ further_members (destination_members identifier)))) }
{
    let fields = J1939::of(identifier);
    push_byte_member(text, &keys.priority, fields.priority)?;
    push_byte_member(text, &keys.source, fields.source)?;
    push_destination(text, keys, identifier)?;
    Ok(())
}

// The J1939 fields of an identifier, as an object.
fn push_group(text: &mut TextBuffer, keys: &GroupKeys, identifier: u32) -> Result<(), Memory>
    ensures { OnOk result (text.new.items ≡ text.old.items ++ object_text (group_members identifier)) }
{
    push_number_member(text, &keys.pgn, u64::from(group_number(identifier)))?;
    push_addresses(text, keys, identifier)?;
    text.push(b'}')?;
    Ok(())
}

fn push_j1939(text: &mut TextBuffer, keys: &StatedKeys, identifier: u32) -> Result<(), Memory>
    ensures { OnOk result (text.new.items ≡ text.old.items ++ further_members (j1939_members identifier true)) }
{
    keys.j1939.push_to(text)?;
    push_group(text, &keys.group, identifier)?;
    Ok(())
}

fn push_j1939_if(
    text: &mut TextBuffer,
    keys: &StatedKeys,
    identifier: u32,
    group: bool,
) -> Result<(), Memory>
    ensures { OnOk result (text.new.items ≡ text.old.items ++ further_members (j1939_members identifier group)) }
{
    if group {
        push_j1939(text, keys, identifier)
    } else {
        Ok(())
    }
}

// The message that a frame goes to.
fn push_message(
    text: &mut TextBuffer,
    keys: &StatedKeys,
    frame: &Frame,
    target: &JsonTarget<'_>,
) -> Result<(), Memory>
    ensures { OnOk result (text.new.items ≡ text.old.items ++ further_members (message_members frame.now target.now)) }
{
    target.head().push_to(text)?;
    push_j1939_if(text, keys, frame.identifier, target.is_group())?;
    Ok(())
}

fn push_wrong_size(text: &mut TextBuffer, keys: &StatedKeys, wanted: u16) -> Result<(), Memory>
    ensures { OnOk result (text.new.items ≡ text.old.items ++ further_members (wrong_size_members wanted)) }
{
    keys.not_decoded.push_quoted(text, b"wrong size")?;
    push_number_member(text, &keys.size, u64::from(wanted))?;
    Ok(())
}

// The signals as a member.
fn push_signals(
    text: &mut TextBuffer,
    keys: &Keys,
    bytes: &[u8],
    target: &JsonTarget<'_>,
) -> Result<(), Memory>
    ensures { OnOk result (text.new.items ≡ text.old.items ++ further_members ((
      codes "signals",
      object_of
          (signal_members bytes.now target.now.plan),
    ) ∷ [])) }
{
    keys.stated.signals.push_to(text)?;
    push_signal_object(text, &keys.signal, target, bytes)?;
    Ok(())
}

// The signals, or that the data has the wrong size.
fn push_values(
    text: &mut TextBuffer,
    keys: &Keys,
    frame: &Frame,
    target: &JsonTarget<'_>,
) -> Result<(), Memory>
    ensures { OnOk result (text.new.items ≡ text.old.items ++ further_members (values_members frame.now target.now)) }
{
    if target.refuses(frame.bytes.len()) {
        push_wrong_size(text, &keys.stated, target.plan().size())
    } else {
        push_signals(text, keys, frame.bytes.as_slice(), target)
    }
}

// The message, and the signals.
#[tactic(auto, using(crate::proofs::Given::both_further))]
fn push_given(
    text: &mut TextBuffer,
    keys: &Keys,
    frame: &Frame,
    target: &JsonTarget<'_>,
) -> Result<(), Memory>
    ensures { OnOk result (text.new.items ≡ text.old.items ++ further_members (data_stated frame.now (Some target.now))) }
{
    push_message(text, &keys.stated, frame, target)?;
    push_values(text, keys, frame, target)?;
    Ok(())
}

// Why a frame isn't decoded.
fn push_cause(text: &mut TextBuffer, keys: &StatedKeys, cause: &[u8]) -> Result<(), Memory>
    ensures { OnOk result (text.new.items ≡ text.old.items ++ further_members (not_decoded cause.now ∷ [])) }
{
    keys.not_decoded.push_quoted(text, cause)
}

fn push_data_stated(
    text: &mut TextBuffer,
    keys: &Keys,
    frame: &Frame,
    target: Option<&JsonTarget<'_>>,
) -> Result<(), Memory>
    ensures { OnOk result (text.new.items ≡ text.old.items ++ further_members (data_stated frame.now
        (option_map (λ target. target.now) target.entry))) }
{
    match target {
        None => push_cause(text, &keys.stated, b"unknown id"),
        Some(target) => push_given(text, keys, frame, target),
    }
}

/// The decoded frame, given what it goes to.
pub(crate) fn push_stated(
    text: &mut TextBuffer,
    keys: &Keys,
    frame: &Frame,
    target: Option<&JsonTarget<'_>>,
) -> Result<(), Memory>
    ensures { OnOk result (text.new.items ≡ text.old.items ++ further_members (stated_members frame.now.kind frame.now
        (option_map (λ target. target.now) target.entry))) }
{
    match frame.kind {
        Kind::Error => push_cause(text, &keys.stated, b"error frame"),
        Kind::Remote => push_cause(text, &keys.stated, b"remote frame"),
        Kind::Classic | Kind::Fd => push_data_stated(text, keys, frame, target),
    }
}
