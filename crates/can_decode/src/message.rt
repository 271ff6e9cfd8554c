//! A frame decoded by its message, as text.
ghost use Rattle.std.specs.Prelude.{◌≡◌, ℕ, List, ◌<◌, ◌≤◌, ◌++◌, true, false, length, slice_get, IfOk, OnOk, codes, decimal};
ghost use Rattle.std.specs.Prelude.{if◌then◌else◌};
ghost use Rattle.can_layout.specs.Plans.{label_of};
ghost use Rattle.can_decode.specs.DecodedLines.{signal_text, further_signal, destination_text, group_text, bracket_text};
ghost use Rattle.can_decode.specs.DecodedLines.{shown_rows, signals_text, message_text};

use crate::j1939::J1939;
use crate::listing::{SignalText, push_signals};
use crate::target::Target;
use crate::value::push_reading;
use can_frames::Frame;
use can_layout::{Plan, Row};
use dbc_text_buffer::{Digits, ReadyText, TextBuffer, push_bytes, push_small_number};
use dbc_values::Memory;
use std::marker::Model;

/// A whole number.
pub fn push_number(text: &mut TextBuffer, number: u64) -> Result<(), Memory>
    ensures { OnOk result (text.new.items ≡ text.old.items ++ decimal number) }
{
    if number < 1000 {
        return push_small_number(text, number as u16);
    }
    let mut digits = Digits::none();
    digits.write(number);
    digits.push_first(text, digits.len())
}

// What is before the value of a signal, after others if `some` is true.
#[inline(always)]
fn push_label(text: &mut TextBuffer, some: bool, label: &ReadyText, row: &Row) -> Result<(), Memory>
    requires { label.now ≡ label_of row.now }
    ensures { OnOk result (text.new.items ≡ text.old.items ++ (if some then label_of row.now else row.now.name ++ codes ": ")) }
{
    if some {
        label.push_to(text)
    } else {
        label.push_after_two(text)
    }
}

// A signal, after others if `some` is true.
#[inline(always)]
fn push_next(
    text: &mut TextBuffer,
    some: bool,
    label: &ReadyText,
    row: &Row,
    bytes: &[u8],
) -> Result<(), Memory>
    requires { label.now ≡ label_of row.now }
    ensures { OnOk result (text.new.items ≡ text.old.items ++ (if some then further_signal bytes.now row.now else signal_text
        bytes.now row.now)) }
{
    push_label(text, some, label, row)?;
    push_reading(text, &row.reading, bytes)
}

// The signals of a plan as they are written in a decoded line.
#[derive(Drop)]
struct PlainSignals<'a> {
    plan: &'a Plan,
}

impl<'a> Model for PlainSignals<'a> {
    ghost use Rattle.can_layout.specs.Plans as plans;

    ghost Value = { plans.Plan };

    ghost view = { λ signals. signals.plan.now };
}

impl<'a> SignalText for PlainSignals<'a> {
    ghost use Rattle.can_decode.specs.DecodedLines.{signal_text, further_signal};

    ghost plan_of = { λ signals. signals };

    ghost first = { λ signals bytes row. signal_text bytes row };

    ghost further = { λ signals bytes row. further_signal bytes row };

    #[inline(always)]
    fn plan(&self) -> &Plan {
        self.plan
    }

    #[inline(always)]
    fn push(
        &self,
        text: &mut TextBuffer,
        some: bool,
        index: usize,
        bytes: &[u8],
    ) -> Result<(), Memory> {
        let (label, row) = self.plan.labelled(index);
        push_next(text, some, label, row, bytes)
    }
}

// The signals that are shown, with a comma and a blank between them.
fn push_plain(text: &mut TextBuffer, plan: &Plan, bytes: &[u8]) -> Result<(), Memory>
    ensures { OnOk result (text.new.items ≡ text.old.items ++ signals_text bytes.now
        (shown_rows bytes.now plan.now plan.now.rows)) }
{
    push_signals(text, &PlainSignals { plan }, bytes)
}

fn push_destination(text: &mut TextBuffer, identifier: u32) -> Result<(), Memory>
    ensures { OnOk result (text.new.items ≡ text.old.items ++ destination_text identifier) }
{
    let fields = J1939::of(identifier);
    if fields.format >= FIRST_BROADCAST_FORMAT {
        return Ok(());
    }
    text.push_piece(b" d")?;
    push_number(text, u64::from(fields.specific))
}

// From this PDU format on an identifier has no destination.
const FIRST_BROADCAST_FORMAT: u8 = 240;

// Priority, source and destination.
#[tactic(auto, using(crate::proofs::Pushing::pushed_then), unfolding(crate::specs::DecodedLines::group_text))]
fn push_group(text: &mut TextBuffer, identifier: u32) -> Result<(), Memory>
    ensures { OnOk result (text.new.items ≡ text.old.items ++ group_text identifier) }
{
    let fields = J1939::of(identifier);
    text.push_piece(b"[p")?;
    push_number(text, u64::from(fields.priority))?;
    text.push_piece(b" s")?;
    push_number(text, u64::from(fields.source))?;
    push_destination(text, identifier)?;
    text.push_piece(b"]")
}

fn push_bracket(text: &mut TextBuffer, identifier: u32, group: bool) -> Result<(), Memory>
    ensures { OnOk result (text.new.items ≡ text.old.items ++ bracket_text identifier group) }
{
    if group {
        push_group(text, identifier)
    } else {
        Ok(())
    }
}

/// The message's name, and the signals that are shown.
#[tactic(auto, using(crate::proofs::Pushing::pushed_then), unfolding(crate::specs::DecodedLines::message_text))]
pub(crate) fn push_message(
    text: &mut TextBuffer,
    frame: &Frame,
    target: &Target<'_>,
) -> Result<(), Memory>
    ensures { OnOk result (text.new.items ≡ text.old.items ++ message_text frame.now target.now) }
{
    let message = target.message;
    push_bytes(text, message.head.name.as_bytes())?;
    push_bracket(text, frame.identifier, target.group)?;
    text.push_piece(b"(")?;
    push_plain(text, target.plan, frame.bytes.as_slice())?;
    text.push(b')')?;
    Ok(())
}
