//! The signals of a message as an object.
ghost use Rattle.std.specs.Prelude.{◌≡◌, ◌≤◌, ◌^◌, ◌++◌, OnOk, codes, unsigned_abs};
ghost use Rattle.std.specs.Prelude.{if◌then◌else◌};
ghost use Rattle.can_layout.specs.Decoders.{first_entry};
ghost use Rattle.can_json_texts.specs.Members.{further_members, object_text};
ghost use Rattle.can_json_lines.specs.Signals.{value_text, given_members, signal_members};
ghost use Rattle.can_json_lines.specs.inner.Prepared.{row_tail, after_label};
ghost use Rattle.can_layout.specs.declared.row.Reading.TheVariants.{Read};

use crate::keys::{Keys, SignalKeys};
use crate::plan_texts::RowTexts;
use crate::prepared_target::PreparedTarget;
use can_decode::{SignalText, push_scaled, push_signals};
use can_layout::{Decoder, Plan, Reading};
use dbc_text_buffer::TextBuffer;
use dbc_values::Memory;
use std::marker::Model;

/// The message that a frame goes to, with the texts that are prepared of it.
pub(crate) type JsonTarget<'a> = PreparedTarget<'a, Keys>;

/// The signals of a message, with the texts that are prepared for them.
#[derive(Drop)]
pub(crate) struct JsonSignals<'a> {
    target: &'a JsonTarget<'a>,
    keys: &'a SignalKeys,
}

impl<'a> Model for JsonSignals<'a> {
    ghost use Rattle.can_layout.specs.Plans as plans;

    ghost Value = { plans.Plan };

    ghost view = { λ signals. signals.target.now.plan };
}

// What is written of a raw value after its number, and the end of the object.
#[inline(always)]
#[tactic(auto, using(crate::proofs::Pushing::pushed_then))]
fn push_given(
    text: &mut TextBuffer,
    keys: &SignalKeys,
    texts: &RowTexts,
    decoder: &Decoder,
    raw: i128,
) -> Result<(), Memory>
    requires { texts.now.tail ≡ row_tail (Read decoder.now) }
    ensures { OnOk result (text.new.items ≡ text.old.items ++ (further_members (given_members decoder.now
        (first_entry raw decoder.now.entries)) ++ codes "}")) }
{
    match decoder.entry(raw) {
        Some(entry) => {
            keys.name.push_texts(text, entry.text.as_bytes())?;
            text.push(b'}')?;
            Ok(())
        }
        None => texts.tail.push_to(text),
    }
}

// A value, what is written after it, and the end of the object.
#[inline(always)]
#[tactic(auto, using(crate::proofs::Pushing::pushed_then))]
fn push_value(
    text: &mut TextBuffer,
    keys: &SignalKeys,
    texts: &RowTexts,
    decoder: &Decoder,
    raw: i128,
) -> Result<(), Memory>
    requires texts { texts.now.tail ≡ row_tail (Read decoder.now) }
    requires raw { unsigned_abs raw ≤ 2 ^ decoder.now.scale.length }
    ensures { OnOk result (text.new.items ≡ text.old.items ++ (value_text decoder.now raw ++ (further_members
        (given_members decoder.now (first_entry raw decoder.now.entries)) ++ codes "}"))) }
{
    push_scaled(text, decoder.value(raw), decoder.scale.places())?;
    push_given(text, keys, texts, decoder, raw)?;
    Ok(())
}

// What follows the label of a signal: nothing if it can't be decoded.
#[inline(always)]
fn push_after_label(
    text: &mut TextBuffer,
    keys: &SignalKeys,
    texts: &RowTexts,
    reading: &Reading,
    bytes: &[u8],
) -> Result<(), Memory>
    requires { texts.now.tail ≡ row_tail reading.now }
    ensures { OnOk result (text.new.items ≡ text.old.items ++ after_label bytes.now reading.now) }
{
    match reading {
        Reading::Refused(_) => Ok(()),
        Reading::Read(decoder) => push_value(text, keys, texts, decoder, decoder.raw_value(bytes)),
    }
}

// The label of a signal, after others if `some` is true.
#[inline(always)]
fn push_label(text: &mut TextBuffer, texts: &RowTexts, some: bool) -> Result<(), Memory>
    ensures { OnOk result (text.new.items ≡ text.old.items ++ (if some then texts.now.next else texts.now.label)) }
{
    let label = if some { &texts.next } else { &texts.label };
    label.push_to(text)
}

impl<'a> SignalText for JsonSignals<'a> {
    ghost use Rattle.can_json_texts.specs.Members.{member_text, further_member};
    ghost use Rattle.can_json_lines.specs.Signals.{signal_member};

    ghost plan_of = { λ signals. signals };

    ghost first = { λ signals bytes row. member_text (signal_member bytes row) };

    ghost further = { λ signals bytes row. further_member (signal_member bytes row) };

    #[inline(always)]
    fn plan(&self) -> &Plan {
        self.target.plan()
    }

    #[inline(always)]
    fn push(
        &self,
        text: &mut TextBuffer,
        some: bool,
        index: usize,
        bytes: &[u8],
    ) -> Result<(), Memory> {
        let target: &JsonTarget<'_> = self.target;
        let row = target.plan().row(index);
        let texts = target.signal(index);
        push_label(text, texts, some)?;
        push_after_label(text, self.keys, texts, &row.reading, bytes)?;
        Ok(())
    }
}

/// Appends the signals of a message that are shown, as an object.
pub(crate) fn push_signal_object<'a>(
    text: &mut TextBuffer,
    keys: &'a SignalKeys,
    target: &'a JsonTarget<'a>,
    bytes: &[u8],
) -> Result<(), Memory>
    ensures { OnOk result (text.new.items ≡ text.old.items ++ object_text (signal_members bytes.now target.now.plan)) }
{
    text.push(b'{')?;
    push_signals(text, &JsonSignals { target, keys }, bytes)?;
    text.push(b'}')?;
    Ok(())
}
