//! What is prepared of a signal: the texts before and after its value.
ghost use Rattle.std.specs.Prelude.{◌≡◌, ◌++◌, IfOk, OnOk, codes};
ghost use Rattle.can_json_texts.specs.Members.{further_members};
ghost use Rattle.can_json_lines.specs.Signals.{unit_members};
ghost use Rattle.can_json_lines.specs.inner.Prepared.{value_label, row_label, next_label, row_tail, row_texts, message_text};

use crate::keys::{Keys, SignalKeys, StatedKeys};
use crate::prepare::Prepare;
use can_json_texts::push_quoted;
use can_layout::{Decoder, Reading, Row};
use dbc_records::Message;
use dbc_text_buffer::{ReadyText, TextBuffer};
use dbc_values::Memory;
use itoa::Buffer;

/// What is written of a signal before and after its value.
#[derive(Drop)]
pub struct RowTexts {
    /// `"Speed":{"value":`, or the whole text of a signal that can't be decoded.
    pub label: ReadyText,
    /// The same with a comma before it, after another signal.
    pub next: ReadyText,
    /// `,"unit":"km/h"}`, for a signal that can be decoded.
    pub tail: ReadyText,
}

// `{"value":`, or the object of a signal that can't be decoded.
#[tactic(auto, using(crate::proofs::Labels::refused_object))]
fn push_value_label(
    text: &mut TextBuffer,
    keys: &SignalKeys,
    reading: &Reading,
) -> Result<(), Memory>
    ensures { OnOk result (text.new.items ≡ text.old.items ++ value_label reading.now) }
{
    match reading {
        Reading::Refused(cause) => {
            keys.refused.push_quoted(text, cause.word())?;
            text.push(b'}')?;
            Ok(())
        }
        Reading::Read(_) => keys.value.push_to(text),
    }
}

#[tactic(auto, using(crate::proofs::Pushing::pushed_then))]
fn push_row_label(text: &mut TextBuffer, keys: &SignalKeys, row: &Row) -> Result<(), Memory>
    ensures { OnOk result (text.new.items ≡ text.old.items ++ row_label row.now) }
{
    push_quoted(text, row.name.as_bytes())?;
    text.push(b':')?;
    push_value_label(text, keys, &row.reading)?;
    Ok(())
}

// The unit, if there is one.
fn push_unit(text: &mut TextBuffer, keys: &SignalKeys, unit: &[u8]) -> Result<(), Memory>
    ensures { OnOk result (text.new.items ≡ text.old.items ++ further_members (unit_members unit.now)) }
{
    match unit {
        [] => Ok(()),
        [..] => keys.unit.push_texts(text, unit),
    }
}

#[tactic(auto, using(crate::proofs::Pushing::pushed_then))]
fn push_decoder_tail(
    text: &mut TextBuffer,
    keys: &SignalKeys,
    decoder: &Decoder,
) -> Result<(), Memory>
    ensures { OnOk result (text.new.items ≡ text.old.items ++ (further_members (unit_members decoder.now.unit) ++ codes "}")) }
{
    push_unit(text, keys, decoder.unit.as_bytes())?;
    text.push(b'}')?;
    Ok(())
}

fn push_row_tail(text: &mut TextBuffer, keys: &SignalKeys, reading: &Reading) -> Result<(), Memory>
    ensures { OnOk result (text.new.items ≡ text.old.items ++ row_tail reading.now) }
{
    match reading {
        Reading::Refused(_) => Ok(()),
        Reading::Read(decoder) => push_decoder_tail(text, keys, decoder),
    }
}

// (Each is made in a buffer, whatever that holds before.)
fn ready_label(text: &mut TextBuffer, keys: &SignalKeys, row: &Row) -> Result<ReadyText, Memory>
    ensures { IfOk result (λ ready. ready ≡ row_label row.now) }
{
    text.clear();
    push_row_label(text, keys, row)?;
    ReadyText::of(text.allocator(), text.as_slice())
}

fn ready_next(text: &mut TextBuffer, keys: &SignalKeys, row: &Row) -> Result<ReadyText, Memory>
    ensures { IfOk result (λ ready. ready ≡ next_label row.now) }
{
    text.clear();
    text.push(b',')?;
    push_row_label(text, keys, row)?;
    ReadyText::of(text.allocator(), text.as_slice())
}

fn ready_tail(text: &mut TextBuffer, keys: &SignalKeys, row: &Row) -> Result<ReadyText, Memory>
    ensures { IfOk result (λ ready. ready ≡ row_tail row.now.reading) }
{
    text.clear();
    push_row_tail(text, keys, &row.reading)?;
    ReadyText::of(text.allocator(), text.as_slice())
}

fn row_texts(text: &mut TextBuffer, keys: &SignalKeys, row: &Row) -> Result<RowTexts, Memory>
    ensures { IfOk result (λ texts. texts ≡ row_texts row.now) }
{
    let label = ready_label(text, keys, row)?;
    let next = ready_next(text, keys, row)?;
    let tail = ready_tail(text, keys, row)?;
    Ok(RowTexts { label, next, tail })
}

// The message's name and CAN identifier, after other members.
fn push_message(text: &mut TextBuffer, keys: &StatedKeys, message: &Message) -> Result<(), Memory>
    ensures { OnOk result (text.new.items ≡ text.old.items ++ message_text message.now) }
{
    keys.message
        .push_quoted(text, message.head.name.as_bytes())?;
    keys.number
        .push_digits(text, Buffer::new().format(message.head.number).as_bytes())?;
    Ok(())
}

fn ready_head(
    text: &mut TextBuffer,
    keys: &StatedKeys,
    message: &Message,
) -> Result<ReadyText, Memory>
    ensures { IfOk result (λ ready. ready ≡ message_text message.now) }
{
    text.clear();
    push_message(text, keys, message)?;
    ReadyText::of(text.allocator(), text.as_slice())
}

/// The message's name and CAN identifier, and what is written of each signal before and after its value.
impl Prepare for Keys {
    ghost use Rattle.can_json_lines.specs.inner.Prepared.{message_text, row_texts};

    type Head = ReadyText;

    type Signal = RowTexts;

    ghost head_of = { message_text };

    ghost signal_of = { λ message row. row_texts row };

    fn head(&self, text: &mut TextBuffer, message: &Message) -> Result<ReadyText, Memory> {
        ready_head(text, &self.stated, message)
    }

    fn signal(
        &self,
        text: &mut TextBuffer,
        _message: &Message,
        row: &Row,
    ) -> Result<RowTexts, Memory> {
        row_texts(text, &self.signal, row)
    }
}
