//! Texts that are prepared with messages.
ghost use Rattle.std.specs.Prelude.{◌≡◌, ◌∷◌, ◌++◌, [], IfOk, OnOk, codes};
ghost use Rattle.can_layout.specs.Diagrams.{cause_word};
ghost use Rattle.can_json_texts.specs.Texts.{text_of};
ghost use Rattle.can_layout.specs.declared.row.Reading.TheVariants.{Refused};
ghost use Rattle.can_csv_lines.specs.inner.Prepared.{further_field, rest_text, value_label, row_label, row_tail, row_texts};

use crate::field::{push_further, push_further_text};
use can_json_lines::Prepare;
use can_layout::{Cause, Reading, Row};
use dbc_records::Message;
use dbc_text_buffer::{ReadyText, TextBuffer, push_bytes};
use dbc_values::Memory;

/// What is written of a signal before and after its value.
#[derive(Drop)]
pub struct RowTexts {
    /// `,CCVS,Speed,`, or the whole text of a signal that can't be decoded.
    pub label: ReadyText,
    /// `,km/h,` and the end of the row, for a signal that can be decoded.
    pub tail: ReadyText,
}

// `,?float`
#[tactic(auto, using(crate::proofs::Fields::cause_pushed))]
fn push_cause(text: &mut TextBuffer, cause: Cause) -> Result<(), Memory>
    ensures { OnOk result (text.new.items ≡ text.old.items ++ further_field (codes "?" ++ cause_word cause)) }
{
    text.push_piece(b",?")?;
    push_bytes(text, cause.word())
}

fn push_refused(text: &mut TextBuffer, cause: Cause) -> Result<(), Memory>
    ensures { OnOk result (text.new.items ≡ text.old.items ++ value_label (Refused cause)) }
{
    push_cause(text, cause)?;
    text.push_piece(b",,\n")?;
    Ok(())
}

fn push_value_label(text: &mut TextBuffer, reading: &Reading) -> Result<(), Memory>
    ensures { OnOk result (text.new.items ≡ text.old.items ++ value_label reading.now) }
{
    match reading {
        Reading::Refused(cause) => push_refused(text, *cause),
        Reading::Read(_) => text.push(b','),
    }
}

#[tactic(auto, using(crate::proofs::Pushing::pushed_then))]
fn push_row_label(text: &mut TextBuffer, message: &[u8], row: &Row) -> Result<(), Memory>
    ensures { OnOk result (text.new.items ≡ text.old.items ++ row_label message.now row.now) }
{
    push_further(text, message)?;
    push_further(text, row.name.as_bytes())?;
    push_value_label(text, &row.reading)?;
    Ok(())
}

fn push_unit(text: &mut TextBuffer, unit: &[u8]) -> Result<(), Memory>
    ensures { OnOk result (text.new.items ≡ text.old.items ++ rest_text (text_of unit.now ∷ [] ∷ [])) }
{
    push_further_text(text, unit)?;
    text.push_piece(b",\n")?;
    Ok(())
}

fn push_row_tail(text: &mut TextBuffer, reading: &Reading) -> Result<(), Memory>
    ensures { OnOk result (text.new.items ≡ text.old.items ++ row_tail reading.now) }
{
    match reading {
        Reading::Refused(_) => Ok(()),
        Reading::Read(decoder) => push_unit(text, decoder.unit.as_bytes()),
    }
}

// (Each is made in a buffer, whatever that holds before.)
fn ready_label(text: &mut TextBuffer, message: &[u8], row: &Row) -> Result<ReadyText, Memory>
    ensures { IfOk result (λ ready. ready ≡ row_label message.now row.now) }
{
    text.clear();
    push_row_label(text, message, row)?;
    ReadyText::of(text.allocator(), text.as_slice())
}

fn ready_tail(text: &mut TextBuffer, row: &Row) -> Result<ReadyText, Memory>
    ensures { IfOk result (λ ready. ready ≡ row_tail row.now.reading) }
{
    text.clear();
    push_row_tail(text, &row.reading)?;
    ReadyText::of(text.allocator(), text.as_slice())
}

fn row_texts(text: &mut TextBuffer, message: &[u8], row: &Row) -> Result<RowTexts, Memory>
    ensures { IfOk result (λ texts. texts ≡ row_texts message.now row.now) }
{
    let label = ready_label(text, message, row)?;
    let tail = ready_tail(text, row)?;
    Ok(RowTexts { label, tail })
}

/// What is prepared of each signal: what is written before and after its value.
#[derive(Drop)]
pub(crate) struct Columns;

impl Prepare for Columns {
    ghost use Rattle.can_csv_lines.specs.inner.Prepared.{row_texts};

    type Head = ();

    type Signal = RowTexts;

    ghost head_of = { λ message. tt };

    ghost signal_of = { λ message row. row_texts message.head.name row };

    fn head(&self, _text: &mut TextBuffer, _message: &Message) -> Result<(), Memory> {
        Ok(())
    }

    fn signal(
        &self,
        text: &mut TextBuffer,
        message: &Message,
        row: &Row,
    ) -> Result<RowTexts, Memory> {
        row_texts(text, message.head.name.as_bytes(), row)
    }
}
