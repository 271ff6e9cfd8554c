//! The signals of a message, a row each.
ghost use Rattle.std.specs.Prelude.{◌≡◌, ◌≤◌, ◌^◌, ◌∷◌, ◌++◌, [], OnOk, unsigned_abs};
ghost use Rattle.std.specs.List.{flat_map};
ghost use Rattle.csv.specs.Writing.{default_writer, field_text};
ghost use Rattle.can_layout.specs.Decoders.{first_entry};
ghost use Rattle.can_layout.specs.declared.row.Reading.TheVariants.{Read};
ghost use Rattle.can_decode.specs.DecodedLines.{shown_rows};
ghost use Rattle.can_json_texts.specs.Texts.{text_of};
ghost use Rattle.can_json_lines.specs.Signals.{value_text};
ghost use Rattle.can_csv_lines.specs.Rows.{given_fields};
ghost use Rattle.can_csv_lines.specs.inner.Prepared.{rest_text, row_tail, after_label, stated_text};

use crate::field::{push_decimal, push_further_text};
use crate::plan_texts::{Columns, RowTexts};
use can_decode::{SignalText, push_signals};
use can_json_lines::PreparedTarget;
use can_layout::{Decoder, Plan, Reading};
use dbc_text_buffer::{TextBuffer, push_bytes};
use dbc_values::Memory;
use std::marker::Model;

/// The message that a frame goes to, with the texts that are prepared of it.
pub(crate) type CsvTarget<'a> = PreparedTarget<'a, Columns>;

/// The signals of a message, with the texts that are prepared for them, and the first fields of each of their rows.
#[derive(Drop)]
pub(crate) struct CsvSignals<'a, 'c> {
    came: &'c [u8],
    target: &'a CsvTarget<'a>,
}

impl<'a, 'c> Model for CsvSignals<'a, 'c> {
    ghost use Rattle.can_csv_lines.specs.inner.Prepared.{SignalRows};

    ghost Value = { SignalRows };

    ghost view = { λ a. record {
      came = a.came.now;
      message = a.target.now.message.head.name;
      plan = a.target.now.plan;
    } };
}

// The name of a value, and the end of the row.
fn push_name(text: &mut TextBuffer, name: &[u8]) -> Result<(), Memory>
    ensures { OnOk result (text.new.items ≡ text.old.items ++ rest_text ([] ∷ text_of name.now ∷ [])) }
{
    text.push(b',')?;
    push_further_text(text, name)?;
    text.push(b'\n')?;
    Ok(())
}

// What is written of a raw value after its number, and the end of the row.
#[inline(always)]
fn push_given(
    text: &mut TextBuffer,
    texts: &RowTexts,
    decoder: &Decoder,
    raw: i128,
) -> Result<(), Memory>
    requires { texts.now.tail ≡ row_tail (Read decoder.now) }
    ensures { OnOk result (text.new.items ≡ text.old.items ++ rest_text (given_fields decoder.now
        (first_entry raw decoder.now.entries))) }
{
    match decoder.entry(raw) {
        Some(entry) => push_name(text, entry.text.as_bytes()),
        None => texts.tail.push_to(text),
    }
}

// A value, what is written after it, and the end of the row.
#[inline(always)]
#[tactic(auto, using(crate::proofs::Pushing::pushed_then))]
fn push_value(
    text: &mut TextBuffer,
    texts: &RowTexts,
    decoder: &Decoder,
    raw: i128,
) -> Result<(), Memory>
    requires texts { texts.now.tail ≡ row_tail (Read decoder.now) }
    requires raw { unsigned_abs raw ≤ 2 ^ decoder.now.scale.length }
    ensures { OnOk result (text.new.items ≡ text.old.items ++ (field_text default_writer (value_text decoder.now raw)
        ++ rest_text (given_fields decoder.now (first_entry raw decoder.now.entries)))) }
{
    push_decimal(text, decoder.value(raw), decoder.scale.places())?;
    push_given(text, texts, decoder, raw)?;
    Ok(())
}

// What follows the label of a signal: nothing if it can't be decoded.
#[inline(always)]
fn push_after_label(
    text: &mut TextBuffer,
    texts: &RowTexts,
    reading: &Reading,
    bytes: &[u8],
) -> Result<(), Memory>
    requires { texts.now.tail ≡ row_tail reading.now }
    ensures { OnOk result (text.new.items ≡ text.old.items ++ after_label bytes.now reading.now) }
{
    match reading {
        Reading::Refused(_) => Ok(()),
        Reading::Read(decoder) => push_value(text, texts, decoder, decoder.raw_value(bytes)),
    }
}

impl<'a, 'c> SignalText for CsvSignals<'a, 'c> {
    ghost use Rattle.std.specs.Prelude.{◌++◌};
    ghost use Rattle.can_csv_lines.specs.inner.Prepared.{stated_text};

    ghost plan_of = { λ signals. signals.plan };

    ghost first = { λ signals bytes row. signals.came ++ stated_text signals.message bytes row };

    ghost further = { λ signals bytes row. signals.came ++ stated_text signals.message bytes row };

    #[inline(always)]
    fn plan(&self) -> &Plan {
        self.target.plan()
    }

    #[inline(always)]
    fn push(
        &self,
        text: &mut TextBuffer,
        _some: bool,
        index: usize,
        bytes: &[u8],
    ) -> Result<(), Memory> {
        let target: &CsvTarget<'_> = self.target;
        let row = target.plan().row(index);
        let texts = target.signal(index);
        push_bytes(text, self.came)?;
        texts.label.push_to(text)?;
        push_after_label(text, texts, &row.reading, bytes)?;
        Ok(())
    }
}

/// Appends a row for each signal of a message that is shown, each after its first fields.
#[tactic(auto, using(crate::proofs::Rows::listed_rows))]
pub(crate) fn push_signal_rows(
    text: &mut TextBuffer,
    came: &[u8],
    target: &CsvTarget<'_>,
    bytes: &[u8],
) -> Result<(), Memory>
    ensures { OnOk result (text.new.items ≡ text.old.items ++ flat_map (λ row. came.now
        ++ stated_text target.now.message.head.name bytes.now row) (shown_rows bytes.now target.now.plan target.now.plan.rows)) }
{
    push_signals(text, &CsvSignals { came, target }, bytes)
}
