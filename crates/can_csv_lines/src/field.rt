//! Fields of CSV.
ghost use Rattle.std.specs.Prelude.{◌≡◌, ◌++◌, OnOk, decimal};
ghost use Rattle.std.specs.List.{flat_map};
ghost use Rattle.csv.specs.Writing.{needs_byte, needs_quotes, quoted, field_text, default_writer};
ghost use Rattle.can_decode.specs.Values.{scaled_text};
ghost use Rattle.can_json_texts.specs.Texts.{text_of, characters};
ghost use Rattle.can_csv_lines.specs.inner.Prepared.{doubled, further_field};

use can_decode::{push_number, push_scaled};
use can_json_texts::{characters_of, is_plain};
use dbc_text_buffer::{TextBuffer, push_bytes};
use dbc_values::Memory;

// Whether a field with this byte has to be quoted.
#[inline(always)]
fn needs_byte(b: u8) -> bool
    ensures { result ≡ needs_byte default_writer b }
{
    b == b',' || b == b'"' || b == b'\r' || b == b'\n'
}

fn needs_quotes(field: &[u8]) -> bool
    ensures { result ≡ needs_quotes default_writer field.now }
{
    field.iter().any(|b| needs_byte(*b))
}

// A byte between quotes.
fn push_doubled(text: &mut TextBuffer, b: u8) -> Result<(), Memory>
    ensures { OnOk result (text.new.items ≡ text.old.items ++ doubled b) }
{
    if b == b'"' {
        text.push_piece(b"\"\"")
    } else {
        text.push(b)
    }
}

fn push_all_doubled(text: &mut TextBuffer, field: &[u8]) -> Result<(), Memory>
    ensures { OnOk result (text.new.items ≡ text.old.items ++ flat_map doubled field.now) }
{
    for b in field {
        push_doubled(text, *b)?;
    }
    Ok(())
}

// A field in quotes.
fn push_quoted(text: &mut TextBuffer, field: &[u8]) -> Result<(), Memory>
    ensures { OnOk result (text.new.items ≡ text.old.items ++ quoted default_writer field.now) }
{
    text.push(b'"')?;
    push_all_doubled(text, field)?;
    text.push(b'"')?;
    Ok(())
}

/// Appends a field, in quotes if it needs them.
#[tactic(auto, using(crate::proofs::Fields::in_quotes, crate::proofs::Fields::without_quotes))]
pub(crate) fn push_field(text: &mut TextBuffer, field: &[u8]) -> Result<(), Memory>
    ensures { OnOk result (text.new.items ≡ text.old.items ++ field_text default_writer field.now) }
{
    if needs_quotes(field) {
        push_quoted(text, field)
    } else {
        push_bytes(text, field)
    }
}

// A field of bytes that aren't UTF-8.
fn push_characters(text: &mut TextBuffer, bytes: &[u8]) -> Result<(), Memory>
    ensures { OnOk result (text.new.items ≡ text.old.items ++ field_text default_writer (characters bytes.now)) }
{
    let characters = characters_of(text.allocator(), bytes)?;
    push_field(text, characters.as_str().as_bytes())
}

// A field of any bytes.
#[tactic(auto, using(can_json_texts::proofs::Spellings::own_text, can_json_texts::proofs::Spellings::text_of_characters))]
fn push_any_text(text: &mut TextBuffer, bytes: &[u8]) -> Result<(), Memory>
    ensures { OnOk result (text.new.items ≡ text.old.items ++ field_text default_writer (text_of bytes.now)) }
{
    match std::str::from_utf8(bytes) {
        Ok(_) => push_field(text, bytes),
        Err(_) => push_characters(text, bytes),
    }
}

/// Appends the text of bytes as a field. Most bytes are a text by themselves.
#[tactic(auto, using(can_json_texts::proofs::Plain::plain_text))]
pub(crate) fn push_text(text: &mut TextBuffer, bytes: &[u8]) -> Result<(), Memory>
    ensures { OnOk result (text.new.items ≡ text.old.items ++ field_text default_writer (text_of bytes.now)) }
{
    if is_plain(bytes) {
        push_field(text, bytes)
    } else {
        push_any_text(text, bytes)
    }
}

/// Appends a field after others.
pub(crate) fn push_further(text: &mut TextBuffer, field: &[u8]) -> Result<(), Memory>
    ensures { OnOk result (text.new.items ≡ text.old.items ++ further_field field.now) }
{
    text.push(b',')?;
    push_field(text, field)?;
    Ok(())
}

/// Appends the text of bytes as a field after others.
pub(crate) fn push_further_text(text: &mut TextBuffer, bytes: &[u8]) -> Result<(), Memory>
    ensures { OnOk result (text.new.items ≡ text.old.items ++ further_field (text_of bytes.now)) }
{
    text.push(b',')?;
    push_text(text, bytes)?;
    Ok(())
}

/// Appends a whole number as a field after others.
pub(crate) fn push_further_number(text: &mut TextBuffer, number: u64) -> Result<(), Memory>
    ensures { OnOk result (text.new.items ≡ text.old.items ++ further_field (decimal number)) }
{
    text.push(b',')?;
    push_number(text, number)?;
    Ok(())
}

/// Appends a value over ten to the number of decimal places, as an exact decimal.
#[inline(always)]
pub(crate) fn push_decimal(text: &mut TextBuffer, value: i128, places: u8) -> Result<(), Memory>
    ensures { OnOk result (text.new.items ≡ text.old.items ++ field_text default_writer (scaled_text value places)) }
{
    push_scaled(text, value, places)?;
    Ok(())
}
