//! The frame format of messages: the entries that give it, and the text that they give.
ghost use Rattle.std.specs.Prelude.{◌≡◌, ◌*◌, ◌^◌, ◌≤◌, MatchOption, slice_get};
ghost use Rattle.std.specs.List.{find};
ghost use Rattle.std.specs.Option.{option_map};
ghost use Rattle.can_entries.specs.Groups.{gives_format, frame_format, text_at, texts_of, index_of};

use crate::lookup::Lookup;
use dbc_records::{AttrDef, AttrRow, AttrValue, Form};
use dbc_values::{Decimal, Text, same};

/// The attribute whose value is a message's frame format.
pub(crate) const FRAME_FORMAT: &[u8] = b"VFrameFormat";

fn gives_format(row: &AttrRow, number: u32) -> bool
    ensures { result ≡ gives_format number row.now }
{
    row.target.is_for_message(number) && same(row.name.as_bytes(), FRAME_FORMAT)
}

/// The first entry of the frame format of a message.
pub(crate) fn first_format_row(rows: &[AttrRow], number: u32) -> Option<&AttrRow>
    ensures { option_map (λ row. row.now) result ≡ find (gives_format number) rows.now }
{
    for row in rows {
        if gives_format(row, number) {
            return Some(row);
        }
    }
    None
}

/// The number followed by that many zeros, if a list may have that index.
fn index(number: u128, zeros: u32) -> Option<usize>
    ensures { MatchOption result (2 ^ 64 ≤ number * 10 ^ zeros) (λ index. index ≡ number * 10 ^ zeros) }
{
    if number == 0 {
        return Some(0);
    }
    let product = number.checked_mul(10u128.checked_pow(zeros)?)?;
    usize::try_from(product).ok()
}

/// The text at the index that is a number followed by that many zeros.
fn text_at(texts: &[Text], number: u128, zeros: u32) -> Option<&[u8]>
    ensures { option_map (λ text. text.now) result ≡ slice_get texts.now (number * 10 ^ zeros) }
{
    let count = texts.len();
    match index(number, zeros) {
        Some(index) if index < count => Some(texts[index].as_bytes()),
        _ => None,
    }
}

/// The text that a number represents. The texts of an enumeration count from 0.
fn text_of_number<'a>(definition: &'a AttrDef, number: Decimal) -> Option<&'a [u8]>
    ensures { option_map (λ text. text.now) result ≡ text_at (texts_of definition.now.form) (index_of number) }
{
    let Form::Enumeration(texts) = &definition.form else {
        return None;
    };
    if number.negative || number.exponent < 0 {
        return None;
    }
    text_at(texts.as_slice(), number.mantissa, number.exponent as u32)
}

/// The text of the frame format of a message: that of its entry, otherwise the default.
#[tactic(auto, unfolding(crate::specs::Groups::frame_format))]
pub(crate) fn frame_format<L: Lookup>(lookup: &L, number: u32) -> Option<&[u8]>
    ensures { option_map (λ text. text.now) result ≡ frame_format number (L.whole lookup.now) }
{
    let value = match lookup.format_row(number) {
        Some(row) => &row.value,
        None => &lookup.format_default()?.value,
    };
    match value {
        AttrValue::Text(text) => Some(text.as_bytes()),
        AttrValue::Decimal(number) => text_of_number(lookup.format_definition()?, *number),
    }
}
