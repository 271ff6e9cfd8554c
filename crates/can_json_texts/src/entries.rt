//! Value descriptions, and the multiplexer indicators and ranges of multiplexing.
ghost use Rattle.std.specs.Prelude.{◌≡◌, ◌∷◌, ◌++◌, [], IfOk, OnOk, codes, decimal, string_bytes};
ghost use Rattle.std.specs.Fmt.{signed_decimal};
ghost use Rattle.json.specs.Json.{number};
ghost use Rattle.json.specs.Token.{number as number_token, string as string_token};
ghost use Rattle.can_json_texts.specs.Members.{text_members};
ghost use Rattle.can_json_texts.specs.Values.{tokens_of};
ghost use Rattle.can_json_texts.specs.Records.{whole_json, range_json, entries_json, name_json};

use crate::members::{write_array_member, write_member, write_text};
use crate::text::JsonText;
use crate::value::ToJson;
use dbc_records::{Entry, Range, TableRow, Tag};
use dbc_values::Memory;
use itoa::Buffer;
use std::alloc::Global;

// The raw value of an entry. Its bounds are those of its type.
#[tactic(auto, using(crate::proofs::Numbers::entry_is_number))]
fn write_raw(text: &mut JsonText, entry: &Entry) -> Result<(), Memory>
    ensures { OnOk result (text.new ≡ text.old ++ number_token (signed_decimal entry.now.number) ∷ []) }
{
    let mut buffer = Buffer::new();
    text.number(buffer.format(entry.number))
}

#[tactic(auto, using(crate::proofs::Tokens::member_written))]
fn write_value(text: &mut JsonText, entry: &Entry) -> Result<(), Memory>
    ensures { OnOk result (text.new ≡ text.old ++ tokens_of ((codes "value", number (signed_decimal entry.now.number)) ∷ [])) }
{
    text.key("value")?;
    write_raw(text, entry)
}

#[tactic(auto, using(crate::proofs::Tokens::members_then))]
fn write_entry(text: &mut JsonText, entry: &Entry) -> Result<(), Memory>
    ensures { OnOk result (text.new ≡ text.old ++ tokens_of ((codes "value", number (signed_decimal entry.now.number))
        ∷ text_members (codes "name") entry.now.text)) }
{
    write_value(text, entry)?;
    write_text(text, "name", entry.text.as_bytes())
}

impl ToJson for Entry {
    ghost use Rattle.can_json_texts.specs.Records.{entry_json};

    ghost json_of = { entry_json };

    #[tactic(auto, using(crate::proofs::Tokens::object_written))]
    fn write(&self, text: &mut JsonText) -> Result<(), Memory> {
        text.begin_object()?;
        write_entry(text, self)?;
        text.end_object()?;
        Ok(())
    }
}

#[tactic(auto, using(crate::proofs::Tokens::members_then))]
fn write_table(text: &mut JsonText, row: &TableRow) -> Result<(), Memory>
    ensures { OnOk result (text.new ≡ text.old ++ tokens_of ((codes "name", name_json row.now.name) ∷ (
      codes "values",
      entries_json
          row.now.entries,
    ) ∷ [])) }
{
    write_member(text, "name", &row.name)?;
    write_array_member(text, "values", row.entries.as_slice())
}

impl ToJson for TableRow {
    ghost use Rattle.can_json_texts.specs.Records.{table_json};

    ghost json_of = { table_json };

    #[tactic(auto, using(crate::proofs::Tokens::object_written))]
    fn write(&self, text: &mut JsonText) -> Result<(), Memory> {
        text.begin_object()?;
        write_table(text, self)?;
        text.end_object()?;
        Ok(())
    }
}

// The two numbers of a range.
fn write_ends(text: &mut JsonText, range: Range) -> Result<(), Memory>
    ensures { OnOk result (text.new ≡ text.old ++ number_token (decimal range.first) ∷ number_token (decimal range.last) ∷ []) }
{
    text.whole(range.first)?;
    text.whole(range.last)
}

impl ToJson for Range {
    ghost use Rattle.can_json_texts.specs.Records.{range_json};

    ghost json_of = { range_json };

    fn write(&self, text: &mut JsonText) -> Result<(), Memory> {
        text.begin_array()?;
        write_ends(text, *self)?;
        text.end_array()?;
        Ok(())
    }
}

// `m5`
fn muxed_text(alloc: Global, n: u64) -> Result<String, Memory>
    ensures { IfOk result (λ text. string_bytes text ≡ codes "m" ++ decimal n) }
{
    let mut text = String::new(alloc);
    text.push('m')?;
    text.push_str(Buffer::new().format(n))?;
    Ok(text)
}

// `m5M`
#[tactic(auto, using(crate::proofs::Appended::appended_then))]
fn both_text(alloc: Global, n: u64) -> Result<String, Memory>
    ensures { IfOk result (λ text. string_bytes text ≡ codes "m" ++ (decimal n ++ codes "M")) }
{
    let mut text = muxed_text(alloc, n)?;
    text.push('M')?;
    Ok(text)
}

fn write_muxed(text: &mut JsonText, n: u64) -> Result<(), Memory>
    ensures { OnOk result (text.new ≡ text.old ++ string_token (codes "m" ++ decimal n) ∷ []) }
{
    let tag = muxed_text(text.allocator(), n)?;
    text.string(tag.as_str())
}

fn write_both(text: &mut JsonText, n: u64) -> Result<(), Memory>
    ensures { OnOk result (text.new ≡ text.old ++ string_token (codes "m" ++ (decimal n ++ codes "M")) ∷ []) }
{
    let tag = both_text(text.allocator(), n)?;
    text.string(tag.as_str())
}

impl ToJson for Tag {
    ghost use Rattle.can_json_texts.specs.Records.{tag_json};

    ghost json_of = { tag_json };

    fn write(&self, text: &mut JsonText) -> Result<(), Memory> {
        match self {
            Tag::Plain => text.null(),
            Tag::Switch => text.string("M"),
            Tag::Muxed(n) => write_muxed(text, *n),
            Tag::Both(n) => write_both(text, *n),
        }
    }
}

impl ToJson for u32 {
    ghost use Rattle.can_json_texts.specs.Records.{whole_json};

    ghost json_of = { whole_json };

    fn write(&self, text: &mut JsonText) -> Result<(), Memory> {
        text.whole(u64::from(*self))
    }
}
