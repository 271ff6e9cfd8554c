//! Entries of signals, and statements kept verbatim.
ghost use Rattle.std.specs.Prelude.{◌≡◌, ◌∷◌, ◌++◌, [], OnOk, codes};
ghost use Rattle.std.specs.List.{flat_map};
ghost use Rattle.can_json_texts.specs.Members.{text_members};
ghost use Rattle.can_json_texts.specs.Values.{tokens_of};
ghost use Rattle.can_json_texts.specs.Records.{signal_key_members, entries_json, whole_json, name_json, ranges_json};
ghost use Rattle.can_json_texts.specs.Records.{statement_text};

use crate::attributes::write_signal_key;
use crate::members::{write_array_member, write_member, write_text, write_whole};
use crate::text::JsonText;
use crate::value::ToJson;
use dbc_records::{FloatRow, Kept, MuxRow, ValueRow};
use dbc_text_buffer::{TextBuffer, push_bytes};
use dbc_values::{Memory, Pieces};

#[tactic(auto, using(crate::proofs::Tokens::members_then))]
fn write_values(text: &mut JsonText, row: &ValueRow) -> Result<(), Memory>
    ensures { OnOk result (text.new ≡ text.old ++ tokens_of (signal_key_members row.now.number row.now.signal
        ++ ((codes "values", entries_json row.now.entries) ∷ []))) }
{
    write_signal_key(text, row.number, &row.signal)?;
    write_array_member(text, "values", row.entries.as_slice())
}

impl ToJson for ValueRow {
    ghost use Rattle.can_json_texts.specs.Records.{values_json};

    ghost json_of = { values_json };

    #[tactic(auto, using(crate::proofs::Tokens::object_written))]
    fn write(&self, text: &mut JsonText) -> Result<(), Memory> {
        text.begin_object()?;
        write_values(text, self)?;
        text.end_object()?;
        Ok(())
    }
}

#[tactic(auto, using(crate::proofs::Tokens::members_then))]
fn write_float(text: &mut JsonText, row: &FloatRow) -> Result<(), Memory>
    ensures { OnOk result (text.new ≡ text.old ++ tokens_of (signal_key_members row.now.number row.now.signal
        ++ ((codes "type", whole_json row.now.kind) ∷ []))) }
{
    write_signal_key(text, row.number, &row.signal)?;
    write_whole(text, "type", u64::from(row.kind))
}

impl ToJson for FloatRow {
    ghost use Rattle.can_json_texts.specs.Records.{float_json};

    ghost json_of = { float_json };

    #[tactic(auto, using(crate::proofs::Tokens::object_written))]
    fn write(&self, text: &mut JsonText) -> Result<(), Memory> {
        text.begin_object()?;
        write_float(text, self)?;
        text.end_object()?;
        Ok(())
    }
}

#[tactic(auto, using(crate::proofs::Tokens::members_then))]
fn write_switch(text: &mut JsonText, row: &MuxRow) -> Result<(), Memory>
    ensures { OnOk result (text.new ≡ text.old ++ tokens_of ((codes "switch", name_json row.now.switch)
        ∷ (codes "ranges", ranges_json row.now.ranges) ∷ [])) }
{
    write_member(text, "switch", &row.switch)?;
    write_array_member(text, "ranges", row.ranges.as_slice())
}

#[tactic(auto, using(crate::proofs::Tokens::members_then))]
fn write_mux(text: &mut JsonText, row: &MuxRow) -> Result<(), Memory>
    ensures { OnOk result (text.new ≡ text.old ++ tokens_of (signal_key_members row.now.number row.now.signal
        ++ ((codes "switch", name_json row.now.switch) ∷ (codes "ranges", ranges_json row.now.ranges) ∷ []))) }
{
    write_signal_key(text, row.number, &row.signal)?;
    write_switch(text, row)
}

impl ToJson for MuxRow {
    ghost use Rattle.can_json_texts.specs.Records.{mux_json};

    ghost json_of = { mux_json };

    #[tactic(auto, using(crate::proofs::Tokens::object_written))]
    fn write(&self, text: &mut JsonText) -> Result<(), Memory> {
        text.begin_object()?;
        write_mux(text, self)?;
        text.end_object()?;
        Ok(())
    }
}

#[tactic(auto, using(crate::proofs::Appended::appended_then))]
fn push_token(text: &mut TextBuffer, token: &[u8]) -> Result<(), Memory>
    ensures { OnOk result (text.new.items ≡ text.old.items ++ (token.now ++ codes " ")) }
{
    push_bytes(text, token)?;
    text.push(b' ')
}

fn push_tokens(text: &mut TextBuffer, tokens: &Pieces) -> Result<(), Memory>
    ensures { OnOk result (text.new.items ≡ text.old.items ++ flat_map (λ token. token ++ codes " ") tokens.now) }
{
    for index in 0..tokens.len() {
        if let Some(token) = tokens.get(index) {
            push_token(text, token)?;
        }
    }
    Ok(())
}

// The statement as it is printed, without the end of its line.
#[tactic(auto, using(crate::proofs::Appended::appended_then))]
fn push_statement(text: &mut TextBuffer, statement: &Kept) -> Result<(), Memory>
    ensures { OnOk result (text.new.items ≡ text.old.items ++ statement_text statement.now.tokens) }
{
    push_tokens(text, &statement.tokens)?;
    text.push(b';')
}

fn write_statement(text: &mut JsonText, statement: &Kept) -> Result<(), Memory>
    ensures { OnOk result (text.new ≡ text.old ++ tokens_of (text_members (codes "text") (statement_text statement.now.tokens))) }
{
    let mut printed = TextBuffer::new(text.allocator());
    push_statement(&mut printed, statement)?;
    write_text(text, "text", printed.as_slice())
}

impl ToJson for Kept {
    ghost use Rattle.can_json_texts.specs.Records.{kept_json};

    ghost json_of = { kept_json };

    #[tactic(auto, using(crate::proofs::Tokens::object_written))]
    fn write(&self, text: &mut JsonText) -> Result<(), Memory> {
        text.begin_object()?;
        write_statement(text, self)?;
        text.end_object()?;
        Ok(())
    }
}
