//! Comments, and attributes with their defaults.
ghost use Rattle.std.specs.Prelude.{◌≡◌, ◌∷◌, ◌++◌, [], OnOk, codes};
ghost use Rattle.json.specs.Tree.{json_tokens};
ghost use Rattle.can_json_texts.specs.Members.{text_members};
ghost use Rattle.can_json_texts.specs.Values.{tokens_of};
ghost use Rattle.can_json_texts.specs.Records.{target_members, signal_key_members, attribute_value_members, attribute_members};
ghost use Rattle.can_json_texts.specs.Records.{own_attribute_json};

use crate::members::{write_member, write_text, write_whole};
use crate::text::JsonText;
use crate::value::ToJson;
use dbc_records::{AttrDefault, AttrRow, AttrValue, Comment, Target};
use dbc_values::{Memory, Name, Text};

/// The message and the signal of an entry.
#[tactic(auto, using(crate::proofs::Tokens::members_then))]
pub(crate) fn write_signal_key(text: &mut JsonText, number: u32, name: &Name) -> Result<(), Memory>
    ensures { OnOk result (text.new ≡ text.old ++ tokens_of (signal_key_members number name.now)) }
{
    write_whole(text, "message", u64::from(number))?;
    write_member(text, "signal", name)
}

// What a statement is about.
#[tactic(auto, using(crate::proofs::Tokens::none_written))]
fn write_target(text: &mut JsonText, target: &Target) -> Result<(), Memory>
    ensures { OnOk result (text.new ≡ text.old ++ tokens_of (target_members target.now)) }
{
    match target {
        Target::Whole => Ok(()),
        Target::Node(name) => write_member(text, "node", name),
        Target::Message(number) => write_whole(text, "message", u64::from(*number)),
        Target::Signal(number, name) => write_signal_key(text, *number, name),
    }
}

#[tactic(auto, using(crate::proofs::Tokens::members_then))]
fn write_comment(text: &mut JsonText, comment: &Comment) -> Result<(), Memory>
    ensures { OnOk result (text.new ≡ text.old ++ tokens_of (target_members comment.now.target
        ++ text_members (codes "comment") comment.now.text)) }
{
    write_target(text, &comment.target)?;
    write_text(text, "comment", comment.text.as_bytes())
}

impl ToJson for Comment {
    ghost use Rattle.can_json_texts.specs.Records.{comment_json};

    ghost json_of = { comment_json };

    #[tactic(auto, using(crate::proofs::Tokens::object_written))]
    fn write(&self, text: &mut JsonText) -> Result<(), Memory> {
        text.begin_object()?;
        write_comment(text, self)?;
        text.end_object()?;
        Ok(())
    }
}

fn write_attribute_value(text: &mut JsonText, value: &AttrValue) -> Result<(), Memory>
    ensures { OnOk result (text.new ≡ text.old ++ tokens_of (attribute_value_members value.now)) }
{
    match value {
        AttrValue::Text(value) => write_text(text, "value", value.as_bytes()),
        AttrValue::Decimal(number) => write_member(text, "value", number),
    }
}

#[tactic(auto, using(crate::proofs::Tokens::members_then))]
fn write_named_value(text: &mut JsonText, name: &Text, value: &AttrValue) -> Result<(), Memory>
    ensures { OnOk result (text.new ≡ text.old ++ tokens_of (attribute_members name.now value.now)) }
{
    write_text(text, "name", name.as_bytes())?;
    write_attribute_value(text, value)
}

/// An attribute together with its owner.
#[tactic(auto, using(crate::proofs::Tokens::object_written))]
pub fn write_own_attribute(text: &mut JsonText, row: &AttrRow) -> Result<(), Memory>
    ensures { OnOk result (text.new ≡ text.old ++ json_tokens (own_attribute_json row.now)) }
{
    text.begin_object()?;
    write_named_value(text, &row.name, &row.value)?;
    text.end_object()?;
    Ok(())
}

#[tactic(auto, using(crate::proofs::Tokens::members_then))]
fn write_attribute(text: &mut JsonText, row: &AttrRow) -> Result<(), Memory>
    ensures { OnOk result (text.new ≡ text.old ++ tokens_of (target_members row.now.target
        ++ attribute_members row.now.name row.now.value)) }
{
    write_target(text, &row.target)?;
    write_named_value(text, &row.name, &row.value)
}

impl ToJson for AttrRow {
    ghost use Rattle.can_json_texts.specs.Records.{attribute_json};

    ghost json_of = { attribute_json };

    #[tactic(auto, using(crate::proofs::Tokens::object_written))]
    fn write(&self, text: &mut JsonText) -> Result<(), Memory> {
        text.begin_object()?;
        write_attribute(text, self)?;
        text.end_object()?;
        Ok(())
    }
}

impl ToJson for AttrDefault {
    ghost use Rattle.can_json_texts.specs.Records.{default_json};

    ghost json_of = { default_json };

    #[tactic(auto, using(crate::proofs::Tokens::object_written))]
    fn write(&self, text: &mut JsonText) -> Result<(), Memory> {
        text.begin_object()?;
        write_named_value(text, &self.name, &self.value)?;
        text.end_object()?;
        Ok(())
    }
}
