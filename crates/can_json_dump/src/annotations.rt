//! Comments and attributes of messages and signals.
ghost use Rattle.std.specs.Prelude.{◌≡◌, ◌∷◌, ◌++◌, [], OnOk, IfOk, codes, filter, option_map, if◌then◌else◌};
ghost use Rattle.std.specs.List.{flat_map};
ghost use Rattle.json.specs.Json.{null};
ghost use Rattle.json.specs.Tree.{json_tokens};
ghost use Rattle.can_json_texts.specs.Values.{tokens_of};
ghost use Rattle.can_json_texts.specs.Records.{own_attribute_json};
ghost use Rattle.can_json_dump.specs.Subjects.{is_for, attributes_of};
ghost use Rattle.can_json_dump.specs.Messages.{comment_members, attributes_json, remark_members};

use crate::by_number::{ByNumber, Rows};
use crate::subject::Subject;
use can_json_texts::{JsonText, write_own_attribute, write_text};
use dbc_records::{AttrRow, Comment, Database};
use dbc_values::Memory;
use std::alloc::Global;
use std::marker::Model;

/// The comments and attributes of a database, by the messages and signals that they are about. Contracts see the database.
#[derive(Drop)]
pub struct Annotations<'a> {
    database: &'a Database,
    comments: ByNumber<'a, Comment>,
    attributes: ByNumber<'a, AttrRow>,
}

impl<'a> Model for Annotations<'a> {
    ghost use Rattle.std.specs.Prelude.{◌≡◌};
    ghost use Rattle.dbc_records.specs.Databases.{Database as Whole};

    ghost Value = { Whole };

    ghost view = { λ a. a.database.now };

    ghost invariant = { λ a. (a.comments ≡ a.database.now.comments) × (a.attributes ≡ a.database.now.attributes) };
}

/// A member whose value is null.
#[tactic(auto, using(can_json_texts::proofs::Tokens::member_written))]
pub(crate) fn write_null(text: &mut JsonText, key: &str) -> Result<(), Memory>
    ensures { OnOk result (text.new ≡ text.old ++ tokens_of ((key.now, null) ∷ [])) }
{
    text.key(key)?;
    text.null()
}

fn write_comment(text: &mut JsonText, comment: Option<&Comment>) -> Result<(), Memory>
    ensures { OnOk result (text.new ≡ text.old ++ tokens_of (comment_members (option_map (λ comment. comment.now) comment.entry))) }
{
    match comment {
        Some(comment) => write_text(text, "comment", comment.text.as_bytes()),
        None => write_null(text, "comment"),
    }
}

// An attribute, if a subject has it; otherwise nothing.
fn write_attribute_if(
    text: &mut JsonText,
    row: &AttrRow,
    subject: &Subject<'_>,
) -> Result<(), Memory>
    ensures { OnOk result (text.new ≡ text.old ++ (if is_for subject.now row.now.target then json_tokens
        (own_attribute_json row.now) else [])) }
{
    if subject.is_for(&row.target) {
        write_own_attribute(text, row)
    } else {
        Ok(())
    }
}

// The attributes among some entries that a subject has, one after another.
fn write_attributes_in(
    text: &mut JsonText,
    rows: &Rows<'_, AttrRow>,
    subject: &Subject<'_>,
) -> Result<(), Memory>
    ensures { OnOk result (text.new ≡ text.old ++ flat_map (λ row. json_tokens (own_attribute_json row)) (filter (λ row. is_for
        subject.now row.target) rows.now)) }
{
    for index in 0..rows.len() {
        write_attribute_if(text, rows.row(index), subject)?;
    }
    Ok(())
}

// The attributes that a subject has, one after another.
fn write_attributes_of(
    text: &mut JsonText,
    attributes: &ByNumber<'_, AttrRow>,
    subject: &Subject<'_>,
) -> Result<(), Memory>
    ensures { OnOk result (text.new ≡ text.old ++ flat_map (λ row. json_tokens (own_attribute_json row)) (filter (λ row. is_for
        subject.now row.target) attributes.now)) }
{
    match attributes.at(subject.number) {
        Some(rows) => {
            write_attributes_in(text, rows, subject)?;
            Ok(())
        }
        None => Ok(()),
    }
}

impl<'a> Annotations<'a> {
    /// The annotations of a database.
    pub fn of(alloc: Global, database: &'a Database) -> Result<Annotations<'a>, Memory>
        ensures { IfOk result (λ annotations. annotations ≡ database.now) }
    {
        let comments = ByNumber::of(alloc, database.comments.as_slice())?;
        let attributes = ByNumber::of(alloc, database.attributes.as_slice())?;
        Ok(Annotations {
            database,
            comments,
            attributes,
        })
    }

    // The attributes of a subject, one after another.
    fn write_attribute_values(
        &self,
        text: &mut JsonText,
        subject: &Subject<'_>,
    ) -> Result<(), Memory>
        ensures { OnOk result (text.new ≡ text.old ++ flat_map (λ row. json_tokens (own_attribute_json row))
            (attributes_of self.now subject.now)) }
    {
        write_attributes_of(text, &self.attributes, subject)
    }

    // The attributes of a subject as an array.
    fn write_attributes(&self, text: &mut JsonText, subject: &Subject<'_>) -> Result<(), Memory>
        ensures { OnOk result (text.new ≡ text.old ++ json_tokens (attributes_json (attributes_of self.now subject.now))) }
    {
        text.begin_array()?;
        self.write_attribute_values(text, subject)?;
        text.end_array()?;
        Ok(())
    }

    fn write_attributes_member(
        &self,
        text: &mut JsonText,
        subject: &Subject<'_>,
    ) -> Result<(), Memory>
        ensures { OnOk result (text.new ≡ text.old ++ tokens_of ((
          codes "attributes",
          attributes_json
              (attributes_of self.now subject.now),
        ) ∷ [])) }
    {
        text.key("attributes")?;
        self.write_attributes(text, subject)?;
        Ok(())
    }

    /// Writes the comment and the attributes of a message or a signal.
    pub fn write(&self, text: &mut JsonText, subject: &Subject<'_>) -> Result<(), Memory>
        ensures { OnOk result (text.new ≡ text.old ++ tokens_of (remark_members self.now subject.now)) }
    {
        write_comment(text, self.comments.first(subject))?;
        self.write_attributes_member(text, subject)?;
        Ok(())
    }
}
