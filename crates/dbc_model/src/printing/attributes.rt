//! Comments, and attributes with their definitions and defaults.
ghost use Rattle.std.specs.Prelude.{◌≡◌, codes};
ghost use Rattle.byte_devices.specs.Outs.{Sends};
ghost use Rattle.dbc_records.specs.Layout.{layout_text};
ghost use Rattle.dbc_records.specs.CanonicalText.{target_layout, comment_key, object_word, object_layout, number_limits_layout};
ghost use Rattle.dbc_records.specs.CanonicalText.{texts_layout, form_layout, definition_key, value_layout, default_key};
ghost use Rattle.dbc_records.specs.CanonicalText.{attribute_key};

use crate::printing::parts::{
    send_spaced_number, send_spaced_text, send_spaced_word, send_statement_end, send_word,
};
use crate::printing::style::{Style, send_separated};
use byte_devices::{Out, Sink, WriteFault};
use dbc_records::{
    AttrDef, AttrDefault, AttrRow, AttrValue, Comment, Form, Limits, Object, Target,
};
use dbc_values::Text;
use itoa::Buffer;

#[tactic(auto, unfolding(dbc_records::specs::Layout::layout_text, dbc_records::specs::CanonicalText::target_layout))]
fn send_target<W: Sink>(out: &mut Out<'_, W>, target: &Target) -> Result<(), WriteFault>
    ensures { Sends W.written out.old out.new result (layout_text (target_layout target.now)) }
{
    let mut buffer = Buffer::new();
    match target {
        Target::Whole => Ok(()),
        Target::Node(name) => out.send_pieces(&[b" BU_ ".as_slice(), name.as_bytes()]),
        Target::Message(number) => {
            let pieces: [&[u8]; 2] = [b" BO_ ", buffer.format(*number).as_bytes()];
            out.send_pieces(&pieces)
        }
        Target::Signal(number, name) => {
            let pieces: [&[u8]; 4] = [
                b" SG_ ",
                buffer.format(*number).as_bytes(),
                b" ",
                name.as_bytes(),
            ];
            out.send_pieces(&pieces)
        }
    }
}

#[tactic(auto, using(crate::proofs::Layouts::layouts), unfolding(dbc_records::specs::CanonicalText::comment_key))]
fn send_comment_key<W: Sink>(out: &mut Out<'_, W>, comment: &Comment) -> Result<(), WriteFault>
    ensures { Sends W.written out.old out.new result (layout_text (comment_key comment.now)) }
{
    send_word(out, b"CM_")?;
    send_target(out, &comment.target)
}

/// A comment's line.
pub(crate) struct CommentLine;

impl Style<Comment> for CommentLine {
    ghost use Rattle.dbc_records.specs.CanonicalText.{comment_layout};

    ghost layout = { comment_layout };

    #[tactic(auto, using(crate::proofs::Layouts::layouts), unfolding(dbc_records::specs::CanonicalText::comment_layout))]
    fn send_item<W: Sink>(out: &mut Out<'_, W>, comment: &Comment) -> Result<(), WriteFault> {
        send_comment_key(out, comment)?;
        send_spaced_text(out, &comment.text)?;
        send_statement_end(out)
    }
}

fn word_of(object: Object) -> &'static [u8]
    ensures { result.now ≡ object_word object }
{
    match object {
        Object::Node => b"BU_",
        Object::Message => b"BO_",
        Object::Signal => b"SG_",
        Object::EnvironmentVariable => b"EV_",
    }
}

#[tactic(auto, using(crate::proofs::Layouts::layouts), unfolding(dbc_records::specs::CanonicalText::object_layout))]
fn send_object<W: Sink>(out: &mut Out<'_, W>, object: Option<Object>) -> Result<(), WriteFault>
    ensures { Sends W.written out.old out.new result (layout_text (object_layout object)) }
{
    match object {
        Some(object) => send_spaced_word(out, word_of(object)),
        None => Ok(()),
    }
}

#[tactic(auto, using(crate::proofs::Layouts::layouts), unfolding(dbc_records::specs::CanonicalText::number_limits_layout))]
fn send_limits<W: Sink>(out: &mut Out<'_, W>, limits: &Option<Limits>) -> Result<(), WriteFault>
    ensures { Sends W.written out.old out.new result (layout_text (number_limits_layout limits.now)) }
{
    match limits {
        Some(limits) => {
            send_spaced_number(out, limits.minimum)?;
            send_spaced_number(out, limits.maximum)
        }
        None => Ok(()),
    }
}

// A text after a blank.
struct SpacedText;

impl Style<Text> for SpacedText {
    ghost use Rattle.dbc_records.specs.CanonicalText.{spaced_text};

    ghost layout = { spaced_text };

    #[tactic(auto, unfolding(dbc_records::specs::Layout::layout_text, dbc_records::specs::CanonicalText::spaced_text))]
    fn send_item<W: Sink>(out: &mut Out<'_, W>, text: &Text) -> Result<(), WriteFault> {
        send_spaced_text(out, text)
    }
}

// A text after a comma.
struct FurtherText;

impl Style<Text> for FurtherText {
    ghost use Rattle.dbc_records.specs.CanonicalText.{further_text};

    ghost layout = { further_text };

    #[tactic(auto, unfolding(dbc_records::specs::Layout::layout_text, dbc_records::specs::CanonicalText::further_text))]
    fn send_item<W: Sink>(out: &mut Out<'_, W>, text: &Text) -> Result<(), WriteFault> {
        out.send_pieces(&[b",\"".as_slice(), text.as_bytes(), b"\""])
    }
}

#[tactic(auto, using(crate::proofs::Layouts::layouts), unfolding(dbc_records::specs::CanonicalText::texts_layout))]
fn send_texts<W: Sink>(out: &mut Out<'_, W>, texts: &[Text]) -> Result<(), WriteFault>
    ensures { Sends W.written out.old out.new result (layout_text (texts_layout texts.now)) }
{
    send_separated::<SpacedText, FurtherText, Text, W>(out, texts)
}

#[tactic(auto, using(crate::proofs::Layouts::layouts), unfolding(dbc_records::specs::CanonicalText::form_layout))]
fn send_form<W: Sink>(out: &mut Out<'_, W>, form: &Form) -> Result<(), WriteFault>
    ensures { Sends W.written out.old out.new result (layout_text (form_layout form.now)) }
{
    match form {
        Form::Int(limits) => {
            send_spaced_word(out, b"INT")?;
            send_limits(out, limits)
        }
        Form::Hex(limits) => {
            send_spaced_word(out, b"HEX")?;
            send_limits(out, limits)
        }
        Form::Float(limits) => {
            send_spaced_word(out, b"FLOAT")?;
            send_limits(out, limits)
        }
        Form::Str => send_spaced_word(out, b"STRING"),
        Form::Enumeration(texts) => {
            send_spaced_word(out, b"ENUM")?;
            send_texts(out, texts.as_slice())
        }
    }
}

#[tactic(auto, using(crate::proofs::Layouts::layouts), unfolding(dbc_records::specs::CanonicalText::definition_key))]
fn send_definition_key<W: Sink>(
    out: &mut Out<'_, W>,
    definition: &AttrDef,
) -> Result<(), WriteFault>
    ensures { Sends W.written out.old out.new result (layout_text (definition_key definition.now)) }
{
    send_word(out, b"BA_DEF_")?;
    send_object(out, definition.object)?;
    send_spaced_text(out, &definition.name)
}

/// The line of an attribute's definition.
pub(crate) struct DefinitionLine;

impl Style<AttrDef> for DefinitionLine {
    ghost use Rattle.dbc_records.specs.CanonicalText.{definition_layout};

    ghost layout = { definition_layout };

    #[tactic(auto, using(crate::proofs::Layouts::layouts), unfolding(dbc_records::specs::CanonicalText::definition_layout))]
    fn send_item<W: Sink>(out: &mut Out<'_, W>, definition: &AttrDef) -> Result<(), WriteFault> {
        send_definition_key(out, definition)?;
        send_form(out, &definition.form)?;
        send_statement_end(out)
    }
}

#[tactic(auto, using(crate::proofs::Layouts::layouts), unfolding(dbc_records::specs::CanonicalText::value_layout))]
fn send_value<W: Sink>(out: &mut Out<'_, W>, value: &AttrValue) -> Result<(), WriteFault>
    ensures { Sends W.written out.old out.new result (layout_text (value_layout value.now)) }
{
    match value {
        AttrValue::Text(text) => send_spaced_text(out, text),
        AttrValue::Decimal(number) => send_spaced_number(out, *number),
    }
}

#[tactic(auto, using(crate::proofs::Layouts::layouts), unfolding(dbc_records::specs::CanonicalText::default_key))]
fn send_default_key<W: Sink>(out: &mut Out<'_, W>, row: &AttrDefault) -> Result<(), WriteFault>
    ensures { Sends W.written out.old out.new result (layout_text (default_key row.now)) }
{
    send_word(out, b"BA_DEF_DEF_")?;
    send_spaced_text(out, &row.name)
}

/// The line of an attribute's default.
pub(crate) struct DefaultLine;

impl Style<AttrDefault> for DefaultLine {
    ghost use Rattle.dbc_records.specs.CanonicalText.{default_layout};

    ghost layout = { default_layout };

    #[tactic(auto, using(crate::proofs::Layouts::layouts), unfolding(dbc_records::specs::CanonicalText::default_layout))]
    fn send_item<W: Sink>(out: &mut Out<'_, W>, row: &AttrDefault) -> Result<(), WriteFault> {
        send_default_key(out, row)?;
        send_value(out, &row.value)?;
        send_statement_end(out)
    }
}

#[tactic(auto, using(crate::proofs::Layouts::layouts), unfolding(dbc_records::specs::CanonicalText::attribute_key))]
fn send_attribute_key<W: Sink>(out: &mut Out<'_, W>, row: &AttrRow) -> Result<(), WriteFault>
    ensures { Sends W.written out.old out.new result (layout_text (attribute_key row.now)) }
{
    send_word(out, b"BA_")?;
    send_spaced_text(out, &row.name)?;
    send_target(out, &row.target)
}

/// The line of an attribute.
pub(crate) struct AttributeLine;

impl Style<AttrRow> for AttributeLine {
    ghost use Rattle.dbc_records.specs.CanonicalText.{attribute_layout};

    ghost layout = { attribute_layout };

    #[tactic(auto, using(crate::proofs::Layouts::layouts), unfolding(dbc_records::specs::CanonicalText::attribute_layout))]
    fn send_item<W: Sink>(out: &mut Out<'_, W>, row: &AttrRow) -> Result<(), WriteFault> {
        send_attribute_key(out, row)?;
        send_value(out, &row.value)?;
        send_statement_end(out)
    }
}
