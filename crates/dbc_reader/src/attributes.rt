//! Comments and attributes.
ghost use Rattle.std.specs.Prelude.{◌≡◌, ◌<◌, codes, IfOk, IsTrue, Some, None};
ghost use Rattle.dbc_records.specs.Attributes.{form_fits, IsForm, IsAttrValue};
ghost use Rattle.dbc_records.specs.Comments.{IsTarget};
ghost use Rattle.dbc_reader.specs.inner.Cursors.{left_at, following, with_word};
ghost use Rattle.dbc_reader.specs.inner.Readers.{GivesTo, starts};
ghost use Rattle.dbc_reader.specs.inner.Parts.{begins_decimal};
ghost use Rattle.dbc_reader.specs.inner.Attributes.{node_target_at, message_target_at, signal_target_at, target_at, comment_at};
ghost use Rattle.dbc_reader.specs.inner.Attributes.{object_at, limits_at, enumeration_at, form_at, definition_at, value_at};
ghost use Rattle.dbc_reader.specs.inner.Attributes.{default_at, attribute_at};

use crate::classes;
use crate::cursor::Cursor;
use crate::numerals::{decimal, id};
use crate::parts::{mark, name, text, text_here, texts, word};
use crate::stopped::Stopped;
use dbc_records::{
    AttrDef, AttrDefault, AttrRow, AttrValue, Comment, Form, Limits, Object, Target,
};
use dbc_tokens::Next;
use std::alloc::Global;

#[tactic(auto, unfolding(crate::specs::inner::Attributes::node_target_at))]
fn node_target(alloc: Global, at: &mut Cursor<'_>) -> Result<Target, Stopped>
    ensures { GivesTo result (left_at at.new) (node_target_at (left_at at.old)) }
{
    word(at, b"BU_")?;
    let node = name(alloc, at)?;
    Ok(Target::Node(node))
}

/// Takes `BO_` and the CAN identifier of a message.
#[tactic(auto, unfolding(crate::specs::inner::Attributes::message_target_at))]
pub(crate) fn message_target(at: &mut Cursor<'_>) -> Result<Target, Stopped>
    ensures { GivesTo result (left_at at.new) (message_target_at (left_at at.old)) }
{
    word(at, b"BO_")?;
    let number = id(at)?;
    Ok(Target::Message(number))
}

#[tactic(auto, unfolding(crate::specs::inner::Attributes::signal_target_at))]
fn signal_target(alloc: Global, at: &mut Cursor<'_>) -> Result<Target, Stopped>
    ensures { GivesTo result (left_at at.new) (signal_target_at (left_at at.old)) }
{
    word(at, b"SG_")?;
    let number = id(at)?;
    let signal = name(alloc, at)?;
    Ok(Target::Signal(number, signal))
}

// Takes what a comment or an attribute is about: the whole database if there is no target here.
#[tactic(auto, unfolding(crate::specs::inner::Attributes::target_at))]
fn target(alloc: Global, at: &mut Cursor<'_>) -> Result<Target, Stopped>
    ensures { GivesTo result (left_at at.new) (target_at (left_at at.old)) }
{
    if at.starts_word(b"BU_") {
        return node_target(alloc, at);
    }
    if at.starts_word(b"BO_") {
        return message_target(at);
    }
    if at.starts_word(b"SG_") {
        return signal_target(alloc, at);
    }
    Ok(Target::Whole)
}

/// Takes a comment, after `CM_`.
#[tactic(auto, unfolding(crate::specs::inner::Attributes::comment_at, crate::specs::inner::Parts::word_at, crate::specs::inner::Readers::token_at, crate::specs::Classes::has_word))]
pub(crate) fn comment(alloc: Global, at: &mut Cursor<'_>) -> Result<Comment, Stopped>
    ensures { GivesTo result (left_at at.new) (comment_at (with_word (codes "CM_") (left_at at.old))) }
{
    let target = target(alloc, at)?;
    let text = text(alloc, at)?;
    mark(at, b';')?;
    Ok(Comment { target, text })
}

// Takes the kind of object that an attribute belongs to, if one is here.
#[tactic(auto, unfolding(crate::specs::inner::Attributes::object_at))]
fn object(at: &mut Cursor<'_>) -> Result<Option<Object>, Stopped>
    ensures { GivesTo result (left_at at.new) (object_at (left_at at.old)) }
{
    if at.starts_word(b"BU_") {
        word(at, b"BU_")?;
        return Ok(Some(Object::Node));
    }
    if at.starts_word(b"BO_") {
        word(at, b"BO_")?;
        return Ok(Some(Object::Message));
    }
    if at.starts_word(b"SG_") {
        word(at, b"SG_")?;
        return Ok(Some(Object::Signal));
    }
    if at.starts_word(b"EV_") {
        word(at, b"EV_")?;
        return Ok(Some(Object::EnvironmentVariable));
    }
    Ok(None)
}

#[tactic(auto, unfolding(crate::specs::inner::Cursors::left_at, crate::specs::inner::Readers::starts))]
fn starts_decimal(at: Cursor<'_>) -> bool
    ensures { result ≡ starts begins_decimal (left_at at.entry) }
{
    match at.next {
        Next::Token(token) => classes::begins_decimal(token),
        _ => false,
    }
}

// Takes two numbers, if any are here.
#[tactic(auto, unfolding(crate::specs::inner::Attributes::limits_at))]
fn limits(at: &mut Cursor<'_>) -> Result<Option<Limits>, Stopped>
    ensures { GivesTo result (left_at at.new) (limits_at (left_at at.old)) }
{
    if !starts_decimal(*at) {
        return Ok(None);
    }
    let minimum = decimal(at)?;
    let maximum = decimal(at)?;
    Ok(Some(Limits { minimum, maximum }))
}

// Takes the texts of an enumeration.
#[tactic(auto, using(crate::proofs::Rounds::Lists::some_texts), unfolding(crate::specs::inner::Attributes::enumeration_at))]
fn enumeration(alloc: Global, at: &mut Cursor<'_>) -> Result<Form, Stopped>
    ensures value { GivesTo result (left_at at.new) (enumeration_at (left_at at.old)) }
    ensures fits { IfOk result (λ form. IsTrue (form_fits form)) }
{
    word(at, b"ENUM")?;
    let first = text(alloc, at)?;
    let texts = texts(alloc, at, first)?;
    Ok(Form::Enumeration(texts))
}

// Takes the form of an attribute's values.
#[tactic(auto, unfolding(crate::specs::inner::Attributes::form_at, crate::specs::inner::Attributes::string_form_at))]
fn form(alloc: Global, at: &mut Cursor<'_>) -> Result<Form, Stopped>
    ensures value { GivesTo result (left_at at.new) (form_at (left_at at.old)) }
    ensures fits { IfOk result (λ form. IsTrue (form_fits form)) }
{
    if at.starts_word(b"INT") {
        word(at, b"INT")?;
        return Ok(Form::Int(limits(at)?));
    }
    if at.starts_word(b"HEX") {
        word(at, b"HEX")?;
        return Ok(Form::Hex(limits(at)?));
    }
    if at.starts_word(b"FLOAT") {
        word(at, b"FLOAT")?;
        return Ok(Form::Float(limits(at)?));
    }
    if at.starts_word(b"STRING") {
        word(at, b"STRING")?;
        return Ok(Form::Str);
    }
    enumeration(alloc, at)
}

/// Takes the definition of an attribute, after `BA_DEF_`.
#[tactic(auto, unfolding(crate::specs::inner::Attributes::definition_at, crate::specs::inner::Parts::word_at, crate::specs::inner::Readers::token_at, crate::specs::Classes::has_word))]
pub(crate) fn definition(alloc: Global, at: &mut Cursor<'_>) -> Result<AttrDef, Stopped>
    ensures { GivesTo result (left_at at.new) (definition_at (with_word (codes "BA_DEF_") (left_at at.old))) }
{
    let object = object(at)?;
    let title = text(alloc, at)?;
    let form = form(alloc, at)?;
    mark(at, b';')?;
    Ok(AttrDef {
        object,
        name: title,
        form,
    })
}

/// Takes the value of an attribute: a string or a number.
#[tactic(auto, unfolding(crate::specs::inner::Attributes::value_at))]
pub(crate) fn value(alloc: Global, at: &mut Cursor<'_>) -> Result<AttrValue, Stopped>
    ensures { GivesTo result (left_at at.new) (value_at (left_at at.old)) }
{
    if at.starts_string() {
        return Ok(AttrValue::Text(text(alloc, at)?));
    }
    let number = decimal(at)?;
    Ok(AttrValue::Decimal(number))
}

/// Takes the default of an attribute, after `BA_DEF_DEF_`.
#[tactic(auto, unfolding(crate::specs::inner::Attributes::default_at, crate::specs::inner::Parts::word_at, crate::specs::inner::Readers::token_at, crate::specs::Classes::has_word))]
pub(crate) fn default(alloc: Global, at: &mut Cursor<'_>) -> Result<AttrDefault, Stopped>
    ensures { GivesTo result (left_at at.new) (default_at (with_word (codes "BA_DEF_DEF_") (left_at at.old))) }
{
    let title = text(alloc, at)?;
    let value = value(alloc, at)?;
    mark(at, b';')?;
    Ok(AttrDefault { name: title, value })
}

/// Takes the value of an attribute of one object, after `BA_` and the title, which is at another cursor.
#[tactic(auto, unfolding(crate::specs::inner::Attributes::attribute_at, crate::specs::inner::Parts::word_at, crate::specs::inner::Readers::token_at, crate::specs::Classes::has_word))]
pub(crate) fn attribute(
    alloc: Global,
    title: Cursor<'_>,
    at: &mut Cursor<'_>,
) -> Result<AttrRow, Stopped>
    requires { left_at at.old ≡ following (left_at title) }
    ensures { GivesTo result (left_at at.new) (attribute_at (with_word (codes "BA_") (left_at title.entry))) }
{
    let title = text_here(alloc, title)?;
    let target = target(alloc, at)?;
    let value = value(alloc, at)?;
    mark(at, b';')?;
    Ok(AttrRow {
        name: title,
        target,
        value,
    })
}
