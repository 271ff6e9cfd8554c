//! Definitions of attributes.
ghost use Rattle.std.specs.Prelude.{◌≡◌, ◌∷◌, ◌++◌, [], OnOk, codes};
ghost use Rattle.json.specs.Json.{string};
ghost use Rattle.can_json_texts.specs.Members.{text_members};
ghost use Rattle.can_json_texts.specs.Values.{tokens_of, or_null};
ghost use Rattle.can_json_texts.specs.Records.{object_word, object_json, type_word, limits_members, form_members, decimal_json};

use crate::members::{write_array_member, write_member, write_optional, write_string, write_text};
use crate::text::JsonText;
use crate::value::ToJson;
use dbc_records::{AttrDef, Form, Limits, Object};
use dbc_values::{Memory, Text};

fn object_word(object: Object) -> &'static str
    ensures { result.now ≡ object_word object }
{
    match object {
        Object::Node => "node",
        Object::Message => "message",
        Object::Signal => "signal",
        Object::EnvironmentVariable => "environment_variable",
    }
}

impl ToJson for Object {
    ghost use Rattle.can_json_texts.specs.Records.{object_json};

    ghost json_of = { object_json };

    fn write(&self, text: &mut JsonText) -> Result<(), Memory> {
        text.string(object_word(*self))
    }
}

fn type_word(form: &Form) -> &'static str
    ensures { result.now ≡ type_word form.now }
{
    match form {
        Form::Int(_) => "INT",
        Form::Hex(_) => "HEX",
        Form::Float(_) => "FLOAT",
        Form::Str => "STRING",
        Form::Enumeration(_) => "ENUM",
    }
}

#[tactic(auto, using(crate::proofs::Tokens::members_then))]
fn write_bounds(text: &mut JsonText, limits: &Limits) -> Result<(), Memory>
    ensures { OnOk result (text.new ≡ text.old ++ tokens_of ((codes "minimum", decimal_json limits.now.minimum)
        ∷ (codes "maximum", decimal_json limits.now.maximum) ∷ [])) }
{
    write_member(text, "minimum", &limits.minimum)?;
    write_member(text, "maximum", &limits.maximum)
}

#[tactic(auto, using(crate::proofs::Tokens::none_written))]
fn write_limits(text: &mut JsonText, limits: &Option<Limits>) -> Result<(), Memory>
    ensures { OnOk result (text.new ≡ text.old ++ tokens_of (limits_members limits.now)) }
{
    match limits {
        Some(limits) => write_bounds(text, limits),
        None => Ok(()),
    }
}

impl ToJson for Text {
    ghost use Rattle.can_json_texts.specs.Records.{text_json};

    ghost json_of = { text_json };

    #[tactic(auto, using(crate::proofs::Tokens::object_written))]
    fn write(&self, text: &mut JsonText) -> Result<(), Memory> {
        text.begin_object()?;
        write_text(text, "text", self.as_bytes())?;
        text.end_object()?;
        Ok(())
    }
}

#[tactic(auto, using(crate::proofs::Tokens::none_written))]
fn write_form(text: &mut JsonText, form: &Form) -> Result<(), Memory>
    ensures { OnOk result (text.new ≡ text.old ++ tokens_of (form_members form.now)) }
{
    match form {
        Form::Int(limits) => write_limits(text, limits),
        Form::Hex(limits) => write_limits(text, limits),
        Form::Float(limits) => write_limits(text, limits),
        Form::Str => Ok(()),
        Form::Enumeration(texts) => write_array_member(text, "values", texts.as_slice()),
    }
}

#[tactic(auto, using(crate::proofs::Tokens::members_then))]
fn write_object_and_name(text: &mut JsonText, definition: &AttrDef) -> Result<(), Memory>
    ensures { OnOk result (text.new ≡ text.old ++ tokens_of ((codes "object", or_null object_json definition.now.object)
        ∷ text_members (codes "name") definition.now.name)) }
{
    write_optional(text, "object", definition.object.as_ref())?;
    write_text(text, "name", definition.name.as_bytes())
}

#[tactic(auto, using(crate::proofs::Tokens::members_then))]
fn write_type(text: &mut JsonText, form: &Form) -> Result<(), Memory>
    ensures { OnOk result (text.new ≡ text.old ++ tokens_of ((codes "type", string (type_word form.now)) ∷ form_members form.now)) }
{
    write_string(text, "type", type_word(form))?;
    write_form(text, form)
}

#[tactic(auto, using(crate::proofs::Tokens::members_then))]
fn write_definition(text: &mut JsonText, definition: &AttrDef) -> Result<(), Memory>
    ensures { OnOk result (text.new ≡ text.old ++ tokens_of ((codes "object", or_null object_json definition.now.object)
        ∷ (text_members (codes "name") definition.now.name ++ ((codes "type", string (type_word definition.now.form))
        ∷ form_members definition.now.form)))) }
{
    write_object_and_name(text, definition)?;
    write_type(text, &definition.form)
}

impl ToJson for AttrDef {
    ghost use Rattle.can_json_texts.specs.Records.{definition_json};

    ghost json_of = { definition_json };

    #[tactic(auto, using(crate::proofs::Tokens::object_written))]
    fn write(&self, text: &mut JsonText) -> Result<(), Memory> {
        text.begin_object()?;
        write_definition(text, self)?;
        text.end_object()?;
        Ok(())
    }
}
