//! Definitions of attributes.
ghost use Rattle.std.specs.Prelude.{◌≡◌, Some, None, IfOk, if◌then◌else◌};
ghost use Rattle.dbc_records.specs.declared.definition.Form.TheVariants as forms;
ghost use Rattle.dbc_records.specs.Attributes.{form_fits};

use dbc_values::{Checked, Copied, Decimal, List, Memory, Text};
use std::marker::Model;

/// What kind of object an attribute belongs to.
#[derive(Clone, Copy, Debug, PartialEq, Eq)]
pub enum Object {
    /// `BU_`.
    Node,
    /// `BO_`.
    Message,
    /// `SG_`.
    Signal,
    /// `EV_`.
    EnvironmentVariable,
}

/// The least and the greatest value of a number. Values may be outside of them.
#[derive(Clone, Copy, Debug, PartialEq, Eq)]
pub struct Limits {
    /// The least value.
    pub minimum: Decimal,
    /// The greatest value.
    pub maximum: Decimal,
}

/// The values that an attribute may have.
#[derive(Drop)]
pub enum Form {
    /// `INT`, perhaps with limits.
    Int(Option<Limits>),
    /// `HEX`, perhaps with limits.
    Hex(Option<Limits>),
    /// `FLOAT`, perhaps with limits.
    Float(Option<Limits>),
    /// `STRING`.
    Str,
    /// `ENUM` and its texts. In an [`AttrDef`] there is at least one.
    Enumeration(List<Text>),
}

impl Checked for Form {
    ghost use Rattle.dbc_records.specs.Attributes.{IsForm};

    ghost IsValid = { IsForm };
}

// The enumeration of the same texts. (In an arm of `copy` this fallible call costs minutes of proof.)
fn enumeration_of(texts: &List<Text>) -> Result<Form, Memory>
    ensures { IfOk result (λ form. form ≡ forms.Enumeration texts.now) }
{
    let texts = texts.copy()?;
    Ok(Form::Enumeration(texts))
}

impl Copied for Form {
    fn copy(&self) -> Result<Form, Memory> {
        match self {
            Form::Int(limits) => Ok(Form::Int(*limits)),
            Form::Hex(limits) => Ok(Form::Hex(*limits)),
            Form::Float(limits) => Ok(Form::Float(*limits)),
            Form::Str => Ok(Form::Str),
            Form::Enumeration(texts) => enumeration_of(texts),
        }
    }
}

/// The definition of an attribute: `BA_DEF_ object "name" form;`. Without an object the attribute belongs to the database.
#[derive(Drop)]
pub struct AttrDef {
    /// The kind of object that has the attribute, or none for the database.
    pub object: Option<Object>,
    /// The attribute's name.
    pub name: Text,
    /// What its values are.
    pub form: Form,
}

impl Model for AttrDef {
    ghost use Rattle.dbc_records.specs.Attributes as attributes;

    ghost Value = { attributes.AttrDef };

    ghost view = { λ a. record { object = a.object; name = a.name; form = a.form } };

    ghost invariant = { λ a. attributes.IsAttrDef (record { object = a.object; name = a.name; form = a.form }) };
}

fn form_fits(form: &Form) -> bool
    ensures { result ≡ form_fits form.now }
{
    match form {
        Form::Enumeration(texts) => !texts.is_empty(),
        _ => true,
    }
}

impl AttrDef {
    /// The definition, or `None` if the form is an enumeration without a text.
    pub fn new(object: Option<Object>, name: Text, form: Form) -> Option<AttrDef>
        ensures { result ≡ (if form_fits form then Some (record { object = object; name = name; form = form }) else None) }
    {
        if !form_fits(&form) {
            return None;
        }
        Some(AttrDef { object, name, form })
    }
}

impl Checked for AttrDef {
    ghost use Rattle.dbc_records.specs.Attributes.{IsAttrDef};

    ghost IsValid = { IsAttrDef };
}

impl Copied for AttrDef {
    fn copy(&self) -> Result<AttrDef, Memory> {
        let name = self.name.copy()?;
        let form = self.form.copy()?;
        Ok(AttrDef {
            object: self.object,
            name,
            form,
        })
    }
}
