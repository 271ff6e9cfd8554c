//! Attributes: their values and their defaults.
ghost use Rattle.std.specs.Prelude.{◌≡◌, Some};

use crate::target::Target;
use dbc_values::{Checked, Copied, Decimal, Memory, Text};
use std::marker::Model;

/// The value of an attribute. The value need not fit the attribute's definition.
#[derive(Drop)]
pub enum AttrValue {
    /// A string.
    Text(Text),
    /// A number.
    Decimal(Decimal),
}

impl Checked for AttrValue {
    ghost use Rattle.dbc_records.specs.Attributes.{IsAttrValue};

    ghost IsValid = { IsAttrValue };
}

impl Copied for AttrValue {
    fn copy(&self) -> Result<AttrValue, Memory> {
        match self {
            AttrValue::Text(text) => Ok(AttrValue::Text(text.copy()?)),
            AttrValue::Decimal(decimal) => Ok(AttrValue::Decimal(*decimal)),
        }
    }
}

/// The value that an attribute has if no entry gives another: `BA_DEF_DEF_ "name" value;`.
#[derive(Drop)]
pub struct AttrDefault {
    /// The attribute's name.
    pub name: Text,
    /// The value if no entry gives one.
    pub value: AttrValue,
}

impl Model for AttrDefault {
    ghost use Rattle.dbc_records.specs.Attributes as attributes;

    ghost Value = { attributes.AttrDefault };

    ghost view = { λ a. record { name = a.name; value = a.value } };

    ghost invariant = { λ a. attributes.IsAttrDefault (record { name = a.name; value = a.value }) };
}

impl AttrDefault {
    /// The default; never `None`.
    pub fn new(name: Text, value: AttrValue) -> Option<AttrDefault>
        ensures { result ≡ Some (record { name = name; value = value }) }
    {
        Some(AttrDefault { name, value })
    }
}

impl Checked for AttrDefault {
    ghost use Rattle.dbc_records.specs.Attributes.{IsAttrDefault};

    ghost IsValid = { IsAttrDefault };
}

impl Copied for AttrDefault {
    fn copy(&self) -> Result<AttrDefault, Memory> {
        let name = self.name.copy()?;
        let value = self.value.copy()?;
        Ok(AttrDefault { name, value })
    }
}

/// The value of an attribute of one object: `BA_ "name" target value;`.
#[derive(Drop)]
pub struct AttrRow {
    /// The attribute's name.
    pub name: Text,
    /// The object that has the attribute.
    pub target: Target,
    /// Its value.
    pub value: AttrValue,
}

impl Model for AttrRow {
    ghost use Rattle.dbc_records.specs.Attributes as attributes;

    ghost Value = { attributes.AttrRow };

    ghost view = { λ a. record { name = a.name; target = a.target; value = a.value } };

    ghost invariant = { λ a. attributes.IsAttrRow (record { name = a.name; target = a.target; value = a.value }) };
}

impl AttrRow {
    /// The entry; never `None`.
    pub fn new(name: Text, target: Target, value: AttrValue) -> Option<AttrRow>
        ensures { result ≡ Some (record { name = name; target = target; value = value }) }
    {
        Some(AttrRow {
            name,
            target,
            value,
        })
    }
}

impl Checked for AttrRow {
    ghost use Rattle.dbc_records.specs.Attributes.{IsAttrRow};

    ghost IsValid = { IsAttrRow };
}

impl Copied for AttrRow {
    fn copy(&self) -> Result<AttrRow, Memory> {
        let name = self.name.copy()?;
        let target = self.target.copy()?;
        let value = self.value.copy()?;
        Ok(AttrRow {
            name,
            target,
            value,
        })
    }
}
