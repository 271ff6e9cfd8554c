//! Edits of the attributes of messages.
ghost use Rattle.std.specs.Prelude.{◌≡◌, IfOk};
ghost use Rattle.std.specs.List.{list_any};
ghost use Rattle.std.specs.Str.{bytes_eq};
ghost use Rattle.dbc_records.specs.declared.target.Target.TheVariants as targets;
ghost use Rattle.dbc_edits.specs.Rows.{with_item, is_attribute_of};
ghost use Rattle.dbc_edits.specs.Refusals.{IsAnswer};
ghost use Rattle.dbc_edits.specs.Edits.{attribute_set, attribute_dropped};

use crate::key::OfAttribute;
use crate::messages::has_number;
use crate::refusal::Refusal;
use crate::rows::{drop_all, has_any, set_row};
use dbc_records::{AttrDef, AttrRow, AttrValue, Database, Target};
use dbc_values::{Copied, Memory, Text, same};

// Whether an attribute of the name is defined.
fn is_defined(definitions: &[AttrDef], name: &[u8]) -> bool
    ensures { result ≡ list_any (λ definition. bytes_eq definition.name name.now) definitions.now }
{
    for definition in definitions {
        if same(definition.name.as_bytes(), name) {
            return true;
        }
    }
    false
}

// The entry of an attribute of a message. (It is made separately from the copies: together with their exits it
// takes minutes to prove.)
fn message_row(name: Text, number: u32, value: AttrValue) -> AttrRow
    ensures { result ≡ record { name = name; target = targets.Message number; value = value } }
{
    AttrRow {
        name,
        target: Target::Message(number),
        value,
    }
}

// The entry of an attribute of a message, with copies of its name and value.
fn row_of(name: &Text, number: u32, value: &AttrValue) -> Result<AttrRow, Memory>
    ensures { IfOk result (λ row. row ≡ record { name = name.now; target = targets.Message number; value = value.now }) }
{
    let name = name.copy()?;
    let value = value.copy()?;
    Ok(message_row(name, number, value))
}

// The database with the entry instead of those of the attribute for messages of the CAN identifier.
fn with_row(database: &Database, name: &Text, number: u32, row: AttrRow) -> Result<Database, Memory>
    ensures { IfOk result (λ edited. edited ≡ record database.now {
      attributes = with_item (is_attribute_of name.now number) row database.now.attributes;
    }) }
{
    let key = OfAttribute {
        name: name.as_bytes(),
        number,
    };
    let mut edited = database.copy()?;
    set_row(&mut edited.attributes, &key, row)?;
    Ok(edited)
}

// The database with the attribute set for the messages of the CAN identifier.
fn with_attribute(
    database: &Database,
    name: &Text,
    number: u32,
    value: &AttrValue,
) -> Result<Database, Memory>
    ensures { IfOk result (λ edited. edited ≡ record database.now {
      attributes = with_item (is_attribute_of name.now number)
          (record { name = name.now; target = targets.Message number; value = value.now }) database.now.attributes;
    }) }
{
    let row = row_of(name, number, value)?;
    with_row(database, name, number, row)
}

/// The database with the attribute set, if there are such messages and the attribute is defined.
#[tactic(auto, unfolding(crate::specs::Edits::attribute_set, crate::specs::Edits::refused_if))]
pub(crate) fn set_attribute(
    database: &Database,
    name: &Text,
    number: u32,
    value: &AttrValue,
) -> Result<Database, Refusal>
    ensures { IsAnswer (attribute_set name.now number value.now database.now) result }
{
    if !has_number(database.messages.as_slice(), number) {
        return Err(Refusal::NoMessage);
    }
    if !is_defined(database.definitions.as_slice(), name.as_bytes()) {
        return Err(Refusal::NoDefinition);
    }
    let edited = with_attribute(database, name, number, value)?;
    Ok(edited)
}

/// The database without the entries of the attribute for messages of the CAN identifier.
#[tactic(auto, unfolding(crate::specs::Edits::attribute_dropped, crate::specs::Edits::refused_if))]
pub(crate) fn drop_attribute(
    database: &Database,
    name: &[u8],
    number: u32,
) -> Result<Database, Refusal>
    ensures { IsAnswer (attribute_dropped name.now number database.now) result }
{
    let key = OfAttribute { name, number };
    if !has_any(database.attributes.as_slice(), &key) {
        return Err(Refusal::NoRow);
    }
    let mut edited = database.copy()?;
    drop_all(&mut edited.attributes, &key);
    Ok(edited)
}
