//! Values of JSON, and arrays of them.
ghost use Rattle.std.specs.Prelude.{◌≡◌, ◌++◌, OnOk, map};
ghost use Rattle.std.specs.List.{flat_map};
ghost use Rattle.json.specs.Tree.{json_tokens};
ghost use Rattle.can_json_texts.specs.Values.{array_of};

use crate::text::JsonText;
use dbc_values::Memory;

/// A type whose values are JSON values.
pub trait ToJson {
    ghost use Rattle.json.specs.Json.{Json};

    // The value.
    ghost json_of: { Self → Json };

    /// Writes the value.
    fn write(&self, text: &mut JsonText) -> Result<(), Memory>
        ensures { OnOk result (text.new ≡ text.old ++ json_tokens (json_of self.now)) };
}

/// Writes values one after another.
pub fn write_values<T: ToJson>(text: &mut JsonText, values: &[T]) -> Result<(), Memory>
    ensures { OnOk result (text.new ≡ text.old ++ flat_map (λ value. json_tokens (T.json_of value)) values.now) }
{
    for value in values {
        value.write(text)?;
    }
    Ok(())
}

/// Writes an array of values.
pub fn write_array<T: ToJson>(text: &mut JsonText, values: &[T]) -> Result<(), Memory>
    ensures { OnOk result (text.new ≡ text.old ++ json_tokens (array_of (map T.json_of values.now))) }
{
    text.begin_array()?;
    write_values(text, values)?;
    text.end_array()?;
    Ok(())
}
