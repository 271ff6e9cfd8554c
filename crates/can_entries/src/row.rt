//! Entries that have a key, and the first of each key by a linear search.
ghost use Rattle.std.specs.Prelude.{◌≡◌, ◌==◌, ℕ, List, filter};
ghost use Rattle.std.specs.List.{find};
ghost use Rattle.std.specs.Option.{option_map};
ghost use Rattle.std.specs.Str.{bytes_eq};
ghost use Rattle.can_entries.specs.Rows.{first_named};

use dbc_records::{AttrDef, AttrDefault, FloatRow, MuxRow, ValueRow};
use dbc_values::{Checked, same};

/// An entry of a signal. Its key is the message ID and the signal name with which it is written.
pub trait Keyed: Checked {
    ghost number_of: { Self → ℕ };

    ghost signal_of: { Self → List ℕ };

    /// The CAN identifier of the message.
    fn number(&self) -> u32
        ensures { result ≡ number_of self.now };

    /// The name of the signal.
    fn signal(&self) -> &[u8]
        ensures { result.now ≡ signal_of self.now };
}

impl Keyed for ValueRow {
    ghost number_of = { λ row. row.number };

    ghost signal_of = { λ row. row.signal };

    fn number(&self) -> u32 {
        self.number
    }

    fn signal(&self) -> &[u8] {
        self.signal.as_bytes()
    }
}

impl Keyed for FloatRow {
    ghost number_of = { λ row. row.number };

    ghost signal_of = { λ row. row.signal };

    fn number(&self) -> u32 {
        self.number
    }

    fn signal(&self) -> &[u8] {
        self.signal.as_bytes()
    }
}

impl Keyed for MuxRow {
    ghost number_of = { λ row. row.number };

    ghost signal_of = { λ row. row.signal };

    fn number(&self) -> u32 {
        self.number
    }

    fn signal(&self) -> &[u8] {
        self.signal.as_bytes()
    }
}

/// A statement that names an attribute.
pub trait Attributed: Checked {
    ghost attribute_of: { Self → List ℕ };

    /// The name of the attribute.
    fn attribute(&self) -> &[u8]
        ensures { result.now ≡ attribute_of self.now };
}

impl Attributed for AttrDefault {
    ghost attribute_of = { λ row. row.name };

    fn attribute(&self) -> &[u8] {
        self.name.as_bytes()
    }
}

impl Attributed for AttrDef {
    ghost attribute_of = { λ definition. definition.name };

    fn attribute(&self) -> &[u8] {
        self.name.as_bytes()
    }
}

/// The first entry of a key.
pub(crate) fn first_row<'a, R: Keyed>(rows: &'a [R], number: u32, signal: &[u8]) -> Option<&'a R>
    ensures { option_map (λ row. row.now) result ≡ first_named R.signal_of signal.now (filter (λ row. R.number_of row == number)
        rows.now) }
{
    for row in rows {
        if row.number() == number && same(row.signal(), signal) {
            return Some(row);
        }
    }
    None
}

/// The first statement of an attribute.
pub(crate) fn first_attributed<'a, R: Attributed>(statements: &'a [R], name: &[u8]) -> Option<&'a R>
    ensures { option_map (λ statement. statement.now) result ≡ find (λ statement. bytes_eq (R.attribute_of statement) name.now)
        statements.now }
{
    for statement in statements {
        if same(statement.attribute(), name) {
            return Some(statement);
        }
    }
    None
}
