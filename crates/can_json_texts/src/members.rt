//! Members of objects.
ghost use Rattle.std.specs.Prelude.{◌≡◌, ◌∷◌, ◌++◌, [], OnOk, map, option_map, Some};
ghost use Rattle.hex.specs.Hex.{encode_upper};
ghost use Rattle.json.specs.Json.{boolean, string};
ghost use Rattle.json.specs.Tree.{json_tokens};
ghost use Rattle.can_json_texts.specs.Texts.{text_of, hex_pairs};
ghost use Rattle.can_json_texts.specs.Members.{hex_members, text_members};
ghost use Rattle.can_json_texts.specs.Values.{array_of, tokens_of, or_null};
ghost use Rattle.can_json_texts.specs.Records.{whole_json};

use crate::text::JsonText;
use crate::value::{ToJson, write_array};
use dbc_values::Memory;

/// Writes a member.
#[tactic(auto, using(crate::proofs::Tokens::member_written))]
pub fn write_member<T: ToJson>(text: &mut JsonText, key: &str, value: &T) -> Result<(), Memory>
    ensures { OnOk result (text.new ≡ text.old ++ tokens_of ((key.now, T.json_of value.now) ∷ [])) }
{
    text.key(key)?;
    value.write(text)
}

/// Writes a member whose value is an array.
#[tactic(auto, using(crate::proofs::Tokens::member_written))]
pub fn write_array_member<T: ToJson>(
    text: &mut JsonText,
    key: &str,
    values: &[T],
) -> Result<(), Memory>
    ensures { OnOk result (text.new ≡ text.old ++ tokens_of ((key.now, array_of (map T.json_of values.now)) ∷ [])) }
{
    text.key(key)?;
    write_array(text, values)
}

// A value, or null.
fn write_or_null<T: ToJson>(text: &mut JsonText, value: Option<&T>) -> Result<(), Memory>
    ensures { OnOk result (text.new ≡ text.old ++ json_tokens (or_null T.json_of (option_map (λ value. value.now) value.entry))) }
{
    match value {
        Some(value) => value.write(text),
        None => text.null(),
    }
}

/// Writes a member whose value is null if there is none.
#[tactic(auto, using(crate::proofs::Tokens::member_written))]
pub fn write_optional<T: ToJson>(
    text: &mut JsonText,
    key: &str,
    value: Option<&T>,
) -> Result<(), Memory>
    ensures { OnOk result (text.new ≡ text.old ++ tokens_of ((
      key.now,
      or_null T.json_of (option_map (λ value. value.now)
          value.entry),
    ) ∷ [])) }
{
    text.key(key)?;
    write_or_null(text, value)
}

/// Writes a member whose value is a whole number.
#[tactic(auto, using(crate::proofs::Tokens::member_written))]
pub fn write_whole(text: &mut JsonText, key: &str, n: u64) -> Result<(), Memory>
    ensures { OnOk result (text.new ≡ text.old ++ tokens_of ((key.now, whole_json n) ∷ [])) }
{
    text.key(key)?;
    text.whole(n)
}

/// Writes a member whose value is true or false.
#[tactic(auto, using(crate::proofs::Tokens::member_written))]
pub fn write_flag(text: &mut JsonText, key: &str, b: bool) -> Result<(), Memory>
    ensures { OnOk result (text.new ≡ text.old ++ tokens_of ((key.now, boolean b) ∷ [])) }
{
    text.key(key)?;
    text.boolean(b)
}

/// Writes a member whose value is a string of characters.
#[tactic(auto, using(crate::proofs::Tokens::member_written))]
pub fn write_string(text: &mut JsonText, key: &str, value: &str) -> Result<(), Memory>
    ensures { OnOk result (text.new ≡ text.old ++ tokens_of ((key.now, string value.now) ∷ [])) }
{
    text.key(key)?;
    text.string(value)
}

// The member with the hexadecimal pairs of a text.
fn write_pairs(text: &mut JsonText, key: &str, bytes: &[u8]) -> Result<(), Memory>
    ensures { OnOk result (text.new ≡ text.old ++ tokens_of (hex_members key.now (Some (encode_upper bytes.now)))) }
{
    let mut hex_key = String::new(text.allocator());
    hex_key.push_str(key)?;
    hex_key.push_str("_hex")?;
    let pairs = hex::encode_upper(text.allocator(), bytes)?;
    write_string(text, hex_key.as_str(), pairs.as_str())
}

// The member with the hexadecimal pairs of a text, if it isn't UTF-8.
#[tactic(auto, using(crate::proofs::Texts::without_pairs, crate::proofs::Texts::with_pairs))]
fn write_hex_pairs(text: &mut JsonText, key: &str, bytes: &[u8]) -> Result<(), Memory>
    ensures { OnOk result (text.new ≡ text.old ++ tokens_of (hex_members key.now (hex_pairs bytes.now))) }
{
    match std::str::from_utf8(bytes) {
        Ok(_) => Ok(()),
        Err(_) => write_pairs(text, key, bytes),
    }
}

#[tactic(auto, using(crate::proofs::Tokens::member_written))]
fn write_text_of(text: &mut JsonText, key: &str, bytes: &[u8]) -> Result<(), Memory>
    ensures { OnOk result (text.new ≡ text.old ++ tokens_of ((key.now, string (text_of bytes.now)) ∷ [])) }
{
    text.key(key)?;
    text.text(bytes)
}

/// Writes the members of bytes: their text, and their hexadecimal pairs if they aren't UTF-8.
#[tactic(auto, using(crate::proofs::Tokens::members_then))]
pub fn write_text(text: &mut JsonText, key: &str, bytes: &[u8]) -> Result<(), Memory>
    ensures { OnOk result (text.new ≡ text.old ++ tokens_of (text_members key.now bytes.now)) }
{
    write_text_of(text, key, bytes)?;
    write_hex_pairs(text, key, bytes)
}
