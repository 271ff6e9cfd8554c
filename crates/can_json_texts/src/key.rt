//! Members of objects by their keys.
ghost use Rattle.std.specs.Prelude.{◌≡◌, ◌∷◌, ◌++◌, IfOk, OnOk, codes, decimal};
ghost use Rattle.json.specs.Json.{string, number, boolean};
ghost use Rattle.json.specs.Print.{quoted};
ghost use Rattle.hex.specs.Hex.{encode_upper};
ghost use Rattle.can_json_texts.specs.Texts.{text_of, hex_pairs};
ghost use Rattle.can_json_texts.specs.Members.{Key as PlainKey, key_text, keyed, keyed_texts, hex_key, hex_members};
ghost use Rattle.can_json_texts.specs.Members.{further_members};
ghost use Rattle.can_json_texts.specs.Members.{members_text};
ghost use Rattle.can_json_texts.specs.Members.{text_members, member_text};

use crate::hexadecimal::push_hexadecimal;
use crate::quoting::{is_plain, push_plain, push_quoted, push_string};
use dbc_text_buffer::{ReadyText, TextBuffer, push_bytes};
use dbc_values::Memory;
use std::alloc::Global;
use std::marker::Model;

/// A key, cached with what comes before and after it.
#[derive(Drop)]
pub struct Key {
    mark: u8,
    name: Vec<u8>,
    // `,"key":`
    label: ReadyText,
}

impl Model for Key {
    ghost use Rattle.std.specs.Prelude.{◌≡◌};
    ghost use Rattle.can_json_texts.specs.Members as members;

    ghost Value = { members.Key };

    ghost view = { λ key. record { mark = key.mark; name = key.name.items } };

    ghost invariant = { λ key. key.label ≡ members.key_text (record { mark = key.mark; name = key.name.items }) };
}

// `,"key":`
#[tactic(auto, using(crate::proofs::Pushing::pushed_then))]
fn push_key(text: &mut TextBuffer, mark: u8, name: &[u8]) -> Result<(), Memory>
    ensures { OnOk result (text.new.items ≡ text.old.items ++ key_text (record { mark = mark; name = name.now })) }
{
    text.push(mark)?;
    push_quoted(text, name)?;
    text.push(b':')?;
    Ok(())
}

// `key_hex`
fn hex_key(alloc: Global, name: &[u8]) -> Result<Vec<u8>, Memory>
    ensures { IfOk result (λ key. key.items ≡ hex_key name.now) }
{
    let mut key = Vec::from_slice(alloc, name)?;
    key.extend_from_slice(b"_hex")?;
    Ok(key)
}

// `,"key_hex":"B043"`, for bytes that aren't UTF-8.
fn push_hex_member(text: &mut TextBuffer, name: &[u8], bytes: &[u8]) -> Result<(), Memory>
    ensures { OnOk result (text.new.items ≡ text.old.items ++ further_members (hex_members name.now (Some
        (encode_upper bytes.now)))) }
{
    let key = hex_key(text.allocator(), name)?;
    push_key(text, b',', key.as_slice())?;
    push_hexadecimal(text, bytes)?;
    Ok(())
}

// `,"key_hex":"B043"`, if the bytes aren't UTF-8.
#[tactic(auto, using(crate::proofs::Spellings::without_pairs, crate::proofs::Spellings::with_pairs))]
fn push_hex_pairs(text: &mut TextBuffer, name: &[u8], bytes: &[u8]) -> Result<(), Memory>
    ensures { OnOk result (text.new.items ≡ text.old.items ++ further_members (hex_members name.now (hex_pairs bytes.now))) }
{
    match std::str::from_utf8(bytes) {
        Ok(_) => Ok(()),
        Err(_) => push_hex_member(text, name, bytes),
    }
}

// `"text"`, and `,"key_hex":"B043"` if the bytes aren't UTF-8.
#[tactic(auto, using(crate::proofs::Pushing::pushed_then))]
fn push_any_texts(text: &mut TextBuffer, name: &[u8], bytes: &[u8]) -> Result<(), Memory>
    ensures { OnOk result (text.new.items ≡ text.old.items ++ (quoted (text_of bytes.now)
        ++ further_members (hex_members name.now (hex_pairs bytes.now)))) }
{
    push_string(text, bytes)?;
    push_hex_pairs(text, name, bytes)
}

// The same. Most bytes go into a string as they are.
#[tactic(auto, using(crate::proofs::Plain::plain_texts))]
fn push_texts(text: &mut TextBuffer, name: &[u8], bytes: &[u8]) -> Result<(), Memory>
    ensures { OnOk result (text.new.items ≡ text.old.items ++ (quoted (text_of bytes.now)
        ++ further_members (hex_members name.now (hex_pairs bytes.now)))) }
{
    if is_plain(bytes) {
        push_plain(text, bytes)
    } else {
        push_any_texts(text, name, bytes)
    }
}

impl Key {
    fn by(alloc: Global, mark: u8, name: &[u8]) -> Result<Key, Memory>
        ensures { IfOk result (λ key. key ≡ record { mark = mark; name = name.now }) }
    {
        let mut text = TextBuffer::new(alloc);
        push_key(&mut text, mark, name)?;
        let label = ReadyText::of(alloc, text.as_slice())?;
        let name = Vec::from_slice(alloc, name)?;
        Ok(Key { mark, name, label })
    }

    /// A key that begins an object.
    pub fn first(alloc: Global, name: &[u8]) -> Result<Key, Memory>
        ensures { IfOk result (λ key. key ≡ record { mark = 123; name = name.now }) }
    {
        Key::by(alloc, b'{', name)
    }

    /// A key after other members.
    pub fn further(alloc: Global, name: &[u8]) -> Result<Key, Memory>
        ensures { IfOk result (λ key. key ≡ record { mark = 44; name = name.now }) }
    {
        Key::by(alloc, b',', name)
    }

    /// Appends the key alone.
    #[inline(always)]
    pub fn push_to(&self, text: &mut TextBuffer) -> Result<(), Memory>
        ensures { OnOk result (text.new.items ≡ text.old.items ++ key_text self.now) }
    {
        self.label.push_to(text)
    }

    /// Appends the member of a number with these digits.
    pub fn push_digits(&self, text: &mut TextBuffer, digits: &[u8]) -> Result<(), Memory>
        ensures { OnOk result (text.new.items ≡ text.old.items ++ keyed self.now (number digits.now)) }
    {
        self.push_to(text)?;
        push_bytes(text, digits)?;
        Ok(())
    }

    /// Appends the member of a string.
    pub fn push_quoted(&self, text: &mut TextBuffer, bytes: &[u8]) -> Result<(), Memory>
        ensures { OnOk result (text.new.items ≡ text.old.items ++ keyed self.now (string bytes.now)) }
    {
        self.push_to(text)?;
        push_quoted(text, bytes)?;
        Ok(())
    }

    /// Appends the member of bytes as hexadecimal pairs.
    pub fn push_hexadecimal(&self, text: &mut TextBuffer, bytes: &[u8]) -> Result<(), Memory>
        ensures { OnOk result (text.new.items ≡ text.old.items ++ keyed self.now (string (encode_upper bytes.now))) }
    {
        self.push_to(text)?;
        push_hexadecimal(text, bytes)?;
        Ok(())
    }

    /// Appends the members of bytes: their text, and their hexadecimal pairs if they aren't UTF-8.
    pub fn push_texts(&self, text: &mut TextBuffer, bytes: &[u8]) -> Result<(), Memory>
        ensures { OnOk result (text.new.items ≡ text.old.items ++ keyed_texts self.now bytes.now) }
    {
        self.push_to(text)?;
        push_texts(text, self.name.as_slice(), bytes)?;
        Ok(())
    }
}
