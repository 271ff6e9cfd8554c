//! Strings of JSON.
ghost use Rattle.std.specs.Prelude.{◌≡◌, ◌≤◌, ◌/◌, ◌%◌, ◌∷◌, ◌++◌, [], true, IfOk, OnOk, string_bytes};
ghost use Rattle.std.specs.Char.{digit_char};
ghost use Rattle.json.specs.Print.{escape_byte, escape, quoted};
ghost use Rattle.can_json_texts.specs.Texts.{characters, text_of, is_plain_byte, is_plain};

use dbc_text_buffer::{TextBuffer, push_bytes};
use dbc_values::Memory;
use std::alloc::Global;

// A lower case hexadecimal digit.
fn digit(number: u8) -> u8
    requires { number ≤ 15 }
    ensures { result ≡ digit_char number }
{
    if number < 10 {
        b'0' + number
    } else {
        b'a' + (number - 10)
    }
}

// A byte of a string.
#[tactic(auto, unfolding(json::specs::Print::escape_byte))]
fn push_escaped(text: &mut TextBuffer, byte: u8) -> Result<(), Memory>
    ensures { OnOk result (text.new.items ≡ text.old.items ++ escape_byte byte) }
{
    match byte {
        b'"' => text.push_piece(b"\\\""),
        b'\\' => text.push_piece(b"\\\\"),
        8 => text.push_piece(b"\\b"),
        9 => text.push_piece(b"\\t"),
        10 => text.push_piece(b"\\n"),
        12 => text.push_piece(b"\\f"),
        13 => text.push_piece(b"\\r"),
        byte if byte < 32 => text.push_piece(&[
            b'\\',
            b'u',
            b'0',
            b'0',
            digit(byte / 16),
            digit(byte % 16),
        ]),
        byte => text.push(byte),
    }
}

// The bytes of a string, one by one.
fn push_escaped_bytes(text: &mut TextBuffer, bytes: &[u8]) -> Result<(), Memory>
    ensures { OnOk result (text.new.items ≡ text.old.items ++ escape bytes.now) }
{
    for byte in bytes {
        push_escaped(text, *byte)?;
    }
    Ok(())
}

// A string whose bytes may be any.
#[tactic(auto, using(crate::proofs::Pushing::pushed_then))]
fn push_any_quoted(text: &mut TextBuffer, bytes: &[u8]) -> Result<(), Memory>
    ensures { OnOk result (text.new.items ≡ text.old.items ++ quoted bytes.now) }
{
    text.push(b'"')?;
    push_escaped_bytes(text, bytes)?;
    text.push(b'"')?;
    Ok(())
}

fn is_plain_byte(b: u8) -> bool
    ensures { result ≡ is_plain_byte b }
{
    32 <= b && b < 128 && b != b'"' && b != b'\\'
}

/// Whether bytes go into a string as they are, and each is a character.
pub fn is_plain(bytes: &[u8]) -> bool
    ensures { result ≡ is_plain bytes.now }
{
    bytes.iter().all(|b| is_plain_byte(*b))
}

/// Appends a string of bytes that go into it as they are.
pub(crate) fn push_plain(text: &mut TextBuffer, bytes: &[u8]) -> Result<(), Memory>
    requires { is_plain bytes.now ≡ true }
    ensures { OnOk result (text.new.items ≡ text.old.items ++ quoted bytes.now) }
{
    text.push(b'"')?;
    push_bytes(text, bytes)?;
    text.push(b'"')?;
    Ok(())
}

/// Appends a string: the bytes in quotes, with JSON's escapes for quotes, backslashes and control bytes.
pub fn push_quoted(text: &mut TextBuffer, bytes: &[u8]) -> Result<(), Memory>
    ensures { OnOk result (text.new.items ≡ text.old.items ++ quoted bytes.now) }
{
    if is_plain(bytes) {
        push_plain(text, bytes)
    } else {
        push_any_quoted(text, bytes)
    }
}

/// The text in which each byte is the character with its value.
pub fn characters_of(alloc: Global, bytes: &[u8]) -> Result<String, Memory>
    ensures { IfOk result (λ text. string_bytes text ≡ characters bytes.now) }
{
    let mut text = String::new(alloc);
    for byte in bytes {
        text.push(char::from(*byte))?;
    }
    Ok(text)
}

// A string of bytes that aren't UTF-8.
fn push_characters(text: &mut TextBuffer, bytes: &[u8]) -> Result<(), Memory>
    ensures { OnOk result (text.new.items ≡ text.old.items ++ quoted (characters bytes.now)) }
{
    let characters = characters_of(text.allocator(), bytes)?;
    push_any_quoted(text, characters.as_str().as_bytes())
}

/// Appends the text of bytes as a string.
#[tactic(auto, using(crate::proofs::Spellings::own_text, crate::proofs::Spellings::text_of_characters))]
pub(crate) fn push_string(text: &mut TextBuffer, bytes: &[u8]) -> Result<(), Memory>
    ensures { OnOk result (text.new.items ≡ text.old.items ++ quoted (text_of bytes.now)) }
{
    match std::str::from_utf8(bytes) {
        Ok(_) => push_any_quoted(text, bytes),
        Err(_) => push_characters(text, bytes),
    }
}
