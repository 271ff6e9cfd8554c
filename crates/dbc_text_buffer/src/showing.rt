//! Texts on one line.
ghost use Rattle.std.specs.Prelude.{◌≡◌, ◌==◌, ◌++◌, OnOk, if◌then◌else◌};
ghost use Rattle.std.specs.List.{list_any};
ghost use Rattle.dbc_text_buffer.specs.Shown.{shown_byte, breaks_line, shown};

use crate::text_buffer::{TextBuffer, push_bytes};
use dbc_values::Memory;

fn breaks_line(b: u8) -> bool
    ensures { result ≡ breaks_line b }
{
    b == b'\r' || b == b'\n'
}

fn shown_byte(b: u8) -> u8
    ensures { result ≡ shown_byte b }
{
    if breaks_line(b) { b' ' } else { b }
}

// A text, byte by byte on one line.
fn push_each_shown(text: &mut TextBuffer, bytes: &[u8]) -> Result<(), Memory>
    ensures { OnOk result (text.new.items ≡ text.old.items ++ shown bytes.now) }
{
    for b in bytes {
        text.push(shown_byte(*b))?;
    }
    Ok(())
}

fn has_break(bytes: &[u8]) -> bool
    ensures { result ≡ list_any breaks_line bytes.now }
{
    bytes.iter().any(|b| breaks_line(*b))
}

/// A text, with a blank in place of each line break. Most texts have none.
#[tactic(auto, using(crate::proofs::Shown::shown_whole))]
pub fn push_shown(text: &mut TextBuffer, bytes: &[u8]) -> Result<(), Memory>
    ensures { OnOk result (text.new.items ≡ text.old.items ++ shown bytes.now) }
{
    if has_break(bytes) {
        push_each_shown(text, bytes)
    } else {
        push_bytes(text, bytes)
    }
}
