//! What lines ask for.
ghost use Rattle.std.specs.Prelude.{◌≡◌, IfOk, OnErr, IfSome, IsTrue, option_map};
ghost use Rattle.std.specs.Str.{bytes_eq};
ghost use Rattle.session_script.specs.Words.{verb_of, word_of};
ghost use Rattle.std.specs.Prelude.{Some, ◌∷◌};
ghost use Rattle.session_script.specs.Commands.{HasSense, sense_of, line_sense, sense_alone, show_layout, show, changes, seen};
ghost use Rattle.session_script.specs.Commands.{Means, takes_memory, after_byte, log_line, Log};
ghost use Rattle.can_frames.specs.LogLines.{body_of};

use crate::command::Command;
use crate::edits::edit_of;
use crate::verb::Verb;
use crate::words::{number_of, rest_of, word_of};
use can_frames::body_of;
use dbc_edits::Edit;
use dbc_values::{Memory, same};
use std::alloc::Global;

fn changed(edit: Option<Edit>) -> Option<Command<'static>>
    ensures { option_map seen result ≡ changes edit }
{
    match edit {
        Some(edit) => Some(Command::Change(edit)),
        None => None,
    }
}

fn show_layout(text: Option<&[u8]>) -> Option<Command<'static>>
    ensures { option_map seen result ≡ show_layout (option_map (λ t. t.now) text.entry) }
{
    let index = number_of(text?)?;
    Some(Command::ShowLayout(index))
}

#[tactic(auto, unfolding(crate::specs::Commands::show))]
fn show(text: &[u8]) -> Option<Command<'static>>
    ensures { option_map seen result ≡ show text.now }
{
    if same(text, b"diagnostics") {
        Some(Command::ShowDiagnostics)
    } else if same(text, b"lines") {
        Some(Command::ShowLines)
    } else if same(word_of(text), b"layout") {
        show_layout(rest_of(text))
    } else {
        None
    }
}

// What a verb asks for with the text after it.
fn with_text<'a>(alloc: Global, verb: Verb, text: &'a [u8]) -> Result<Option<Command<'a>>, Memory>
    ensures sense { IfOk result (λ command. HasSense (sense_of verb text.now) (option_map seen command)) }
    ensures memory { OnErr result (IsTrue (takes_memory (Some verb))) }
{
    match verb {
        Verb::Log => Ok(Some(Command::Log(text))),
        Verb::Show => Ok(show(text)),
        Verb::Print => Ok(None),
        _ => Ok(changed(edit_of(alloc, verb, text)?)),
    }
}

fn alone(verb: Verb) -> Option<Command<'static>>
    ensures { HasSense (sense_alone verb) (option_map seen result) }
{
    match verb {
        Verb::Print => Some(Command::Print),
        _ => None,
    }
}

// What a line asks for by its verb and the text after that.
fn by_verb<'a>(
    alloc: Global,
    verb: Option<Verb>,
    rest: Option<&'a [u8]>,
) -> Result<Option<Command<'a>>, Memory>
    ensures sense { IfOk result (λ command. HasSense (line_sense verb (option_map (λ t. t.now) rest.entry))
        (option_map seen command)) }
    ensures memory { OnErr result (IsTrue (takes_memory verb)) }
{
    match (verb, rest) {
        (Some(verb), Some(text)) => with_text(alloc, verb, text),
        (Some(verb), None) => Ok(alone(verb)),
        (None, _) => Ok(None),
    }
}

// What is after a byte at the front.
fn after_byte(text: &[u8], wanted: u8) -> Option<&[u8]>
    ensures value { option_map (λ rest. rest.now) result ≡ after_byte wanted text.now }
    ensures shape { IfSome result (λ rest. text.now ≡ wanted ∷ rest.now) }
{
    match text {
        [b, rest @ ..] if *b == wanted => Some(rest),
        _ => None,
    }
}

/// The line of a log that a line of a script gives, if it begins with `log` and a blank. Most lines of a script do, and this is
/// found at once. Otherwise [`command_of`] determines what the line asks for.
#[tactic(auto, using(crate::proofs::LogLines::means_log))]
pub(crate) fn log_line(line: &[u8]) -> Option<&[u8]>
    ensures value { option_map (λ text. text.now) result ≡ log_line line.now }
    ensures means { IfSome result (λ text. Means line.now (Some (Log text.now))) }
{
    let after_l = after_byte(body_of(line), b'l')?;
    let after_o = after_byte(after_l, b'o')?;
    let after_g = after_byte(after_o, b'g')?;
    after_byte(after_g, b' ')
}

/// What a line asks for, or `None` if it is a bad command. Only edits allocate.
#[tactic(auto, unfolding(crate::specs::Commands::Means))]
pub fn command_of(alloc: Global, line: &[u8]) -> Result<Option<Command<'_>>, Memory>
    ensures means { IfOk result (λ command. Means line.now (option_map seen command)) }
    ensures memory { OnErr result (IsTrue (takes_memory (verb_of (word_of (body_of line.now))))) }
{
    let body = body_of(line);
    by_verb(alloc, Verb::of(word_of(body)), rest_of(body))
}
