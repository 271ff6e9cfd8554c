//! The line of a fault for which a text is rejected.
ghost use Rattle.std.specs.Prelude.{◌≡◌, ◌∷◌, ◌++◌, [], true, Some, IfOk, OnOk, codes, option_map};
ghost use Rattle.json.specs.Json.{string};
ghost use Rattle.json.specs.Tree.{json_tokens};
ghost use Rattle.can_json_texts.specs.Members.{text_members};
ghost use Rattle.can_json_texts.specs.Values.{tokens_of};
ghost use Rattle.can_json_findings.specs.Faults.{cause_members, guess_members, reason_members};
ghost use Rattle.dbc_tokens.specs.Causes.{cause_number, cause_word};
ghost use Rattle.can_json_findings.specs.Faults.{fault_range, words_members, fault_members, fault_json, fault_line};
ghost use Rattle.can_json_findings.specs.Faults.{BeginsWithFault, AreOfFaults};
ghost use Rattle.can_json_findings.specs.Findings.{at_members};
ghost use Rattle.dbc_reader.specs.Grammar as grammar;
ghost use Rattle.dbc_faults.specs.FaultLocations.{IsFaultLocation};
ghost use Rattle.dbc_faults.specs.Derivatives.{found_of};
ghost use Rattle.std.specs.List.{flat_map};

use crate::finding::{line_of, write_at};
use can_json_texts::{JsonText, write_flag, write_string, write_text, write_whole};
use dbc_faults::{FaultDetails, first_fault, guessed_faults};
use dbc_ranges::Range;
use dbc_tokens::{Cause, ReadFault};
use dbc_values::Memory;
use std::alloc::Global;

fn write_word(text: &mut JsonText, cause: Cause) -> Result<(), Memory>
    ensures { OnOk result (text.new ≡ text.old ++ tokens_of ((codes "word", string (cause_word cause)) ∷ [])) }
{
    write_string(text, "word", cause.word())
}

fn write_word_and_severity(text: &mut JsonText, cause: Cause) -> Result<(), Memory>
    ensures { OnOk result (text.new ≡ text.old ++ tokens_of ((codes "word", string (cause_word cause))
        ∷ (codes "severity", string (codes "error")) ∷ [])) }
{
    write_word(text, cause)?;
    write_string(text, "severity", "error")?;
    Ok(())
}

#[tactic(auto, using(can_json_texts::proofs::Tokens::members_then))]
fn write_cause(text: &mut JsonText, cause: Cause) -> Result<(), Memory>
    ensures { OnOk result (text.new ≡ text.old ++ tokens_of (cause_members cause)) }
{
    write_whole(text, "code", u64::from(cause.number()))?;
    write_word_and_severity(text, cause)
}

#[tactic(auto, using(can_json_texts::proofs::Tokens::none_written))]
fn write_guess(text: &mut JsonText, is_guess: bool) -> Result<(), Memory>
    ensures { OnOk result (text.new ≡ text.old ++ tokens_of (guess_members is_guess)) }
{
    if is_guess {
        write_flag(text, "guess", true)
    } else {
        Ok(())
    }
}

#[tactic(auto, using(can_json_texts::proofs::Tokens::members_then))]
fn write_found_and_expected(text: &mut JsonText, details: &FaultDetails<'_>) -> Result<(), Memory>
    ensures { OnOk result (text.new ≡ text.old ++ tokens_of (text_members (codes "found") details.now.found.items
        ++ text_members (codes "expected") details.now.expected.items)) }
{
    write_text(text, "found", details.found.as_slice())?;
    write_text(text, "expected", details.expected.as_slice())
}

#[tactic(auto, using(can_json_texts::proofs::Tokens::none_written))]
fn write_reason(text: &mut JsonText, reason: Option<&[u8]>) -> Result<(), Memory>
    ensures { OnOk result (text.new ≡ text.old ++ tokens_of (reason_members (option_map (λ words. words.now) reason.entry))) }
{
    match reason {
        Some(words) => write_text(text, "reason", words),
        None => Ok(()),
    }
}

#[tactic(auto, using(can_json_texts::proofs::Tokens::members_then))]
fn write_words(text: &mut JsonText, details: &FaultDetails<'_>) -> Result<(), Memory>
    ensures { OnOk result (text.new ≡ text.old ++ tokens_of (words_members details.now)) }
{
    write_found_and_expected(text, details)?;
    write_reason(text, details.reason)
}

// The range of the token at fault in a text of this many bytes.
fn fault_range(size: usize, details: &FaultDetails<'_>) -> Range
    ensures { result ≡ fault_range size details.now }
{
    let to = size.saturating_sub(details.location.following.len());
    Range {
        line: details.location.fault.line,
        from: to.saturating_sub(details.location.token.len()),
        to,
    }
}

fn write_location(
    text: &mut JsonText,
    size: usize,
    details: &FaultDetails<'_>,
) -> Result<(), Memory>
    ensures { OnOk result (text.new ≡ text.old ++ tokens_of (at_members (fault_range size details.now ∷ []))) }
{
    let ranges = [fault_range(size, details)];
    write_at(text, &ranges)
}

#[tactic(auto, using(can_json_texts::proofs::Tokens::members_then))]
fn write_words_and_location(
    text: &mut JsonText,
    size: usize,
    details: &FaultDetails<'_>,
) -> Result<(), Memory>
    ensures { OnOk result (text.new ≡ text.old ++ tokens_of (words_members details.now
        ++ at_members (fault_range size details.now ∷ []))) }
{
    write_words(text, details)?;
    write_location(text, size, details)
}

#[tactic(auto, using(can_json_texts::proofs::Tokens::members_then))]
fn write_cause_and_guess(text: &mut JsonText, cause: Cause, is_guess: bool) -> Result<(), Memory>
    ensures { OnOk result (text.new ≡ text.old ++ tokens_of (cause_members cause ++ guess_members is_guess)) }
{
    write_cause(text, cause)?;
    write_guess(text, is_guess)
}

#[tactic(auto, using(can_json_texts::proofs::Tokens::members_then))]
fn write_members(
    text: &mut JsonText,
    size: usize,
    details: &FaultDetails<'_>,
    is_guess: bool,
) -> Result<(), Memory>
    ensures { OnOk result (text.new ≡ text.old ++ tokens_of (fault_members size details.now is_guess)) }
{
    write_cause_and_guess(text, details.location.fault.cause, is_guess)?;
    write_words_and_location(text, size, details)
}

fn write_object(
    text: &mut JsonText,
    size: usize,
    details: &FaultDetails<'_>,
    is_guess: bool,
) -> Result<(), Memory>
    ensures { OnOk result (text.new ≡ text.old ++ json_tokens (fault_json size details.now is_guess)) }
{
    text.begin_object()?;
    write_members(text, size, details, is_guess)?;
    text.end_object()?;
    Ok(())
}

// The line of a fault of a text of this many bytes: an object and an LF.
fn fault_line(
    alloc: Global,
    size: usize,
    details: &FaultDetails<'_>,
    is_guess: bool,
) -> Result<Vec<u8>, Memory>
    ensures { IfOk result (λ line. line.items ≡ fault_line size details.now is_guess) }
{
    let mut object = JsonText::new(alloc);
    write_object(&mut object, size, details, is_guess)?;
    line_of(object)
}

/// The first fault of a text, and the objects of it and of later faults, which are guesses, a line each.
#[derive(Drop)]
pub struct FaultLines {
    /// The first fault.
    pub fault: ReadFault,
    /// The lines.
    pub words: Vec<u8>,
}

// Adds the lines of guesses.
fn push_guesses(
    alloc: Global,
    size: usize,
    guesses: &[FaultDetails<'_>],
    lines: &mut Vec<u8>,
) -> Result<(), Memory>
    ensures { OnOk result (lines.new.items ≡ lines.old.items ++ flat_map (λ details. fault_line size details true) guesses.now) }
{
    for details in guesses {
        let mut line = fault_line(alloc, size, details, true)?;
        lines.append(&mut line)?;
    }
    Ok(())
}

// The lines of a fault and of guesses after it.
fn lines_of(alloc: Global, text: &[u8], first: &FaultDetails<'_>) -> Result<FaultLines, Memory>
    requires { IsFaultLocation grammar.text text.now (Some (found_of first.now.location)) }
    ensures { IfOk result (λ lines. BeginsWithFault text.now lines.fault lines.words.items) }
{
    let mut words = fault_line(alloc, text.len(), first, false)?;
    let guesses = guessed_faults(alloc, first)?;
    push_guesses(alloc, text.len(), guesses.as_slice(), &mut words)?;
    Ok(FaultLines {
        fault: first.location.fault,
        words,
    })
}

/// The objects of the first fault of a text and, as guesses, of later ones; none if it has no fault.
pub fn fault_lines(alloc: Global, text: &[u8]) -> Result<Option<FaultLines>, Memory>
    ensures { IfOk result (λ lines. AreOfFaults text.now lines) }
{
    match first_fault(alloc, text)? {
        Some(first) => Ok(Some(lines_of(alloc, text, &first)?)),
        None => Ok(None),
    }
}
