//! Reports of faults.
ghost use Rattle.std.specs.Prelude.{◌≡◌, ◌++◌, option_map, IfOk, OnOk, IfSome};
ghost use Rattle.dbc_reader.specs.Grammar as grammar;
ghost use Rattle.dbc_faults.specs.FaultLocations.{IsFaultLocation};
ghost use Rattle.dbc_faults.specs.Derivatives.{found_of};
ghost use Rattle.dbc_faults.specs.Headlines.{headline, BeginsSo};

use crate::classes::push_classes;
use crate::finding::push_found;
use crate::grammar::Beginning;
use crate::guesses::{Guesses, MAX_GUESSES};
use crate::location::{FaultLocation, fault_location};
use crate::marked_line::push_marked_line;
use crate::reason::Reason;
use crate::words::push_all;
use dbc_tokens::Cause;
use dbc_values::Memory;
use itoa::Buffer;
use std::alloc::Global;

/// The first fault of a text, and the report on it and on those after it that can be guessed.
#[derive(Debug, Drop)]
pub struct Report<'t> {
    /// Where the first fault is.
    pub location: FaultLocation<'t>,
    /// The report.
    pub words: Vec<u8>,
}

// Appends the start of a fault's report to the text: its line, and its number and name.
#[tactic(auto, using(crate::proofs::Pushed::pushed_then), unfolding(crate::specs::Headlines::headline))]
fn push_headline(text: &mut Vec<u8>, line: u64, cause: Cause) -> Result<(), Memory>
    ensures { OnOk result (text.new.items ≡ text.old.items ++ headline line cause) }
{
    let mut digits = Buffer::new();
    text.extend_from_slice(b"line ")?;
    text.extend_from_slice(digits.format(line).as_bytes())?;
    text.extend_from_slice(b": ")?;
    text.extend_from_slice(digits.format(cause.number()).as_bytes())?;
    text.extend_from_slice(b" ")?;
    text.extend_from_slice(cause.word().as_bytes())?;
    text.extend_from_slice(b"\n")?;
    Ok(())
}

// Appends the rest of a fault's report to the text.
fn push_fault(
    alloc: Global,
    text: &mut Vec<u8>,
    location: &FaultLocation<'_>,
) -> Result<(), Memory> {
    push_marked_line(text, location)?;
    push_all(text, &[b"found: "])?;
    push_found(text, location)?;
    push_all(text, &[b"\nexpected: "])?;
    push_classes(alloc, text, location.expected.as_slice())?;
    if let Some(reason) = Reason::of(location) {
        push_all(text, &[b"\nreason: ", reason.words()])?;
    }
    push_all(text, &[b"\n"])
}

// Appends the report on the guessed faults, those after a first one, to the text.
fn push_guesses(
    alloc: Global,
    text: &mut Vec<u8>,
    first: &FaultLocation<'_>,
) -> Result<(), Memory> {
    let mut guesses = Guesses::after(first);
    for _ in 0..MAX_GUESSES {
        let Some(location) = guesses.next(alloc)? else {
            return Ok(());
        };
        push_all(text, &[b"\nguess: "])?;
        push_headline(text, location.fault.line, location.fault.cause)?;
        push_fault(alloc, text, &location)?;
    }
    push_all(text, &[b"\nNo further guesses.\n"])
}

// The report on a text's first fault after its line and its cause, and on later faults.
fn words_after_headline(alloc: Global, location: &FaultLocation<'_>) -> Result<Vec<u8>, Memory> {
    let mut words = Vec::new(alloc);
    push_fault(alloc, &mut words, location)?;
    push_guesses(alloc, &mut words, location)?;
    Ok(words)
}

// The report on a text's first fault, and on those after it.
fn words_of(alloc: Global, location: &FaultLocation<'_>) -> Result<Vec<u8>, Memory>
    ensures { IfOk result (λ words. BeginsSo location.now.fault words.items) }
{
    let mut words = Vec::new(alloc);
    push_headline(&mut words, location.fault.line, location.fault.cause)?;
    let mut others = words_after_headline(alloc, location)?;
    words.append(&mut others)?;
    Ok(words)
}

/// The report on the faults of a text, if it has any: the first one, and, as guesses, those that reading meets when it resumes at
/// the next line after a fault that begins with a statement's word. The report begins with the first one's line and cause.
pub fn fault_report(alloc: Global, text: &[u8]) -> Result<Option<Report<'_>>, Memory>
    ensures location { IfOk result (λ one. IsFaultLocation grammar.text text.now (option_map (λ r. found_of r.location) one)) }
    ensures words { IfOk result (λ report. IfSome report (λ r. BeginsSo r.location.fault r.words.items)) }
{
    match fault_location(alloc, text, Beginning::Text)? {
        Some(location) => {
            let words = words_of(alloc, &location)?;
            Ok(Some(Report { location, words }))
        }
        None => Ok(None),
    }
}
