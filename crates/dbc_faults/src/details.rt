//! The details of faults, in parts.
ghost use Rattle.std.specs.Prelude.{◌≡◌, option_map, IfOk};
ghost use Rattle.dbc_reader.specs.Grammar as grammar;
ghost use Rattle.dbc_faults.specs.FaultLocations.{IsFaultLocation};
ghost use Rattle.dbc_faults.specs.Derivatives.{found_of};

use crate::classes::push_classes;
use crate::finding::push_found;
use crate::grammar::Beginning;
use crate::guesses::{Guesses, MAX_GUESSES};
use crate::location::{FaultLocation, fault_location};
use crate::reason::Reason;
use dbc_values::Memory;
use std::alloc::Global;

/// The details of one fault.
#[derive(Debug, Drop)]
pub struct FaultDetails<'t> {
    /// The fault with its line, its token and the bytes around it. For a guess, the bytes before the token begin at the
    /// line where reading resumed.
    pub location: FaultLocation<'t>,
    /// What was found, in words.
    pub found: Vec<u8>,
    /// What is expected there, in words.
    pub expected: Vec<u8>,
    /// The usual reason and its remedy, in words, if one is known.
    pub reason: Option<&'static [u8]>,
}

// The details of a fault.
fn details_of(alloc: Global, location: FaultLocation<'_>) -> Result<FaultDetails<'_>, Memory>
    ensures { IfOk result (λ details. details.location ≡ location.entry) }
{
    let mut found = Vec::new(alloc);
    push_found(&mut found, &location)?;
    let mut expected = Vec::new(alloc);
    push_classes(alloc, &mut expected, location.expected.as_slice())?;
    let reason = match Reason::of(&location) {
        Some(reason) => Some(reason.words()),
        None => None,
    };
    Ok(FaultDetails {
        location,
        found,
        expected,
        reason,
    })
}

/// The details of the first fault of a text, if it has any.
pub fn first_fault(alloc: Global, text: &[u8]) -> Result<Option<FaultDetails<'_>>, Memory>
    ensures { IfOk result (λ details. IsFaultLocation grammar.text text.now (option_map (λ one. found_of one.location) details)) }
{
    match fault_location(alloc, text, Beginning::Text)? {
        Some(location) => Ok(Some(details_of(alloc, location)?)),
        None => Ok(None),
    }
}

/// The details of later faults, each a guess: those that reading meets when it resumes at the next line that begins with a keyword.
/// There are at most twenty. Which ones they are is tested, not proved.
pub fn guessed_faults<'t>(
    alloc: Global,
    first: &FaultDetails<'t>,
) -> Result<Vec<FaultDetails<'t>>, Memory> {
    let mut all = Vec::new(alloc);
    let mut guesses = Guesses::after(&first.location);
    for _ in 0..MAX_GUESSES {
        let Some(location) = guesses.next(alloc)? else {
            return Ok(all);
        };
        all.push(details_of(alloc, location)?)?;
    }
    Ok(all)
}
