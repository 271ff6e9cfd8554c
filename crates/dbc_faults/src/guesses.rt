//! The faults after the first one that can be guessed.

use crate::going_on::next_statement;
use crate::location::{FaultLocation, fault_location};
use dbc_tokens::ReadFault;
use dbc_values::Memory;
use std::alloc::Global;

/// The greatest number of guessed faults.
pub(crate) const MAX_GUESSES: usize = 20;

// How many LF the bytes have.
fn line_feeds(bytes: &[u8]) -> u64 {
    let mut count = 0u64;
    for b in bytes {
        if *b == b'\n' {
            count = count.saturating_add(1);
        }
    }
    count
}

/// The bytes after a fault, and the line where they begin.
#[derive(Clone, Copy)]
pub(crate) struct Guesses<'t> {
    line: u64,
    rest: &'t [u8],
}

impl<'t> Guesses<'t> {
    /// The bytes after this fault.
    pub(crate) fn after(location: &FaultLocation<'t>) -> Guesses<'t> {
        Guesses {
            line: location
                .fault
                .line
                .saturating_add(line_feeds(location.token)),
            rest: location.following,
        }
    }

    /// The next guessed fault, with its line in the text.
    pub(crate) fn next(&mut self, alloc: Global) -> Result<Option<FaultLocation<'t>>, Memory> {
        let Some(resumption) = next_statement(self.rest) else {
            return Ok(None);
        };
        let Some(location) = fault_location(alloc, resumption.rest, resumption.beginning)? else {
            return Ok(None);
        };
        let lines_before = self.line.saturating_add(resumption.lines);
        let line = lines_before
            .saturating_add(location.fault.line)
            .saturating_sub(1);
        let fault = ReadFault {
            line,
            ..location.fault
        };
        let guess = FaultLocation { fault, ..location };
        *self = Guesses::after(&guess);
        Ok(Some(guess))
    }
}
