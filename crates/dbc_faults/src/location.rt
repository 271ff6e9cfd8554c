//! Where the first fault of a text is.
ghost use Rattle.std.specs.Prelude.{◌≡◌, false, Some, option_map, drop, IfOk};
ghost use Rattle.dbc_tokens.specs.inner.Scanner.{gap_len};
ghost use Rattle.dbc_tokens.specs.Views.{left};
ghost use Rattle.dbc_reader.specs.Pattern.{fault_in};
ghost use Rattle.dbc_faults.specs.Patterns.{pattern_from, firsts};
ghost use Rattle.dbc_faults.specs.FaultLocations.{IsFaultLocation};
ghost use Rattle.dbc_faults.specs.Derivatives.{state_of, left_at, found_of};

use crate::class::Class;
use crate::derivative::Derivative;
use crate::grammar::{Beginning, pattern_from};
use dbc_tokens::{Cause, Next, ReadFault, Tokens, gap_len, tokens};
use dbc_values::Memory;
use std::alloc::Global;

/// Where the first fault of a text is, and what would have been allowed there.
#[derive(Debug, Drop)]
pub struct FaultLocation<'t> {
    /// The fault.
    pub fault: ReadFault,
    /// The bytes of the text before it.
    pub before: &'t [u8],
    /// The bytes of the token at fault; none at the end of the text, and if no token begins.
    pub token: &'t [u8],
    /// The bytes after it.
    pub following: &'t [u8],
    /// The token classes that would have been allowed there.
    pub expected: Vec<Class>,
}

// A location in a text, after a gap.
#[derive(Clone, Copy)]
struct TextPosition<'t> {
    // What is there.
    next: Next<'t>,
    // The bytes from there on.
    here: &'t [u8],
    // The tokens after it.
    after: Tokens<'t>,
}

impl<'t> TextPosition<'t> {
    // The location after the gap at the front of these bytes, which have these tokens.
    fn of(bytes: &'t [u8], tokens: Tokens<'t>) -> TextPosition<'t>
        ensures here { result.here.now ≡ drop (gap_len false bytes.entry.now) bytes.entry.now }
        ensures cut { left_at result ≡ left tokens.entry }
    {
        let here = bytes.split_at(gap_len(bytes)).1;
        let (next, after) = tokens.advance();
        TextPosition { next, here, after }
    }
}

// What is reported of a fault that is here: in the token `here.0`, which `here.1` follows.
fn found<'t>(
    alloc: Global,
    derivative: &Derivative<'_, 't>,
    before: &'t [u8],
    here: (&'t [u8], &'t [u8]),
    fault: ReadFault,
) -> Result<Option<FaultLocation<'t>>, Memory>
    ensures { IfOk result (λ found. option_map found_of found ≡ Some (record {
      fault = fault;
      before = before.now;
      token = here.entry.0.now;
      following = here.entry.1.now;
      expected = firsts (state_of derivative.now).0;
    })) }
{
    let expected = derivative.firsts(alloc)?;
    let (token, following) = here;
    Ok(Some(FaultLocation {
        fault,
        before,
        token,
        following,
        expected,
    }))
}

fn fault_in(line: u64, cause: Cause) -> ReadFault
    ensures { result ≡ fault_in line cause }
{
    ReadFault { line, cause }
}

/// The location of the first fault of a text that begins in this way, if it has one.
pub fn fault_location(
    alloc: Global,
    text: &[u8],
    beginning: Beginning,
) -> Result<Option<FaultLocation<'_>>, Memory>
    ensures { IfOk result (λ found. IsFaultLocation (pattern_from beginning) text.now (option_map found_of found)) }
{
    let pattern = pattern_from(alloc, beginning)?;
    let mut derivative = Derivative::over(alloc, &pattern)?;
    let mut spot = TextPosition::of(text, tokens(text));
    'tokens: loop {
        let before = text.split_at(text.len() - spot.here.len()).0;
        match spot.next {
            Next::Token(token) => {
                let here = spot.here.split_at(token.bytes.len());
                if let Some(cause) = derivative.step(token)? {
                    return found(
                        alloc,
                        &derivative,
                        before,
                        here,
                        fault_in(token.line, cause),
                    );
                }
                spot = TextPosition::of(here.1, spot.after);
            }
            Next::End(line) => {
                if derivative.may_end() {
                    return Ok(None);
                }
                let here = spot.here.split_at(0);
                return found(
                    alloc,
                    &derivative,
                    before,
                    here,
                    fault_in(line, Cause::Statement),
                );
            }
            Next::Fault(line) => {
                let here = spot.here.split_at(0);
                return found(
                    alloc,
                    &derivative,
                    before,
                    here,
                    fault_in(line, Cause::Token),
                );
            }
        }
    }
}
