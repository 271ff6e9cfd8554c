//! A walk over the tokens of a text: what is left of the pattern, and what was seen.
//!
//! The patterns that are left are a stack, so that a token allocates nothing: the one at the front is the last.
ghost use Rattle.std.specs.Prelude.{◌≡◌, Bool, map, IfOk};
ghost use Rattle.dbc_tokens.specs.Views.{token_of};
ghost use Rattle.dbc_reader.specs.Pattern.{◌then◌, may_end, nothing_seen};
ghost use Rattle.dbc_faults.specs.Patterns.{class_of, pattern_of, firsts, Answers};
ghost use Rattle.dbc_faults.specs.FaultLocations.{step};
ghost use Rattle.dbc_faults.specs.Derivatives.{state_of, step_by, Steps, is_unfit};

use crate::class::Class;
use crate::pattern::{Pattern, firsts, may_end};
use crate::seen::Seen;
use dbc_tokens::{Cause, Token};
use dbc_values::Memory;
use std::alloc::Global;

/// What is left of a pattern after some tokens, and what was seen of them.
#[derive(Drop)]
pub struct Derivative<'p, 't> {
    left: Vec<&'p Pattern>,
    seen: Seen<'t>,
}

// Whether a token was rejected because no pattern takes it: another pattern may.
fn is_unfit(refusal: Option<Cause>) -> bool
    ensures { result ≡ is_unfit refusal }
{
    matches!(refusal, Some(Cause::Statement))
}

impl<'p, 't> Derivative<'p, 't> {
    /// The beginning of a text.
    #[tactic(auto, using(crate::proofs::Joined::stacked_one))]
    pub fn over(alloc: Global, pattern: &'p Pattern) -> Result<Derivative<'p, 't>, Memory>
        ensures { IfOk result (λ derivative. state_of derivative ≡ (pattern_of pattern.now, nothing_seen)) }
    {
        let mut left = Vec::new(alloc);
        left.push(pattern)?;
        Ok(Derivative {
            left,
            seen: Seen::nothing(alloc),
        })
    }

    // Takes the token by this pattern, with all that is left after it, or reports why it can't.
    #[cycle(take)]
    fn take(&mut self, pattern: &'p Pattern, token: Token<'t>) -> Result<Option<Cause>, Memory>
        ensures { IfOk result (λ refusal. Steps (step_by (pattern_of pattern.now) (state_of self.old) (token_of token.entry))
            refusal self.old self.new) }
    {
        match pattern {
            Pattern::Done => Ok(Some(Cause::Statement)),
            Pattern::Then(class, next) => match self.seen.see(*class, token)? {
                Some(cause) => Ok(Some(cause)),
                None => {
                    self.left.push(next)?;
                    Ok(None)
                }
            },
            Pattern::Either(first, second, next) => {
                let refusal = self.take_then(first, next, token)?;
                if !is_unfit(refusal) {
                    return Ok(refusal);
                }
                let refusal = self.take_then(second, next, token)?;
                if !is_unfit(refusal) {
                    return Ok(refusal);
                }
                if first.may_end() || second.may_end() {
                    return Ok(self.take(next, token)?);
                }
                Ok(refusal)
            }
            Pattern::Repeat(each, next) => {
                let refusal = self.take_then(each, pattern, token)?;
                if !is_unfit(refusal) {
                    return Ok(refusal);
                }
                Ok(self.take(next, token)?)
            }
        }
    }

    // The same with the next pattern between the two.
    #[cycle(take)]
    fn take_then(
        &mut self,
        pattern: &'p Pattern,
        next: &'p Pattern,
        token: Token<'t>,
    ) -> Result<Option<Cause>, Memory>
        ensures { IfOk result (λ refusal. Steps (step_by (pattern_of pattern.now)
            (pattern_of next.now then (state_of self.old).0, (state_of self.old).1) (token_of token.entry))
            refusal self.old self.new) }
    {
        self.left.push(next)?;
        match self.take(pattern, token)? {
            None => Ok(None),
            Some(cause) => {
                self.left.pop();
                Ok(Some(cause))
            }
        }
    }

    /// Takes the token, or reports why it can't come here.
    #[cycle(step)]
    pub fn step(&mut self, token: Token<'t>) -> Result<Option<Cause>, Memory>
        ensures { IfOk result (λ refusal. Answers (step (state_of self.old) (token_of token.entry)) refusal (state_of self.old)
            (state_of self.new)) }
    {
        let Some(first) = self.left.pop() else {
            return Ok(Some(Cause::Statement));
        };
        match self.step_from(first, token)? {
            None => Ok(None),
            Some(cause) => {
                self.left.push(first)?;
                Ok(Some(cause))
            }
        }
    }

    // The same with this pattern at the front.
    #[cycle(step)]
    fn step_from(&mut self, first: &'p Pattern, token: Token<'t>) -> Result<Option<Cause>, Memory>
        ensures { IfOk result (λ refusal. Answers (step (pattern_of first.now then (state_of self.old).0, (state_of self.old).1)
            (token_of token.entry)) refusal (state_of self.old) (state_of self.new)) }
    {
        let refusal = self.take(first, token)?;
        if !is_unfit(refusal) {
            return Ok(refusal);
        }
        if first.may_end() {
            return Ok(self.step(token)?);
        }
        Ok(refusal)
    }

    /// Whether the text may end here.
    pub fn may_end(&self) -> bool
        ensures { result ≡ may_end (state_of self.now).0 }
    {
        may_end(self.left.as_slice())
    }

    /// The classes of tokens that may come here.
    pub fn firsts(&self, alloc: Global) -> Result<Vec<Class>, Memory>
        ensures { IfOk result (λ found. map class_of found.items ≡ firsts (state_of self.now).0) }
    {
        firsts(alloc, self.left.as_slice())
    }
}
