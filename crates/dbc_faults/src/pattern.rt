//! Patterns over classes of tokens: where a text may end, and what may be there. Of the patterns that are left,
//! the last comes first.
ghost use Rattle.std.specs.Prelude.{◌≡◌, ◌++◌, map, IfOk, OnOk};
ghost use Rattle.dbc_reader.specs.Pattern.{may_end};
ghost use Rattle.dbc_faults.specs.Patterns.{class_of, pattern_of, stacked, firsts};

use crate::class::Class;
use dbc_values::Memory;
use std::alloc::Global;

/// What a list of tokens may be.
#[derive(Drop)]
pub enum Pattern {
    /// Nothing.
    Done,
    /// A token of the class, and then.
    Then(Class, Box<Pattern>),
    /// The first or the second, and then.
    Either(Box<Pattern>, Box<Pattern>, Box<Pattern>),
    /// Any number of times, and then.
    Repeat(Box<Pattern>, Box<Pattern>),
}

impl Pattern {
    /// Whether the text may end here.
    pub fn may_end(&self) -> bool
        ensures { result ≡ may_end (pattern_of self.now) }
    {
        match self {
            Pattern::Done => true,
            Pattern::Then(_, _) => false,
            Pattern::Either(first, second, next) => {
                (first.may_end() || second.may_end()) && next.may_end()
            }
            Pattern::Repeat(_, next) => next.may_end(),
        }
    }

    /// Appends the classes that may be at the front to those that were found.
    pub fn add_firsts(&self, found: &mut Vec<Class>) -> Result<(), Memory>
        ensures { OnOk result (map class_of found.new.items ≡ map class_of found.old.items ++ firsts (pattern_of self.now)) }
    {
        match self {
            Pattern::Done => Ok(()),
            Pattern::Then(class, _) => {
                found.push(*class)?;
                Ok(())
            }
            Pattern::Either(first, second, next) => {
                first.add_firsts(found)?;
                second.add_firsts(found)?;
                if first.may_end() || second.may_end() {
                    next.add_firsts(found)?;
                }
                Ok(())
            }
            Pattern::Repeat(each, next) => {
                each.add_firsts(found)?;
                next.add_firsts(found)
            }
        }
    }
}

/// Whether the text may end where these patterns are left, the last at the front.
#[tactic(auto, using(crate::proofs::Joined::ends_after))]
pub fn may_end(left: &[&Pattern]) -> bool
    ensures { result ≡ may_end (stacked left.now) }
{
    match left {
        [] => true,
        [others @ .., first] => first.may_end() && may_end(others),
    }
}

// Appends the classes that may come where these patterns are left to those that were found.
#[tactic(auto, using(crate::proofs::Joined::firsts_then))]
fn add_firsts(left: &[&Pattern], found: &mut Vec<Class>) -> Result<(), Memory>
    ensures { OnOk result (map class_of found.new.items ≡ map class_of found.old.items ++ firsts (stacked left.now)) }
{
    let [others @ .., first] = left else {
        return Ok(());
    };
    first.add_firsts(found)?;
    if first.may_end() {
        add_firsts(others, found)?;
    }
    Ok(())
}

/// The classes that may come where these patterns are left.
pub fn firsts(alloc: Global, left: &[&Pattern]) -> Result<Vec<Class>, Memory>
    ensures { IfOk result (λ found. map class_of found.items ≡ firsts (stacked left.now)) }
{
    let mut found = Vec::new(alloc);
    add_firsts(left, &mut found)?;
    Ok(found)
}
