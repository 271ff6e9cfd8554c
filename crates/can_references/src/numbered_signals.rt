//! Signals in the order of their message IDs, if few have the same message ID.
ghost use Rattle.std.specs.Prelude.{◌≡◌, ◌↔◌, false, IsTrue, All, IfOk, IfSome, map};
ghost use Rattle.std.specs.List.{list_any};
ghost use Rattle.std.specs.List.Sorted.{IsPermutation, IsNonDecreasingBy};
ghost use Rattle.std.specs.Str.{bytes_eq};
ghost use Rattle.can_references.specs.inner.KeySets.{RisesFrom};
ghost use Rattle.can_references.specs.inner.SignalHashes.{hash_of};
ghost use Rattle.can_references.specs.SignalNames.{same_signal, named_signal};
ghost use Rattle.can_references.specs.inner.SignalRuns.{message_number, signal_of, hashed, is_signal, HasHash, StartsAt};
ghost use Rattle.can_references.specs.inner.SignalRuns.{DifferAfter};

use crate::hashes::name_hash;
use crate::numbered::Numbered;
use dbc_values::{Memory, same};
use std::alloc::Global;
use std::marker::Model;

// Up to this many names are compared as they are: making marks would cost more than they save.
const UNHASHED_LIMIT: usize = 4;

// Up to this many marks are compared one after another. Above it a binary search by hash costs less.
const LINEAR_SEARCH_LIMIT: usize = 32;

/// Signals in the order of their message IDs: at most [`LINEAR_SEARCH_LIMIT`] of each message ID, or [`UNHASHED_LIMIT`] if
/// they have no marks.
#[derive(Drop)]
pub(crate) struct NumberedSignals<'a> {
    signals: Vec<Numbered<'a>>,
    is_hashed: bool,
}

impl<'a> Model for NumberedSignals<'a> {
    ghost use Rattle.std.specs.Prelude.{ℕ, List, map};
    ghost use Rattle.std.specs.List.Sorted.{IsNonDecreasingBy};
    ghost use Rattle.can_references.specs.inner.SignalRuns.{message_number, signal_of, AreSearchable};

    ghost Value = { List (ℕ × List ℕ) };

    ghost view = { λ names. map signal_of names.signals.items };

    ghost invariant = { λ names. AreSearchable names.is_hashed names.signals.items };
}

// The signals, not yet marked.
fn numbered<'a>(alloc: Global, signals: &[(u32, &'a [u8])]) -> Result<Vec<Numbered<'a>>, Memory>
    ensures signals { IfOk result (λ numbered. map signal_of numbered.items ≡ map named_signal signals.now) }
    ensures hashes { IfOk result (λ numbered. All (HasHash false) numbered.items) }
{
    let mut numbered = Vec::with_capacity(alloc, signals.len())?;
    for signal in signals {
        numbered.push(Numbered {
            number: signal.0,
            hash: 0,
            name: signal.1,
        })?;
    }
    Ok(numbered)
}

// The signals in the order of their message IDs. If they are in this order already, none moves.
fn in_order<'a>(alloc: Global, signals: &[(u32, &'a [u8])]) -> Result<Vec<Numbered<'a>>, Memory>
    ensures permutation { IfOk result (λ ordered. IsPermutation (map named_signal signals.now) (map signal_of ordered.items)) }
    ensures ordered { IfOk result (λ ordered. IsNonDecreasingBy message_number ordered.items) }
    ensures hashes { IfOk result (λ ordered. All (HasHash false) ordered.items) }
{
    let mut ordered = numbered(alloc, signals)?;
    ordered.sort_unstable_by_key(|signal| signal.number);
    Ok(ordered)
}

// Whether each signal has another message ID than the signal this far after it.
fn differ_after(signals: &[Numbered<'_>], distance: usize) -> bool
    ensures { IsTrue result ↔ DifferAfter distance signals.now }
{
    let mut index = distance;
    while index < signals.len() {
        if signals[index].number == signals[index - distance].number {
            return false;
        }
        index += 1;
    }
    true
}

// Marks each signal.
fn hash_all(signals: &mut [Numbered<'_>])
    ensures { signals.new ≡ map hashed signals.old }
{
    for signal in signals.iter_mut() {
        signal.hash = name_hash(signal.name);
    }
}

// The signals from the first on whose message ID is not below this one.
fn from_number<'s, 'a>(signals: &'s [Numbered<'a>], number: u32) -> &'s [Numbered<'a>]
    requires { IsNonDecreasingBy message_number signals.now }
    ensures { StartsAt number signals.now result.now }
{
    let first = signals.partition_point(|signal| signal.number < number);
    &signals[first..]
}

// Whether the two have the same bytes. Names of one message mostly differ in their lengths or their last bytes, so
// these are compared first.
#[inline(always)]
fn same_name(name: &[u8], other: &[u8]) -> bool
    ensures { result ≡ bytes_eq name.now other.now }
{
    let length = name.len();
    if length != other.len() {
        return false;
    }
    if length > 0 && name[length - 1] != other[length - 1] {
        return false;
    }
    same(name, other)
}

// The mark that signals of the name have.
#[inline(always)]
fn hash_of(is_hashed: bool, name: &[u8]) -> u32
    ensures { result ≡ hash_of is_hashed name.now }
{
    if is_hashed { name_hash(name) } else { 0 }
}

// Whether the signal has the name. Marks are compared first: most signals of other names differ in them.
#[inline(always)]
fn has_name(signal: &Numbered<'_>, is_hashed: bool, hash: u32, name: &[u8]) -> bool
    requires own { HasHash is_hashed signal.now }
    requires asked { hash ≡ hash_of is_hashed name.now }
    ensures { result ≡ bytes_eq name.now signal.now.name.now }
{
    signal.hash == hash && same_name(name, signal.name)
}

// Whether the first signals, which are those of the message ID, have one of the name.
fn starts_with_signal(signals: &[Numbered<'_>], is_hashed: bool, number: u32, name: &[u8]) -> bool
    requires rises { RisesFrom message_number number signals.now }
    requires hashes { All (HasHash is_hashed) signals.now }
    ensures { result ≡ list_any (is_signal number name.now) signals.now }
{
    let hash = hash_of(is_hashed, name);
    for signal in signals {
        if signal.number != number {
            return false;
        }
        if has_name(signal, is_hashed, hash, name) {
            return true;
        }
    }
    false
}

impl<'a> NumberedSignals<'a> {
    /// These signals, unless more than [`LINEAR_SEARCH_LIMIT`] have the same message ID.
    pub(crate) fn of(
        alloc: Global,
        signals: &[(u32, &'a [u8])],
    ) -> Result<Option<NumberedSignals<'a>>, Memory>
        ensures { IfOk result (λ made. IfSome made (λ made. IsPermutation (map named_signal signals.now) made)) }
    {
        let mut signals = in_order(alloc, signals)?;
        if differ_after(signals.as_slice(), UNHASHED_LIMIT) {
            return Ok(Some(NumberedSignals {
                signals,
                is_hashed: false,
            }));
        }
        if !differ_after(signals.as_slice(), LINEAR_SEARCH_LIMIT) {
            return Ok(None);
        }
        hash_all(signals.as_mut_slice());
        Ok(Some(NumberedSignals {
            signals,
            is_hashed: true,
        }))
    }

    /// Whether the signal is among them.
    pub(crate) fn has(&self, key: (u32, &'a [u8])) -> bool
        ensures { result ≡ list_any (same_signal (key.entry.0, key.entry.1.now)) self.now }
    {
        let signals = from_number(self.signals.as_slice(), key.0);
        starts_with_signal(signals, self.is_hashed, key.0, key.1)
    }
}
