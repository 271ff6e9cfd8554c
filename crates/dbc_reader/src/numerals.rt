//! Numbers of statements, and entries of value tables.
ghost use Rattle.std.specs.Prelude.{◌≡◌, ◌≤◌, ◌<◌, ◌^◌, ◌==◌, false, [], IfOk, IfSome, IsTrue, nat_le, not};
ghost use Rattle.dbc_records.specs.Records.{entry_fits};
ghost use Rattle.dbc_reader.specs.inner.Cursors.{left_at};
ghost use Rattle.dbc_reader.specs.inner.Readers.{GivesTo, MayGive};
ghost use Rattle.dbc_reader.specs.inner.Parts.{whole_at, id_at, number_at, order_at, decimal_at, int_at, pair_at, entry_at};
ghost use Rattle.dbc_reader.specs.inner.Parts.{begins_int, entries_from};

use crate::classes::has_mark;
use crate::cursor::Cursor;
use crate::parts::{mark, text};
use crate::stopped::Stopped;
use dbc_records::{ByteOrder, Entry};
use dbc_tokens::{Cause, Next};
use dbc_values::{Decimal, List, Whole, whole_of};
use std::alloc::Global;

/// Takes a whole number from `least` to `most`, however it is written.
#[tactic(auto, unfolding(crate::specs::inner::Parts::whole_at, crate::specs::Classes::whole_of))]
pub(crate) fn whole(at: &mut Cursor<'_>, least: u64, most: u64) -> Result<u64, Stopped>
    ensures value { GivesTo result (left_at at.new) (whole_at least most (left_at at.old)) }
    ensures least { IfOk result (λ n. least ≤ n) }
    ensures most { IfOk result (λ n. n ≤ most) }
{
    let token = at.take()?;
    match whole_of(token.bytes) {
        Some(Whole::Value(n)) if least <= n && n <= most => Ok(n),
        Some(Whole::Value(_) | Whole::TooLarge) => Err(Stopped::at(token.line, Cause::Limit)),
        Some(Whole::Fraction) | None => Err(Stopped::at(token.line, Cause::Statement)),
    }
}

/// Takes the CAN identifier of a message.
#[tactic(auto, unfolding(crate::specs::inner::Parts::id_at))]
pub(crate) fn id(at: &mut Cursor<'_>) -> Result<u32, Stopped>
    ensures { GivesTo result (left_at at.new) (id_at (left_at at.old)) }
{
    let number = whole(at, 0, u64::from(u32::MAX))?;
    Ok(number as u32)
}

/// Takes a number without a sign as a decimal, negated if `negative` is true.
#[tactic(auto, using(crate::proofs::Facts::Unsigned::no_sign), unfolding(crate::specs::inner::Parts::number_at, crate::specs::Classes::number_of))]
pub(crate) fn number(at: &mut Cursor<'_>, negative: bool) -> Result<Decimal, Stopped>
    ensures value { GivesTo result (left_at at.new) (number_at negative (left_at at.old)) }
    ensures sign { IfOk result (λ number. negative ≡ false → number.negative ≡ false) }
{
    let token = at.take()?;
    match Decimal::of_number(negative, token.bytes) {
        Some(decimal) => Ok(decimal),
        None => Err(Stopped::at(token.line, Cause::Statement)),
    }
}

/// Takes a decimal with a sign or without.
#[tactic(auto, unfolding(crate::specs::inner::Parts::decimal_at))]
pub(crate) fn decimal(at: &mut Cursor<'_>) -> Result<Decimal, Stopped>
    ensures { GivesTo result (left_at at.new) (decimal_at (left_at at.old)) }
{
    if at.starts_mark(b'-') {
        mark(at, b'-')?;
        return number(at, true);
    }
    if at.starts_mark(b'+') {
        mark(at, b'+')?;
        return number(at, false);
    }
    number(at, false)
}

// Takes the raw value of an entry, with a sign or without, if one is here.
#[tactic(auto, unfolding(crate::specs::inner::Cursors::left_at, crate::specs::inner::Readers::starts, crate::specs::inner::Readers::token_at, crate::specs::inner::Parts::int_at, crate::specs::inner::Parts::begins_int, crate::specs::inner::Parts::mark_at, crate::specs::inner::Parts::whole_at, crate::specs::Classes::has_whole, crate::specs::Classes::whole_of))]
fn int_if_any(at: &mut Cursor<'_>) -> Result<Option<i128>, Stopped>
    ensures value { MayGive result begins_int int_at (left_at at.new) (left_at at.old) }
    ensures fits { IfOk result (λ found. IfSome found (λ n. IsTrue (entry_fits n))) }
{
    let Next::Token(token) = at.next else {
        return Ok(None);
    };
    if has_mark(token, b'-') {
        at.step();
        let n = whole(at, 0, 9_223_372_036_854_775_808)?;
        return Ok(Some(-i128::from(n)));
    }
    if has_mark(token, b'+') {
        at.step();
        let n = whole(at, 0, u64::MAX)?;
        return Ok(Some(i128::from(n)));
    }
    match whole_of(token.bytes) {
        Some(Whole::Value(n)) => {
            at.step();
            Ok(Some(i128::from(n)))
        }
        Some(Whole::TooLarge) => Err(Stopped::at(token.line, Cause::Limit)),
        Some(Whole::Fraction) | None => Ok(None),
    }
}

/// Takes the digit of a byte order: 1 for Intel, 0 for Motorola.
#[tactic(auto, unfolding(crate::specs::inner::Parts::order_at, crate::specs::Classes::order_of))]
pub(crate) fn order(at: &mut Cursor<'_>) -> Result<ByteOrder, Stopped>
    ensures { GivesTo result (left_at at.new) (order_at (left_at at.old)) }
{
    let token = at.take()?;
    match whole_of(token.bytes) {
        Some(Whole::Value(1)) => Ok(ByteOrder::Intel),
        Some(Whole::Value(0)) => Ok(ByteOrder::Motorola),
        _ => Err(Stopped::at(token.line, Cause::Statement)),
    }
}

/// Takes two decimals, with a mark before, between and after them.
#[tactic(auto, unfolding(crate::specs::inner::Parts::pair_at))]
pub(crate) fn pair(
    at: &mut Cursor<'_>,
    opening: u8,
    between: u8,
    closing: u8,
) -> Result<(Decimal, Decimal), Stopped>
    ensures { GivesTo result (left_at at.new) (pair_at opening between closing (left_at at.old)) }
{
    mark(at, opening)?;
    let first = decimal(at)?;
    mark(at, between)?;
    let second = decimal(at)?;
    mark(at, closing)?;
    Ok((first, second))
}

// Takes an entry, if one is here.
#[tactic(auto, unfolding(crate::specs::inner::Parts::entry_at))]
fn entry_if_any(alloc: Global, at: &mut Cursor<'_>) -> Result<Option<Entry>, Stopped>
    ensures { MayGive result begins_int entry_at (left_at at.new) (left_at at.old) }
{
    let Some(number) = int_if_any(at)? else {
        return Ok(None);
    };
    let text = text(alloc, at)?;
    Ok(Some(Entry { number, text }))
}

/// Takes the entries that are here.
#[tactic(auto, using(crate::proofs::Rounds::Lists::entries_on, crate::proofs::Rounds::Lists::entries_fail, crate::proofs::Rounds::Lists::entries_end, crate::proofs::Rounds::Lists::entries_less))]
pub(crate) fn entries(alloc: Global, at: &mut Cursor<'_>) -> Result<List<Entry>, Stopped>
    ensures { GivesTo result (left_at at.new) (entries_from [] (left_at at.old)) }
{
    let mut entries = List::new(alloc);
    'entries: while let Some(found) = entry_if_any(alloc, at)? {
        entries.push(found)?;
    }
    // (two to four keep the capacity with which a list begins, since a second request costs more than it saves)
    if entries.len() == 1 || entries.len() > 4 {
        entries.shrink_to_fit();
    }
    Ok(entries)
}
