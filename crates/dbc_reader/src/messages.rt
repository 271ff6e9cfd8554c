//! Messages with their signals.
ghost use Rattle.std.specs.Prelude.{◌≡◌, ◌<◌, [], true, false, codes, IfOk, OnOk, IsTrue, length};
ghost use Rattle.std.specs.List.{list_any};
ghost use Rattle.std.specs.Str.{bytes_eq};
ghost use Rattle.dbc_records.specs.Databases.{most_messages};
ghost use Rattle.dbc_records.specs.Records.{most_signals, signal_fits, signals_fit, names_of};
ghost use Rattle.dbc_reader.specs.Classes.{has_word};
ghost use Rattle.dbc_reader.specs.inner.Cursors.{left_at};
ghost use Rattle.dbc_reader.specs.inner.Readers.{GivesTo, starts};
ghost use Rattle.dbc_reader.specs.inner.Messages.{begin_message_at, head_at, begin_signal_at, signal_name_at, tag_at, sign_at};
ghost use Rattle.dbc_reader.specs.inner.Messages.{bit_field_at, signal_at, signals_from, message_at};

use crate::cursor::Cursor;
use crate::numerals::{id, order, pair, whole};
use crate::parts::{mark, name, receivers, text};
use crate::stopped::Stopped;
use crate::{classes, tags};
use dbc_records::{ByteOrder, Database, Head, Message, Signal, Tag, ValueType};
use dbc_tokens::Cause;
use dbc_values::{List, Name};
use std::alloc::Global;

// Takes the keyword of a message, which is here, in a text that already has this many.
#[tactic(auto, unfolding(crate::specs::inner::Messages::begin_message_at, crate::specs::inner::Readers::starts, crate::specs::inner::Readers::token_at))]
fn begin_message(at: &mut Cursor<'_>, count: usize) -> Result<(), Stopped>
    requires { starts (has_word (codes "BO_")) (left_at at.old) ≡ true }
    ensures value { GivesTo result (left_at at.new) (begin_message_at count (left_at at.old)) }
    ensures count { OnOk result (count < most_messages) }
{
    let token = at.take()?;
    if count >= Database::MAX_MESSAGES {
        return Err(Stopped::at(token.line, Cause::MessagesFull));
    }
    Ok(())
}

/// Takes the first line of a message, whose keyword is here, in a text that already has this many messages.
#[tactic(auto, unfolding(crate::specs::inner::Messages::head_at))]
pub(crate) fn head(alloc: Global, at: &mut Cursor<'_>, count: usize) -> Result<Head, Stopped>
    requires { starts (has_word (codes "BO_")) (left_at at.old) ≡ true }
    ensures value { GivesTo result (left_at at.new) (head_at count (left_at at.old)) }
    ensures count { OnOk result (count < most_messages) }
{
    begin_message(at, count)?;
    let number = id(at)?;
    let title = name(alloc, at)?;
    mark(at, b':')?;
    let size = whole(at, 0, u64::from(Head::MAX_SIZE))?;
    let sender = name(alloc, at)?;
    Ok(Head {
        number,
        name: title,
        size: size as u16,
        sender,
    })
}

// Takes the keyword of a signal, which is here, in a message that already has this many.
#[tactic(auto, unfolding(crate::specs::inner::Messages::begin_signal_at, crate::specs::inner::Readers::starts, crate::specs::inner::Readers::token_at))]
fn begin_signal(at: &mut Cursor<'_>, count: usize) -> Result<(), Stopped>
    requires { starts (has_word (codes "SG_")) (left_at at.old) ≡ true }
    ensures value { GivesTo result (left_at at.new) (begin_signal_at count (left_at at.old)) }
    ensures count { OnOk result (count < most_signals) }
{
    let token = at.take()?;
    if count >= Message::MAX_SIGNALS {
        return Err(Stopped::at(token.line, Cause::SignalsFull));
    }
    Ok(())
}

// Whether a signal has this name.
fn has_signal(signals: &[Signal], name: &[u8]) -> bool
    ensures { result ≡ list_any (bytes_eq name.now) (names_of signals.now) }
{
    for signal in signals {
        if name == signal.name.as_bytes() {
            return true;
        }
    }
    false
}

// Takes the name of a signal, in a message that already has these signals.
#[tactic(auto, unfolding(crate::specs::inner::Messages::signal_name_at, crate::specs::Classes::has_name))]
fn signal_name(alloc: Global, at: &mut Cursor<'_>, signals: &[Signal]) -> Result<Name, Stopped>
    ensures value { GivesTo result (left_at at.new) (signal_name_at (names_of signals.now) (left_at at.old)) }
    ensures fresh { IfOk result (λ name. list_any (bytes_eq name) (names_of signals.now) ≡ false) }
{
    let token = at.take()?;
    if !classes::has_name(token) {
        return Err(Stopped::at(token.line, Cause::Statement));
    }
    if has_signal(signals, token.bytes) {
        return Err(Stopped::at(token.line, Cause::RepeatedSignal));
    }
    match Name::new(alloc, token.bytes)? {
        Some(name) => Ok(name),
        None => Err(Stopped::at(token.line, Cause::Statement)),
    }
}

// Takes the multiplexer indicator of a signal, if one is before the colon.
#[tactic(auto, unfolding(crate::specs::inner::Messages::tag_at, crate::specs::inner::Parts::tag_token_at))]
fn tag(at: &mut Cursor<'_>) -> Result<Tag, Stopped>
    ensures { GivesTo result (left_at at.new) (tag_at (left_at at.old)) }
{
    if at.starts_mark(b':') {
        return Ok(Tag::Plain);
    }
    let token = at.take()?;
    match tags::tag(token.bytes) {
        Ok(tag) => Ok(tag),
        Err(cause) => Err(Stopped::at(token.line, cause)),
    }
}

// Takes the sign that is the value type of a signal.
#[tactic(auto, unfolding(crate::specs::inner::Messages::sign_at))]
fn sign(at: &mut Cursor<'_>) -> Result<ValueType, Stopped>
    ensures { GivesTo result (left_at at.new) (sign_at (left_at at.old)) }
{
    if at.starts_mark(b'-') {
        mark(at, b'-')?;
        return Ok(ValueType::Signed);
    }
    mark(at, b'+')?;
    Ok(ValueType::Unsigned)
}

/// Where a signal's bits are in its message, and how they are read.
#[derive(Clone, Copy)]
struct BitField {
    start: u16,
    length: u16,
    order: ByteOrder,
    value_type: ValueType,
}

#[tactic(auto, unfolding(crate::specs::inner::Messages::bit_field_at))]
fn bit_field_here(at: &mut Cursor<'_>) -> Result<BitField, Stopped>
    ensures value { GivesTo result (left_at at.new) (bit_field_at (left_at at.old)) }
    ensures fits { IfOk result (λ bit_field. IsTrue (signal_fits bit_field.length)) }
{
    let start = whole(at, 0, u64::from(u16::MAX))?;
    mark(at, b'|')?;
    let length = whole(at, 1, u64::from(Signal::MAX_LENGTH))?;
    mark(at, b'@')?;
    let order = order(at)?;
    let value_type = sign(at)?;
    Ok(BitField {
        start: start as u16,
        length: length as u16,
        order,
        value_type,
    })
}

/// Takes a signal, whose keyword is here, in a message that already has these signals.
#[tactic(auto, unfolding(crate::specs::inner::Messages::signal_at))]
pub(crate) fn signal(
    alloc: Global,
    at: &mut Cursor<'_>,
    signals: &[Signal],
) -> Result<Signal, Stopped>
    requires { starts (has_word (codes "SG_")) (left_at at.old) ≡ true }
    ensures value { GivesTo result (left_at at.new) (signal_at signals.now (left_at at.old)) }
    ensures count { OnOk result (length signals.now < most_signals) }
    ensures fresh { IfOk result (λ signal. list_any (bytes_eq signal.name) (names_of signals.now) ≡ false) }
{
    begin_signal(at, signals.len())?;
    let title = signal_name(alloc, at, signals)?;
    let tag = tag(at)?;
    mark(at, b':')?;
    let bit_field = bit_field_here(at)?;
    let (factor, offset) = pair(at, b'(', b',', b')')?;
    let (minimum, maximum) = pair(at, b'[', b'|', b']')?;
    let unit = text(alloc, at)?;
    let receivers = receivers(alloc, at)?;
    Ok(Signal {
        name: title,
        tag,
        start: bit_field.start,
        length: bit_field.length,
        intel: bit_field.order.is_intel(),
        signed: bit_field.value_type.is_signed(),
        factor,
        offset,
        minimum,
        maximum,
        unit,
        receivers,
    })
}

// Takes the signals of a message.
#[tactic(auto, using(crate::proofs::Rounds::Signals::signals_on, crate::proofs::Rounds::Signals::signals_end, crate::proofs::Rounds::Signals::signals_less, crate::proofs::Facts::MessageNames::signals_fit_more), unfolding(dbc_records::specs::Records::signals_fit))]
fn signals(alloc: Global, at: &mut Cursor<'_>) -> Result<List<Signal>, Stopped>
    ensures value { GivesTo result (left_at at.new) (signals_from [] (left_at at.old)) }
    ensures fit { IfOk result (λ signals. IsTrue (signals_fit signals)) }
{
    let mut signals = List::new(alloc);
    'signals: while at.starts_word(b"SG_") {
        let found = signal(alloc, at, signals.as_slice())?;
        signals.push(found)?;
    }
    signals.shrink_to_fit();
    Ok(signals)
}

/// Takes a message with its signals, whose keyword is here, in a text that already has this many messages.
#[tactic(auto, unfolding(crate::specs::inner::Messages::message_at))]
pub(crate) fn message(alloc: Global, at: &mut Cursor<'_>, count: usize) -> Result<Message, Stopped>
    requires { starts (has_word (codes "BO_")) (left_at at.old) ≡ true }
    ensures value { GivesTo result (left_at at.new) (message_at count (left_at at.old)) }
    ensures count { OnOk result (count < most_messages) }
{
    let head = head(alloc, at, count)?;
    let signals = signals(alloc, at)?;
    Ok(Message { head, signals })
}
