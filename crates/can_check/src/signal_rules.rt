//! Tests of signals, and the diagnostics of those that pass.
ghost use Rattle.std.specs.Prelude.{◌≡◌, ◌++◌, OnOk, option_map};
ghost use Rattle.std.specs.List.{list_any};
ghost use Rattle.can_entries.specs.Rows.{is_float_row};
ghost use Rattle.can_check.specs.SignalRules.{can_switch, is_no_switch, is_bad_row, signal_outside, is_float};
ghost use Rattle.can_check.specs.SignalRules.{is_long, has_no_scale};
ghost use Rattle.can_check.specs.MessageFaults.{signals_where};

use can_bits::Field;
use can_diagnostics::{Code, Diagnostic};
use can_entries::{Lookup, MessageRows};
use dbc_records::{FloatRow, Head, MuxRow, Signal, Tag};
use dbc_values::{Memory, Name, Scale, same};

/// A test of signals.
pub(crate) trait SignalTest {
    ghost use Rattle.std.specs.Prelude.{Bool};
    ghost use Rattle.dbc_records.specs.Records.{Signal as PlainSignal};

    // Whether a signal passes.
    ghost passes: { Self → PlainSignal → Bool };

    fn is_passed(&self, signal: &Signal) -> bool
        ensures { result ≡ passes self.now signal.now };
}

/// Adds the diagnostic of each signal that passes a test.
pub(crate) fn push_where<T: SignalTest>(
    found: &mut Vec<Diagnostic>,
    code: Code,
    head: &Head,
    test: &T,
    signals: &[Signal],
) -> Result<(), Memory>
    ensures { OnOk result (found.new.items ≡ found.old.items ++ signals_where code head.now (T.passes test.now) signals.now) }
{
    for signal in signals {
        if test.is_passed(signal) {
            found.push(Diagnostic::of_signal(code, head, signal)?)?;
        }
    }
    Ok(())
}

/// A bit of the signal is not in this many bytes.
#[derive(Drop)]
pub(crate) struct IsOutside {
    /// The bytes of the message.
    pub size: u16,
}

impl SignalTest for IsOutside {
    ghost passes = { λ test signal. signal_outside test.size signal };

    fn is_passed(&self, signal: &Signal) -> bool {
        Field::of(signal).is_outside(usize::from(self.size))
    }
}

fn can_switch(tag: Tag) -> bool
    ensures { result ≡ can_switch tag }
{
    match tag {
        Tag::Switch | Tag::Both(_) => true,
        Tag::Plain | Tag::Muxed(_) => false,
    }
}

fn is_no_switch(name: &Name, signal: &Signal) -> bool
    ensures { result ≡ is_no_switch name.now signal.now }
{
    same(signal.name.as_bytes(), name.as_bytes()) && !can_switch(signal.tag)
}

fn has_no_switch(name: &Name, signals: &[Signal]) -> bool
    ensures { result ≡ list_any (is_no_switch name.now) signals.now }
{
    signals.iter().any(|signal| is_no_switch(name, signal))
}

fn is_bad_row(signals: &[Signal], row: Option<&MuxRow>) -> bool
    ensures { result ≡ is_bad_row signals.now (option_map (λ row. row.now) row.entry) }
{
    match row {
        Some(row) => row.ranges.has_empty_range() || has_no_switch(&row.switch, signals),
        None => false,
    }
}

/// The first entry of the signal's multiplexing states something impossible.
#[derive(Drop)]
pub(crate) struct HasBadRow<'a, L: Lookup> {
    /// The entries of the message's CAN identifier.
    pub rows: &'a MessageRows<'a, L>,
    /// The signals of the message.
    pub signals: &'a [Signal],
}

impl<'a, L: Lookup> SignalTest for HasBadRow<'a, L> {
    ghost use Rattle.can_entries.specs.Rows.{first_mux};

    ghost passes = { λ test signal. is_bad_row test.signals.now (first_mux signal.name test.rows.now) };

    fn is_passed(&self, signal: &Signal) -> bool {
        is_bad_row(self.signals, self.rows.mux(&signal.name))
    }
}

fn is_float_row(row: Option<&FloatRow>) -> bool
    ensures { result ≡ is_float_row (option_map (λ row. row.now) row.entry) }
{
    match row {
        Some(row) => row.kind != 0,
        None => false,
    }
}

/// The values of the signal are floats.
#[derive(Drop)]
pub(crate) struct IsFloat<'a, L: Lookup> {
    /// The entries of the message's CAN identifier.
    pub rows: &'a MessageRows<'a, L>,
}

impl<'a, L: Lookup> SignalTest for IsFloat<'a, L> {
    ghost passes = { λ test. is_float test.rows.now };

    fn is_passed(&self, signal: &Signal) -> bool {
        is_float_row(self.rows.float(&signal.name))
    }
}

/// The signal has more than 64 bits.
#[derive(Drop)]
pub(crate) struct IsLong;

impl SignalTest for IsLong {
    ghost passes = { λ _. is_long };

    fn is_passed(&self, signal: &Signal) -> bool {
        signal.length > Scale::MAX_LENGTH
    }
}

/// The signal has at most 64 bits, and its values have too many digits.
#[derive(Drop)]
pub(crate) struct HasNoScale;

impl SignalTest for HasNoScale {
    ghost passes = { λ _. has_no_scale };

    fn is_passed(&self, signal: &Signal) -> bool {
        signal.length <= Scale::MAX_LENGTH
            && Scale::of(&signal.factor, &signal.offset, signal.length).is_none()
    }
}
