//! Why a signal can't be decoded.
ghost use Rattle.std.specs.Prelude.{◌≡◌, IfOk};
ghost use Rattle.can_entries.specs.Rows.{first_float, is_float_row};
ghost use Rattle.dbc_values.specs.Scales.{scale_of};
ghost use Rattle.can_layout.specs.Plans.{cause_of};
ghost use Rattle.can_layout.specs.Layouts.{cause_in};
ghost use Rattle.can_layout.specs.Diagrams.{cause_word};

use can_bits::Field;
use can_entries::{Lookup, MessageRows};
use dbc_records::Signal;
use dbc_values::Scale;

/// Why a signal can't be decoded.
#[derive(Clone, Copy, Debug, PartialEq, Eq)]
pub enum Cause {
    /// A bit of it is not in the bytes of the message.
    Outside,
    /// Its values are floats.
    Float,
    /// It has more than [`Scale::MAX_LENGTH`] bits.
    Long,
    /// Its values have too many digits: there is no [`Scale`].
    Scale,
}

impl Cause {
    /// The word for it: `outside`, `float`, `long` or `scale`.
    pub fn word(self) -> &'static [u8]
        ensures { result.now ≡ cause_word self }
    {
        match self {
            Cause::Outside => b"outside",
            Cause::Float => b"float",
            Cause::Long => b"long",
            Cause::Scale => b"scale",
        }
    }
}

fn is_float<L: Lookup>(rows: &MessageRows<'_, L>, signal: &Signal) -> bool
    ensures { result ≡ is_float_row (first_float signal.now.name rows.now) }
{
    match rows.float(&signal.name) {
        Some(row) => row.kind != 0,
        None => false,
    }
}

// The scale of a signal in a message of that many bytes, or the first cause that keeps it from being decoded.
#[tactic(auto, unfolding(crate::specs::Plans::cause_of))]
pub(crate) fn scale_of<L: Lookup>(
    rows: &MessageRows<'_, L>,
    size: u16,
    signal: &Signal,
) -> Result<Scale, Cause>
    ensures cause { cause_in result ≡ cause_of rows.now size signal.now }
    ensures scale { IfOk result (λ scale. scale ≡ scale_of signal.now.factor signal.now.offset signal.now.length) }
{
    if Field::of(signal).is_outside(usize::from(size)) {
        Err(Cause::Outside)
    } else if is_float(rows, signal) {
        Err(Cause::Float)
    } else if signal.length > Scale::MAX_LENGTH {
        Err(Cause::Long)
    } else {
        match Scale::of(&signal.factor, &signal.offset, signal.length) {
            Some(scale) => Ok(scale),
            None => Err(Cause::Scale),
        }
    }
}

// The first cause that holds, in a message of that many bytes.
pub(crate) fn cause_of<L: Lookup>(
    rows: &MessageRows<'_, L>,
    size: u16,
    signal: &Signal,
) -> Option<Cause>
    ensures { result ≡ cause_of rows.now size signal.now }
{
    match scale_of(rows, size, signal) {
        Ok(_) => None,
        Err(cause) => Some(cause),
    }
}
