//! The raw values of this many bits.
ghost use Rattle.std.specs.Prelude.{◌≡◌, ◌^◌, nat_lt};
ghost use Rattle.can_references.specs.RawRanges.{in_raw_range, is_out_of_range};

use dbc_records::{Entry, Signal};

// Whether a number is below a power of two.
#[tactic(auto, using(crate::proofs::Powers::below_power))]
fn is_below_power(number: u128, bits: u16) -> bool
    ensures { result ≡ nat_lt number (2 ^ bits) }
{
    bits >= 128 || number < 1 << bits
}

/// Whether a number is a raw value of this many bits.
pub(crate) fn in_raw_range(signed: bool, bits: u16, number: i128) -> bool
    ensures { result ≡ in_raw_range signed bits number }
{
    if number >= 0 {
        let value_bits = if signed { bits.saturating_sub(1) } else { bits };
        is_below_power(number.unsigned_abs(), value_bits)
    } else {
        signed && is_below_power((number + 1).unsigned_abs(), bits.saturating_sub(1))
    }
}

/// Whether a signal never has the value of an entry.
pub(crate) fn is_out_of_range(signal: &Signal, entry: &Entry) -> bool
    ensures { result ≡ is_out_of_range signal.now entry.now }
{
    !in_raw_range(signal.signed, signal.length, entry.number)
}
