//! The text of a decimal.
ghost use Rattle.std.specs.Prelude.{◌≡◌, ◌+◌, ◌<◌, ◌≤◌, length, decimal};
ghost use Rattle.byte_devices.specs.Outs.{Sends};
ghost use Rattle.dbc_records.specs.Layout.{decimal_text, sign_text, magnitude_text, point_before_last, filled};

use byte_devices::{Out, Sink, WriteFault};
use dbc_values::Decimal;
use itoa::Buffer;

// The greatest number of digits that are written before or after a point.
const PLAIN_DIGITS: usize = 20;

const ZEROS: [u8; PLAIN_DIGITS] = [b'0'; PLAIN_DIGITS];

// Holds the digits with a point before the last of them, and zeros in front if there are too few.
fn send_fraction<W: Sink>(
    out: &mut Out<'_, W>,
    digits: &[u8],
    following: usize,
) -> Result<(), WriteFault>
    requires { following ≤ 20 }
    ensures { Sends W.written out.old out.new result (point_before_last following (filled following digits.now)) }
{
    if digits.len() > following {
        let (whole, fraction) = digits.split_at(digits.len() - following);
        out.send_pieces(&[whole, b".", fraction])
    } else {
        let (zeros, _) = ZEROS.split_at(following - digits.len());
        let pieces: [&[u8]; 3] = [b"0.", zeros, digits];
        out.send_pieces(&pieces)
    }
}

// Holds `digits · 10^exponent`.
#[tactic(auto, unfolding(dbc_records::specs::Layout::magnitude_text))]
fn send_magnitude<W: Sink>(
    out: &mut Out<'_, W>,
    digits: &[u8],
    exponent: i16,
) -> Result<(), WriteFault>
    requires { length digits.now ≤ 40 }
    ensures { Sends W.written out.old out.new result (magnitude_text digits.now exponent) }
{
    let count = exponent.unsigned_abs() as usize;
    if exponent >= 0 && digits.len() + count <= PLAIN_DIGITS {
        let (zeros, _) = ZEROS.split_at(count);
        return out.send_pieces(&[digits, zeros]);
    }
    if exponent < 0 && count <= PLAIN_DIGITS && digits.len() <= PLAIN_DIGITS + count {
        return send_fraction(out, digits, count);
    }
    let mut buffer = Buffer::new();
    out.send_pieces(&[digits, b"E", buffer.format(exponent).as_bytes()])
}

// Holds a minus if the number is negative.
#[tactic(auto, unfolding(dbc_records::specs::Layout::sign_text))]
fn send_sign<W: Sink>(out: &mut Out<'_, W>, negative: bool) -> Result<(), WriteFault>
    ensures { Sends W.written out.old out.new result (sign_text negative) }
{
    if negative { out.send(b"-") } else { Ok(()) }
}

// Holds `mantissa · 10^exponent`.
fn send_unsigned<W: Sink>(
    out: &mut Out<'_, W>,
    mantissa: u128,
    exponent: i16,
) -> Result<(), WriteFault>
    ensures { Sends W.written out.old out.new result (magnitude_text (decimal mantissa) exponent) }
{
    let mut buffer = Buffer::new();
    let digits = buffer.format(mantissa).as_bytes();
    send_magnitude(out, digits, exponent)
}

/// Holds the decimal: digits with a point if at most 20 are on each side of it, otherwise like `1E-31`.
#[tactic(auto, using(byte_devices::proofs::Outs::sends), unfolding(dbc_records::specs::Layout::decimal_text))]
pub(crate) fn send_decimal<W: Sink>(
    out: &mut Out<'_, W>,
    decimal: Decimal,
) -> Result<(), WriteFault>
    ensures { Sends W.written out.old out.new result (decimal_text decimal) }
{
    send_sign(out, decimal.negative)?;
    send_unsigned(out, decimal.mantissa, decimal.exponent)
}
