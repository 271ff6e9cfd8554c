//! Numbers as decimals and as whole numbers, and scales, at their edges.

use dbc_values::{Decimal, Scale, Whole, is_number, whole_of};
use std::test::Fail;

pub(crate) fn decimal(bytes: &[u8]) -> Result<Decimal, Fail> {
    match Decimal::read(bytes) {
        Some(decimal) => Ok(decimal),
        None => Err(Fail::from("no decimal")),
    }
}

#[test]
fn numbers(rt: HostRuntime) {
    let table: [(&[u8], bool); 20] = [
        (b"0", true),
        (b"1.", true),
        (b".5", true),
        (b"1.e5", true),
        (b"1E+3", true),
        (b"00", true),
        (b".5E-1", true),
        (b"", false),
        (b".", false),
        (b".E5", false),
        (b"1E", false),
        (b"1E+", false),
        (b"1E-+1", false),
        (b"+", false),
        (b"+1", false),
        (b"1.2.3", false),
        (b"1E5E5", false),
        (b"1E5.0", false),
        (b"0x10", false),
        (b" 1", false),
    ];
    for (bytes, expected) in table {
        assert_eq!(rt; is_number(bytes), expected);
        assert_eq!(rt; whole_of(bytes).is_some(), expected);
    }
}

#[test]
fn decimals(rt: HostRuntime) -> Result<(), Fail> {
    let table: [(&[u8], bool, u128, i16); 17] = [
        (b"-0.00390625", true, 390625, -8),
        (b"1E19", false, 1, 19),
        (b"1E20", false, 1, 20),
        (b"1E-20", false, 1, -20),
        (b"1E-21", false, 1, -21),
        (b"1000E397", false, 1, 400),
        (b"10E-401", false, 1, -400),
        (b"-0E999", false, 0, 0),
        (b"0E99999999999999999999", false, 0, 0),
        (b"-0", false, 0, 0),
        (b"+5", false, 5, 0),
        (b"1.", false, 1, 0),
        (b".5", false, 5, -1),
        (b"-1.e5", true, 1, 5),
        (b"007.500e+02", false, 75, 1),
        (
            b"999999999999999999999999999999999999",
            false,
            999_999_999_999_999_999_999_999_999_999_999_999,
            0,
        ),
        (
            b"0.000000000000000000000000000000000000000000000012",
            false,
            12,
            -48,
        ),
    ];
    for (bytes, negative, mantissa, exponent) in table {
        let made = decimal(bytes)?;
        assert_eq!(rt;
            (made.negative, made.mantissa, made.exponent),
            (negative, mantissa, exponent)
        );
    }
    Ok(())
}

#[test]
fn no_decimals(rt: HostRuntime) {
    let table: [&[u8]; 16] = [
        b"1000E398",
        b"0.1E-400",
        b"1E401",
        b"1E-401",
        b"1234567890123456789012345678901234567",
        b"1E99999999999999999999",
        b"1E-99999999999999999999",
        b"",
        b".",
        b"1E",
        b"1E+",
        b"+",
        b"--1",
        b"-+1",
        b"1 ",
        b"0x1",
    ];
    for bytes in table {
        assert_eq!(rt; Decimal::read(bytes), None);
    }
    assert_eq!(rt; Decimal::of_number(true, b"-1"), None);
    assert_eq!(rt; Decimal::of_number(true, b"1"), Decimal::read(b"-1"));
}

#[test]
fn whole_numbers(rt: HostRuntime) {
    let table: [(&[u8], Whole); 14] = [
        (b"1.0", Whole::Value(1)),
        (b"80E-1", Whole::Value(8)),
        (b"0E-5", Whole::Value(0)),
        (b"0E99999999999999999999", Whole::Value(0)),
        (b"0E-99999999999999999999", Whole::Value(0)),
        (
            b"18446744073709551615",
            Whole::Value(18_446_744_073_709_551_615),
        ),
        (b"18446744073709551616", Whole::TooLarge),
        (b"1E30", Whole::TooLarge),
        (b"1E99999999999999999999", Whole::TooLarge),
        (b"1234567890123456789012345678901234567", Whole::TooLarge),
        (b"1.5", Whole::Fraction),
        (b"1E-1", Whole::Fraction),
        (b"1E-99999999999999999999", Whole::Fraction),
        (b"1.234567890123456789012345678901234567", Whole::Fraction),
    ];
    for (bytes, expected) in table {
        assert_eq!(rt; whole_of(bytes), Some(expected));
    }
}

#[test]
#[tactic(auto, using(std::proofs::lemmas::Nat::pow_pos))]
fn a_scale(rt: HostRuntime) -> Result<(), Fail> {
    let Some(scale) = Scale::of(&decimal(b"0.01")?, &decimal(b"250")?, 12) else {
        return Err(Fail::from("no scale"));
    };
    assert_eq!(rt; scale.places(), 2);
    assert_eq!(rt; scale.value(-1), 24_999);
    assert_eq!(rt; scale.value(0), 25_000);
    assert_eq!(rt; scale.value(1), 25_001);
    Ok(())
}

#[test]
fn scales(rt: HostRuntime) -> Result<(), Fail> {
    let table: [(&[u8], &[u8], u16, bool); 11] = [
        (b"1E36", b"0", 6, true),
        (b"1E36", b"0", 7, false),
        (b"1E-36", b"0", 1, true),
        (b"1E-37", b"0", 1, false),
        (b"0", b"1E-37", 1, false),
        (b"1", b"0", 64, true),
        (b"1", b"0", 65, false),
        (b"1E-31", b"1E7", 64, false),
        (b"1E-31", b"9999999", 64, true),
        (b"0", b"0", 0, true),
        (b"1E400", b"-1E-400", 1, false),
    ];
    for (factor, offset, length, expected) in table {
        let scale = Scale::of(&decimal(factor)?, &decimal(offset)?, length);
        assert_eq!(rt; scale.is_some(), expected);
    }
    Ok(())
}
