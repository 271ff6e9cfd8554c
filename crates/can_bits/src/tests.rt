//! Steps and raw values of two signals, and a grid of two, by hand; and raw values of many fields compared with plain
//! sums of their bits.
use crate::field::Field;
use crate::grid::push_grid;
use crate::step::{Shift, Step};
use crate::steps::Steps;
use dbc_records::{ByteOrder, ValueType};
use std::alloc::Global;
use std::test::Fail;

#[test]
fn ten_bits_in_motorola_order(rt: HostRuntime) -> Result<(), Fail> {
    let field = Field {
        start: 4,
        length: 10,
        order: ByteOrder::Motorola,
    };
    let steps = Steps::of(rt.alloc(), field);
    let first = Step {
        byte: 0,
        mask: 0x1F,
        shift: Shift::Up(5),
    };
    let second = Step {
        byte: 1,
        mask: 0xF8,
        shift: Shift::Down(3),
    };
    assert_eq!(rt; steps.as_slice(), [first, second].as_slice());
    assert_eq!(rt; steps.raw_value(ValueType::Unsigned, &[0x15, 0xA8]), 693);
    assert_eq!(rt; steps.raw_value(ValueType::Signed, &[0x15, 0xA8]), -331);
    Ok(())
}

#[test]
fn a_word_over_nine_bytes(rt: HostRuntime) -> Result<(), Fail> {
    let field = Field {
        start: 4,
        length: 64,
        order: ByteOrder::Intel,
    };
    let steps = Steps::of(rt.alloc(), field);
    let bytes = [0xF0, 0xFF, 0xFF, 0xFF, 0xFF, 0xFF, 0xFF, 0xFF, 0x0F];
    assert_eq!(rt; steps.as_slice().len(), 9);
    assert_eq!(rt; steps.raw(&bytes), u64::MAX);
    Ok(())
}

#[test]
fn two_fields_in_a_byte(rt: HostRuntime) -> Result<(), Fail> {
    let intel = Field {
        start: 1,
        length: 2,
        order: ByteOrder::Intel,
    };
    let motorola = Field {
        start: 3,
        length: 2,
        order: ByteOrder::Motorola,
    };
    let mut text = Vec::new(rt.alloc());
    let drawn = push_grid(&mut text, 1, &[intel, motorola]);
    assert!(rt; drawn.is_ok());
    let line = b"   0:   .   .   .   .   1   *   0   .\n";
    assert_eq!(rt; text.as_slice(), line.as_slice());
    Ok(())
}

// The sum of the weights of the field's bits that are 1 in data.
fn plain_sum(field: Field, bytes: &[u8]) -> u64 {
    let mut sum: u64 = 0;
    for index in 0..field.length {
        let position = field.position(index);
        let byte = bytes.get(position as usize / 8).copied().unwrap_or(0);
        let bit = u64::from(byte) / (1 << (position % 8)) % 2;
        let rank = match field.order {
            ByteOrder::Intel => index,
            ByteOrder::Motorola => field.length - 1 - index,
        };
        sum = sum.wrapping_add(bit << (rank % 64));
    }
    sum
}

// Every field of up to 16 bits from the first four bytes on, in one byte order.
fn sums_agree(alloc: Global, order: ByteOrder, bytes: &[u8; 6]) -> bool {
    for start in 0..32 {
        for length in 1..17 {
            let field = Field {
                start,
                length,
                order,
            };
            let raw = Steps::of(alloc, field).raw(bytes);
            if !field.is_outside(6) && raw != plain_sum(field, bytes) {
                return false;
            }
        }
    }
    true
}

#[test]
fn sums_by_bytes_and_by_bits(rt: HostRuntime) {
    for pattern in 0..64u8 {
        let mut bytes = [0x5A; 6];
        for (index, byte) in bytes.iter_mut().enumerate() {
            if (pattern >> index) % 2 == 1 {
                *byte = 0xA5;
            }
        }
        for order in [ByteOrder::Intel, ByteOrder::Motorola] {
            assert!(rt;
                sums_agree(rt.alloc(), order, &bytes),
                "{order:?}, {pattern}"
            );
        }
    }
}
