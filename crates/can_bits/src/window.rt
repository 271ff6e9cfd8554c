//! Fields within the first eight bytes, which are read as one word.
ghost use Rattle.std.specs.Prelude.{◌≡◌, ℕ, ◌-◌, ◌^◌, ◌<◌, ◌≤◌, IfSome};
ghost use Rattle.can_bits.specs.Windows.{word_of, bits_in, IsWindow};

use crate::field::Field;
use dbc_records::ByteOrder;

/// Where the bits of a field are in the word formed by the first eight bytes.
#[derive(Clone, Copy, Debug, PartialEq, Eq)]
pub struct Window {
    /// The byte order: the first byte is the lowest of the word in Intel byte order, the highest in Motorola byte order.
    pub order: ByteOrder,
    /// How many bits of the word are below the field.
    pub shift: u8,
    /// As many ones as the field has bits.
    pub mask: u64,
}

// The word of eight bytes in a byte order.
fn word_of(order: ByteOrder, first: &[u8; 8]) -> u64
    ensures { result ≡ word_of order first.now }
{
    match order {
        ByteOrder::Intel => u64::from_le_bytes(*first),
        ByteOrder::Motorola => u64::from_be_bytes(*first),
    }
}

// As many ones as a field of some length has bits.
fn ones_of(length: u16) -> u64
    requires some { 0 < length }
    requires most { length ≤ 64 }
    ensures { result ≡ 2 ^ length - 1 }
{
    u64::MAX >> (64 - length)
}

impl Window {
    /// The window of a field that has bits, all of them within eight bytes.
    pub(crate) fn of(field: Field) -> Option<Window>
        ensures { IfSome result (λ window. IsWindow field window) }
    {
        let length = field.length;
        let first = field.passed(0);
        let end = first + u32::from(length);
        if length == 0 || end > 64 {
            return None;
        }
        let shift = match field.order {
            ByteOrder::Intel => first,
            ByteOrder::Motorola => 64 - end,
        };
        Some(Window {
            order: field.order,
            shift: shift as u8,
            mask: ones_of(length),
        })
    }

    /// The bits in the window.
    pub(crate) fn bits_in(self, first: &[u8; 8]) -> u64
        requires { self.shift < 64 }
        ensures { result ≡ bits_in first.now self }
    {
        word_of(self.order, first) >> self.shift & self.mask
    }
}
