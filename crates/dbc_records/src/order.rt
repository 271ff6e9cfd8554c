//! Entries in the order of their raw values.
ghost use Rattle.std.specs.Prelude.{◌≡◌, IfSome, IsTrue};
ghost use Rattle.dbc_records.specs.Orders.{precedes, are_in_order_after, are_in_order, entry_order};

use crate::entry::Entry;

/// A strict order of numbers.
#[derive(Clone, Copy, Debug, PartialEq, Eq)]
pub enum EntryOrder {
    /// Each number is below the next one.
    Rising,
    /// Each number is above the next one.
    Falling,
}

impl EntryOrder {
    /// Whether a number precedes another one in this order. No number precedes itself.
    pub fn precedes(self, number: i128, other: i128) -> bool
        ensures { result ≡ precedes self number other }
    {
        match self {
            EntryOrder::Rising => number < other,
            EntryOrder::Falling => number > other,
        }
    }
}

// Whether the raw values of entries are in an order, and come after a number.
fn are_in_order_after(order: EntryOrder, number: i128, entries: &[Entry]) -> bool
    ensures { result ≡ are_in_order_after order number entries.now }
{
    let mut last = number;
    for entry in entries {
        if !order.precedes(last, entry.number) {
            return false;
        }
        last = entry.number;
    }
    true
}

fn are_in_order(order: EntryOrder, entries: &[Entry]) -> bool
    ensures { result ≡ are_in_order order entries.now }
{
    match entries {
        [] => true,
        [first, others @ ..] => are_in_order_after(order, first.number, others),
    }
}

/// The order that the raw values of entries are in, if they are in one: then no two entries have the same raw value. Fewer than two
/// entries are rising. It allocates nothing, and stops at the first entry that is out of order.
pub fn entry_order(entries: &[Entry]) -> Option<EntryOrder>
    ensures order { result ≡ entry_order entries.now }
    ensures in_order { IfSome result (λ order. IsTrue (are_in_order order entries.now)) }
{
    if are_in_order(EntryOrder::Rising, entries) {
        Some(EntryOrder::Rising)
    } else if are_in_order(EntryOrder::Falling, entries) {
        Some(EntryOrder::Falling)
    } else {
        None
    }
}
