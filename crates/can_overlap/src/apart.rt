//! Fields that share no bit, as determined by where they begin and end.
ghost use Rattle.std.specs.Prelude.{◌≡◌, [], IsTrue, List};
ghost use Rattle.std.specs.List.{list_all};
ghost use Rattle.can_bits.specs.Steps.{passed_at};
ghost use Rattle.can_entries.specs.declared.walk.Walk.{Walk as Way};
ghost use Rattle.can_overlap.specs.inner.Apart.{ends_before, apart, all_apart, seen_apart};
ghost use Rattle.can_overlap.specs.Overlaps.{overlapping};

use can_bits::Field;
use dbc_records::ByteOrder;

/// The most fields that are compared pairwise.
const MAX_COMPARED: usize = 64;

// How many bits, in the field's own order, come before its first.
fn passed_before(field: Field) -> u32
    ensures { result ≡ passed_at field 0 }
{
    let start = u32::from(field.start);
    match field.order {
        ByteOrder::Intel => start,
        ByteOrder::Motorola => start + 7 - 2 * (start % 8),
    }
}

fn ends_before(field: Field, other: Field) -> bool
    ensures { result ≡ ends_before field other }
{
    passed_before(field) + u32::from(field.length) <= passed_before(other)
}

fn are_apart(field: Field, other: Field) -> bool
    ensures { result ≡ apart field other }
{
    field.order.is_intel() == other.order.is_intel()
        && (ends_before(field, other) || ends_before(other, field))
}

fn is_apart_from(field: Field, others: &[Field]) -> bool
    ensures { result ≡ list_all (apart field) others.now }
{
    others.iter().all(|other| are_apart(field, *other))
}

fn all_apart(fields: &[Field]) -> bool
    ensures { result ≡ all_apart fields.now }
{
    let mut left = fields;
    while let [field, later @ ..] = left {
        if !is_apart_from(*field, later) {
            return false;
        }
        left = later;
    }
    true
}

/// Whether the fields of a message follow one another, as most do: then no signals overlap, whatever their multiplexing parents.
/// They are compared pairwise, and so no more than 64 are: for more, it returns `false`.
pub fn are_disjoint_in_sequence(fields: &[Field]) -> bool
    ensures exact { result ≡ seen_apart fields.now }
    ensures none { IsTrue result → (walks : List Way) → overlapping fields.now walks ≡ [] }
{
    fields.len() <= MAX_COMPARED && all_apart(fields)
}
