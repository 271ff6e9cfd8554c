//! What no contract states about lists that are changed in place: that the calls succeed, and that rewriting changes items.
ghost use Rattle.std.specs.Prelude.{◌-◌};

use dbc_values::{Checked, List, Memory, Rewrite};
use std::alloc::Global;
use std::test::Fail;

#[derive(Drop)]
struct Count {
    number: u8,
}

impl Checked for Count {
    ghost IsValid = { λ _. Unit {0} };
}

#[derive(Drop)]
struct Complement;

impl Rewrite<Count> for Complement {
    ghost rewritten = { λ _ count. record { number = 255 - count.number } };

    fn rewrite(&self, count: &mut Count) {
        count.number = 255 - count.number;
    }
}

// 1 and 2.
fn two(alloc: Global) -> Result<List<Count>, Memory> {
    let mut counts = List::new(alloc);
    counts.push(Count { number: 2 })?;
    counts.insert(0, Count { number: 1 })?;
    Ok(counts)
}

// Whether these are the numbers.
fn are(counts: &List<Count>, numbers: &[u8]) -> bool {
    counts
        .iter()
        .map(|count| count.number)
        .eq(numbers.iter().copied())
}

#[test]
fn changed_in_place(rt: HostRuntime) -> Result<(), Fail> {
    let mut counts = two(rt.alloc())?;
    assert!(rt; are(&counts, &[1, 2]));
    counts.rewrite_all(&Complement);
    assert!(rt; are(&counts, &[254, 253]));
    counts.retain(|count| count.number > 253);
    assert!(rt; are(&counts, &[254]));
    if counts.len() == 1 {
        counts.set(0, Count { number: 7 });
        assert!(rt; are(&counts, &[7]));
        counts.remove(0);
    }
    assert!(rt; counts.is_empty());
    Ok(())
}
