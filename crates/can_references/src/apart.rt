//! Numbers that differ.
ghost use Rattle.std.specs.Prelude.{◌↔◌, eqb, IsTrue};
ghost use Rattle.std.specs.List.{IsDistinct};
ghost use Rattle.std.specs.List.Sorted.{IsStrictlyIncreasing};

// Whether each number is below the next.
fn is_strictly_increasing(numbers: &[u64]) -> bool
    ensures { IsTrue result ↔ IsStrictlyIncreasing numbers.now }
{
    let mut index = 1;
    while index < numbers.len() {
        if numbers[index] <= numbers[index - 1] {
            return false;
        }
        index += 1;
    }
    true
}

/// Whether no two of the numbers are equal.
pub fn all_differ(mut numbers: Vec<u64>) -> bool
    ensures { IsTrue result ↔ IsDistinct eqb numbers.items }
{
    numbers.sort_unstable();
    is_strictly_increasing(numbers.as_slice())
}
