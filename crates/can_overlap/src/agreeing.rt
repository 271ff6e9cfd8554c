//! Whether two signals can be active at once.
ghost use Rattle.std.specs.Prelude.{◌≡◌};
ghost use Rattle.std.specs.List.{list_any};
ghost use Rattle.can_overlap.specs.Overlaps.{have_common, ranges_meet, agree, agrees_with, all_agree, together};

use can_entries::{Link, Walk};
use dbc_records::Range;

fn have_common(a: &Range, b: &Range) -> bool
    ensures { result ≡ have_common a.now b.now }
{
    a.first.max(b.first) <= a.last.min(b.last)
}

fn meets_one(a: &Range, b: &[Range]) -> bool
    ensures { result ≡ list_any (λ y. have_common a.now y) b.now }
{
    b.iter().any(|y| have_common(a, y))
}

fn ranges_meet(a: &[Range], b: &[Range]) -> bool
    ensures { result ≡ ranges_meet a.now b.now }
{
    a.iter().any(|x| meets_one(x, b))
}

/// Whether the links are of different multiplexors (switches), or have a raw value in common.
pub(crate) fn agree(a: &Link, b: &Link) -> bool
    ensures { result ≡ agree a.now b.now }
{
    a.switch != b.switch || ranges_meet(a.ranges(), b.ranges())
}

/// Whether a link agrees with each of a chain.
pub(crate) fn agrees_with(chain: &[Link], link: &Link) -> bool
    ensures { result ≡ agrees_with chain.now link.now }
{
    chain.iter().all(|x| agree(x, link))
}

/// Whether each link of a chain agrees with each of another.
pub(crate) fn all_agree(a: &[Link], b: &[Link]) -> bool
    ensures { result ≡ all_agree a.now b.now }
{
    b.iter().all(|y| agrees_with(a, y))
}

/// Whether signals with these multiplexing chains can be active at once. It compares each link with
/// each, which [`crate::Marked::push_pairs`] doesn't.
pub fn together(first: &Walk, second: &Walk) -> bool
    ensures { result ≡ together first.now second.now }
{
    match (first, second) {
        (Walk::Chain(a), Walk::Chain(b)) => all_agree(a.as_slice(), b.as_slice()),
        _ => false,
    }
}
