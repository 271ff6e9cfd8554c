//! Where the records of a database begin, one after another.
ghost use Rattle.std.specs.Prelude.{◌≡◌, take, drop};
ghost use Rattle.can_findings.specs.Beginnings.{no_start, first_start, after_first};

use dbc_reader::Start;

/// The start of nothing. By [`all_have_starts`](dbc_reader::laws::all_have_starts) no finding has it.
pub(crate) fn no_start() -> Start
    ensures { result ≡ no_start }
{
    Start { line: 0, left: 0 }
}

/// The first; [`no_start`] if there is none.
pub fn first_start(starts: &[Start]) -> Start
    ensures { result ≡ first_start starts.now }
{
    match starts {
        [] => no_start(),
        [start, ..] => *start,
    }
}

/// Those after it.
pub fn after_first(starts: &[Start]) -> &[Start]
    ensures { result.now ≡ after_first starts.now }
{
    match starts {
        [] => &[],
        [_, others @ ..] => others,
    }
}

/// The first ones, at most this many, and the others.
pub fn parted(starts: &[Start], count: usize) -> (&[Start], &[Start])
    ensures first { result.0.now ≡ take count starts.now }
    ensures others { result.1.now ≡ drop count starts.now }
{
    starts.split_at(count.min(starts.len()))
}
