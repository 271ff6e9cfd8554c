//! How many lines are kept.
ghost use Rattle.std.specs.Prelude.{◌≡◌};
ghost use Rattle.session_kept_lines.specs.Counts.{count_of};
ghost use Rattle.session_kept_lines.specs.Keeping.{most_kept, is_full};

use std::marker::Model;

/// A number of lines, from 1 to [`LineCount::MAX_LINES`].
#[derive(Clone, Copy, Debug, PartialEq, Eq)]
pub struct LineCount {
    count: u32,
}

impl Model for LineCount {
    ghost use Rattle.session_kept_lines.specs.Counts as counts;
    ghost use Rattle.std.specs.Prelude.{ℕ};

    ghost Value = { ℕ };

    ghost view = { λ a. a.count };

    ghost invariant = { λ a. counts.IsCount a.count };

    ghost inverse = { λ count. record { count = count } };
}

impl LineCount {
    /// The most lines: this many are kept if all are.
    pub const MAX_LINES: u64 = 1_048_576;

    /// The count of this number; none if it is 0 or over the most.
    pub fn new(count: u64) -> Option<LineCount>
        ensures { result ≡ count_of count }
    {
        if count == 0 || count > LineCount::MAX_LINES {
            return None;
        }
        Some(LineCount {
            count: count as u32,
        })
    }

    /// The number.
    pub fn get(self) -> usize
        ensures { result ≡ self }
    {
        self.count as usize
    }
}

/// Which of the lines that were added are kept.
#[derive(Clone, Copy, Debug, PartialEq, Eq)]
pub enum Keep {
    /// All of them. There is space for [`LineCount::MAX_LINES`], and one more line is refused.
    All,
    /// The last ones, this many: if there are more, the oldest is dropped.
    Last(LineCount),
}

impl Keep {
    /// Whether one more line after this many is refused. If only the last lines are kept none is, since the oldest
    /// is dropped for it.
    pub fn is_full(self, lines: usize) -> bool
        ensures { result ≡ is_full self lines }
    {
        match self {
            Keep::All => lines >= self.most(),
            Keep::Last(_) => false,
        }
    }

    /// How many lines are kept at most.
    pub fn most(self) -> usize
        ensures { result ≡ most_kept self }
    {
        match self {
            Keep::All => LineCount::MAX_LINES as usize,
            Keep::Last(count) => count.get(),
        }
    }
}
