//! Sets of indexes of signals.
ghost use Rattle.std.specs.Prelude.{◌≡◌, ℕ, ◌<◌, ◌≤◌, ◌||◌, ◌==◌, true, false};
ghost use Rattle.can_overlap.specs.inner.IndexSet.{has};

/// A set of indexes below [`IndexSet::CAPACITY`], with a bit for each.
#[derive(Clone, Copy)]
pub(crate) struct IndexSet {
    words: [u64; 16],
}

impl IndexSet {
    /// More than a message has signals.
    pub(crate) const CAPACITY: usize = 1024;

    /// The set of no indexes.
    pub(crate) const fn new() -> IndexSet
        ensures { (index : ℕ) → has result.words index ≡ false }
    {
        IndexSet { words: [0; 16] }
    }

    /// Adds an index to the set.
    pub(crate) fn insert(&mut self, index: usize)
        requires { index < 1024 }
        ensures { (other : ℕ) → has self.new.words other ≡ (has self.old.words other || other == index) }
    {
        self.words[index / 64] |= 1 << (index % 64);
    }

    /// Adds the indexes of another set to this one.
    pub(crate) fn insert_all(&mut self, more: &IndexSet)
        ensures { (index : ℕ) → has self.new.words index ≡ (has self.old.words index || has more.now.words index) }
    {
        for i in 0..16 {
            self.words[i] |= more.words[i];
        }
    }

    /// The first index of the set from `from` on, or [`IndexSet::CAPACITY`] if there is none.
    pub(crate) fn next_from(&self, from: usize) -> usize
        requires { from ≤ 1024 }
        ensures forward { from ≤ result }
        ensures none_between { (index : ℕ) → from ≤ index → index < result → has self.now.words index ≡ false }
        ensures found { result < 1024 → has self.now.words result ≡ true }
    {
        let mut index = from;
        while index < IndexSet::CAPACITY {
            let word = self.words[index / 64];
            let rest = word >> (index % 64);
            if rest != 0 {
                return index + rest.trailing_zeros() as usize;
            }
            index = (index / 64 + 1) * 64;
        }
        IndexSet::CAPACITY
    }
}
