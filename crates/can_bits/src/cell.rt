//! What is at one bit of a message.
ghost use Rattle.std.specs.Prelude.{◌≡◌};
ghost use Rattle.can_bits.specs.Cells.{marked};

/// Which of the fields of a message have a bit.
#[derive(Clone, Copy, Debug, PartialEq, Eq)]
pub(crate) enum Cell {
    /// None of them.
    Free,
    /// Exactly one, the one at this index.
    One(usize),
    /// Two or more.
    Several,
}

impl Cell {
    /// The cell, once the field at an index has the bit as well.
    pub(crate) fn marked(self, index: usize) -> Cell
        ensures { result ≡ marked self index }
    {
        match self {
            Cell::Free => Cell::One(index),
            Cell::One(_) | Cell::Several => Cell::Several,
        }
    }
}
