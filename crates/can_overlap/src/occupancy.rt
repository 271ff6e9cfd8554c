//! Which signals of a message overlap, one signal after another.
ghost use Rattle.std.specs.Prelude.{◌≡◌, ◌++◌, ◌≤◌, ◌<◌, length, IfOk, OnOk};
ghost use Rattle.can_overlap.specs.Overlaps.{pairs_from};
ghost use Rattle.can_overlap.specs.inner.Occupancy.{IsClear};

use crate::indexes::IndexSet;
use crate::mux_paths::MuxPaths;
use crate::pair::Pair;
use crate::pairing::push_pairs;
use crate::table::{clear_all, empty, grow, mark_all};
use can_bits::Field;
use can_entries::Walk;
use dbc_values::Memory;
use std::alloc::Global;
use std::marker::Model;

/// An empty table, which serves any number of messages, one after the other. It takes 128 bytes for each position up to the
/// greatest that a message had.
#[derive(Drop)]
pub struct Occupancy {
    rows: Vec<IndexSet>,
    ghost clear: { IsClear rows.items },
}

impl Occupancy {
    /// An empty table. It allocates nothing.
    pub fn new(alloc: Global) -> Occupancy {
        Occupancy { rows: empty(alloc) }
    }

    /// The allocator that it uses.
    pub fn allocator(&self) -> Global {
        *self.rows.allocator()
    }

    /// The signals of a message, marked in the table. They are in these fields and have these multiplexing chains.
    pub fn marked<'a>(self, fields: &'a [Field], walks: &'a [Walk]) -> Result<Marked<'a>, Memory>
        requires lengths { length walks.now ≡ length fields.now }
        requires few { length fields.now ≤ 999 }
        ensures { IfOk result (λ marked. marked ≡ record { fields = fields.now; walks = walks.now }) }
    {
        let mut rows = self.rows;
        let paths = MuxPaths::of(*rows.allocator(), walks)?;
        grow(&mut rows, fields)?;
        mark_all(&mut rows, fields);
        Ok(Marked {
            rows,
            fields,
            paths,
        })
    }
}

/// The signals of a message, each marked in a table at the positions of its bits.
#[derive(Drop)]
pub struct Marked<'a> {
    rows: Vec<IndexSet>,
    fields: &'a [Field],
    paths: MuxPaths<'a>,
}

impl<'a> Model for Marked<'a> {
    ghost use Rattle.can_overlap.specs.inner.Occupancy.{Marked as Plain, AreMarked};

    ghost Value = { Plain };

    ghost view = { λ marked. record { fields = marked.fields.now; walks = marked.paths.walks } };

    ghost invariant = { λ marked. AreMarked marked.rows.items marked.fields.now marked.paths.walks };
}

impl<'a> Marked<'a> {
    /// Adds the signal at an index with each later one that shares a bit with it, in the message or after its end, and can be
    /// active at the same time.
    pub fn push_pairs(&self, found: &mut Vec<Pair>, first: usize) -> Result<(), Memory>
        requires { first < length self.now.fields }
        ensures { OnOk result (found.new.items ≡ found.old.items ++ pairs_from self.now.fields self.now.walks first) }
    {
        push_pairs(found, &self.rows, self.fields, &self.paths, first)
    }

    /// The table, empty again.
    pub fn cleared(self) -> Occupancy {
        let mut rows = self.rows;
        clear_all(&mut rows, self.fields);
        Occupancy { rows }
    }
}
