//! Where the statements of a text begin.
ghost use Rattle.std.specs.Prelude.{◌≡◌, OnOk, length};
ghost use Rattle.dbc_reader.specs.Starts.{no_starts, entry_starts, extended, caught_up};

use dbc_records::{Database, EntryKind};
use dbc_values::{Checked, List, Memory};
use std::alloc::Global;

/// Where a statement or a signal begins.
#[derive(Clone, Copy, Debug, PartialEq, Eq)]
pub struct Start {
    /// The line of its first token: 1 and the number of LF before it.
    pub line: u64,
    /// How many bytes are left of the text from the first byte of that token on.
    pub left: usize,
}

impl Checked for Start {
    ghost use Rattle.std.specs.Prelude.{⊤};

    ghost IsValid = { λ start. ⊤ };
}

/// Where the statements and signals of a database begin: a list for each of the database's, in the same order.
#[derive(Drop)]
pub struct Starts {
    /// Of value tables.
    pub tables: List<Start>,
    /// Of messages.
    pub messages: List<Start>,
    /// Of signals, those of the first message first.
    pub signals: List<Start>,
    /// Of comments.
    pub comments: List<Start>,
    /// Of attribute definitions.
    pub definitions: List<Start>,
    /// Of attribute defaults.
    pub defaults: List<Start>,
    /// Of attribute values.
    pub attributes: List<Start>,
    /// Of the value descriptions of signals.
    pub values: List<Start>,
    /// Of float types.
    pub floats: List<Start>,
    /// Of extended multiplexing.
    pub muxes: List<Start>,
    /// Of statements kept verbatim.
    pub kept: List<Start>,
}

// Adds the start if there are fewer of them.
#[tactic(auto, unfolding(crate::specs::Starts::extended))]
fn extend(starts: &mut List<Start>, count: usize, start: Start) -> Result<(), Memory>
    ensures { OnOk result (starts.new ≡ extended starts.old count start) }
{
    if starts.len() < count {
        starts.push(start)
    } else {
        Ok(())
    }
}

impl Starts {
    /// No starts.
    pub(crate) fn new(alloc: Global) -> Starts
        ensures { result ≡ no_starts }
    {
        Starts {
            tables: List::new(alloc),
            messages: List::new(alloc),
            signals: List::new(alloc),
            comments: List::new(alloc),
            definitions: List::new(alloc),
            defaults: List::new(alloc),
            attributes: List::new(alloc),
            values: List::new(alloc),
            floats: List::new(alloc),
            muxes: List::new(alloc),
            kept: List::new(alloc),
        }
    }

    /// Where the entries of a kind begin.
    pub fn of(&self, kind: EntryKind) -> &[Start]
        ensures { result.now ≡ entry_starts self.now kind }
    {
        match kind {
            EntryKind::Table => self.tables.as_slice(),
            EntryKind::Comment => self.comments.as_slice(),
            EntryKind::Definition => self.definitions.as_slice(),
            EntryKind::Default => self.defaults.as_slice(),
            EntryKind::Attribute => self.attributes.as_slice(),
            EntryKind::Values => self.values.as_slice(),
            EntryKind::Float => self.floats.as_slice(),
            EntryKind::Mux => self.muxes.as_slice(),
        }
    }

    /// Adds the start to each list that is shorter than the database's: to that of the statement read last.
    pub(crate) fn catch_up(&mut self, database: &Database, start: Start) -> Result<(), Memory>
        ensures { OnOk result (self.new ≡ caught_up self.old database.now start) }
    {
        extend(&mut self.tables, database.tables.len(), start)?;
        extend(&mut self.messages, database.messages.len(), start)?;
        extend(&mut self.comments, database.comments.len(), start)?;
        extend(&mut self.definitions, database.definitions.len(), start)?;
        extend(&mut self.defaults, database.defaults.len(), start)?;
        extend(&mut self.attributes, database.attributes.len(), start)?;
        extend(&mut self.values, database.values.len(), start)?;
        extend(&mut self.floats, database.floats.len(), start)?;
        extend(&mut self.muxes, database.muxes.len(), start)?;
        extend(&mut self.kept, database.kept.len(), start)
    }
}
