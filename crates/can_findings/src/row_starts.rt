//! Where entries of signals begin, found by the keys of the entries.
ghost use Rattle.std.specs.Prelude.{◌≡◌, IfOk, map};
ghost use Rattle.can_findings.specs.RowStarts.{key_start, key_starts, start_of_key, row_starts_of};

use crate::beginnings::{after_first, first_start};
use can_entries::{Index, Keyed};
use dbc_reader::{Start, Starts};
use dbc_records::Database;
use dbc_values::{Checked, Memory, Name};
use std::alloc::Global;
use std::marker::Model;

/// The key of an entry, and where it begins.
#[derive(Drop)]
pub(crate) struct RowStart<'a> {
    /// The CAN identifier of the message.
    pub number: u32,
    /// The name of the signal.
    pub signal: &'a [u8],
    /// Where it begins.
    pub start: Start,
}

impl<'a> Checked for RowStart<'a> {
    ghost use Rattle.std.specs.Prelude.{⊤};

    ghost IsValid = { λ row. ⊤ };
}

impl<'a> Keyed for RowStart<'a> {
    ghost number_of = { λ row. row.number };

    ghost signal_of = { λ row. row.signal.now };

    fn number(&self) -> u32 {
        self.number
    }

    fn signal(&self) -> &[u8] {
        self.signal
    }
}

// The keys of entries that begin there.
fn row_starts<'a, R: Keyed>(
    alloc: Global,
    rows: &'a [R],
    starts: &[Start],
) -> Result<Vec<RowStart<'a>>, Memory>
    ensures { IfOk result (λ made. map key_start made.items ≡ key_starts R.number_of R.signal_of rows.now starts.now) }
{
    let mut made = Vec::new(alloc);
    let (mut left, mut further) = (rows, starts);
    'rows: while let [row, others @ ..] = left {
        made.push(RowStart {
            number: row.number(),
            signal: row.signal(),
            start: first_start(further),
        })?;
        (left, further) = (others, after_first(further));
    }
    Ok(made)
}

/// The keys of the entries of signals, and where they begin.
#[derive(Drop)]
pub(crate) struct SignalRowStarts<'a> {
    values: Vec<RowStart<'a>>,
    floats: Vec<RowStart<'a>>,
    muxes: Vec<RowStart<'a>>,
}

impl<'a> Model for SignalRowStarts<'a> {
    ghost use Rattle.std.specs.Prelude.{map as each};
    ghost use Rattle.can_findings.specs.RowStarts.{RowStarts, key_start as plain};

    ghost Value = { RowStarts };

    ghost view = { λ rows. record {
      values = each plain rows.values.items;
      floats = each plain rows.floats.items;
      muxes = each plain rows.muxes.items;
    } };
}

impl<'a> SignalRowStarts<'a> {
    /// The starts of the entries of a database.
    pub(crate) fn of(
        alloc: Global,
        database: &'a Database,
        starts: &Starts,
    ) -> Result<SignalRowStarts<'a>, Memory>
        ensures { IfOk result (λ rows. rows ≡ row_starts_of database.now starts.now) }
    {
        let values = row_starts(alloc, database.values.as_slice(), starts.values.as_slice())?;
        let floats = row_starts(alloc, database.floats.as_slice(), starts.floats.as_slice())?;
        let muxes = row_starts(alloc, database.muxes.as_slice(), starts.muxes.as_slice())?;
        Ok(SignalRowStarts {
            values,
            floats,
            muxes,
        })
    }
}

/// Where the entries of signals begin, by their keys.
#[derive(Drop)]
pub(crate) struct KeyedStarts<'a> {
    values: Index<'a, RowStart<'a>>,
    floats: Index<'a, RowStart<'a>>,
    muxes: Index<'a, RowStart<'a>>,
}

impl<'a> Model for KeyedStarts<'a> {
    ghost use Rattle.std.specs.Prelude.{map as each};
    ghost use Rattle.can_findings.specs.RowStarts.{RowStarts, key_start as plain};

    ghost Value = { RowStarts };

    ghost view = { λ rows. record {
      values = each plain rows.values;
      floats = each plain rows.floats;
      muxes = each plain rows.muxes;
    } };
}

/// Where the first entry of the key begins.
pub(crate) fn start_in(index: &Index<'_, RowStart<'_>>, number: u32, signal: &Name) -> Option<Start>
    ensures { result ≡ start_of_key number signal.now (map key_start index.now) }
{
    match index.first(number, signal.as_bytes()) {
        Some(row) => Some(row.start),
        None => None,
    }
}

impl<'a> KeyedStarts<'a> {
    /// Where these entries begin.
    pub(crate) fn of(
        alloc: Global,
        rows: &'a SignalRowStarts<'a>,
    ) -> Result<KeyedStarts<'a>, Memory>
        ensures { IfOk result (λ keyed. keyed ≡ rows.now) }
    {
        let values = Index::of(alloc, rows.values.as_slice())?;
        let floats = Index::of(alloc, rows.floats.as_slice())?;
        let muxes = Index::of(alloc, rows.muxes.as_slice())?;
        Ok(KeyedStarts {
            values,
            floats,
            muxes,
        })
    }

    /// Where the first `VAL_` entry of a signal begins.
    pub(crate) fn values(&self, number: u32, signal: &Name) -> Option<Start>
        ensures { result ≡ start_of_key number signal.now self.now.values }
    {
        start_in(&self.values, number, signal)
    }

    /// Where the first entry of a signal's float type begins.
    pub(crate) fn float(&self, number: u32, signal: &Name) -> Option<Start>
        ensures { result ≡ start_of_key number signal.now self.now.floats }
    {
        start_in(&self.floats, number, signal)
    }

    /// Where the first entry of a signal's multiplexing begins.
    pub(crate) fn mux(&self, number: u32, signal: &Name) -> Option<Start>
        ensures { result ≡ start_of_key number signal.now self.now.muxes }
    {
        start_in(&self.muxes, number, signal)
    }
}
