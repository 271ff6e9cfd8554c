//! The keys by which entries are found.
ghost use Rattle.std.specs.Prelude.{◌≡◌, Bool};
ghost use Rattle.dbc_records.specs.declared.target.Target.{Target as TargetSpec};
ghost use Rattle.dbc_records.specs.EntryKeys.{target_of, key_target};

use dbc_records::{AttrRow, DatabaseEntry, MuxRow, Signal, TableRow, TargetRef};
use dbc_values::{Checked, same};

/// A test on entries of a kind.
pub(crate) trait Key<R: Checked>: Drop {
    // Whether an entry passes.
    ghost has: { Self → R → Bool };

    fn has(&self, row: &R) -> bool
        ensures { result ≡ has self.now row.now };
}

/// A test on what entries are about.
pub(crate) trait TargetKey: Drop {
    // Whether a target passes.
    ghost takes: { Self → TargetSpec → Bool };

    fn takes(&self, target: TargetRef<'_>) -> bool
        ensures { result ≡ takes self.now (target_of target.entry) };
}

impl<E: DatabaseEntry, K: TargetKey> Key<E> for K {
    ghost has = { λ key entry. K.takes key (key_target (E.key_of entry)) };

    fn has(&self, entry: &E) -> bool {
        self.takes(entry.key().target())
    }
}

/// A message and its signals.
#[derive(Drop)]
pub(crate) struct OfNumber {
    pub(crate) number: u32,
}

impl TargetKey for OfNumber {
    ghost use Rattle.dbc_edits.specs.Rows.{is_of_number};

    ghost takes = { λ key. is_of_number key.number };

    fn takes(&self, target: TargetRef<'_>) -> bool {
        match target {
            TargetRef::Message(number) | TargetRef::Signal(number, _) => number == self.number,
            _ => false,
        }
    }
}

/// A signal of messages of a CAN identifier.
#[derive(Drop)]
pub(crate) struct OfSignal<'a> {
    pub(crate) number: u32,
    pub(crate) name: &'a [u8],
}

impl<'a> TargetKey for OfSignal<'a> {
    ghost use Rattle.dbc_edits.specs.Rows.{is_of_signal};

    ghost takes = { λ key. is_of_signal key.number key.name.now };

    fn takes(&self, target: TargetRef<'_>) -> bool {
        match target {
            TargetRef::Signal(number, name) => number == self.number && same(name, self.name),
            _ => false,
        }
    }
}

/// The multiplexer entries of a CAN identifier that name a multiplexor (switch).
#[derive(Drop)]
pub(crate) struct OfSwitch<'a> {
    pub(crate) number: u32,
    pub(crate) name: &'a [u8],
}

impl<'a> Key<MuxRow> for OfSwitch<'a> {
    ghost use Rattle.dbc_edits.specs.Rows.{is_switched_by};

    ghost has = { λ key. is_switched_by key.number key.name.now };

    fn has(&self, row: &MuxRow) -> bool {
        row.number == self.number && same(row.switch.as_bytes(), self.name)
    }
}

/// The value tables of a name.
#[derive(Drop)]
pub(crate) struct OfTable<'a> {
    pub(crate) name: &'a [u8],
}

impl<'a> Key<TableRow> for OfTable<'a> {
    ghost use Rattle.dbc_edits.specs.Rows.{is_table_of};

    ghost has = { λ key. is_table_of key.name.now };

    fn has(&self, row: &TableRow) -> bool {
        same(row.name.as_bytes(), self.name)
    }
}

/// An attribute of messages of a CAN identifier.
#[derive(Drop)]
pub(crate) struct OfAttribute<'a> {
    pub(crate) name: &'a [u8],
    pub(crate) number: u32,
}

impl<'a> Key<AttrRow> for OfAttribute<'a> {
    ghost use Rattle.dbc_edits.specs.Rows.{is_attribute_of};

    ghost has = { λ key. is_attribute_of key.name.now key.number };

    fn has(&self, row: &AttrRow) -> bool {
        row.target.is_for_message(self.number) && same(row.name.as_bytes(), self.name)
    }
}

/// The signals of a name.
#[derive(Drop)]
pub(crate) struct OfName<'a> {
    pub(crate) name: &'a [u8],
}

impl<'a> Key<Signal> for OfName<'a> {
    ghost use Rattle.dbc_edits.specs.Edits.{is_named};

    ghost has = { λ key. is_named key.name.now };

    fn has(&self, row: &Signal) -> bool {
        same(row.name.as_bytes(), self.name)
    }
}
