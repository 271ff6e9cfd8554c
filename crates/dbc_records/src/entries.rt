//! The value descriptions of a signal.
ghost use Rattle.std.specs.Prelude.{◌≡◌, IfOk, IfSome, IsTrue};
ghost use Rattle.dbc_records.specs.Orders.{are_in_order, entry_order};

use crate::entry::Entry;
use crate::order::{EntryOrder, entry_order};
use dbc_values::{Checked, Copied, List, Memory};
use std::alloc::Global;
use std::marker::Model;
use std::rc::Rc;

// Value descriptions, and the order of their raw values, if they are ordered.
#[derive(Drop)]
struct Ordered {
    entries: List<Entry>,
    order: Option<EntryOrder>,
}

impl Model for Ordered {
    ghost use Rattle.std.specs.Prelude.{◌≡◌, List as Items, IfSome, IsTrue};
    ghost use Rattle.dbc_records.specs.Records.{Entry as PlainEntry};
    ghost use Rattle.dbc_records.specs.Orders.{are_in_order, entry_order};

    ghost Value = { Items PlainEntry };

    ghost view = { λ a. a.entries };

    ghost invariant = { λ a. (a.order ≡ entry_order a.entries)
        × IfSome a.order (λ order. IsTrue (are_in_order order a.entries)) };
}

impl Ordered {
    fn of(entries: List<Entry>) -> Ordered
        ensures { result ≡ entries }
    {
        let order = entry_order(entries.as_slice());
        Ordered { entries, order }
    }
}

/// The value descriptions of a signal. Copies share them.
#[derive(Drop)]
pub struct Entries {
    ordered: Rc<Ordered>,
}

impl Model for Entries {
    ghost use Rattle.std.specs.Prelude.{List as Items, All};
    ghost use Rattle.dbc_records.specs.Records.{Entry as PlainEntry, IsEntry};

    ghost Value = { Items PlainEntry };

    ghost view = { λ a. a.ordered.value };

    ghost invariant = { λ a. All IsEntry a.ordered.value };
}

impl Checked for Entries {
    ghost use Rattle.std.specs.Prelude.{All};
    ghost use Rattle.dbc_records.specs.Records.{IsEntry};

    ghost IsValid = { All IsEntry };
}

impl Copied for Entries {
    fn copy(&self) -> Result<Entries, Memory> {
        let ordered = self.ordered.clone()?;
        Ok(Entries { ordered })
    }
}

impl Entries {
    /// These value descriptions.
    pub fn of(alloc: Global, entries: List<Entry>) -> Result<Entries, Memory>
        ensures { IfOk result (λ made. made ≡ entries) }
    {
        let ordered = Rc::new(alloc, Ordered::of(entries))?;
        Ok(Entries { ordered })
    }

    /// The value descriptions, in the order of the text.
    pub fn as_slice(&self) -> &[Entry]
        ensures { result.now ≡ self.now }
    {
        self.ordered.as_ref().entries.as_slice()
    }

    /// The order of their raw values, if they are ordered: then no two are the same. Fewer than two are rising. It takes the same
    /// time for any number of them.
    pub fn order(&self) -> Option<EntryOrder>
        ensures order { result ≡ entry_order self.now }
        ensures in_order { IfSome result (λ order. IsTrue (are_in_order order self.now)) }
    {
        self.ordered.as_ref().order
    }
}
