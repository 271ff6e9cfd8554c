//! What no contract states: that entries are shown if there is enough memory.

use crate::reading::database;
use dbc_records::{Database, DatabaseEntry, EntryKind, EntryVisitor};
use dbc_values::Memory;
use std::alloc::Global;
use std::marker::Model;
use std::test::Fail;

// The kinds whose entries were shown.
#[derive(Drop)]
struct Kinds {
    kinds: Vec<EntryKind>,
}

impl Model for Kinds {
    ghost use Rattle.std.specs.Prelude.{List};
    ghost use Rattle.dbc_records.specs.declared.database_entry.EntryKind.{EntryKind};

    ghost Value = { List EntryKind };

    ghost view = { λ a. a.kinds.items };
}

impl<'a> EntryVisitor<'a> for Kinds {
    ghost use Rattle.std.specs.Prelude.{◌∷◌, [], ◌++◌};

    ghost visited = { λ kinds entries. kinds ++ entries.0 ∷ [] };

    fn visit<E: DatabaseEntry>(
        &mut self,
        kind: EntryKind,
        _entries: &'a [E],
    ) -> Result<(), Memory> {
        self.kinds.push(kind)?;
        Ok(())
    }
}

fn kinds_of(alloc: Global, database: &Database) -> Result<Vec<EntryKind>, Memory> {
    let mut kinds = Kinds {
        kinds: Vec::new(alloc),
    };
    database.visit_entries(&mut kinds)?;
    Ok(kinds.kinds)
}

#[test]
fn printed_order(rt: HostRuntime) -> Result<(), Fail> {
    let text =
        b"VERSION \"\"\nNS_ :\nBS_:\nBU_:\nBO_ 5 M: 8 N\nCM_ \"c\";\nSIG_VALTYPE_ 5 S : 1;\n";
    let database = database(rt.alloc(), text.as_slice())?;
    let kinds = kinds_of(rt.alloc(), &database)?;
    let printed = [
        EntryKind::Table,
        EntryKind::Comment,
        EntryKind::Definition,
        EntryKind::Default,
        EntryKind::Attribute,
        EntryKind::Values,
        EntryKind::Float,
        EntryKind::Mux,
    ];
    assert!(rt; kinds.as_slice() == printed.as_slice());
    Ok(())
}
