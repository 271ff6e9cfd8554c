//! That renaming in a database succeeds if there is enough memory.

use dbc_edits::{Edit, edited, renamed};
use dbc_reader::read;
use dbc_records::Database;
use dbc_values::Name;
use std::alloc::Global;
use std::test::Fail;

// a multiplexor, and a signal below it by an entry
const TEXT: &[u8] = b"\
BO_ 291 A: 2 N
 SG_ S M : 0|8@1+ (1,0) [0|0] \"\"
 SG_ T : 8|8@1+ (1,0) [0|0] \"\"
SG_MUL_VAL_ 291 T S 1-1;
";

fn name(alloc: Global, bytes: &[u8]) -> Result<Name, Fail> {
    match Name::new(alloc, bytes)? {
        Some(name) => Ok(name),
        None => Err(Fail::from("no name")),
    }
}

// Whether the first signal, and the multiplexor of the first entry, have the name.
fn names_so(database: &Database, name: &[u8]) -> bool {
    let (Some(message), Some(row)) = (
        database.messages.as_slice().first(),
        database.muxes.as_slice().first(),
    ) else {
        return false;
    };
    let Some(signal) = message.signals.as_slice().first() else {
        return false;
    };
    signal.name.as_bytes() == name && row.switch.as_bytes() == name
}

// Whether an edit that renames S gives a database in which it has that name, and its separate call gives the same.
fn is_renamed(alloc: Global, database: &Database, edit: &Edit) -> Result<bool, Fail> {
    let Edit::RenameSignal(index, old, new) = edit else {
        return Ok(false);
    };
    match edited(alloc, database, edit) {
        Ok(edited) => {
            let renamed = renamed(database, *index, old, new)?;
            Ok(names_so(&edited, b"U") && names_so(&renamed, b"U"))
        }
        Err(_) => Ok(false),
    }
}

fn are_renamed(alloc: Global) -> Result<bool, Fail> {
    let edit = Edit::RenameSignal(0, name(alloc, b"S")?, name(alloc, b"U")?);
    match read(alloc, TEXT) {
        Ok(database) => is_renamed(alloc, &database, &edit),
        Err(_) => Ok(false),
    }
}

#[test]
fn a_switch_renamed(rt: HostRuntime) -> Result<(), Fail> {
    assert!(rt; are_renamed(rt.alloc())?);
    Ok(())
}
