//! That a database is checked.
ghost use Rattle.std.specs.Prelude.{◌<◌, length};

use crate::reading::database;
use can_check::{Code, Diagnostic, all_faults, message_faults};
use dbc_records::Database;
use std::alloc::Global;
use std::test::Fail;

// A CAN identifier that is invalid, and a sender that doesn't exist.
const FAULTY: &[u8] = b"BU_: Ecu\nBO_ 2048 A: 8 N\n";

// Whether the diagnostic at an index has the code.
fn has_code(found: &[Diagnostic], index: usize, code: Code) -> bool {
    match found.get(index) {
        Some(diagnostic) => diagnostic.code == code,
        None => false,
    }
}

// Whether both are found, and all for the one message.
fn both_found(alloc: Global, database: &Database) -> Result<bool, Fail>
    requires { 0 < length database.now.messages }
{
    let found = all_faults(alloc, database)?;
    let of_message = message_faults(alloc, database, 0)?;
    Ok(
        has_code(found.as_slice(), 0, Code::BadIdentifier)
            && has_code(found.as_slice(), 1, Code::UnknownNode)
            && found.len() == 2
            && of_message.len() == 2,
    )
}

fn has_diagnostics(alloc: Global) -> Result<bool, Fail> {
    let database = database(alloc, FAULTY)?;
    both_found(alloc, &database)
}

#[test]
fn a_number_and_a_sender(rt: HostRuntime) -> Result<(), Fail> {
    assert!(rt; has_diagnostics(rt.alloc())?);
    Ok(())
}
