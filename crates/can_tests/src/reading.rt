//! Databases from texts.

ghost use Rattle.std.specs.Prelude.{◌<◌, IfOk, length};

use dbc_reader::read;
use dbc_records::Database;
use std::alloc::Global;
use std::test::Fail;

/// The database of a text, which has a message. A function that owns a database and has many exits takes long to prove, so tests
/// pass it on at once.
pub fn database(alloc: Global, text: &[u8]) -> Result<Database, Fail>
    ensures { IfOk result (λ database. 0 < length database.messages) }
{
    match read(alloc, text) {
        Ok(database) if !database.messages.as_slice().is_empty() => Ok(database),
        _ => Err(Fail::from("no database")),
    }
}
