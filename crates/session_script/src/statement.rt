//! Statements after verbs.
ghost use Rattle.std.specs.Prelude.{IfOk};
ghost use Rattle.session_script.specs.Commands.{Says};

use dbc_reader::{Statement, read_one};
use dbc_tokens::{Cause, ReadFault};
use dbc_values::Memory;
use std::alloc::Global;

/// The one statement of a text, or `None` if it has a fault.
pub(crate) fn statement_of(alloc: Global, text: &[u8]) -> Result<Option<Statement>, Memory>
    ensures { IfOk result (λ spoken. Says text.now spoken) }
{
    match read_one(alloc, text) {
        Ok(statement) => Ok(Some(statement)),
        Err(
            ReadFault {
                cause: Cause::Memory,
                ..
            },
        ) => Err(Memory),
        Err(_) => Ok(None),
    }
}
