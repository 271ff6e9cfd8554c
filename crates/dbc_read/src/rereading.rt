//! What was printed, read again.
ghost use Rattle.std.specs.Prelude.{◌≡◌, Some, IfOk};
ghost use Rattle.dbc_records.specs.CanonicalText.{canonical_text};

use dbc_model::{Broken, Database, Memory, Sink, print};
use dbc_reader::read;
use dbc_tokens::Cause;
use std::alloc::Global;

// Memory as a sink: bytes are appended to its own. It fails if memory runs out.
#[derive(Drop)]
struct Gathered {
    bytes: Vec<u8>,
    failures: u64,
}

impl Sink for Gathered {
    ghost written = { λ sink. record { bytes = Some sink.bytes.items; failures = sink.failures } };

    fn put(&mut self, piece: &[u8]) -> Result<usize, Broken> {
        if self.bytes.extend_from_slice(piece).is_err() {
            self.failures = self.failures.saturating_add(1);
            return Err(Broken);
        }
        Ok(piece.len())
    }
}

// The canonical text of the database.
fn printed(alloc: Global, database: &Database) -> Result<Vec<u8>, Memory>
    ensures { IfOk result (λ text. text.items ≡ canonical_text database.now) }
{
    let mut sink = Gathered {
        bytes: Vec::new(alloc),
        failures: 0,
    };
    match print(database, &mut sink) {
        Ok(()) => Ok(sink.bytes),
        Err(_) => Err(Memory),
    }
}

/// Prints the database into memory and reads that text. It fails only if memory runs out for the text or for the database read from
/// it: what [`print`](dbc_model::print) wrote has no fault.
pub fn reread(alloc: Global, database: &Database) -> Result<Database, Memory>
    ensures same { IfOk result (λ again. again ≡ database.now) }
    ensures bytes { IfOk result (λ again. canonical_text again ≡ canonical_text database.now) }
{
    // opens the database, so that its fields' invariants are known below
    let _ = &database.version;
    let text = printed(alloc, database)?;
    match read(alloc, &text) {
        Ok(again) => Ok(again),
        Err(fault) => match fault.cause {
            Cause::Memory => Err(Memory),
            _ => unreachable!(),
        },
    }
}
