//! Statements kept verbatim.
ghost use Rattle.std.specs.Prelude.{◌≡◌, true};
ghost use Rattle.dbc_reader.specs.inner.Cursors.{left_at};
ghost use Rattle.dbc_reader.specs.inner.Readers.{GivesTo};
ghost use Rattle.dbc_reader.specs.inner.Databases.{begins_kept, kept_at};

use crate::cursor::Cursor;
use crate::parts::{mark, pieces};
use crate::stopped::Stopped;
use dbc_records::Kept;
use std::alloc::Global;

/// Takes a statement kept verbatim.
#[tactic(auto, using(crate::proofs::Facts::KeptBeginnings::pieces_fit), unfolding(crate::specs::inner::Databases::kept_at))]
pub(crate) fn kept(alloc: Global, at: &mut Cursor<'_>) -> Result<Kept, Stopped>
    requires { begins_kept (left_at at.old) ≡ true }
    ensures { GivesTo result (left_at at.new) (kept_at (left_at at.old)) }
{
    let tokens = pieces(alloc, at)?;
    mark(at, b';')?;
    Ok(Kept { tokens })
}
