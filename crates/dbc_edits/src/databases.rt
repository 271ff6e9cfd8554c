//! Databases with another message, and without the entries of a message or a signal.
ghost use Rattle.std.specs.Prelude.{◌≡◌, ◌<◌, IfOk, length};
ghost use Rattle.dbc_edits.specs.Rows.{without_rows, has_row};
ghost use Rattle.dbc_edits.specs.Edits.{with_message};

use crate::key::TargetKey;
use crate::rows::{drop_all, has_any};
use dbc_records::{Database, Message};
use dbc_values::{Copied, Memory};

/// The database with another message at the index.
pub(crate) fn with_message(
    database: &Database,
    index: usize,
    message: Message,
) -> Result<Database, Memory>
    requires { index < length database.now.messages }
    ensures { IfOk result (λ edited. edited ≡ with_message index message database.now) }
{
    let mut edited = database.copy()?;
    edited.messages.set(index, message);
    Ok(edited)
}

/// Whether an entry is about the key.
#[tactic(auto, unfolding(crate::specs::Rows::has_row))]
pub(crate) fn has_row<K: TargetKey>(database: &Database, key: &K) -> bool
    ensures { result ≡ has_row (K.takes key.now) database.now }
{
    has_any(database.comments.as_slice(), key)
        || has_any(database.attributes.as_slice(), key)
        || has_any(database.values.as_slice(), key)
        || has_any(database.floats.as_slice(), key)
        || has_any(database.muxes.as_slice(), key)
}

/// Removes the entries that are about the key.
#[tactic(auto, unfolding(crate::specs::Rows::without_rows))]
pub(crate) fn drop_rows<K: TargetKey>(database: &mut Database, key: &K)
    ensures { database.new ≡ without_rows (K.takes key.now) database.old }
{
    drop_all(&mut database.comments, key);
    drop_all(&mut database.attributes, key);
    drop_all(&mut database.values, key);
    drop_all(&mut database.floats, key);
    drop_all(&mut database.muxes, key);
}
