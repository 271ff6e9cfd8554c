//! Lists of entries: those of a key are removed, or replaced by one.
ghost use Rattle.std.specs.Prelude.{◌≡◌, All, OnOk};
ghost use Rattle.std.specs.List.{list_any, position_or_len};
ghost use Rattle.dbc_edits.specs.Rows.{without, with_item};

use crate::key::Key;
use dbc_values::{Checked, List, Memory};

/// Whether an entry is of the key.
pub(crate) fn has_any<R: Checked, K: Key<R>>(rows: &[R], key: &K) -> bool
    ensures { result ≡ list_any (K.has key.now) rows.now }
{
    for row in rows {
        if key.has(row) {
            return true;
        }
    }
    false
}

/// The index of the first entry of the key, or the number of entries if none has the key.
pub(crate) fn index_of<R: Checked, K: Key<R>>(rows: &[R], key: &K) -> usize
    ensures { result ≡ position_or_len (K.has key.now) rows.now }
{
    for (index, row) in rows.iter().enumerate() {
        if key.has(row) {
            return index;
        }
    }
    rows.len()
}

/// Removes the entries of the key.
pub(crate) fn drop_all<R: Checked, K: Key<R>>(rows: &mut List<R>, key: &K)
    ensures new { rows.new ≡ without (K.has key.now) rows.old }
    ensures valid { All R.IsValid rows.new }
{
    rows.retain(|row| !key.has(row));
}

/// Puts the entry in place of the first entry of the key and drops all others of the key, or appends it if there is none.
#[tactic(auto, using(crate::proofs::Indexes::within, crate::proofs::Indexes::placed))]
pub(crate) fn set_row<R: Checked, K: Key<R>>(
    rows: &mut List<R>,
    key: &K,
    row: R,
) -> Result<(), Memory>
    requires { R.IsValid row }
    ensures new { OnOk result (rows.new ≡ with_item (K.has key.now) row rows.old) }
    ensures valid { All R.IsValid rows.new }
{
    let index = index_of(rows.as_slice(), key);
    drop_all(rows, key);
    rows.insert(index, row)
}
