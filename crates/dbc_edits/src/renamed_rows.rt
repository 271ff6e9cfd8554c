//! Entries, and signals, of an old name that take a new one.
ghost use Rattle.std.specs.Prelude.{◌≡◌, ◌==◌, ◌&&◌, All, IfOk, MatchOption, OnOk, map};
ghost use Rattle.std.specs.Str.{bytes_eq};
ghost use Rattle.dbc_edits.specs.Rows.{name_after, target_renamed, rows_renamed};

use dbc_records::{AttrRow, Comment, Database, FloatRow, MuxRow, Signal, Target, ValueRow};
use dbc_values::{Checked, Copied, List, Memory, Name, same};
use std::marker::Model;

/// Signals of a CAN identifier take a new name instead of an old one.
#[derive(Drop)]
pub(crate) struct Renaming<'a> {
    pub(crate) number: u32,
    pub(crate) old: &'a Name,
    pub(crate) new: &'a Name,
}

impl<'a> Model for Renaming<'a> {
    ghost use Rattle.dbc_edits.specs.Rows as rows;

    ghost Value = { rows.Renaming };

    ghost view = { λ a. record { number = a.number; old = a.old.now; new = a.new.now } };
}

/// A change that gives some items of a list a new name.
pub(crate) trait Rename<T: Checked>: Drop {
    ghost use Rattle.std.specs.Prelude.{MatchOption, IfSome};

    // The item, renamed.
    ghost renamed: { Self → T → T };

    /// The item with its new name, or nothing if it keeps its own.
    fn renamed(&self, item: &T) -> Result<Option<T>, Memory>
        ensures new { IfOk result (λ made. MatchOption made (item.now ≡ renamed self.now item.now) (λ other. other
            ≡ renamed self.now item.now)) }
        ensures valid { IfOk result (λ made. IfSome made T.IsValid) };
}

/// Applies the change to each item.
pub(crate) fn rename_all<T: Checked, R: Rename<T>>(
    items: &mut List<T>,
    change: &R,
) -> Result<(), Memory>
    ensures new { OnOk result (items.new ≡ map (R.renamed change.now) items.old) }
    ensures valid { All T.IsValid items.new }
{
    let count = items.as_slice().len();
    for index in 0..count {
        if let Some(other) = change.renamed(&items.as_slice()[index])? {
            items.set(index, other);
        }
    }
    Ok(())
}

impl<'a> Renaming<'a> {
    // Whether a signal of a CAN identifier has the old name.
    fn takes(&self, number: u32, name: &Name) -> bool
        ensures { result ≡ (number == self.now.number && bytes_eq name.now self.now.old) }
    {
        number == self.number && same(name.as_bytes(), self.old.as_bytes())
    }

    // The name that a signal of a CAN identifier then has.
    fn name_after(&self, number: u32, name: &Name) -> Result<Name, Memory>
        ensures { IfOk result (λ after. after ≡ name_after self.now number name.now) }
    {
        if self.takes(number, name) {
            self.new.copy()
        } else {
            name.copy()
        }
    }

    // The target of an entry after the renaming, or nothing if it stays the same.
    fn target_after(&self, target: &Target) -> Result<Option<Target>, Memory>
        ensures { IfOk result (λ made. MatchOption made (target.now ≡ target_renamed self.now target.now) (λ other. other
            ≡ target_renamed self.now target.now)) }
    {
        match target {
            Target::Signal(number, name) if self.takes(*number, name) => {
                Ok(Some(Target::Signal(*number, self.new.copy()?)))
            }
            _ => Ok(None),
        }
    }
}

impl<'a> Rename<Comment> for Renaming<'a> {
    ghost use Rattle.dbc_edits.specs.Rows.{comment_renamed};

    ghost renamed = { comment_renamed };

    fn renamed(&self, row: &Comment) -> Result<Option<Comment>, Memory> {
        let Some(target) = self.target_after(&row.target)? else {
            return Ok(None);
        };
        let mut other = row.copy()?;
        other.target = target;
        Ok(Some(other))
    }
}

impl<'a> Rename<AttrRow> for Renaming<'a> {
    ghost use Rattle.dbc_edits.specs.Rows.{attribute_renamed};

    ghost renamed = { attribute_renamed };

    fn renamed(&self, row: &AttrRow) -> Result<Option<AttrRow>, Memory> {
        let Some(target) = self.target_after(&row.target)? else {
            return Ok(None);
        };
        let mut other = row.copy()?;
        other.target = target;
        Ok(Some(other))
    }
}

impl<'a> Rename<ValueRow> for Renaming<'a> {
    ghost use Rattle.dbc_edits.specs.Rows.{values_renamed};

    ghost renamed = { values_renamed };

    fn renamed(&self, row: &ValueRow) -> Result<Option<ValueRow>, Memory> {
        if !self.takes(row.number, &row.signal) {
            return Ok(None);
        }
        let mut other = row.copy()?;
        other.signal = self.new.copy()?;
        Ok(Some(other))
    }
}

impl<'a> Rename<FloatRow> for Renaming<'a> {
    ghost use Rattle.dbc_edits.specs.Rows.{float_renamed};

    ghost renamed = { float_renamed };

    fn renamed(&self, row: &FloatRow) -> Result<Option<FloatRow>, Memory> {
        if !self.takes(row.number, &row.signal) {
            return Ok(None);
        }
        let mut other = row.copy()?;
        other.signal = self.new.copy()?;
        Ok(Some(other))
    }
}

impl<'a> Rename<MuxRow> for Renaming<'a> {
    ghost use Rattle.dbc_edits.specs.Rows.{mux_renamed};

    ghost renamed = { mux_renamed };

    fn renamed(&self, row: &MuxRow) -> Result<Option<MuxRow>, Memory> {
        if !self.takes(row.number, &row.signal) && !self.takes(row.number, &row.switch) {
            return Ok(None);
        }
        let mut other = row.copy()?;
        other.signal = self.name_after(row.number, &row.signal)?;
        other.switch = self.name_after(row.number, &row.switch)?;
        Ok(Some(other))
    }
}

impl<'a> Rename<Signal> for Renaming<'a> {
    ghost use Rattle.dbc_edits.specs.Edits.{with_name};

    ghost renamed = { λ renaming. with_name renaming.old renaming.new };

    fn renamed(&self, signal: &Signal) -> Result<Option<Signal>, Memory> {
        if !same(signal.name.as_bytes(), self.old.as_bytes()) {
            return Ok(None);
        }
        let mut other = signal.copy()?;
        other.name = self.new.copy()?;
        Ok(Some(other))
    }
}

/// Renames the signal in all entries of the database.
#[tactic(auto, unfolding(crate::specs::Rows::rows_renamed))]
pub(crate) fn rename_rows(database: &mut Database, renaming: &Renaming<'_>) -> Result<(), Memory>
    ensures { OnOk result (database.new ≡ rows_renamed renaming.now database.old) }
{
    rename_all(&mut database.comments, renaming)?;
    rename_all(&mut database.attributes, renaming)?;
    rename_all(&mut database.values, renaming)?;
    rename_all(&mut database.floats, renaming)?;
    rename_all(&mut database.muxes, renaming)
}
