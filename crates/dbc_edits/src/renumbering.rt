//! Entries of a CAN identifier that take another.
ghost use Rattle.std.specs.Prelude.{◌≡◌};
ghost use Rattle.dbc_records.specs.Comments.{IsTarget};
ghost use Rattle.dbc_edits.specs.Rows.{renumbered, target_renumbered, rows_renumbered};

use dbc_records::{AttrRow, Comment, Database, FloatRow, MuxRow, Target, ValueRow};
use dbc_values::Rewrite;

/// One CAN identifier replaces another.
#[derive(Drop)]
pub(crate) struct Renumbering {
    pub(crate) from: u32,
    pub(crate) to: u32,
}

impl Renumbering {
    fn renumbered(&self, number: u32) -> u32
        ensures { result ≡ renumbered self.now.from self.now.to number }
    {
        if number == self.from { self.to } else { number }
    }

    fn retarget(&self, target: &mut Target)
        requires { IsTarget target.old }
        ensures new { target.new ≡ target_renumbered self.now.from self.now.to target.old }
        ensures valid { IsTarget target.new }
    {
        match target {
            Target::Message(number) => *number = self.renumbered(*number),
            Target::Signal(number, _) => *number = self.renumbered(*number),
            _ => {}
        }
    }
}

impl Rewrite<Comment> for Renumbering {
    ghost use Rattle.dbc_edits.specs.Rows.{comment_renumbered};

    ghost rewritten = { λ change. comment_renumbered change.from change.to };

    fn rewrite(&self, row: &mut Comment) {
        self.retarget(&mut row.target);
    }
}

impl Rewrite<AttrRow> for Renumbering {
    ghost use Rattle.dbc_edits.specs.Rows.{attribute_renumbered};

    ghost rewritten = { λ change. attribute_renumbered change.from change.to };

    fn rewrite(&self, row: &mut AttrRow) {
        self.retarget(&mut row.target);
    }
}

impl Rewrite<ValueRow> for Renumbering {
    ghost use Rattle.dbc_edits.specs.Rows.{values_renumbered};

    ghost rewritten = { λ change. values_renumbered change.from change.to };

    fn rewrite(&self, row: &mut ValueRow) {
        row.number = self.renumbered(row.number);
    }
}

impl Rewrite<FloatRow> for Renumbering {
    ghost use Rattle.dbc_edits.specs.Rows.{float_renumbered};

    ghost rewritten = { λ change. float_renumbered change.from change.to };

    fn rewrite(&self, row: &mut FloatRow) {
        row.number = self.renumbered(row.number);
    }
}

impl Rewrite<MuxRow> for Renumbering {
    ghost use Rattle.dbc_edits.specs.Rows.{mux_renumbered};

    ghost rewritten = { λ change. mux_renumbered change.from change.to };

    fn rewrite(&self, row: &mut MuxRow) {
        row.number = self.renumbered(row.number);
    }
}

/// Renumbers all entries of the database.
#[tactic(auto, unfolding(crate::specs::Rows::rows_renumbered))]
pub(crate) fn renumber_rows(database: &mut Database, change: &Renumbering)
    ensures { database.new ≡ rows_renumbered change.now.from change.now.to database.old }
{
    database.comments.rewrite_all(change);
    database.attributes.rewrite_all(change);
    database.values.rewrite_all(change);
    database.floats.rewrite_all(change);
    database.muxes.rewrite_all(change);
}
