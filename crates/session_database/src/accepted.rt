//! Edits that were accepted.
ghost use Rattle.std.specs.Prelude.{◌≡◌, Ok, IfOk, IfErr, map};
ghost use Rattle.dbc_edits.specs.Edits.{edited};
ghost use Rattle.dbc_edits.specs.Refusals.{IsRefusal};
ghost use Rattle.session_database.specs.Acceptance.{numbers_of};
ghost use Rattle.session_database.specs.CompiledMessage.{messages_touched, Raised};

use crate::recompiling::parts_after;
use crate::shown::CompiledDatabase;
use can_layout::Meter;
use dbc_edits::{Edit, Refusal, edited};
use dbc_records::Database;
use dbc_values::Memory;
use session_log::{Numbers, edit_numbers};
use std::alloc::Global;
use std::marker::Model;

/// An edit that was accepted, with the database that it gives and its CAN identifiers: messages of other CAN identifiers stay what
/// they are, and so do the lines that go to these.
#[derive(Drop)]
pub struct Accepted<'a> {
    before: &'a CompiledDatabase,
    edit: &'a Edit,
    after: Database,
    numbers: Numbers,
}

impl<'a> Model for Accepted<'a> {
    ghost use Rattle.session_database.specs.Acceptance.{Acceptance, IsAccepted};

    ghost Value = { Acceptance };

    ghost view = { λ a. record { before = a.before.now; edit = a.edit.now; after = a.after } };

    ghost invariant = { λ a. IsAccepted (record { before = a.before.now; edit = a.edit.now; after = a.after }) a.numbers.items };
}

impl<'a> Accepted<'a> {
    /// Applies an edit to the database that is shown.
    pub fn of(
        alloc: Global,
        before: &'a CompiledDatabase,
        edit: &'a Edit,
    ) -> Result<Accepted<'a>, Refusal>
        ensures before { IfOk result (λ accepted. accepted.before ≡ before.now) }
        ensures edit { IfOk result (λ accepted. accepted.edit ≡ edit.now) }
        ensures done { IfOk result (λ accepted. edited before.now edit.now ≡ Ok accepted.after) }
        ensures refused { IfErr result (λ refusal. IsRefusal (edited before.now edit.now) refusal) }
    {
        let after = edited(alloc, before.database(), edit)?;
        let numbers = edit_numbers(before.database(), edit);
        Ok(Accepted {
            before,
            edit,
            after,
            numbers,
        })
    }

    /// What was shown of the database before.
    pub(crate) fn shown_before(&self) -> &'a CompiledDatabase
        ensures shown { result.now ≡ self.now.before }
        ensures done { edited self.now.before self.now.edit ≡ Ok self.now.after }
    {
        self.before
    }

    /// The database after it.
    pub(crate) fn after(&self) -> &Database
        ensures { result.now ≡ self.now.after }
    {
        &self.after
    }

    /// Its CAN identifiers.
    pub fn numbers(&self) -> &[u32]
        ensures { result.now ≡ numbers_of self.now }
    {
        self.numbers.as_slice()
    }

    /// Makes what is shown of the database after it. Plans and diagrams are made only for messages that have one
    /// of its CAN identifiers.
    pub fn applied(self, alloc: Global, meter: &mut Meter) -> Result<AppliedEdit<'a>, Memory>
        ensures same { IfOk result (λ applied. applied ≡ self.entry) }
        ensures made { Raised (messages_touched (numbers_of self.entry) self.entry.after) 0 meter.old meter.new }
    {
        let parts = parts_after(alloc, &self, meter)?;
        Ok(AppliedEdit {
            before: self.before,
            edit: self.edit,
            numbers: self.numbers,
            after: CompiledDatabase::by(self.after, parts),
        })
    }
}

/// An edit that was applied, with what is shown of the database that it gives.
#[derive(Drop)]
pub struct AppliedEdit<'a> {
    before: &'a CompiledDatabase,
    edit: &'a Edit,
    numbers: Numbers,
    after: CompiledDatabase,
}

impl<'a> Model for AppliedEdit<'a> {
    ghost use Rattle.session_database.specs.Acceptance.{Acceptance, IsAccepted};

    ghost Value = { Acceptance };

    ghost view = { λ a. record { before = a.before.now; edit = a.edit.now; after = a.after } };

    ghost invariant = { λ a. IsAccepted (record { before = a.before.now; edit = a.edit.now; after = a.after }) a.numbers.items };
}

impl<'a> AppliedEdit<'a> {
    /// What is shown of the database after the edit.
    pub fn shown(&self) -> &CompiledDatabase
        ensures shown { result.now ≡ self.now.after }
        ensures done { edited self.now.before self.now.edit ≡ Ok self.now.after }
    {
        &self.after
    }

    /// The edit's CAN identifiers.
    pub fn numbers(&self) -> &[u32]
        ensures { result.now ≡ numbers_of self.now }
    {
        self.numbers.as_slice()
    }

    /// That, by value.
    pub fn into_shown(self) -> CompiledDatabase
        ensures { result ≡ self.entry.after }
    {
        self.after
    }
}
