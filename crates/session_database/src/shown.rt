//! What is shown of a database.
ghost use Rattle.std.specs.Prelude.{◌≡◌, ◌<◌, IfOk, IfSome, Some, length, map, slice_get};
ghost use Rattle.std.specs.Option.{option_map};
ghost use Rattle.can_layout.specs.Plans.{plan_of};
ghost use Rattle.can_layout.specs.Diagrams.{picture_of};
ghost use Rattle.can_check.specs.AllFaults.{all_faults};
ghost use Rattle.can_check.specs.MessageFaults.{own_faults};
ghost use Rattle.can_decode.specs.Choices.{line_choice};
ghost use Rattle.session_database.specs.CompiledMessage.{compiled_of, Raised};
ghost use Rattle.session_database.specs.CompiledDatabase.{IsShown};

use crate::compiled::{CompiledMessage, compiled_all};
use crate::diagnosing::{Diagnosed, diagnose};
use crate::splitting::OwnParts;
use can_check::Diagnostic;
use can_check::laws::faults_in_order;
use can_decode::{Choice, IndexedMessages, LogLine, MessageIndex};
use can_layout::{Indexed, Meter, Plan, SharedRows};
use dbc_records::{Database, Message};
use dbc_values::Memory;
use std::alloc::Global;
use std::marker::Model;
use std::rc::Rc;

/// What is made of a database: its diagnostics, and the plans and diagrams of its messages with an index of these.
#[derive(Drop)]
pub(crate) struct Parts {
    /// The diagnostics, and how many are of each message.
    pub diagnosed: Diagnosed,
    /// The plan and the diagram of each message, in order.
    pub compiled: Vec<Rc<CompiledMessage>>,
    /// The index of the messages.
    pub messages: MessageIndex,
}

/// A database with all that is shown of it. Contracts see the database.
#[derive(Drop)]
pub struct CompiledDatabase {
    database: Database,
    parts: Parts,
}

impl Model for CompiledDatabase {
    ghost use Rattle.std.specs.Prelude.{map};
    ghost use Rattle.dbc_records.specs.Databases.{Database as Whole};
    ghost use Rattle.session_database.specs.CompiledDatabase.{IsShown};

    ghost Value = { Whole };

    ghost view = { λ a. a.database };

    ghost invariant = { λ a. IsShown a.database a.parts.diagnosed.diagnostics.items a.parts.diagnosed.counts.items
        (map (λ one. one.value) a.parts.compiled.items) a.parts.messages };
}

/// The messages of a database.
pub(crate) fn messages_of(database: &Database) -> &[Message]
    ensures { result.now ≡ database.now.messages }
{
    database.messages.as_slice()
}

// What is made of a database, by one index of its entries.
fn parts_of(alloc: Global, database: &Database, meter: &mut Meter) -> Result<Parts, Memory>
    ensures parts { IfOk result (λ parts. IsShown database.now parts.diagnosed.diagnostics.items parts.diagnosed.counts.items
        (map (λ one. one.value) parts.compiled.items) parts.messages) }
    ensures made { Raised (length database.now.messages) 0 meter.old meter.new }
{
    let indexed = Indexed::of(alloc, database)?;
    let diagnosed = diagnose(alloc, &indexed)?;
    let rows = SharedRows::of(alloc, database)?;
    let compiled = compiled_all(alloc, &indexed, &rows, messages_of(database), meter)?;
    let messages = MessageIndex::by(alloc, &indexed)?;
    Ok(Parts {
        diagnosed,
        compiled,
        messages,
    })
}

impl CompiledDatabase {
    /// That of a database.
    pub fn of(
        alloc: Global,
        database: Database,
        meter: &mut Meter,
    ) -> Result<CompiledDatabase, Memory>
        ensures database { IfOk result (λ shown. shown ≡ database) }
        ensures made { Raised (length database.messages) 0 meter.old meter.new }
    {
        let parts = parts_of(alloc, &database, meter)?;
        Ok(CompiledDatabase { database, parts })
    }

    /// What is shown of a database, from what was made of it.
    pub(crate) fn by(database: Database, parts: Parts) -> CompiledDatabase
        requires { IsShown database parts.diagnosed.diagnostics.items parts.diagnosed.counts.items
            (map (λ one. one.value) parts.compiled.items) parts.messages }
        ensures { result ≡ database }
    {
        CompiledDatabase { database, parts }
    }

    /// The database.
    pub fn database(&self) -> &Database
        ensures { result.now ≡ self.now }
    {
        &self.database
    }

    /// Its diagnostics.
    pub fn diagnostics(&self) -> &[Diagnostic]
        ensures { result.now ≡ all_faults self.now }
    {
        self.parts.diagnosed.diagnostics.as_slice()
    }

    /// The own diagnostics of its messages, in order.
    pub(crate) fn own_parts(&self) -> OwnParts<'_>
        ensures { result ≡ map (own_faults self.now) self.now.messages }
    {
        faults_in_order();
        let diagnosed = &self.parts.diagnosed;
        OwnParts::of(
            diagnosed.diagnostics.as_slice(),
            diagnosed.counts.as_slice(),
        )
    }

    /// What is compiled of its messages, in order.
    pub(crate) fn compiled(&self) -> &[Rc<CompiledMessage>]
        ensures { map (λ one. one.value) result.now ≡ map (compiled_of self.now) self.now.messages }
    {
        self.parts.compiled.as_slice()
    }

    // What is compiled of the message at an index.
    fn compiled_at(&self, index: usize) -> &CompiledMessage
        requires { index < length self.now.messages }
        ensures { Some result.now ≡ option_map (compiled_of self.now) (slice_get self.now.messages index) }
    {
        let compiled = self.compiled();
        &compiled[index]
    }

    /// The decode plan of the message at an index.
    #[tactic(auto, using(crate::proofs::Kept::plan_there))]
    pub fn plan(&self, index: usize) -> &Plan
        requires { index < length self.now.messages }
        ensures { Some result.now ≡ option_map (plan_of self.now) (slice_get self.now.messages index) }
    {
        &self.compiled_at(index).plan
    }

    /// The diagram of the message at an index.
    #[tactic(auto, using(crate::proofs::Kept::picture_there))]
    pub fn picture(&self, index: usize) -> &[u8]
        requires { index < length self.now.messages }
        ensures { Some result.now ≡ option_map (picture_of self.now) (slice_get self.now.messages index) }
    {
        self.compiled_at(index).picture.as_slice()
    }

    // What the frame of a line goes to.
    fn choice_of(&self, line: &LogLine<'_>) -> Option<Choice>
        ensures { result ≡ line_choice self.now line.now }
    {
        let frame = line.frame()?;
        IndexedMessages::by(&self.database, &self.parts.messages).choose(frame)
    }

    /// What the frame of a line goes to, with the plan of that message. It is found by the index of the messages, in time that
    /// doesn't depend on how many attributes the database has.
    pub fn chosen(&self, line: &LogLine<'_>) -> Option<(Choice, &Plan)>
        ensures choice { option_map (λ one. one.0) result ≡ line_choice self.now line.now }
        ensures plan { IfSome result (λ one. Some one.1.now ≡ option_map (plan_of self.now)
            (slice_get self.now.messages one.0.index)) }
    {
        let choice = self.choice_of(line)?;
        Some((choice, self.plan(choice.index)))
    }
}
