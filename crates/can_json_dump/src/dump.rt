//! The lines of a database.
ghost use Rattle.std.specs.Prelude.{◌≡◌, ◌<◌, ◌++◌, IfOk, Some, codes, length, slice_get};
ghost use Rattle.json.specs.Print.{print};
ghost use Rattle.can_layout.specs.Plans.{plan_of};
ghost use Rattle.can_json_dump.specs.Messages.{message_json};
ghost use Rattle.can_json_dump.specs.Dumps.{json_line, rest_json, dump_lines};

use crate::message::Messages;
use crate::rest::write_rest;
use can_entries::Lookup;
use can_json_texts::JsonText;
use can_layout::{Meter, Plan, plans_with};
use can_references::CrossReferences;
use dbc_records::{Database, Message};
use dbc_values::Memory;
use std::alloc::Global;
use std::marker::Model;

/// A database with all that its objects are made of. Contracts see the database.
#[derive(Drop)]
pub struct Dump<'a, L: Lookup> {
    messages: Messages<'a, L>,
    known: CrossReferences<'a, L>,
    plans: Vec<Plan>,
}

impl<'a, L: Lookup> Model for Dump<'a, L> {
    ghost use Rattle.std.specs.Prelude.{◌≡◌, map};
    ghost use Rattle.can_layout.specs.Plans.{plan_of};
    ghost use Rattle.dbc_records.specs.Databases.{Database as Whole};

    ghost Value = { Whole };

    ghost view = { λ a. a.known };

    ghost invariant = { λ a. (a.messages ≡ a.known) × (a.plans.items ≡ map (plan_of a.known) a.known.messages) };
}

// The text and the end of its line.
fn line_of(text: JsonText) -> Result<Vec<u8>, Memory>
    ensures { IfOk result (λ line. line.items ≡ print text ++ codes "\n") }
{
    let mut line = text.into_bytes();
    line.push(b'\n')?;
    Ok(line)
}

fn message_at(database: &Database, index: usize) -> &Message
    requires { index < length database.now.messages }
    ensures { Some result.now ≡ slice_get database.now.messages index }
{
    &database.messages.as_slice()[index]
}

impl<'a, L: Lookup> Dump<'a, L> {
    /// The dump of a database whose entries are found by `lookup`. It allocates in proportion to the database.
    pub fn of(alloc: Global, lookup: &'a L) -> Result<Dump<'a, L>, Memory>
        ensures { IfOk result (λ dump. dump ≡ L.whole lookup.now) }
    {
        let mut meter = Meter::new();
        let plans = plans_with(alloc, lookup, &mut meter)?;
        let messages = Messages::of(alloc, lookup)?;
        let known = CrossReferences::of(alloc, lookup)?;
        Ok(Dump {
            messages,
            known,
            plans,
        })
    }

    /// How many lines there are: one for each message, and the last.
    #[tactic(auto, using(crate::proofs::Lines::as_many_lines))]
    pub fn len(&self) -> usize
        ensures { result ≡ length (dump_lines self.now) }
    {
        self.known.database().messages.len() + 1
    }

    // The line of a message, by its plan.
    fn message_line(&self, alloc: Global, message: &Message, plan: &Plan) -> Result<Vec<u8>, Memory>
        requires { plan.now ≡ plan_of self.now message.now }
        ensures { IfOk result (λ line. line.items ≡ json_line (message_json self.now message.now)) }
    {
        let mut text = JsonText::new(alloc);
        self.messages.write_message(&mut text, message, plan)?;
        line_of(text)
    }

    // The last line.
    fn rest_line(&self, alloc: Global) -> Result<Vec<u8>, Memory>
        ensures { IfOk result (λ line. line.items ≡ json_line (rest_json self.now)) }
    {
        let mut text = JsonText::new(alloc);
        write_rest(&mut text, &self.known)?;
        line_of(text)
    }

    // The line of the message at an index.
    #[tactic(auto, using(crate::proofs::Lines::plan_is, crate::proofs::Lines::message_line_at))]
    fn message_line_at(&self, alloc: Global, index: usize) -> Result<Vec<u8>, Memory>
        requires { index < length self.now.messages }
        ensures { IfOk result (λ line. Some line.items ≡ slice_get (dump_lines self.now) index) }
    {
        let message = message_at(self.known.database(), index);
        let plan = &self.plans.as_slice()[index];
        self.message_line(alloc, message, plan)
    }

    /// The line at an index: an object and an LF.
    #[tactic(auto, using(crate::proofs::Lines::rest_line_at, crate::proofs::Lines::as_many_lines))]
    pub fn line(&self, alloc: Global, index: usize) -> Result<Vec<u8>, Memory>
        requires { index < length (dump_lines self.now) }
        ensures { IfOk result (λ line. Some line.items ≡ slice_get (dump_lines self.now) index) }
    {
        if index < self.known.database().messages.len() {
            self.message_line_at(alloc, index)
        } else {
            self.rest_line(alloc)
        }
    }
}
