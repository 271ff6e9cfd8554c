//! A message.
ghost use Rattle.std.specs.Prelude.{◌≡◌, ◌<◌, ◌%◌, ◌^◌, ◌∷◌, ◌++◌, [], OnOk, IfOk, Some, None, codes, map, option_map, slice_get};
ghost use Rattle.std.specs.Prelude.{length};
ghost use Rattle.json.specs.Json.{null, boolean};
ghost use Rattle.json.specs.Token.{key};
ghost use Rattle.json.specs.Tree.{json_tokens};
ghost use Rattle.can_json_texts.specs.Members.{object_of};
ghost use Rattle.can_json_texts.specs.Values.{tokens_of, array_of};
ghost use Rattle.can_json_texts.specs.Records.{whole_json, name_json, entries_json};
ghost use Rattle.can_entries.specs.Rows.{rows_of, first_values, entries_of};
ghost use Rattle.can_entries.specs.Groups.{group_of, is_extended};
ghost use Rattle.can_layout.specs.Plans.{plan_of, chain_of};
ghost use Rattle.can_json_dump.specs.Messages.{identifier_members, head_members, group_json, positions_of, refused_json};
ghost use Rattle.can_json_dump.specs.Messages.{plan_members};
ghost use Rattle.can_json_dump.specs.Messages.{given_members, scale_members, use_members, stated_members, placed_members};
ghost use Rattle.can_json_dump.specs.Messages.{signal_member};
ghost use Rattle.can_json_dump.specs.Messages.{paired, remark_members, planned_members, message_json};

use crate::annotations::{Annotations, write_null};
use crate::signal::{
    write_bit_field, write_chain, write_positions, write_refused, write_scale, write_use,
};
use crate::subject::Subject;
use can_entries::{
    Lookup, MessageRows, MuxParent, Walk, group_in, is_bad_number, is_extended, mux_parents_of,
    walk_of,
};
use can_json_texts::{
    JsonText, write_array, write_flag, write_member, write_optional, write_whole,
};
use can_layout::{Plan, Row};
use dbc_records::{Head, Message, Signal, ValueRow};
use dbc_values::{List, Memory, Name};
use std::alloc::Global;
use std::marker::Model;

// ---- head

#[tactic(auto, using(can_json_texts::proofs::Tokens::members_then))]
fn write_no_identifier(text: &mut JsonText) -> Result<(), Memory>
    ensures { OnOk result (text.new ≡ text.old ++ tokens_of ((codes "id", null) ∷ (codes "extended", null) ∷ [])) }
{
    write_null(text, "id")?;
    write_null(text, "extended")
}

#[tactic(auto, using(can_json_texts::proofs::Tokens::members_then))]
fn write_known_identifier(text: &mut JsonText, number: u32) -> Result<(), Memory>
    ensures { OnOk result (text.new ≡ text.old ++ tokens_of ((codes "id", whole_json (number % 2 ^ 31))
        ∷ (codes "extended", boolean (is_extended number)) ∷ [])) }
{
    write_whole(text, "id", u64::from(number % 0x8000_0000))?;
    write_flag(text, "extended", is_extended(number))
}

// The identifier, and whether it is extended (29-bit).
fn write_identifier(text: &mut JsonText, number: u32) -> Result<(), Memory>
    ensures { OnOk result (text.new ≡ text.old ++ tokens_of (identifier_members number)) }
{
    if is_bad_number(number) {
        write_no_identifier(text)
    } else {
        write_known_identifier(text, number)
    }
}

#[tactic(auto, using(can_json_texts::proofs::Tokens::members_then))]
fn write_name_and_number(text: &mut JsonText, head: &Head) -> Result<(), Memory>
    ensures { OnOk result (text.new ≡ text.old ++ tokens_of ((codes "name", name_json head.now.name)
        ∷ (codes "number", whole_json head.now.number) ∷ [])) }
{
    write_member(text, "name", &head.name)?;
    write_whole(text, "number", u64::from(head.number))
}

#[tactic(auto, using(can_json_texts::proofs::Tokens::members_then))]
fn write_size_and_sender(text: &mut JsonText, head: &Head) -> Result<(), Memory>
    ensures { OnOk result (text.new ≡ text.old ++ tokens_of ((codes "size", whole_json head.now.size)
        ∷ (codes "sender", name_json head.now.sender) ∷ [])) }
{
    write_whole(text, "size", u64::from(head.size))?;
    write_member(text, "sender", &head.sender)
}

#[tactic(auto, using(can_json_texts::proofs::Tokens::members_then))]
fn write_numbers(text: &mut JsonText, head: &Head) -> Result<(), Memory>
    ensures { OnOk result (text.new ≡ text.old ++ tokens_of (identifier_members head.now.number
        ++ ((codes "size", whole_json head.now.size) ∷ (codes "sender", name_json head.now.sender) ∷ []))) }
{
    write_identifier(text, head.number)?;
    write_size_and_sender(text, head)
}

#[tactic(auto, using(can_json_texts::proofs::Tokens::members_then))]
fn write_head(text: &mut JsonText, head: &Head) -> Result<(), Memory>
    ensures { OnOk result (text.new ≡ text.old ++ tokens_of (head_members head.now)) }
{
    write_name_and_number(text, head)?;
    write_numbers(text, head)
}

// ---- signals

// What the plan has on a signal.
#[tactic(auto, using(can_json_texts::proofs::Tokens::members_then))]
fn write_decoding(text: &mut JsonText, row: &Row) -> Result<(), Memory>
    ensures { OnOk result (text.new ≡ text.old ++ tokens_of ((
      codes "positions",
      array_of (map whole_json
          (positions_of row.now.field)),
    ) ∷ (codes "refused", refused_json row.now.reading) ∷ [])) }
{
    write_positions(text, row.field)?;
    write_refused(text, &row.reading)
}

// What the plan has on a signal, and its multiplexors.
#[tactic(auto, using(can_json_texts::proofs::Tokens::members_then))]
fn write_plan(text: &mut JsonText, signals: &[Signal], row: &Row, walk: &Walk) -> Result<(), Memory>
    requires { row.now.chain ≡ chain_of walk.now }
    ensures { OnOk result (text.new ≡ text.old ++ tokens_of (plan_members signals.now row.now)) }
{
    write_decoding(text, row)?;
    write_chain(text, signals, walk)
}

/// What the objects of messages are made of: a database, its entries, comments and attributes. Contracts see the database.
#[derive(Drop)]
pub(crate) struct Messages<'a, L: Lookup> {
    lookup: &'a L,
    remarks: Annotations<'a>,
}

impl<'a, L: Lookup> Model for Messages<'a, L> {
    ghost use Rattle.std.specs.Prelude.{◌≡◌};
    ghost use Rattle.dbc_records.specs.Databases.{Database as Whole};

    ghost Value = { Whole };

    ghost view = { λ a. L.whole a.lookup.now };

    ghost invariant = { λ a. a.remarks ≡ L.whole a.lookup.now };
}

fn write_empty(text: &mut JsonText) -> Result<(), Memory>
    ensures { OnOk result (text.new ≡ text.old ++ json_tokens (array_of [])) }
{
    text.begin_array()?;
    text.end_array()
}

fn write_entries(text: &mut JsonText, row: Option<&ValueRow>) -> Result<(), Memory>
    ensures { OnOk result (text.new ≡ text.old ++ json_tokens (entries_json (entries_of (option_map (λ row. row.now) row.entry)))) }
{
    match row {
        Some(row) => write_array(text, row.entries.as_slice()),
        None => write_empty(text),
    }
}

// The contents of a signal's statement.
#[tactic(auto, using(can_json_texts::proofs::Tokens::members_then))]
fn write_use_of(text: &mut JsonText, signal: &Signal) -> Result<(), Memory>
    ensures { OnOk result (text.new ≡ text.old ++ tokens_of (scale_members signal.now ++ use_members signal.now)) }
{
    write_scale(text, signal)?;
    write_use(text, signal)?;
    Ok(())
}

#[tactic(auto, using(can_json_texts::proofs::Tokens::members_then))]
fn write_stated(text: &mut JsonText, signal: &Signal) -> Result<(), Memory>
    ensures { OnOk result (text.new ≡ text.old ++ tokens_of (stated_members signal.now)) }
{
    write_bit_field(text, signal)?;
    write_use_of(text, signal)?;
    Ok(())
}

// A signal of a message with its row of the plan, and the multiplexing chain to its multiplexors.
#[derive(Drop)]
struct PlannedSignal<'a> {
    message: &'a Message,
    signal: &'a Signal,
    row: &'a Row,
    walk: Walk,
}

impl<'a> Model for PlannedSignal<'a> {
    ghost use Rattle.std.specs.Prelude.{◌≡◌};
    ghost use Rattle.can_layout.specs.Plans.{chain_of};
    ghost use Rattle.can_json_dump.specs.Messages as messages;

    ghost Value = { messages.PlannedSignal };

    ghost view = { λ a. record { message = a.message.now; signal = a.signal.now; row = a.row.now } };

    ghost invariant = { λ a. a.row.now.chain ≡ chain_of a.walk };
}

// The contents of the signal's statement.
fn write_placed_statement(text: &mut JsonText, placed: &PlannedSignal<'_>) -> Result<(), Memory>
    ensures { OnOk result (text.new ≡ text.old ++ tokens_of (stated_members placed.now.signal)) }
{
    write_stated(text, placed.signal)
}

// The name of the signal as a key.
fn write_signal_key(text: &mut JsonText, placed: &PlannedSignal<'_>) -> Result<(), Memory>
    ensures { OnOk result (text.new ≡ text.old ++ key placed.now.signal.name ∷ []) }
{
    let signal: &Signal = placed.signal;
    text.name_key(&signal.name)
}

fn write_placed_plan(text: &mut JsonText, placed: &PlannedSignal<'_>) -> Result<(), Memory>
    ensures { OnOk result (text.new ≡ text.old ++ tokens_of (plan_members placed.now.message.signals placed.now.row)) }
{
    let message: &Message = placed.message;
    write_plan(text, message.signals.as_slice(), placed.row, &placed.walk)
}

// A message with its plan, and the multiplexing parents of its signals.
#[derive(Drop)]
struct Planned<'a> {
    message: &'a Message,
    plan: &'a Plan,
    mux_parents: List<MuxParent>,
}

impl<'a> Model for Planned<'a> {
    ghost use Rattle.std.specs.Prelude.{◌≡◌, length};
    ghost use Rattle.can_layout.specs.Presence.{AreChained};
    ghost use Rattle.can_json_dump.specs.Messages as messages;

    ghost Value = { messages.Planned };

    ghost view = { λ a. record { message = a.message.now; plan = a.plan.now } };

    ghost invariant = { λ a. (length a.plan.now.rows ≡ length a.message.now.signals) × AreChained a.plan.now.rows a.mux_parents };
}

fn write_planned_head(text: &mut JsonText, planned: &Planned<'_>) -> Result<(), Memory>
    ensures { OnOk result (text.new ≡ text.old ++ tokens_of (head_members planned.now.message.head)) }
{
    let message: &Message = planned.message;
    write_head(text, &message.head)
}

fn signal_at(signals: &[Signal], index: usize) -> &Signal
    requires { index < length signals.now }
    ensures { Some result.now ≡ slice_get signals.now index }
{
    &signals[index]
}

impl<'a> Planned<'a> {
    // The planned form of a message by its plan.
    #[tactic(auto, using(crate::proofs::Planned::rows_as_many, crate::proofs::Planned::rows_chained))]
    fn of<L: Lookup>(
        alloc: Global,
        lookup: &L,
        message: &'a Message,
        plan: &'a Plan,
    ) -> Result<Planned<'a>, Memory>
        requires { plan.now ≡ plan_of (L.whole lookup.now) message.now }
        ensures { IfOk result (λ planned. planned ≡ record { message = message.now; plan = plan.now }) }
    {
        let rows = MessageRows::of(lookup, message.head.number);
        let mux_parents = mux_parents_of(alloc, &rows, message.signals.as_slice())?;
        Ok(Planned {
            message,
            plan,
            mux_parents,
        })
    }

    // How many signals there are, each with a row.
    fn signals(&self) -> usize
        ensures count { result ≡ length self.now.plan.rows }
        ensures many { length self.now.plan.rows ≡ length self.now.message.signals }
    {
        let plan: &Plan = self.plan;
        plan.signals()
    }

    // The signal at an index.
    #[tactic(auto, using(crate::proofs::Planned::chain_is))]
    fn at(&self, alloc: Global, index: usize) -> Result<PlannedSignal<'a>, Memory>
        requires { index < length self.now.plan.rows }
        ensures message { IfOk result (λ placed. placed.message ≡ self.now.message) }
        ensures signal { IfOk result (λ placed. Some placed.signal ≡ slice_get self.now.message.signals index) }
        ensures row { IfOk result (λ placed. Some placed.row ≡ slice_get self.now.plan.rows index) }
    {
        let message: &'a Message = self.message;
        let plan: &'a Plan = self.plan;
        let walk = walk_of(alloc, self.mux_parents.as_slice(), index)?;
        Ok(PlannedSignal {
            message,
            signal: signal_at(message.signals.as_slice(), index),
            row: plan.row(index),
            walk,
        })
    }
}

impl<'a, L: Lookup> Messages<'a, L> {
    /// The messages of a database whose entries are found by `lookup`.
    pub fn of(alloc: Global, lookup: &'a L) -> Result<Messages<'a, L>, Memory>
        ensures { IfOk result (λ messages. messages ≡ L.whole lookup.now) }
    {
        let remarks = Annotations::of(alloc, lookup.database())?;
        Ok(Messages { lookup, remarks })
    }

    #[tactic(auto, using(can_json_texts::proofs::Tokens::member_written))]
    fn write_values(&self, text: &mut JsonText, number: u32, name: &Name) -> Result<(), Memory>
        ensures { OnOk result (text.new ≡ text.old ++ tokens_of ((
          codes "values",
          entries_json (entries_of (first_values name.now
              (rows_of number self.now))),
        ) ∷ [])) }
    {
        text.key("values")?;
        write_entries(text, self.lookup.values(number, name))
    }

    fn write_remarks(&self, text: &mut JsonText, subject: &Subject<'_>) -> Result<(), Memory>
        ensures { OnOk result (text.new ≡ text.old ++ tokens_of (remark_members self.now subject.now)) }
    {
        self.remarks.write(text, subject)
    }

    // Value descriptions, comment and attributes of a signal.
    fn write_given(&self, text: &mut JsonText, number: u32, name: &Name) -> Result<(), Memory>
        ensures { OnOk result (text.new ≡ text.old ++ tokens_of (given_members self.now number name.now)) }
    {
        let subject = Subject {
            number,
            signal: Some(name),
        };
        self.write_values(text, number, name)?;
        self.write_remarks(text, &subject)?;
        Ok(())
    }

    fn write_placed_given(
        &self,
        text: &mut JsonText,
        placed: &PlannedSignal<'_>,
    ) -> Result<(), Memory>
        ensures { OnOk result (text.new ≡ text.old ++ tokens_of (given_members self.now placed.now.message.head.number
            placed.now.signal.name)) }
    {
        let message: &Message = placed.message;
        let signal: &Signal = placed.signal;
        self.write_given(text, message.head.number, &signal.name)
    }

    fn write_found(&self, text: &mut JsonText, placed: &PlannedSignal<'_>) -> Result<(), Memory>
        ensures { OnOk result (text.new ≡ text.old ++ tokens_of (plan_members placed.now.message.signals placed.now.row
            ++ given_members self.now placed.now.message.head.number placed.now.signal.name)) }
    {
        write_placed_plan(text, placed)?;
        self.write_placed_given(text, placed)?;
        Ok(())
    }

    fn write_signal_members(
        &self,
        text: &mut JsonText,
        placed: &PlannedSignal<'_>,
    ) -> Result<(), Memory>
        ensures { OnOk result (text.new ≡ text.old ++ tokens_of (placed_members self.now placed.now)) }
    {
        write_placed_statement(text, placed)?;
        self.write_found(text, placed)?;
        Ok(())
    }

    fn write_signal_object(
        &self,
        text: &mut JsonText,
        placed: &PlannedSignal<'_>,
    ) -> Result<(), Memory>
        ensures { OnOk result (text.new ≡ text.old ++ json_tokens (object_of (placed_members self.now placed.now))) }
    {
        text.begin_object()?;
        self.write_signal_members(text, placed)?;
        text.end_object()?;
        Ok(())
    }

    fn write_signal(&self, text: &mut JsonText, placed: &PlannedSignal<'_>) -> Result<(), Memory>
        ensures { OnOk result (text.new ≡ text.old ++ tokens_of (signal_member self.now placed.now.message placed.now.signal
            placed.now.row ∷ [])) }
    {
        write_signal_key(text, placed)?;
        self.write_signal_object(text, placed)?;
        Ok(())
    }

    fn write_signals(&self, text: &mut JsonText, planned: &Planned<'_>) -> Result<(), Memory>
        ensures { OnOk result (text.new ≡ text.old ++ tokens_of (paired (signal_member self.now planned.now.message)
            planned.now.message.signals planned.now.plan.rows)) }
    {
        for index in 0..planned.signals() {
            let placed = planned.at(text.allocator(), index)?;
            self.write_signal(text, &placed)?;
        }
        Ok(())
    }

    fn write_signals_object(&self, text: &mut JsonText, planned: &Planned<'_>) -> Result<(), Memory>
        ensures { OnOk result (text.new ≡ text.old ++ json_tokens (object_of (paired (signal_member self.now planned.now.message)
            planned.now.message.signals planned.now.plan.rows))) }
    {
        text.begin_object()?;
        self.write_signals(text, planned)?;
        text.end_object()?;
        Ok(())
    }

    fn write_signals_member(&self, text: &mut JsonText, planned: &Planned<'_>) -> Result<(), Memory>
        ensures { OnOk result (text.new ≡ text.old ++ tokens_of ((
          codes "signals",
          object_of (paired
              (signal_member self.now planned.now.message) planned.now.message.signals planned.now.plan.rows),
        ) ∷ [])) }
    {
        text.key("signals")?;
        self.write_signals_object(text, planned)?;
        Ok(())
    }

    // The parameter group of a message, or null.
    fn write_group(&self, text: &mut JsonText, number: u32) -> Result<(), Memory>
        ensures { OnOk result (text.new ≡ text.old ++ tokens_of ((codes "pgn", group_json (group_of number self.now)) ∷ [])) }
    {
        write_optional(text, "pgn", group_in(self.lookup, number).as_ref())
    }

    fn write_planned_group(&self, text: &mut JsonText, planned: &Planned<'_>) -> Result<(), Memory>
        ensures { OnOk result (text.new ≡ text.old ++ tokens_of ((
          codes "pgn",
          group_json (group_of
              planned.now.message.head.number self.now),
        ) ∷ [])) }
    {
        let message: &Message = planned.message;
        self.write_group(text, message.head.number)
    }

    fn write_planned_remarks(
        &self,
        text: &mut JsonText,
        planned: &Planned<'_>,
    ) -> Result<(), Memory>
        ensures { OnOk result (text.new ≡ text.old ++ tokens_of (remark_members self.now (record {
          number = planned.now.message.head.number;
          signal = None;
        }))) }
    {
        let message: &Message = planned.message;
        let subject = Subject {
            number: message.head.number,
            signal: None,
        };
        self.write_remarks(text, &subject)
    }

    // Comment and attributes, and the signals.
    fn write_remarks_and_signals(
        &self,
        text: &mut JsonText,
        planned: &Planned<'_>,
    ) -> Result<(), Memory>
        ensures { OnOk result (text.new ≡ text.old ++ tokens_of (remark_members self.now (record {
          number = planned.now.message.head.number;
          signal = None;
        }) ++ ((
          codes "signals",
          object_of (paired (signal_member self.now planned.now.message) planned.now.message.signals
              planned.now.plan.rows),
        ) ∷ []))) }
    {
        self.write_planned_remarks(text, planned)?;
        self.write_signals_member(text, planned)?;
        Ok(())
    }

    fn write_after_head(&self, text: &mut JsonText, planned: &Planned<'_>) -> Result<(), Memory>
        ensures { OnOk result (text.new ≡ text.old ++ tokens_of ((
          codes "pgn",
          group_json (group_of
              planned.now.message.head.number self.now),
        ) ∷ (remark_members self.now (record {
          number = planned.now.message.head.number;
          signal = None;
        }) ++ ((
          codes "signals",
          object_of (paired (signal_member self.now planned.now.message) planned.now.message.signals
              planned.now.plan.rows),
        ) ∷ [])))) }
    {
        self.write_planned_group(text, planned)?;
        self.write_remarks_and_signals(text, planned)?;
        Ok(())
    }

    fn write_members(&self, text: &mut JsonText, planned: &Planned<'_>) -> Result<(), Memory>
        ensures { OnOk result (text.new ≡ text.old ++ tokens_of (planned_members self.now planned.now)) }
    {
        write_planned_head(text, planned)?;
        self.write_after_head(text, planned)?;
        Ok(())
    }

    // The object of a message with its plan.
    fn write_planned(&self, text: &mut JsonText, planned: &Planned<'_>) -> Result<(), Memory>
        ensures { OnOk result (text.new ≡ text.old ++ json_tokens (object_of (planned_members self.now planned.now))) }
    {
        text.begin_object()?;
        self.write_members(text, planned)?;
        text.end_object()?;
        Ok(())
    }

    /// Writes the object of a message, by its plan.
    pub fn write_message(
        &self,
        text: &mut JsonText,
        message: &Message,
        plan: &Plan,
    ) -> Result<(), Memory>
        requires { plan.now ≡ plan_of self.now message.now }
        ensures { OnOk result (text.new ≡ text.old ++ json_tokens (message_json self.now message.now)) }
    {
        let planned = Planned::of(text.allocator(), self.lookup, message, plan)?;
        self.write_planned(text, &planned)
    }
}
