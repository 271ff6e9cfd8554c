//! A database with all that is needed to decode its bus.
ghost use Rattle.std.specs.Prelude.{◌≡◌, IfOk, OnOk, length, map};
ghost use Rattle.can_layout.specs.Plans.{plan_of};
ghost use Rattle.can_layout.specs.Meters.{with_plan, repeated, AtMost};
ghost use Rattle.can_decode.specs.Decodings.{IsDecoding};

use crate::indexed_messages::IndexedMessages;
use crate::line::Finder;
use crate::message_index::MessageIndex;
use crate::message_search::MessageSearch;
use crate::short::Short;
use can_layout::{Indexed, Meter, Plan, plans_with};
use dbc_records::Database;
use dbc_values::Memory;
use std::alloc::Global;
use std::marker::Model;

/// A database with the plans of its messages in order and the index of them, and how truncated frames are decoded. Contracts see
/// the database and how truncated frames are decoded.
#[derive(Drop)]
pub struct Decoding {
    database: Database,
    plans: Vec<Plan>,
    index: MessageIndex,
    short: Short,
}

impl Model for Decoding {
    ghost use Rattle.can_decode.specs.DecodedLines.{Bus};
    ghost use Rattle.can_decode.specs.Decodings.{IsDecoding};

    ghost Value = { Bus };

    ghost view = { λ a. record { database = a.database; short = a.short } };

    ghost invariant = { λ a. IsDecoding a.database a.plans.items a.index };
}

// The plans and the index of a database, by one index of its entries.
fn parts_of(
    alloc: Global,
    database: &Database,
    meter: &mut Meter,
) -> Result<(Vec<Plan>, MessageIndex), Memory>
    ensures parts { IfOk result (λ parts. IsDecoding database.now parts.0.items parts.1) }
    ensures counted { OnOk result (meter.new ≡ repeated (length database.now.messages) with_plan meter.old) }
    ensures at_most { AtMost (length database.now.messages) with_plan meter.old meter.new }
{
    let indexed = Indexed::of(alloc, database)?;
    let plans = plans_with(alloc, &indexed, meter)?;
    let index = MessageIndex::by(alloc, &indexed)?;
    Ok((plans, index))
}

impl Decoding {
    /// The decoding of a database. Its entries are indexed once. The meter counts each plan, even if memory runs out.
    pub fn of(
        alloc: Global,
        database: Database,
        short: Short,
        meter: &mut Meter,
    ) -> Result<Decoding, Memory>
        ensures decoding { IfOk result (λ decoding. decoding ≡ record { database = database; short = short }) }
        ensures counted { OnOk result (meter.new ≡ repeated (length database.messages) with_plan meter.old) }
        ensures at_most { AtMost (length database.messages) with_plan meter.old meter.new }
    {
        let (plans, index) = parts_of(alloc, &database, meter)?;
        Ok(Decoding {
            database,
            plans,
            index,
            short,
        })
    }

    /// The database.
    pub fn database(&self) -> &Database
        ensures { result.now ≡ self.now.database }
    {
        &self.database
    }

    /// How truncated frames are decoded.
    pub fn short(&self) -> Short
        ensures { result ≡ self.now.short }
    {
        self.short
    }

    /// The plans of its messages, in order.
    pub fn plans(&self) -> &[Plan]
        ensures { result.now ≡ map (plan_of self.now.database) self.now.database.messages }
    {
        self.plans.as_slice()
    }

    /// What each CAN identifier goes to.
    pub fn indexed_messages(&self) -> IndexedMessages<'_>
        ensures { result ≡ self.now.database }
    {
        IndexedMessages::by(&self.database, &self.index)
    }

    /// What finds the messages of its frames, given what chooses them.
    pub fn finder<'a, C: MessageSearch>(&'a self, search: C) -> Finder<'a, C>
        requires { C.whole search ≡ self.now.database }
        ensures { result ≡ self.now }
    {
        Finder {
            database: &self.database,
            plans: self.plans.as_slice(),
            short: self.short,
            search,
        }
    }
}
