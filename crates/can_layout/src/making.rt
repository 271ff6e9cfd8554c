//! Plans of one message, and of all.
ghost use Rattle.std.specs.Prelude.{◌≡◌, ◌<◌, IfOk, OnOk, Some, length, map, slice_get};
ghost use Rattle.std.specs.Option.{option_map};
ghost use Rattle.can_entries.specs.Rows.{rows_of};
ghost use Rattle.can_layout.specs.Plans.{plan_of};
ghost use Rattle.can_layout.specs.Diagrams.{picture_of};
ghost use Rattle.can_layout.specs.Meters.{with_plan, with_picture, repeated, AtMost};

use crate::layout::Layout;
use crate::legend::picture_in;
use crate::meter::Meter;
use crate::plan::{Plan, plan_in};
use crate::sharing::{SharedRows, Sharing};
use can_entries::{Indexed, Lookup};
use dbc_records::{Database, Message};
use dbc_values::Memory;
use std::alloc::Global;

// The layout of a message, for a plan, which is counted.
fn layout_for_plan<'a, L: Lookup>(
    alloc: Global,
    sharing: &'a Sharing<'a, L>,
    message: &'a Message,
    meter: &mut Meter,
) -> Result<Layout<'a, L>, Memory>
    ensures layout { IfOk result (λ layout. layout ≡ record {
      rows = rows_of message.now.head.number sharing.now;
      message = message.now;
    }) }
    ensures counted { meter.new ≡ with_plan meter.old }
{
    meter.count_plan();
    Layout::of(alloc, sharing, message)
}

/// The plan of a message, by the entries of a database: a [`Database`] searches them for each signal, an [`Indexed`] one finds
/// them. The meter counts it, even if memory runs out.
pub fn plan_with<L: Lookup>(
    alloc: Global,
    lookup: &L,
    message: &Message,
    meter: &mut Meter,
) -> Result<Plan, Memory>
    ensures plan { IfOk result (λ plan. plan ≡ plan_of (L.whole lookup.now) message.now) }
    ensures counted { meter.new ≡ with_plan meter.old }
{
    plan_sharing(alloc, &Sharing::none(lookup), message, meter)
}

/// Like [`plan_with`], but entries that plans share are not made again. The meter counts it, even if memory runs out.
pub fn plan_sharing<L: Lookup>(
    alloc: Global,
    sharing: &Sharing<'_, L>,
    message: &Message,
    meter: &mut Meter,
) -> Result<Plan, Memory>
    ensures plan { IfOk result (λ plan. plan ≡ plan_of sharing.now message.now) }
    ensures counted { meter.new ≡ with_plan meter.old }
{
    let layout = layout_for_plan(alloc, sharing, message, meter)?;
    plan_in(alloc, &layout)
}

/// The plan and the diagram of a message, made of one layout of it. The meter counts both, even if memory runs out.
pub fn plan_and_picture<L: Lookup>(
    alloc: Global,
    sharing: &Sharing<'_, L>,
    message: &Message,
    meter: &mut Meter,
) -> Result<(Plan, Vec<u8>), Memory>
    ensures plan { IfOk result (λ made. made.0 ≡ plan_of sharing.now message.now) }
    ensures picture { IfOk result (λ made. made.1.items ≡ picture_of sharing.now message.now) }
    ensures counted { meter.new ≡ with_plan (with_picture meter.old) }
{
    meter.count_picture();
    let layout = layout_for_plan(alloc, sharing, message, meter)?;
    let plan = plan_in(alloc, &layout)?;
    let picture = picture_in(alloc, &layout)?;
    Ok((plan, picture))
}

/// The plan of the message at an index. It searches the entries of the database for each signal. The meter counts it, even
/// if memory runs out.
pub fn make_plan(
    alloc: Global,
    database: &Database,
    index: usize,
    meter: &mut Meter,
) -> Result<Plan, Memory>
    requires { index < length database.now.messages }
    ensures plan { IfOk result (λ plan. Some plan ≡ option_map (plan_of database.now) (slice_get database.now.messages index)) }
    ensures counted { meter.new ≡ with_plan meter.old }
{
    plan_with(alloc, database, &database.messages.as_slice()[index], meter)
}

// The plans of messages, in order.
fn plans_of<L: Lookup>(
    alloc: Global,
    sharing: &Sharing<'_, L>,
    messages: &[Message],
    meter: &mut Meter,
) -> Result<Vec<Plan>, Memory>
    ensures plans { IfOk result (λ plans. plans.items ≡ map (plan_of sharing.now) messages.now) }
    ensures counted { OnOk result (meter.new ≡ repeated (length messages.now) with_plan meter.old) }
    ensures at_most { AtMost (length messages.now) with_plan meter.old meter.new }
{
    let mut plans = Vec::with_capacity(alloc, messages.len())?;
    for message in messages {
        plans.push(plan_sharing(alloc, sharing, message, meter)?)?;
    }
    Ok(plans)
}

// The plans of all messages, which share these entries.
fn plans_by<L: Lookup>(
    alloc: Global,
    lookup: &L,
    rows: &SharedRows<'_>,
    meter: &mut Meter,
) -> Result<Vec<Plan>, Memory>
    requires { rows.now ≡ L.whole lookup.now }
    ensures plans { IfOk result (λ plans. plans.items ≡ map (plan_of (L.whole lookup.now)) (L.whole lookup.now).messages) }
    ensures counted { OnOk result (meter.new ≡ repeated (length (L.whole lookup.now).messages) with_plan meter.old) }
    ensures at_most { AtMost (length (L.whole lookup.now).messages) with_plan meter.old meter.new }
{
    let sharing = Sharing::of(alloc, lookup, rows)?;
    plans_of(
        alloc,
        &sharing,
        lookup.database().messages.as_slice(),
        meter,
    )
}

/// The plans of all messages of a database whose entries are found by `lookup`, in order. Those of one CAN identifier share their
/// value descriptions. The meter counts each.
pub fn plans_with<L: Lookup>(
    alloc: Global,
    lookup: &L,
    meter: &mut Meter,
) -> Result<Vec<Plan>, Memory>
    ensures plans { IfOk result (λ plans. plans.items ≡ map (plan_of (L.whole lookup.now)) (L.whole lookup.now).messages) }
    ensures counted { OnOk result (meter.new ≡ repeated (length (L.whole lookup.now).messages) with_plan meter.old) }
    ensures at_most { AtMost (length (L.whole lookup.now).messages) with_plan meter.old meter.new }
{
    let rows = SharedRows::of(alloc, lookup.database())?;
    plans_by(alloc, lookup, &rows, meter)
}

/// The plans of all messages, in order, by an index of the entries. The meter counts each.
pub fn make_plans(
    alloc: Global,
    database: &Database,
    meter: &mut Meter,
) -> Result<Vec<Plan>, Memory>
    ensures plans { IfOk result (λ plans. plans.items ≡ map (plan_of database.now) database.now.messages) }
    ensures counted { OnOk result (meter.new ≡ repeated (length database.now.messages) with_plan meter.old) }
    ensures at_most { AtMost (length database.now.messages) with_plan meter.old meter.new }
{
    let indexed = Indexed::of(alloc, database)?;
    plans_with(alloc, &indexed, meter)
}
