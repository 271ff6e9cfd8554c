//! What is compiled of the messages of an edited database. What the edit doesn't touch is kept.
ghost use Rattle.std.specs.Prelude.{◌≡◌, IfOk, map, filter, count_by};
ghost use Rattle.session_log.specs.Elsewhere.{is_elsewhere};
ghost use Rattle.session_database.specs.Acceptance.{numbers_of};
ghost use Rattle.session_database.specs.CompiledMessage.{compiled_of, messages_touched, message_touched, Raised};
ghost use Rattle.session_database.specs.CompiledDatabase.{IsShown};

use crate::accepted::Accepted;
use crate::compiled::{CompiledMessage, compiled_with};
use crate::rediagnosing::diagnose_after;
use crate::shown::{CompiledDatabase, Parts, messages_of};
use can_decode::MessageIndex;
use can_layout::{Indexed, Lookup, Meter, SharedRows, Sharing};
use dbc_records::Message;
use dbc_values::Memory;
use session_log::is_among;
use session_log::reach_laws::{others_stay, untouched_messages_stay};
use std::alloc::Global;
use std::rc::Rc;

/// Whether a message has one of the CAN identifiers.
pub(crate) fn message_touched(numbers: &[u32], message: &Message) -> bool
    ensures { result ≡ message_touched numbers.now message.now }
{
    is_among(numbers, message.head.number)
}

// What was compiled of the messages that have none of the CAN identifiers, in order.
fn kept(
    alloc: Global,
    numbers: &[u32],
    before: &CompiledDatabase,
) -> Result<Vec<Rc<CompiledMessage>>, Memory>
    ensures { IfOk result (λ kept. map (λ one. one.value) kept.items ≡ map (compiled_of before.now)
        (filter (is_elsewhere numbers.now) before.now.messages)) }
{
    let mut kept = Vec::new(alloc);
    let mut rest = before.compiled();
    for message in before.database().messages.as_slice() {
        if let [first, others @ ..] = rest {
            if !message_touched(numbers, message) {
                kept.push(first.clone()?)?;
            }
            rest = others;
        }
    }
    Ok(kept)
}

// What was compiled of messages that an edit doesn't touch: it is also what is compiled of them in the edited database.
fn kept_after(alloc: Global, accepted: &Accepted<'_>) -> Result<Vec<Rc<CompiledMessage>>, Memory>
    ensures { IfOk result (λ kept. map (λ one. one.value) kept.items ≡ map (compiled_of accepted.now.after)
        (filter (is_elsewhere (numbers_of accepted.now)) accepted.now.after.messages)) }
{
    others_stay();
    untouched_messages_stay();
    let kept = kept(alloc, accepted.numbers(), accepted.shown_before())?;
    Ok(kept)
}

// The compiled forms of messages, in order: for a message that has none of the CAN identifiers the next of the kept ones, for any
// other a new one.
fn merged<L: Lookup>(
    numbers: &[u32],
    kept: &Vec<Rc<CompiledMessage>>,
    sharing: &Sharing<'_, L>,
    messages: &[Message],
    meter: &mut Meter,
) -> Result<Vec<Rc<CompiledMessage>>, Memory>
    requires { map (λ one. one.value) kept.now.items ≡ map (compiled_of sharing.now) (filter (is_elsewhere numbers.now)
        messages.now) }
    ensures compiled { IfOk result (λ all. map (λ one. one.value) all.items ≡ map (compiled_of sharing.now) messages.now) }
    ensures made { Raised (count_by (message_touched numbers.now) messages.now) 0 meter.old meter.new }
{
    let alloc = *kept.allocator();
    let mut all = Vec::new(alloc);
    let mut rest = kept.as_slice();
    for message in messages {
        if message_touched(numbers, message) {
            all.push(compiled_with(alloc, sharing, message, meter)?)?;
        } else if let [first, others @ ..] = rest {
            all.push(first.clone()?)?;
            rest = others;
        }
    }
    Ok(all)
}

// What is compiled of the messages of the database that an accepted edit gives. Their plans share these entries.
fn recompiled<L: Lookup>(
    alloc: Global,
    accepted: &Accepted<'_>,
    lookup: &L,
    rows: &SharedRows<'_>,
    meter: &mut Meter,
) -> Result<Vec<Rc<CompiledMessage>>, Memory>
    requires after { L.whole lookup.now ≡ accepted.now.after }
    requires rows { rows.now ≡ accepted.now.after }
    ensures compiled { IfOk result (λ all. map (λ one. one.value) all.items ≡ map (compiled_of accepted.now.after)
        accepted.now.after.messages) }
    ensures made { Raised (messages_touched (numbers_of accepted.now) accepted.now.after) 0 meter.old meter.new }
{
    let kept = kept_after(alloc, accepted)?;
    let sharing = Sharing::of(alloc, lookup, rows)?;
    let messages = messages_of(accepted.after());
    merged(accepted.numbers(), &kept, &sharing, messages, meter)
}

/// What is made of the database that an accepted edit gives, using one index of its entries. Plans, diagrams and own diagnostics
/// are made only for messages that have one of the edit's CAN identifiers.
pub(crate) fn parts_after(
    alloc: Global,
    accepted: &Accepted<'_>,
    meter: &mut Meter,
) -> Result<Parts, Memory>
    ensures parts { IfOk result (λ parts. IsShown accepted.now.after parts.diagnosed.diagnostics.items
        parts.diagnosed.counts.items (map (λ one. one.value) parts.compiled.items) parts.messages) }
    ensures made { Raised (messages_touched (numbers_of accepted.now) accepted.now.after) 0 meter.old meter.new }
{
    let indexed = Indexed::of(alloc, accepted.after())?;
    let diagnosed = diagnose_after(alloc, accepted, &indexed)?;
    let rows = SharedRows::among(alloc, accepted.after(), accepted.numbers())?;
    let compiled = recompiled(alloc, accepted, &indexed, &rows, meter)?;
    let index = MessageIndex::by(alloc, &indexed)?;
    Ok(Parts {
        diagnosed,
        compiled,
        messages: index,
    })
}
