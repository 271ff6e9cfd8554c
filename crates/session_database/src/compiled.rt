//! What a session shows of its messages.
ghost use Rattle.std.specs.Prelude.{◌≡◌, IfOk, map, length};
ghost use Rattle.session_database.specs.CompiledMessage.{compiled_of, Raised};

use can_layout::{Lookup, Meter, Plan, SharedRows, Sharing, plan_and_picture};
use dbc_records::Message;
use dbc_values::Memory;
use std::alloc::Global;
use std::marker::Model;
use std::rc::Rc;

/// The plan and the diagram of a message.
#[derive(Drop)]
pub(crate) struct CompiledMessage {
    /// Its decode plan.
    pub plan: Plan,
    /// Its diagram.
    pub picture: Vec<u8>,
}

impl Model for CompiledMessage {
    ghost use Rattle.session_database.specs.CompiledMessage as compiled;

    ghost Value = { compiled.CompiledMessage };

    ghost view = { λ a. record { plan = a.plan; picture = a.picture.items } };
}

/// The compiled form of a message, by the entries of a database.
pub(crate) fn compiled_with<L: Lookup>(
    alloc: Global,
    sharing: &Sharing<'_, L>,
    message: &Message,
    meter: &mut Meter,
) -> Result<Rc<CompiledMessage>, Memory>
    ensures compiled { IfOk result (λ compiled. compiled.value ≡ compiled_of sharing.now message.now) }
    ensures made { Raised 1 0 meter.old meter.new }
{
    let (plan, mut picture) = plan_and_picture(alloc, sharing, message, meter)?;
    picture.shrink_to_fit();
    let compiled = Rc::new(alloc, CompiledMessage { plan, picture })?;
    Ok(compiled)
}

// The compiled forms of messages, in order.
fn compiled_of<L: Lookup>(
    alloc: Global,
    sharing: &Sharing<'_, L>,
    messages: &[Message],
    meter: &mut Meter,
) -> Result<Vec<Rc<CompiledMessage>>, Memory>
    ensures compiled { IfOk result (λ all. map (λ one. one.value) all.items ≡ map (compiled_of sharing.now) messages.now) }
    ensures made { Raised (length messages.now) 0 meter.old meter.new }
{
    let mut all = Vec::new(alloc);
    for message in messages {
        all.push(compiled_with(alloc, sharing, message, meter)?)?;
    }
    Ok(all)
}

/// The compiled forms of all messages, in order. Their plans share these entries.
pub(crate) fn compiled_all<L: Lookup>(
    alloc: Global,
    lookup: &L,
    rows: &SharedRows<'_>,
    messages: &[Message],
    meter: &mut Meter,
) -> Result<Vec<Rc<CompiledMessage>>, Memory>
    requires { rows.now ≡ L.whole lookup.now }
    ensures compiled { IfOk result (λ all. map (λ one. one.value) all.items ≡ map (compiled_of (L.whole lookup.now)) messages.now) }
    ensures made { Raised (length messages.now) 0 meter.old meter.new }
{
    let sharing = Sharing::of(alloc, lookup, rows)?;
    compiled_of(alloc, &sharing, messages, meter)
}
