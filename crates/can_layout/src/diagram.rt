//! Diagrams of one message, and of all.
ghost use Rattle.std.specs.Prelude.{◌≡◌, ◌<◌, IfOk, OnOk, Some, length, map, slice_get};
ghost use Rattle.std.specs.Option.{option_map};
ghost use Rattle.can_layout.specs.Diagrams.{picture_of};
ghost use Rattle.can_layout.specs.Meters.{with_picture, repeated, AtMost};

use crate::layout::Layout;
use crate::legend::picture_in;
use crate::meter::Meter;
use crate::sharing::Sharing;
use can_entries::{Indexed, Lookup};
use dbc_records::{Database, Message};
use dbc_values::Memory;
use std::alloc::Global;

// The diagram of a message. The meter counts it, even if memory runs out.
fn picture_sharing<L: Lookup>(
    alloc: Global,
    sharing: &Sharing<'_, L>,
    message: &Message,
    meter: &mut Meter,
) -> Result<Vec<u8>, Memory>
    ensures picture { IfOk result (λ picture. picture.items ≡ picture_of sharing.now message.now) }
    ensures counted { meter.new ≡ with_picture meter.old }
{
    meter.count_picture();
    let layout = Layout::of(alloc, sharing, message)?;
    picture_in(alloc, &layout)
}

/// The diagram of a message, by the entries of a database: a [`Database`] searches them for each signal, an [`Indexed`] one finds
/// them. The meter counts it, even if memory runs out.
pub fn picture_with<L: Lookup>(
    alloc: Global,
    lookup: &L,
    message: &Message,
    meter: &mut Meter,
) -> Result<Vec<u8>, Memory>
    ensures picture { IfOk result (λ picture. picture.items ≡ picture_of (L.whole lookup.now) message.now) }
    ensures counted { meter.new ≡ with_picture meter.old }
{
    picture_sharing(alloc, &Sharing::none(lookup), message, meter)
}

/// The diagram of the message at an index. It searches the entries of the database for each signal. The meter counts it, even
/// if memory runs out.
pub fn picture(
    alloc: Global,
    database: &Database,
    index: usize,
    meter: &mut Meter,
) -> Result<Vec<u8>, Memory>
    requires { index < length database.now.messages }
    ensures picture { IfOk result (λ picture. Some picture.items ≡ option_map (picture_of database.now)
        (slice_get database.now.messages index)) }
    ensures counted { meter.new ≡ with_picture meter.old }
{
    picture_with(alloc, database, &database.messages.as_slice()[index], meter)
}

// The diagrams of messages, in order.
fn pictures_of<L: Lookup>(
    alloc: Global,
    lookup: &L,
    messages: &[Message],
    meter: &mut Meter,
) -> Result<Vec<Vec<u8>>, Memory>
    ensures pictures { IfOk result (λ pictures. map (λ picture. picture.items) pictures.items
        ≡ map (picture_of (L.whole lookup.now)) messages.now) }
    ensures counted { OnOk result (meter.new ≡ repeated (length messages.now) with_picture meter.old) }
    ensures at_most { AtMost (length messages.now) with_picture meter.old meter.new }
{
    let mut pictures = Vec::with_capacity(alloc, messages.len())?;
    for message in messages {
        pictures.push(picture_with(alloc, lookup, message, meter)?)?;
    }
    Ok(pictures)
}

/// The diagrams of all messages, in order, by an index of the entries. The meter counts each.
pub fn pictures(
    alloc: Global,
    database: &Database,
    meter: &mut Meter,
) -> Result<Vec<Vec<u8>>, Memory>
    ensures pictures { IfOk result (λ pictures. map (λ picture. picture.items) pictures.items ≡ map (picture_of database.now)
        database.now.messages) }
    ensures counted { OnOk result (meter.new ≡ repeated (length database.now.messages) with_picture meter.old) }
    ensures at_most { AtMost (length database.now.messages) with_picture meter.old meter.new }
{
    let indexed = Indexed::of(alloc, database)?;
    pictures_of(alloc, &indexed, database.messages.as_slice(), meter)
}
