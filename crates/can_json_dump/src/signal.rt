//! A signal of a message.
ghost use Rattle.std.specs.Prelude.{◌≡◌, ◌<◌, ◌∷◌, ◌++◌, [], OnOk, IfOk, codes, map, slice_get};
ghost use Rattle.std.specs.List.{flat_map};
ghost use Rattle.json.specs.Json.{boolean, string};
ghost use Rattle.json.specs.Tree.{json_tokens};
ghost use Rattle.can_json_texts.specs.Members.{text_members};
ghost use Rattle.can_json_texts.specs.Values.{tokens_of, array_of};
ghost use Rattle.can_json_texts.specs.Records.{whole_json, decimal_json, name_json, names_json, ranges_json, tag_json};
ghost use Rattle.can_layout.specs.Diagrams.{cause_word, name_of};
ghost use Rattle.can_layout.specs.Plans.{chain_of};
ghost use Rattle.can_json_dump.specs.Messages.{position_upward, positions_of, order_word, refused_json, link_json, chain_json};
ghost use Rattle.can_json_dump.specs.Messages.{bit_field_members, scale_members, use_members};

use can_entries::{Link, Walk};
use can_json_texts::{
    JsonText, write_array_member, write_flag, write_member, write_string, write_text, write_whole,
};
use can_layout::{Cause, Field, Reading};
use dbc_records::{ByteOrder, Signal, Tag};
use dbc_values::{Memory, Name};
use std::alloc::Global;

fn order_word(intel: bool) -> &'static str
    ensures { result.now ≡ order_word intel }
{
    if intel { "intel" } else { "motorola" }
}

#[tactic(auto, using(can_json_texts::proofs::Tokens::members_then))]
fn write_span(text: &mut JsonText, signal: &Signal) -> Result<(), Memory>
    ensures { OnOk result (text.new ≡ text.old ++ tokens_of ((codes "start", whole_json signal.now.start)
        ∷ (codes "length", whole_json signal.now.length) ∷ [])) }
{
    write_whole(text, "start", u64::from(signal.start))?;
    write_whole(text, "length", u64::from(signal.length))
}

#[tactic(auto, using(can_json_texts::proofs::Tokens::members_then))]
fn write_kind(text: &mut JsonText, signal: &Signal) -> Result<(), Memory>
    ensures { OnOk result (text.new ≡ text.old ++ tokens_of ((codes "order", string (order_word signal.now.intel))
        ∷ (codes "signed", boolean signal.now.signed) ∷ [])) }
{
    write_string(text, "order", order_word(signal.intel))?;
    write_flag(text, "signed", signal.signed)
}

/// Where the bits of a signal are, and what kind of number they represent.
#[tactic(auto, using(can_json_texts::proofs::Tokens::members_then))]
pub(crate) fn write_bit_field(text: &mut JsonText, signal: &Signal) -> Result<(), Memory>
    ensures { OnOk result (text.new ≡ text.old ++ tokens_of (bit_field_members signal.now)) }
{
    write_span(text, signal)?;
    write_kind(text, signal)
}

#[tactic(auto, using(can_json_texts::proofs::Tokens::members_then))]
fn write_conversion(text: &mut JsonText, signal: &Signal) -> Result<(), Memory>
    ensures { OnOk result (text.new ≡ text.old ++ tokens_of ((codes "factor", decimal_json signal.now.factor)
        ∷ (codes "offset", decimal_json signal.now.offset) ∷ [])) }
{
    write_member(text, "factor", &signal.factor)?;
    write_member(text, "offset", &signal.offset)
}

#[tactic(auto, using(can_json_texts::proofs::Tokens::members_then))]
fn write_bounds(text: &mut JsonText, signal: &Signal) -> Result<(), Memory>
    ensures { OnOk result (text.new ≡ text.old ++ tokens_of ((codes "minimum", decimal_json signal.now.minimum)
        ∷ (codes "maximum", decimal_json signal.now.maximum) ∷ [])) }
{
    write_member(text, "minimum", &signal.minimum)?;
    write_member(text, "maximum", &signal.maximum)
}

/// Factor and offset, and the bounds of the physical value.
#[tactic(auto, using(can_json_texts::proofs::Tokens::members_then))]
pub(crate) fn write_scale(text: &mut JsonText, signal: &Signal) -> Result<(), Memory>
    ensures { OnOk result (text.new ≡ text.old ++ tokens_of (scale_members signal.now)) }
{
    write_conversion(text, signal)?;
    write_bounds(text, signal)
}

fn write_receivers_and_tag(text: &mut JsonText, receivers: &[Name], tag: &Tag) -> Result<(), Memory>
    ensures { OnOk result (text.new ≡ text.old ++ tokens_of ((codes "receivers", names_json receivers.now)
        ∷ (codes "tag", tag_json tag.now) ∷ [])) }
{
    write_array_member(text, "receivers", receivers)?;
    write_member(text, "tag", tag)?;
    Ok(())
}

fn write_unit_and_use(
    text: &mut JsonText,
    unit: &[u8],
    receivers: &[Name],
    tag: &Tag,
) -> Result<(), Memory>
    ensures { OnOk result (text.new ≡ text.old ++ tokens_of (text_members (codes "unit") unit.now
        ++ ((codes "receivers", names_json receivers.now) ∷ (codes "tag", tag_json tag.now) ∷ []))) }
{
    write_text(text, "unit", unit)?;
    write_receivers_and_tag(text, receivers, tag)?;
    Ok(())
}

/// Unit, receivers and multiplexer indicator.
pub(crate) fn write_use(text: &mut JsonText, signal: &Signal) -> Result<(), Memory>
    ensures { OnOk result (text.new ≡ text.old ++ tokens_of (use_members signal.now)) }
{
    write_unit_and_use(
        text,
        signal.unit.as_bytes(),
        signal.receivers.as_slice(),
        &signal.tag,
    )
}

// ---- contents of the plan

// Where the bit with the weight 2 ^ k is.
fn position_upward(field: Field, k: u16) -> u32
    requires { k < field.length }
    ensures { result ≡ position_upward field k }
{
    let index = match field.order {
        ByteOrder::Intel => k,
        ByteOrder::Motorola => field.length - 1 - k,
    };
    field.position(index)
}

fn positions_of(alloc: Global, field: Field) -> Result<Vec<u32>, Memory>
    ensures { IfOk result (λ positions. positions.items ≡ positions_of field) }
{
    let mut positions = Vec::with_capacity(alloc, usize::from(field.length))?;
    for k in 0..field.length {
        positions.push(position_upward(field, k))?;
    }
    Ok(positions)
}

/// The positions of the bits, the least significant one first.
pub(crate) fn write_positions(text: &mut JsonText, field: Field) -> Result<(), Memory>
    ensures { OnOk result (text.new ≡ text.old ++ tokens_of ((codes "positions", array_of (map whole_json (positions_of field)))
        ∷ [])) }
{
    let positions = positions_of(text.allocator(), field)?;
    write_array_member(text, "positions", positions.as_slice())
}

fn cause_word(cause: Cause) -> &'static str
    ensures { result.now ≡ cause_word cause }
{
    match cause {
        Cause::Outside => "outside",
        Cause::Float => "float",
        Cause::Long => "long",
        Cause::Scale => "scale",
    }
}

fn write_cause(text: &mut JsonText, reading: &Reading) -> Result<(), Memory>
    ensures { OnOk result (text.new ≡ text.old ++ json_tokens (refused_json reading.now)) }
{
    match reading {
        Reading::Refused(cause) => text.string(cause_word(*cause)),
        Reading::Read(_) => text.null(),
    }
}

/// Why the signal can't be decoded, or null.
#[tactic(auto, using(can_json_texts::proofs::Tokens::member_written))]
pub(crate) fn write_refused(text: &mut JsonText, reading: &Reading) -> Result<(), Memory>
    ensures { OnOk result (text.new ≡ text.old ++ tokens_of ((codes "refused", refused_json reading.now) ∷ [])) }
{
    text.key("refused")?;
    write_cause(text, reading)
}

// The name of the multiplexor (switch) of a link.
fn write_switch_name(text: &mut JsonText, signals: &[Signal], link: &Link) -> Result<(), Memory>
    ensures { OnOk result (text.new ≡ text.old ++ json_tokens (name_json (name_of (slice_get signals.now link.now.switch)))) }
{
    match signals.get(link.switch) {
        Some(signal) => text.name(&signal.name),
        None => text.string(""),
    }
}

#[tactic(auto, using(can_json_texts::proofs::Tokens::member_written))]
fn write_switch(text: &mut JsonText, signals: &[Signal], link: &Link) -> Result<(), Memory>
    ensures { OnOk result (text.new ≡ text.old ++ tokens_of ((
      codes "switch",
      name_json
          (name_of (slice_get signals.now link.now.switch)),
    ) ∷ [])) }
{
    text.key("switch")?;
    write_switch_name(text, signals, link)
}

#[tactic(auto, using(can_json_texts::proofs::Tokens::members_then))]
fn write_link_members(text: &mut JsonText, signals: &[Signal], link: &Link) -> Result<(), Memory>
    ensures { OnOk result (text.new ≡ text.old ++ tokens_of ((
      codes "switch",
      name_json
          (name_of (slice_get signals.now link.now.switch)),
    ) ∷ (codes "ranges", ranges_json link.now.ranges) ∷ [])) }
{
    write_switch(text, signals, link)?;
    write_array_member(text, "ranges", link.ranges())
}

#[tactic(auto, using(can_json_texts::proofs::Tokens::object_written))]
fn write_link(text: &mut JsonText, signals: &[Signal], link: &Link) -> Result<(), Memory>
    ensures { OnOk result (text.new ≡ text.old ++ json_tokens (link_json signals.now link.now)) }
{
    text.begin_object()?;
    write_link_members(text, signals, link)?;
    text.end_object()?;
    Ok(())
}

fn write_links(text: &mut JsonText, signals: &[Signal], links: &[Link]) -> Result<(), Memory>
    ensures { OnOk result (text.new ≡ text.old ++ flat_map (λ link. json_tokens (link_json signals.now link)) links.now) }
{
    for link in links {
        write_link(text, signals, link)?;
    }
    Ok(())
}

// The links of a chain as an array.
fn write_link_array(text: &mut JsonText, signals: &[Signal], links: &[Link]) -> Result<(), Memory>
    ensures { OnOk result (text.new ≡ text.old ++ json_tokens (array_of (map (link_json signals.now) links.now))) }
{
    text.begin_array()?;
    write_links(text, signals, links)?;
    text.end_array()?;
    Ok(())
}

// The chain of a walk, or null if the walk is no chain.
fn write_walk(text: &mut JsonText, signals: &[Signal], walk: &Walk) -> Result<(), Memory>
    ensures { OnOk result (text.new ≡ text.old ++ json_tokens (chain_json signals.now (chain_of walk.now))) }
{
    match walk {
        Walk::Chain(links) => write_link_array(text, signals, links.as_slice()),
        _ => text.null(),
    }
}

/// The multiplexors (switches) of a signal, its own first; null if the signal is never present.
#[tactic(auto, using(can_json_texts::proofs::Tokens::member_written))]
pub(crate) fn write_chain(
    text: &mut JsonText,
    signals: &[Signal],
    walk: &Walk,
) -> Result<(), Memory>
    ensures { OnOk result (text.new ≡ text.old ++ tokens_of ((codes "chain", chain_json signals.now (chain_of walk.now)) ∷ [])) }
{
    text.key("chain")?;
    write_walk(text, signals, walk)
}
