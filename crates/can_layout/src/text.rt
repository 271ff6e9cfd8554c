//! Parts of diagrams, appended to a text.
ghost use Rattle.std.specs.Prelude.{◌≡◌, ◌++◌, OnOk, decimal, codes, slice_get, if◌then◌else◌};
ghost use Rattle.std.specs.List.{flat_map};
ghost use Rattle.can_layout.specs.Diagrams.{title_line, span_text, cause_text, range_text, further_range, ranges_text, name_of};
ghost use Rattle.can_layout.specs.Diagrams.{link_text, walk_text};

use crate::refusal::Cause;
use can_entries::{Link, Walk};
use dbc_records::{Head, Range, Signal};
use dbc_values::Memory;

/// Bytes.
pub(crate) fn push_bytes(text: &mut Vec<u8>, bytes: &[u8]) -> Result<(), Memory>
    ensures { OnOk result (text.new.items ≡ text.old.items ++ bytes.now) }
{
    text.extend_from_slice(bytes)?;
    Ok(())
}

/// A whole number.
fn push_number(text: &mut Vec<u8>, number: u64) -> Result<(), Memory>
    ensures { OnOk result (text.new.items ≡ text.old.items ++ decimal number) }
{
    let mut space = itoa::Buffer::new();
    push_bytes(text, space.format(number).as_bytes())
}

/// The title of a diagram.
#[tactic(auto, unfolding(crate::specs::Diagrams::title_line))]
pub(crate) fn push_title(text: &mut Vec<u8>, head: &Head) -> Result<(), Memory>
    ensures { OnOk result (text.new.items ≡ text.old.items ++ title_line head.now) }
{
    push_bytes(text, b"Message ")?;
    push_bytes(text, head.name.as_bytes())?;
    push_bytes(text, b" ")?;
    push_number(text, u64::from(head.number))?;
    push_bytes(text, b" ")?;
    push_number(text, u64::from(head.size))?;
    push_bytes(text, b"\n")
}

fn order_text(intel: bool) -> &'static [u8]
    ensures { result.now ≡ (if intel then codes "1" else codes "0") }
{
    if intel { b"1" } else { b"0" }
}

fn sign_text(signed: bool) -> &'static [u8]
    ensures { result.now ≡ (if signed then codes "-" else codes "+") }
{
    if signed { b"-" } else { b"+" }
}

/// Where the bits of a signal are, and its sign.
#[tactic(auto, unfolding(crate::specs::Diagrams::span_text))]
pub(crate) fn push_span(text: &mut Vec<u8>, signal: &Signal) -> Result<(), Memory>
    ensures { OnOk result (text.new.items ≡ text.old.items ++ span_text signal.now) }
{
    push_number(text, u64::from(signal.start))?;
    push_bytes(text, b"|")?;
    push_number(text, u64::from(signal.length))?;
    push_bytes(text, b"@")?;
    push_bytes(text, order_text(signal.intel))?;
    push_bytes(text, sign_text(signal.signed))
}

/// Why a signal is refused, or nothing.
pub(crate) fn push_cause(text: &mut Vec<u8>, cause: Option<Cause>) -> Result<(), Memory>
    ensures { OnOk result (text.new.items ≡ text.old.items ++ cause_text cause) }
{
    match cause {
        Some(cause) => {
            push_bytes(text, b" ?")?;
            push_bytes(text, cause.word())
        }
        None => Ok(()),
    }
}

#[tactic(auto, unfolding(crate::specs::Diagrams::range_text))]
fn push_range(text: &mut Vec<u8>, range: Range) -> Result<(), Memory>
    ensures { OnOk result (text.new.items ≡ text.old.items ++ range_text range) }
{
    push_number(text, range.first)?;
    push_bytes(text, b"-")?;
    push_number(text, range.last)
}

#[tactic(auto, unfolding(crate::specs::Diagrams::further_range))]
fn push_further(text: &mut Vec<u8>, range: Range) -> Result<(), Memory>
    ensures { OnOk result (text.new.items ≡ text.old.items ++ further_range range) }
{
    push_bytes(text, b",")?;
    push_range(text, range)
}

fn push_all_further(text: &mut Vec<u8>, ranges: &[Range]) -> Result<(), Memory>
    ensures { OnOk result (text.new.items ≡ text.old.items ++ flat_map further_range ranges.now) }
{
    for range in ranges {
        push_further(text, *range)?;
    }
    Ok(())
}

fn push_ranges(text: &mut Vec<u8>, ranges: &[Range]) -> Result<(), Memory>
    ensures { OnOk result (text.new.items ≡ text.old.items ++ ranges_text ranges.now) }
{
    match ranges.split_first() {
        Some((range, further)) => {
            push_range(text, *range)?;
            push_all_further(text, further)
        }
        None => Ok(()),
    }
}

fn push_name_at(text: &mut Vec<u8>, signals: &[Signal], index: usize) -> Result<(), Memory>
    ensures { OnOk result (text.new.items ≡ text.old.items ++ name_of (slice_get signals.now index)) }
{
    match signals.get(index) {
        Some(signal) => push_bytes(text, signal.name.as_bytes()),
        None => Ok(()),
    }
}

#[tactic(auto, unfolding(crate::specs::Diagrams::link_text))]
fn push_link(text: &mut Vec<u8>, signals: &[Signal], link: &Link) -> Result<(), Memory>
    ensures { OnOk result (text.new.items ≡ text.old.items ++ link_text signals.now link.now) }
{
    push_bytes(text, b" when ")?;
    push_name_at(text, signals, link.switch)?;
    push_bytes(text, b" ")?;
    push_ranges(text, link.ranges())
}

fn push_links(text: &mut Vec<u8>, signals: &[Signal], links: &[Link]) -> Result<(), Memory>
    ensures { OnOk result (text.new.items ≡ text.old.items ++ flat_map (link_text signals.now) links.now) }
{
    for link in links {
        push_link(text, signals, link)?;
    }
    Ok(())
}

/// The multiplexing chain of a signal, or that it is never present.
pub(crate) fn push_walk(text: &mut Vec<u8>, signals: &[Signal], walk: &Walk) -> Result<(), Memory>
    ensures { OnOk result (text.new.items ≡ text.old.items ++ walk_text signals.now walk.now) }
{
    match walk {
        Walk::Chain(links) => push_links(text, signals, links.as_slice()),
        Walk::Absent { own: _ } => push_bytes(text, b" never"),
        Walk::Loop => push_bytes(text, b" never"),
    }
}
