//! The parts of statements.
ghost use Rattle.std.specs.Prelude.{◌≡◌, codes, drop, option_map, slice_get};
ghost use Rattle.dbc_ranges.specs.Ranges.{item_of, items_left, items_at, after_colon, without_mark, named, described_value, single};
ghost use Rattle.std.specs.Prelude.{if◌then◌else◌};
ghost use Rattle.dbc_ranges.specs.Ranges.{begins_with, between, part_of, pair_of, bounds_of, range_between, range_of};

use crate::items::{Item, Items};
use crate::range::Range;
use dbc_reader::Start;
use dbc_tokens::tokens;

/// A value description, by its raw value, and by its index among those of the same raw value.
#[derive(Clone, Copy, Debug, PartialEq, Eq)]
pub struct DescribedValue {
    /// The raw value.
    pub number: i128,
    /// The index, from 0.
    pub index: usize,
}

/// A part of a statement or of a signal. Its statement is in parentheses.
#[derive(Clone, Copy)]
pub enum Part<'a> {
    /// The message's CAN identifier (`BO_`).
    Number,
    /// The message's name (`BO_`).
    Name,
    /// The message's sender (`BO_`).
    Sender,
    /// From the start bit to the byte order (`SG_`).
    Position,
    /// The length in bits (`SG_`).
    Length,
    /// From the factor to the offset (`SG_`).
    Scale,
    /// The receiver of this name (`SG_`).
    Receiver(&'a [u8]),
    /// The multiplexor (switch) that is named (`SG_MUL_VAL_`), or the indicator `m1` of a signal (`SG_`).
    Multiplexor,
    /// The kind of the values (`SIG_VALTYPE_`).
    FloatKind,
    /// The raw value of a value description (`VAL_`).
    Value(DescribedValue),
    /// The first items, this many of them: its key.
    Key(usize),
}

/// The first item of a part and its last.
type Bounds<'t> = (Option<Item<'t>>, Option<Item<'t>>);

fn single(item: Option<Item<'_>>) -> Bounds<'_>
    ensures { pair_of result ≡ single (option_map item_of item.entry) }
{
    (item, item)
}

// The item at an index.
fn one<'t>(mut items: Items<'t>, index: usize) -> Bounds<'t>
    ensures { pair_of result ≡ single (slice_get (items_left items.entry) index) }
{
    single(items.nth(index))
}

// The items from one index to another.
fn between<'t>(items: Items<'t>, first: usize, last: usize) -> Bounds<'t>
    ensures { pair_of result ≡ between first last (items_left items.entry) }
{
    let (mut front, mut back) = (items, items);
    (front.nth(first), back.nth(last))
}

// The items after the first colon.
fn after_colon(mut items: Items<'_>) -> Items<'_>
    ensures { items_left result ≡ after_colon (items_left items.entry) }
{
    items.skip_colon();
    items
}

fn receiver<'t>(items: Items<'t>, name: &[u8]) -> Bounds<'t>
    ensures { pair_of result ≡ single (named name.now (drop 17 (after_colon (items_left items.entry)))) }
{
    let mut rest = after_colon(items);
    rest.skip(17);
    single(rest.named(name))
}

fn kind(mut items: Items<'_>) -> Bounds<'_>
    ensures { pair_of result ≡ single (slice_get (without_mark (codes ":") (drop 3 (items_left items.entry))) 0) }
{
    items.skip(3);
    items.skip_mark(b":");
    single(items.take())
}

fn value<'t>(mut items: Items<'t>, wanted: DescribedValue) -> Bounds<'t>
    ensures { pair_of result ≡ single (described_value wanted.number wanted.index (drop 3 (items_left items.entry))) }
{
    items.skip(3);
    single(items.described_value(wanted))
}

fn multiplexor(items: Items<'_>) -> Bounds<'_>
    ensures { pair_of result ≡ single (slice_get (items_left items.entry) (if begins_with (codes "SG_") (items_left items.entry)
        then 2 else 3)) }
{
    if items.begins_with(b"SG_") {
        one(items, 2)
    } else {
        one(items, 3)
    }
}

fn bounds_of<'t>(part: Part<'_>, items: Items<'t>) -> Bounds<'t>
    ensures { pair_of result ≡ bounds_of (part_of part.entry) (items_left items.entry) }
{
    match part {
        Part::Number => one(items, 1),
        Part::Name => one(items, 2),
        Part::Sender => one(items, 5),
        Part::Multiplexor => multiplexor(items),
        Part::Position => between(after_colon(items), 0, 4),
        Part::Length => one(after_colon(items), 2),
        Part::Scale => between(after_colon(items), 7, 9),
        Part::Receiver(name) => receiver(items, name),
        Part::FloatKind => kind(items),
        Part::Value(wanted) => value(items, wanted),
        Part::Key(count) => between(items, 0, count.saturating_sub(1)),
    }
}

// The bytes between two items of a text of this many bytes, where the first token of the statement is in this line.
fn range_between(size: usize, line: u64, bounds: Bounds<'_>) -> Range
    ensures { result ≡ range_between size line (pair_of bounds.entry) }
{
    match bounds {
        (Some(first), Some(last)) => Range {
            line: line.wrapping_add(first.first.line.saturating_sub(1)),
            from: size.saturating_sub(first.first.left),
            to: size.saturating_sub(last.last.left.saturating_sub(last.last.bytes.len())),
        },
        _ => Range {
            line,
            from: 0,
            to: 0,
        },
    }
}

// The items of a text from the start of a statement on.
fn items_at(text: &[u8], start: Start) -> Items<'_>
    ensures { items_left result ≡ items_at text.now start }
{
    let (_, rest) = text.split_at(text.len().saturating_sub(start.left));
    Items {
        tokens: tokens(rest),
    }
}

/// The range of a part of the statement, or signal, that begins there in the text.
pub fn range_of(text: &[u8], start: Start, part: Part<'_>) -> Range
    ensures { result ≡ range_of text.now start (part_of part.entry) }
{
    let bounds = bounds_of(part, items_at(text, start));
    range_between(text.len(), start.line, bounds)
}
