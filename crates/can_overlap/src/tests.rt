//! Two signals after the end of a message of one byte, and multiplexed signals, by hand.
ghost use Rattle.std.specs.Prelude.{◌≡◌, ◌≤◌, length};

use crate::agreeing::together;
use crate::apart::are_disjoint_in_sequence;
use crate::indexes::IndexSet;
use crate::occupancy::Occupancy;
use crate::pair::Pair;
use crate::ranges::{in_order, meet};
use crate::table::{empty, grow, mark_all};
use can_bits::Field;
use can_entries::{Link, Walk};
use dbc_records::{ByteOrder, Numbers, Range};
use dbc_values::{List, Memory};
use std::alloc::Global;
use std::test::Fail;

// The multiplexing chain from a signal that is present for the raw values from `first` to `last` of the signal at index 0.
fn switched(alloc: Global, first: u64, last: u64) -> Result<Walk, Memory> {
    let mut ranges = List::new(alloc);
    ranges.push(Range { first, last })?;
    let mut links = List::new(alloc);
    links.push(Link::new(0, Numbers::of(alloc, ranges)?))?;
    Ok(Walk::Chain(links))
}

fn there(alloc: Global) -> Walk {
    Walk::Chain(List::new(alloc))
}

const fn intel(start: u16, length: u16) -> Field {
    Field {
        start,
        length,
        order: ByteOrder::Intel,
    }
}

const fn pair(first: usize, second: usize) -> Pair {
    Pair { first, second }
}

// The table of two fields.
fn rows_of(alloc: Global, fields: &[Field; 2]) -> Result<Vec<IndexSet>, Memory> {
    let mut rows = empty(alloc);
    grow(&mut rows, fields)?;
    mark_all(&mut rows, fields);
    Ok(rows)
}

// Whether the row of a position has both of the indexes 0 and 1.
fn has_both(rows: &[IndexSet], position: usize) -> bool {
    match rows.get(position) {
        Some(row) => row.next_from(0) == 0 && row.next_from(1) == 1,
        None => false,
    }
}

#[test]
fn table_after_the_end(rt: HostRuntime) -> Result<(), Fail> {
    let rows = rows_of(rt.alloc(), &[intel(8, 8), intel(12, 8)])?;
    for position in 0..rows.len() {
        let inside = 12 <= position && position < 16;
        assert_eq!(rt; has_both(&rows, position), inside);
    }
    Ok(())
}

// The pairs of all signals of a message.
fn pairs_of(alloc: Global, fields: &[Field], walks: &[Walk]) -> Result<Vec<Pair>, Memory>
    requires lengths { length walks.now ≡ length fields.now }
    requires few { length fields.now ≤ 999 }
{
    let mut found = Vec::new(alloc);
    let marked = Occupancy::new(alloc).marked(fields, walks)?;
    for first in 0..fields.len() {
        marked.push_pairs(&mut found, first)?;
    }
    let _ = marked.cleared();
    Ok(found)
}

#[test]
fn after_the_end(rt: HostRuntime) -> Result<(), Fail> {
    let fields = [intel(8, 8), intel(12, 8)];
    let walks = [there(rt.alloc()), there(rt.alloc())];
    let found = pairs_of(rt.alloc(), &fields, &walks)?;
    assert_eq!(rt; found.as_slice(), [pair(0, 1)].as_slice());
    Ok(())
}

#[test]
fn on_one_switch(rt: HostRuntime) -> Result<(), Fail> {
    let fields = [intel(0, 8), intel(0, 8), intel(0, 8), intel(0, 8)];
    let zero = switched(rt.alloc(), 0, 0)?;
    let one = switched(rt.alloc(), 1, 1)?;
    let both = switched(rt.alloc(), 0, 1)?;
    let walks = [zero, one, both, Walk::Loop];
    let found = pairs_of(rt.alloc(), &fields, &walks)?;
    assert_eq!(rt; found.as_slice(), [pair(0, 2), pair(1, 2)].as_slice());
    Ok(())
}

#[test]
fn multiplexing_chains(rt: HostRuntime) -> Result<(), Fail> {
    let zero = switched(rt.alloc(), 0, 0)?;
    let one = switched(rt.alloc(), 1, 1)?;
    assert!(rt; !together(&zero, &one));
    assert!(rt; together(&zero, &there(rt.alloc())));
    assert!(rt; !together(&zero, &Walk::Loop));
    Ok(())
}

// The link below a multiplexor (switch) of a chain. The link below the one at index 2 has the raw values from 7 to `last`, between
// ranges that have none.
fn link_below(alloc: Global, switch: usize, last: u64) -> Result<Link, Memory> {
    let mut ranges = List::new(alloc);
    ranges.push(Range { first: 9, last: 0 })?;
    let last = if switch == 2 { last } else { 7 };
    ranges.push(Range { first: 7, last })?;
    Ok(Link::new(switch, Numbers::of(alloc, ranges)?))
}

// The multiplexing chain from the signal at an index, where each is under the one before.
fn way_of(alloc: Global, index: usize, last: u64) -> Result<Walk, Memory> {
    let mut links = List::new(alloc);
    for switch in (0..index).rev() {
        links.push(link_below(alloc, switch, last)?)?;
    }
    Ok(Walk::Chain(links))
}

// How many pairs are found among five signals on one bit, each under the one before.
fn pairs_on_a_chain(alloc: Global, last: u64) -> Result<usize, Memory> {
    let fields = [
        intel(0, 8),
        intel(0, 8),
        intel(0, 8),
        intel(0, 8),
        intel(0, 8),
    ];
    let walks = [
        way_of(alloc, 0, last)?,
        way_of(alloc, 1, last)?,
        way_of(alloc, 2, last)?,
        way_of(alloc, 3, last)?,
        way_of(alloc, 4, last)?,
    ];
    let found = pairs_of(alloc, &fields, &walks)?;
    Ok(found.len())
}

#[test]
fn on_a_chain(rt: HostRuntime) -> Result<(), Fail> {
    let all = pairs_on_a_chain(rt.alloc(), 7)?;
    assert_eq!(rt; all, 10);
    let without = pairs_on_a_chain(rt.alloc(), 6)?;
    assert_eq!(rt; without, 9);
    Ok(())
}

fn do_meet(alloc: Global, these: &[Range], those: &[Range]) -> Result<bool, Memory> {
    let these = in_order(alloc, these)?;
    let those = in_order(alloc, those)?;
    Ok(meet(&these, &those))
}

#[test]
fn ranges_in_any_order(rt: HostRuntime) -> Result<(), Fail> {
    let these = [
        Range { first: 7, last: 9 },
        Range { first: 4, last: 3 },
        Range { first: 0, last: 2 },
    ];
    let touching = do_meet(rt.alloc(), &these, &[Range { first: 2, last: 6 }])?;
    assert!(rt; touching);
    let between = do_meet(rt.alloc(), &these, &[Range { first: 3, last: 6 }])?;
    assert!(rt; !between);
    Ok(())
}

// Four signals of 16 bits, one after the other in either byte order, and one that shares a bit with the first.
#[test]
fn signals_after_each_other(rt: HostRuntime) -> Result<(), Fail> {
    let motorola = |start| Field {
        start,
        length: 16,
        order: ByteOrder::Motorola,
    };
    assert_eq!(rt;
        are_disjoint_in_sequence(&[intel(48, 16), intel(0, 16), intel(16, 16), intel(32, 16)]),
        true
    );
    assert_eq!(rt;
        are_disjoint_in_sequence(&[motorola(7), motorola(23), motorola(39)]),
        true
    );
    assert_eq!(rt;
        are_disjoint_in_sequence(&[intel(0, 16), intel(16, 16), intel(15, 1)]),
        false
    );
    Ok(())
}
