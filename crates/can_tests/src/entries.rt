//! That value descriptions are found, decoded and checked, whatever the order of their raw values: more than sixteen, and sixteen.

use crate::reading::database;
use can_check::{Code, Diagnostic, Subject, all_faults};
use can_decode::{Short, decode_line};
use can_layout::{Decoder, Meter, Plan, Reading, make_plans};
use dbc_records::{Database, EntryOrder, entry_order};
use dbc_values::Memory;
use std::alloc::Global;
use std::test::Fail;

// Signals whose raw values rise, fall, are in no order, rise except for one that is repeated, and, signed, fall: seventeen of each.
// Then sixteen that rise, and sixteen that fall except for one that is repeated.
const SEVEN: &[u8] = b"\
BU_: N
BO_ 5 A: 7 N
 SG_ Rising : 0|8@1+ (1,0) [0|0] \"\" N
 SG_ Falling : 8|8@1+ (1,0) [0|0] \"\" N
 SG_ Mixed : 16|8@1+ (1,0) [0|0] \"\" N
 SG_ Twice : 24|8@1+ (1,0) [0|0] \"\" N
 SG_ Signed : 32|8@1- (1,0) [0|0] \"\" N
 SG_ RisingFew : 40|8@1+ (1,0) [0|0] \"\" N
 SG_ TwiceFew : 48|8@1+ (1,0) [0|0] \"\" N
VAL_ 5 Rising 100 \"a\" 102 \"b\" 104 \"c\" 106 \"d\" 108 \"e\" 110 \"f\" 112 \"g\" 114 \"h\" 116 \"i\"
 118 \"j\" 120 \"k\" 122 \"l\" 124 \"m\" 126 \"n\" 128 \"o\" 130 \"p\" 132 \"q\";
VAL_ 5 Falling 132 \"a\" 130 \"b\" 128 \"c\" 126 \"d\" 124 \"e\" 122 \"f\" 120 \"g\" 118 \"h\" 116 \"i\"
 114 \"j\" 112 \"k\" 110 \"l\" 108 \"m\" 106 \"n\" 104 \"o\" 102 \"p\" 100 \"q\";
VAL_ 5 Mixed 100 \"a\" 102 \"b\" 104 \"c\" 106 \"d\" 108 \"e\" 110 \"f\" 112 \"g\" 114 \"h\" 116 \"i\"
 118 \"j\" 120 \"k\" 122 \"l\" 124 \"m\" 126 \"n\" 128 \"o\" 132 \"p\" 130 \"q\";
VAL_ 5 Twice 100 \"a\" 102 \"b\" 104 \"c\" 104 \"d\" 106 \"e\" 108 \"f\" 110 \"g\" 112 \"h\" 114 \"i\"
 116 \"j\" 118 \"k\" 120 \"l\" 122 \"m\" 124 \"n\" 126 \"o\" 128 \"p\" 130 \"q\";
VAL_ 5 Signed 8 \"a\" 7 \"b\" 6 \"c\" 5 \"d\" 4 \"e\" 3 \"f\" 2 \"g\" 1 \"h\" 0 \"i\" -1 \"j\" -2 \"k\"
 -3 \"l\" -4 \"m\" -5 \"n\" -6 \"o\" -7 \"p\" -8 \"q\";
VAL_ 5 RisingFew 100 \"a\" 102 \"b\" 104 \"c\" 106 \"d\" 108 \"e\" 110 \"f\" 112 \"g\" 114 \"h\"
 116 \"i\" 118 \"j\" 120 \"k\" 122 \"l\" 124 \"m\" 126 \"n\" 128 \"o\" 130 \"p\";
VAL_ 5 TwiceFew 130 \"a\" 128 \"b\" 128 \"c\" 126 \"d\" 124 \"e\" 122 \"f\" 120 \"g\" 118 \"h\"
 116 \"i\" 114 \"j\" 112 \"k\" 110 \"l\" 108 \"m\" 106 \"n\" 104 \"o\" 102 \"p\";
";

// The order of the value descriptions of each `VAL_` entry.
const ORDERS: [(usize, Option<EntryOrder>); 7] = [
    (0, Some(EntryOrder::Rising)),
    (1, Some(EntryOrder::Falling)),
    (2, None),
    (3, None),
    (4, Some(EntryOrder::Falling)),
    (5, Some(EntryOrder::Rising)),
    (6, None),
];

// Signals, raw values and their first texts; an empty one if there is none.
const FOUND: [(usize, i128, &[u8]); 30] = [
    (0, 100, b"a"),
    (0, 116, b"i"),
    (0, 132, b"q"),
    (0, 99, b""),
    (0, 117, b""),
    (0, 133, b""),
    (1, 132, b"a"),
    (1, 116, b"i"),
    (1, 100, b"q"),
    (1, 133, b""),
    (1, 117, b""),
    (1, 99, b""),
    (2, 100, b"a"),
    (2, 132, b"p"),
    (2, 130, b"q"),
    (2, 131, b""),
    (3, 102, b"b"),
    (3, 104, b"c"),
    (3, 106, b"e"),
    (3, 130, b"q"),
    (3, 132, b""),
    (4, 8, b"a"),
    (4, 0, b"i"),
    (4, -1, b"j"),
    (4, -8, b"q"),
    (4, -9, b""),
    (5, 130, b"p"),
    (5, 132, b""),
    (6, 128, b"b"),
    (6, 126, b"d"),
];

const LINES: [(&[u8], &[u8]); 3] = [
    (
        b"(1.0) c 005#64646484F86480",
        b"(1.0) c 005#64646484F86480 :: A(Rising: a, Falling: q, Mixed: a, Twice: 132, Signed: q, RisingFew: a, TwiceFew: b)",
    ),
    (
        b"(1.0) c 005#84848482088282",
        b"(1.0) c 005#84848482088282 :: A(Rising: q, Falling: a, Mixed: p, Twice: q, Signed: a, RisingFew: p, TwiceFew: a)",
    ),
    (
        b"(1.0) c 005#75758368007566",
        b"(1.0) c 005#75758368007566 :: A(Rising: 117, Falling: 117, Mixed: 131, Twice: c, Signed: i, RisingFew: 117, TwiceFew: p)",
    ),
];

// Whether the value descriptions of each `VAL_` entry are in the order, or in none.
fn are_in_orders(database: &Database) -> bool {
    for (index, order) in ORDERS {
        match database.values.as_slice().get(index) {
            Some(row) if row.entries.order() == order => {}
            _ => return false,
        }
    }
    true
}

// How the signal at an index is read.
fn decoder_of(plan: &Plan, index: usize) -> Option<&Decoder> {
    if index >= plan.signals() {
        return None;
    }
    match &plan.row(index).reading {
        Reading::Read(decoder) => Some(decoder),
        Reading::Refused(_) => None,
    }
}

// Whether the first entry for a raw value has the text.
fn is_found(plan: &Plan, index: usize, raw: i128, wanted: &[u8]) -> bool {
    let Some(decoder) = decoder_of(plan, index) else {
        return false;
    };
    match decoder.entry(raw) {
        Some(entry) => entry.text.as_bytes() == wanted,
        None => wanted.is_empty(),
    }
}

fn all_found(plan: &Plan) -> bool {
    for (index, raw, wanted) in FOUND {
        if !is_found(plan, index, raw, wanted) {
            return false;
        }
    }
    true
}

// Whether the texts are those of the plan of the only message.
fn are_found(alloc: Global, database: &Database) -> Result<bool, Memory> {
    let plans = make_plans(alloc, database, &mut Meter::new())?;
    match plans.as_slice() {
        [plan] => Ok(all_found(plan)),
        _ => Ok(false),
    }
}

fn are_decoded(alloc: Global, database: &Database) -> Result<bool, Memory> {
    let mut meter = Meter::new();
    let plans = make_plans(alloc, database, &mut meter)?;
    let short = Short::Refuse;
    for (line, wanted) in LINES {
        let text = decode_line(alloc, database, plans.as_slice(), line, &mut meter, short)?;
        if text.as_slice() != wanted {
            return Ok(false);
        }
    }
    Ok(true)
}

// Whether a diagnostic is that a signal has an earlier value description for a raw value.
fn is_repeated(diagnostic: &Diagnostic, name: &[u8], raw: i128) -> bool {
    match &diagnostic.subject {
        Subject::Value(_, _, signal, value) => {
            diagnostic.code == Code::RepeatedValue && signal.as_bytes() == name && *value == raw
        }
        _ => false,
    }
}

// Whether the two repeated raw values are reported, and nothing else.
fn are_reported(alloc: Global, database: &Database) -> Result<bool, Memory> {
    let found = all_faults(alloc, database)?;
    match found.as_slice() {
        [first, second] => {
            Ok(is_repeated(first, b"Twice", 104) && is_repeated(second, b"TwiceFew", 128))
        }
        _ => Ok(false),
    }
}

fn all_right(alloc: Global, database: &Database) -> Result<bool, Memory> {
    Ok(
        are_in_orders(database)
            && are_found(alloc, database)?
            && are_decoded(alloc, database)?
            && are_reported(alloc, database)?,
    )
}

fn is_all_right(alloc: Global) -> Result<bool, Fail> {
    let database = database(alloc, SEVEN)?;
    Ok(all_right(alloc, &database)?)
}

#[test]
fn orders_of_numbers(rt: HostRuntime) -> Result<(), Fail> {
    assert!(rt; is_all_right(rt.alloc())?);
    Ok(())
}

#[test]
fn no_entries_rise(rt: HostRuntime) {
    assert_eq!(rt; entry_order(&[]), Some(EntryOrder::Rising));
}
