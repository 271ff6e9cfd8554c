//! That lines are decoded, in whatever pieces they come and by either choice for truncated frames, and what is written
//! if a device fails.

use crate::reading::database;
use byte_devices::limp::Limp;
use can_decode::{Short, StreamFault, decode_line, decode_stream};
use can_layout::{Meter, make_plans};
use dbc_records::Database;
use dbc_values::Memory;
use std::alloc::Global;
use std::test::Fail;

const TWO: &[u8] =
    b"BO_ 291 A: 2 N\n SG_ S : 0|8@1+ (1,0) [0|0] \"\"\n SG_ T : 8|8@1+ (1,0) [0|0] \"\"\n";

const LOG: &[u8] = b"(1.0) c 123#R8\r\n(1.0) c 123##1aabb\r\nhello\r\n\r\n(1.0)  c  123#0102 R";

const DECODED: &[u8] = b"\
(1.0) c 123#R8 :: Remote frame
(1.0) c 123##1aabb :: A(S: 170, T: 187)
hello

(1.0)  c  123#0102 R :: A(S: 1, T: 2)
";

// Decodes what the source has left, by the database.
fn decode(
    alloc: Global,
    database: &Database,
    source: &mut Limp,
    sink: &mut Limp,
) -> Result<Result<u64, StreamFault>, Memory> {
    let mut meter = Meter::new();
    let plans = make_plans(alloc, database, &mut meter)?;
    let short = Short::Refuse;
    Ok(decode_stream(
        alloc,
        database,
        plans.as_slice(),
        &mut meter,
        source,
        sink,
        short,
    ))
}

// The log, in pieces of at most this many bytes, of which this many can be read.
fn log(alloc: Global, most: usize, read: usize) -> Result<Limp, Memory> {
    Ok(Limp::new(LOG.to_vec(alloc)?, most.max(1), u64::MAX, read))
}

// Whether the log ends in this way, and with this output, if this many bytes of it can be written.
fn ends(
    alloc: Global,
    database: &Database,
    mut source: Limp,
    written: usize,
    wanted: Result<u64, StreamFault>,
    output: &[u8],
) -> Result<bool, Memory> {
    let mut sink = Limp::new(Vec::new(alloc), 1000, u64::MAX, written);
    let ended = decode(alloc, database, &mut source, &mut sink)?;
    Ok(ended == wanted && sink.bytes() == output)
}

// Whether all is decoded from pieces of at most this many bytes.
fn is_decoded(alloc: Global, database: &Database, most: usize) -> Result<bool, Memory> {
    let source = log(alloc, most, usize::MAX)?;
    ends(alloc, database, source, usize::MAX, Ok(5), DECODED)
}

// Whether all is decoded from pieces of several sizes.
fn all_decoded(alloc: Global, database: &Database) -> Result<bool, Fail> {
    for most in [1, 2, 7, 4096] {
        if !is_decoded(alloc, database, most)? {
            return Ok(false);
        }
    }
    Ok(true)
}

fn is_decoded_in_pieces(alloc: Global) -> Result<bool, Fail> {
    let database = database(alloc, TWO)?;
    all_decoded(alloc, &database)
}

#[test]
fn pieces(rt: HostRuntime) -> Result<(), Fail> {
    assert!(rt; is_decoded_in_pieces(rt.alloc())?);
    Ok(())
}

// Whether the log ends in this way with a prefix of its output, if this many bytes of both can be moved.
fn breaks_off(
    alloc: Global,
    database: &Database,
    mut source: Limp,
    written: usize,
    wanted: StreamFault,
) -> Result<usize, Memory> {
    let mut sink = Limp::new(Vec::new(alloc), 1000, u64::MAX, written);
    let ended = decode(alloc, database, &mut source, &mut sink)?;
    if ended == Err(wanted) && DECODED.starts_with(sink.bytes()) {
        Ok(sink.bytes().len())
    } else {
        Ok(usize::MAX)
    }
}

// How much is written if a read fails within the second line.
fn unread(alloc: Global, database: &Database) -> Result<usize, Memory> {
    let source = log(alloc, 9, 25)?;
    breaks_off(alloc, database, source, usize::MAX, StreamFault::Read)
}

// How much is written if this many bytes can be.
fn unwritten(alloc: Global, database: &Database, written: usize) -> Result<usize, Memory> {
    let source = log(alloc, 4096, usize::MAX)?;
    breaks_off(alloc, database, source, written, StreamFault::Write)
}

// Whether as much is written as can be, wherever writing fails.
fn all_written(alloc: Global, database: &Database) -> Result<bool, Fail> {
    for most in 0..DECODED.len() {
        if unwritten(alloc, database, most)? != most {
            return Ok(false);
        }
    }
    Ok(true)
}

// How much is written if reading fails, and whether as much as possible is written if writing fails.
fn broken_off(alloc: Global) -> Result<(usize, bool), Fail> {
    let database = database(alloc, TWO)?;
    both_broken_off(alloc, &database)
}

fn both_broken_off(alloc: Global, database: &Database) -> Result<(usize, bool), Fail> {
    Ok((unread(alloc, database)?, all_written(alloc, database)?))
}

#[test]
fn failing_devices(rt: HostRuntime) -> Result<(), Fail> {
    let (unread, all_written) = broken_off(rt.alloc())?;
    assert_eq!(rt; unread, 31);
    assert!(rt; all_written);
    Ok(())
}

// Lines, the option for truncated frames, and their decoded lines.
const LINES: [(&[u8], Short, &[u8]); 3] = [
    (
        b"(1.0)  c  123#0102 R\r",
        Short::Refuse,
        b"(1.0)  c  123#0102 R :: A(S: 1, T: 2)",
    ),
    (
        b"(1.0) c 123#01",
        Short::Refuse,
        b"(1.0) c 123#01 :: Wrong data size: 1 instead of 2 bytes",
    ),
    (b"(1.0) c 123#01", Short::Show, b"(1.0) c 123#01 :: A(S: 1)"),
];

// Whether each line is decoded in this way by itself, and counted.
fn are_lines_decoded(alloc: Global, database: &Database) -> Result<bool, Memory> {
    let mut meter = Meter::new();
    let plans = make_plans(alloc, database, &mut meter)?;
    for (line, short, wanted) in LINES {
        let text = decode_line(alloc, database, plans.as_slice(), line, &mut meter, short)?;
        if text.as_slice() != wanted {
            return Ok(false);
        }
    }
    Ok(meter.lines() == 3)
}

fn is_decoded_alone(alloc: Global) -> Result<bool, Fail> {
    let database = database(alloc, TWO)?;
    Ok(are_lines_decoded(alloc, &database)?)
}

#[test]
fn a_line_by_itself(rt: HostRuntime) -> Result<(), Fail> {
    assert!(rt; is_decoded_alone(rt.alloc())?);
    Ok(())
}
