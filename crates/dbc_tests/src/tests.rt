//! What no contract states: that reading, printing, reading again and copying succeed, on every kind of statement.

use dbc_model::limp::Limp;
use dbc_model::{Copied, Database, FromWrite, WriteFault, print};
use dbc_read::{Cause, ReadFault, Statement, read, read_one, reread};
use dbc_records::{ByteOrder, ValueType};
use std::alloc::Global;
use std::test::Fail;

// a database as it is printed
const TEXT: &[u8] =
    b"VERSION \"1.0\"\nNS_ :\n\tCM_\nBS_: 0.5 : 0 , 0.5\nBU_: N K\nVAL_TABLE_ T -1 \"off\" 2 \"on\" ;\n\
BO_ 291 A: 8 N\n SG_ S m3M : 7|8@0- (0.5,-1) [0|0.5] \"km\" N,K\n SG_ M M : 0|1@1+ (1,0) [0|1] \"\"\nBO_ 7 B: 0 K\n\
CM_ \"d\";\nCM_ BU_ N \"n\";\nCM_ BO_ 291 \"b\";\nCM_ SG_ 291 S \"speed\";\n\
BA_DEF_ BO_ \"a\" ENUM \"yes\",\"no\";\nBA_DEF_ BU_ \"i\" INT 0 9;\nBA_DEF_ \"h\" HEX;\nBA_DEF_ SG_ \"f\" FLOAT -1 1;\n\
BA_DEF_ EV_ \"s\" STRING;\n\
BA_DEF_DEF_ \"a\" \"yes\";\nBA_DEF_DEF_ \"i\" 3;\nBA_ \"a\" 1;\nBA_ \"i\" BU_ N 0.5;\nBA_ \"a\" BO_ 291 \"no\";\n\
BA_ \"f\" SG_ 291 S -1;\n\
VAL_ 291 S -1 \"off\" ;\nSIG_VALTYPE_ 291 S : 2;\nSG_MUL_VAL_ 291 S M 5-18446744073709551615, 0-0;\nEV_ e : 0 ;\n";

fn whole(alloc: Global) -> Result<Database, Fail> {
    Ok(read(alloc, TEXT).ok().ok_or("no database")?)
}

fn printed(alloc: Global, database: &Database) -> Result<Vec<u8>, Fail> {
    let mut sink = FromWrite::new(Vec::new(alloc));
    print(database, &mut sink).or(Err("no print"))?;
    Ok(sink.into_inner())
}

fn is_printed(alloc: Global, database: &Database) -> Result<bool, Fail> {
    Ok(printed(alloc, database)?.as_slice() == TEXT)
}

fn copied(database: &Database) -> Result<Database, Fail> {
    Ok(database.copy()?)
}

// A function that owns a database and has many exits takes long to prove, so each database is passed on at once.
fn is_copied(alloc: Global, database: &Database) -> Result<bool, Fail> {
    let copy = copied(database)?;
    is_printed(alloc, &copy)
}

fn is_reread(alloc: Global, database: &Database) -> Result<bool, Fail> {
    let again = reread(alloc, database)?;
    is_printed(alloc, &again)
}

// Whether a copy is printed in this way, and a database that was printed and read again.
fn both_printed(alloc: Global, database: &Database) -> Result<(bool, bool), Fail> {
    Ok((is_copied(alloc, database)?, is_reread(alloc, database)?))
}

fn copied_and_reread(alloc: Global) -> Result<(bool, bool), Fail> {
    let database = whole(alloc)?;
    both_printed(alloc, &database)
}

#[test]
fn copies_and_rereads(rt: HostRuntime) -> Result<(), Fail> {
    let (copied, reread) = copied_and_reread(rt.alloc())?;
    assert!(rt; copied);
    assert!(rt; reread);
    Ok(())
}

// The byte order and the value type of the signal at an index in the first message.
fn bit_field_of(database: &Database, index: usize) -> Option<(ByteOrder, ValueType)> {
    let message = database.messages.as_slice().first()?;
    let signal = message.signals.as_slice().get(index)?;
    Some((signal.byte_order(), signal.value_type()))
}

fn bit_fields(alloc: Global) -> Result<[Option<(ByteOrder, ValueType)>; 2], Fail> {
    let database = whole(alloc)?;
    Ok([bit_field_of(&database, 0), bit_field_of(&database, 1)])
}

#[test]
fn orders_and_value_types(rt: HostRuntime) -> Result<(), Fail> {
    let [first, second] = bit_fields(rt.alloc())?;
    assert_eq!(rt; first, Some((ByteOrder::Motorola, ValueType::Signed)));
    assert_eq!(rt; second, Some((ByteOrder::Intel, ValueType::Unsigned)));
    assert!(rt; !ByteOrder::Motorola.is_intel() && ByteOrder::Intel.is_intel());
    assert!(rt; !ValueType::Unsigned.is_signed() && ValueType::Signed.is_signed());
    Ok(())
}

#[test]
fn refuses_a_text(rt: HostRuntime) {
    let fault = ReadFault {
        line: 2,
        cause: Cause::Statement,
    };
    assert_eq!(rt; read(rt.alloc(), b"BS_:\nBS_:").err(), Some(fault));
}

// The CAN identifier of the message whose first line is the text.
fn number_of(alloc: Global, text: &[u8]) -> Option<u32> {
    match read_one(alloc, text) {
        Ok(Statement::Head(head)) => Some(head.number),
        _ => None,
    }
}

#[test]
fn reads_a_statement(rt: HostRuntime) {
    let number = number_of(rt.alloc(), b" BO_ 291 M: 8 A // the motor");
    assert_eq!(rt; number, Some(291));
}

// The cause for which the text is rejected as one statement, or nothing if it is one.
fn cause_of(alloc: Global, text: &[u8]) -> Option<Cause> {
    match read_one(alloc, text) {
        Ok(_) => None,
        Err(fault) => Some(fault.cause),
    }
}

#[test]
fn statements_that_stand_alone(rt: HostRuntime) {
    let statements: [&[u8]; 6] = [
        b"BO_ 291 M: 8 A",
        b"SG_ S m0 : 0|8@1+ (1,0) [0|0] \"\" N",
        b"VAL_TABLE_ T 0 \"a\" ;",
        b"VAL_ 291 S 0 \"a\" ;",
        b"SG_MUL_VAL_ 291 S M 0-1, 3-5;",
        b"BA_ \"a\" BO_ 291 1;",
    ];
    for text in statements {
        assert_eq!(rt; cause_of(rt.alloc(), text), None);
    }
    let others: [&[u8]; 8] = [
        b"",
        b"BU_: X",
        b"VAL_ X 0 \"a\" ;",
        b"CM_ \"x\";",
        b"BO_ 291 M: 8 A SG_ S : 0|8@1+ (1,0) [0|0] \"\"",
        b"BA_ \"a\" 1;",
        b"BA_ \"a\" SG_ 291 S 1;",
        b"VAL_TABLE_ T ; VAL_TABLE_ T ;",
    ];
    for text in others {
        assert_eq!(rt; cause_of(rt.alloc(), text), Some(Cause::Statement));
    }
}

fn breaks_at(alloc: Global, database: &Database, limit: usize) -> bool {
    let mut sink = Limp::new(Vec::new(alloc), 16, u64::MAX, limit);
    print(database, &mut sink) == Err(WriteFault) && sink.bytes() == &TEXT[..limit.min(TEXT.len())]
}

// Whether all is printed to a sink that takes one byte a call.
fn is_printed_slowly(alloc: Global, database: &Database) -> bool {
    let mut slow = Limp::new(Vec::new(alloc), 1, u64::MAX, usize::MAX);
    print(database, &mut slow) == Ok(()) && slow.bytes() == TEXT
}

// Where a sink that fails there doesn't end the printing in this way, if anywhere.
fn unbroken(alloc: Global, database: &Database) -> Option<usize> {
    for limit in 0..TEXT.len() {
        if !breaks_at(alloc, database, limit) {
            return Some(limit);
        }
    }
    None
}

fn both_ended(alloc: Global, database: &Database) -> (bool, Option<usize>) {
    (
        is_printed_slowly(alloc, database),
        unbroken(alloc, database),
    )
}

fn limped(alloc: Global) -> Result<(bool, Option<usize>), Fail> {
    let database = whole(alloc)?;
    Ok(both_ended(alloc, &database))
}

#[test]
fn limping_sinks(rt: HostRuntime) -> Result<(), Fail> {
    let (is_whole, unbroken) = limped(rt.alloc())?;
    assert!(rt; is_whole);
    assert_eq!(rt; unbroken, None);
    Ok(())
}
