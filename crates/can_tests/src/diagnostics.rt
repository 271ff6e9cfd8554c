//! What no contract states: that calls succeed, and one line of each form.

use byte_devices::WriteFault;
use byte_devices::limp::Limp;
use can_diagnostics::{Code, Diagnostic, Subject, write_diagnostic, write_lines};
use dbc_records::{DatabaseEntry, EntryKey, Head, Object, Signal, TableRow, Tag, Target};
use dbc_values::{Copied, Decimal, List, Name, Text};
use std::alloc::Global;
use std::test::Fail;

fn name(alloc: Global, bytes: &[u8]) -> Result<Name, Fail> {
    match Name::new(alloc, bytes)? {
        Some(name) => Ok(name),
        None => Err(Fail::from("no name")),
    }
}

fn text(alloc: Global, bytes: &[u8]) -> Result<Text, Fail> {
    match Text::new(alloc, bytes)? {
        Some(text) => Ok(text),
        None => Err(Fail::from("no text")),
    }
}

// Whether the line is this one, at a sink that takes 5 bytes at a time.
fn is_written(alloc: Global, found: &Diagnostic, wanted: &[u8]) -> bool {
    let mut sink = Limp::new(Vec::new(alloc), 5, u64::MAX, usize::MAX);
    write_diagnostic(found, &mut sink).is_ok() && sink.bytes() == wanted
}

fn is_line(alloc: Global, code: Code, subject: Subject, wanted: &[u8]) -> bool {
    is_written(alloc, &Diagnostic { code, subject }, wanted)
}

fn is_row(alloc: Global, key: EntryKey, wanted: &[u8]) -> bool {
    is_line(alloc, Code::RepeatedRow, Subject::Row(key), wanted)
}

#[test]
fn messages(rt: HostRuntime) -> Result<(), Fail> {
    let alloc = rt.alloc();
    let found = Subject::Message(500, name(alloc, b"Motor")?);
    assert!(rt;
        is_line(
            alloc,
            Code::BadIdentifier,
            found,
            b"1 BadIdentifier 500 Motor"
        )
    );
    let found = Subject::Sender(500, name(alloc, b"Motor")?, name(alloc, b"Gate")?);
    assert!(rt;
        is_line(
            alloc,
            Code::UnknownNode,
            found,
            b"13 UnknownNode 500 Motor Gate"
        )
    );
    Ok(())
}

#[test]
fn signals(rt: HostRuntime) -> Result<(), Fail> {
    let alloc = rt.alloc();
    let found = Subject::Signal(500, name(alloc, b"Motor")?, name(alloc, b"Speed")?);
    assert!(rt; is_line(alloc, Code::Outside, found, b"5 Outside 500 Motor.Speed"));
    let found = Subject::Value(7, name(alloc, b"M")?, name(alloc, b"S")?, -3);
    assert!(rt;
        is_line(
            alloc,
            Code::ValueOutOfRange,
            found,
            b"14 ValueOutOfRange 7 M.S -3"
        )
    );
    Ok(())
}

#[test]
fn rows_of_signals(rt: HostRuntime) -> Result<(), Fail> {
    let alloc = rt.alloc();
    let key = EntryKey::Values(500, name(alloc, b"X")?);
    assert!(rt; is_row(alloc, key, b"17 RepeatedRow VAL_ 500 X"));
    let key = EntryKey::Float(5, name(alloc, b"S")?);
    assert!(rt; is_row(alloc, key, b"17 RepeatedRow SIG_VALTYPE_ 5 S"));
    Ok(())
}

#[test]
fn attributes(rt: HostRuntime) -> Result<(), Fail> {
    let alloc = rt.alloc();
    let key = EntryKey::Attribute(text(alloc, b"a\r\nb")?, Target::Message(5));
    assert!(rt; is_row(alloc, key, b"17 RepeatedRow BA_ \"a  b\" BO_ 5"));
    let key = EntryKey::Definition(Some(Object::Message), text(alloc, b"n")?);
    assert!(rt; is_row(alloc, key, b"17 RepeatedRow BA_DEF_ BO_ \"n\""));
    Ok(())
}

#[test]
fn comments(rt: HostRuntime) -> Result<(), Fail> {
    let alloc = rt.alloc();
    assert!(rt;
        is_row(
            alloc,
            EntryKey::Comment(Target::Whole),
            b"17 RepeatedRow CM_"
        )
    );
    let target = Target::Node(name(alloc, b"n")?);
    assert!(rt;
        is_row(
            alloc,
            EntryKey::Comment(target),
            b"17 RepeatedRow CM_ BU_ n"
        )
    );
    Ok(())
}

fn head(alloc: Global) -> Result<Head, Fail> {
    match Head::new(7, name(alloc, b"M")?, 8, name(alloc, b"Gate")?) {
        Some(head) => Ok(head),
        None => Err(Fail::from("no head")),
    }
}

fn one() -> Result<Decimal, Fail> {
    match Decimal::read(b"1") {
        Some(one) => Ok(one),
        None => Err(Fail::from("no decimal")),
    }
}

fn signal(alloc: Global, bytes: &[u8]) -> Result<Signal, Fail> {
    let n = one()?;
    let receivers = List::new(alloc);
    let name = name(alloc, bytes)?;
    let unit = text(alloc, b"")?;
    match Signal::new(
        name,
        Tag::Plain,
        0,
        8,
        true,
        false,
        n,
        n,
        n,
        n,
        unit,
        receivers,
    ) {
        Some(signal) => Ok(signal),
        None => Err(Fail::from("no signal")),
    }
}

// A message's first line and two of its signals.
#[derive(Drop)]
struct Parts {
    head: Head,
    first: Signal,
    second: Signal,
}

fn new_parts(alloc: Global) -> Result<Parts, Fail> {
    Ok(Parts {
        head: head(alloc)?,
        first: signal(alloc, b"S")?,
        second: signal(alloc, b"T")?,
    })
}

fn of_message(alloc: Global, parts: &Parts) -> Result<bool, Fail> {
    let found = Diagnostic::of_message(Code::SharedName, &parts.head)?;
    Ok(is_written(alloc, &found, b"3 SharedName 7 M"))
}

fn of_sender(alloc: Global, parts: &Parts) -> Result<bool, Fail> {
    let found = Diagnostic::of_sender(Code::UnknownNode, &parts.head)?;
    Ok(is_written(alloc, &found, b"13 UnknownNode 7 M Gate"))
}

fn of_signal(alloc: Global, parts: &Parts) -> Result<bool, Fail> {
    let found = Diagnostic::of_signal(Code::Outside, &parts.head, &parts.first)?;
    Ok(is_written(alloc, &found, b"5 Outside 7 M.S"))
}

fn of_pair(alloc: Global, parts: &Parts) -> Result<bool, Fail> {
    let found = Diagnostic::of_pair(Code::Overlap, &parts.head, &parts.first, &parts.second)?;
    Ok(is_written(alloc, &found, b"6 Overlap 7 M.S M.T"))
}

fn of_receiver(alloc: Global, parts: &Parts) -> Result<bool, Fail> {
    let Parts { head, first, .. } = parts;
    let found = Diagnostic::of_receiver(Code::UnknownNode, head, first, &head.sender)?;
    Ok(is_written(alloc, &found, b"13 UnknownNode 7 M.S Gate"))
}

fn of_value(alloc: Global, parts: &Parts) -> Result<bool, Fail> {
    let found = Diagnostic::of_value(Code::RepeatedValue, &parts.head, &parts.first, 2)?;
    Ok(is_written(alloc, &found, b"15 RepeatedValue 7 M.S 2"))
}

fn all_made(alloc: Global, parts: &Parts) -> Result<[bool; 6], Fail> {
    Ok([
        of_message(alloc, parts)?,
        of_sender(alloc, parts)?,
        of_signal(alloc, parts)?,
        of_pair(alloc, parts)?,
        of_receiver(alloc, parts)?,
        of_value(alloc, parts)?,
    ])
}

// A function that owns such parts and has many exits takes long to prove, so they are reported at once.
fn made_of_parts(alloc: Global) -> Result<[bool; 6], Fail> {
    let parts = new_parts(alloc)?;
    all_made(alloc, &parts)
}

#[test]
fn made_of_messages_and_signals(rt: HostRuntime) -> Result<(), Fail> {
    assert_eq!(rt; made_of_parts(rt.alloc())?, [true; 6]);
    Ok(())
}

fn table(alloc: Global) -> Result<TableRow, Fail> {
    match TableRow::new(name(alloc, b"T")?, List::new(alloc)) {
        Some(table) => Ok(table),
        None => Err(Fail::from("no table")),
    }
}

fn key_of_table(alloc: Global) -> Result<EntryKey, Fail> {
    let table = table(alloc)?;
    Ok(table.owned_key()?)
}

fn of_copied_key(alloc: Global, key: &EntryKey) -> Result<bool, Fail> {
    let found = Diagnostic::of_row(Code::RepeatedRow, key.copy()?);
    Ok(is_written(alloc, &found, b"17 RepeatedRow VAL_TABLE_ T"))
}

fn made_of_table(alloc: Global) -> Result<bool, Fail> {
    let key = key_of_table(alloc)?;
    of_copied_key(alloc, &key)
}

#[test]
fn made_of_rows(rt: HostRuntime) -> Result<(), Fail> {
    assert!(rt; made_of_table(rt.alloc())?);
    Ok(())
}

fn of_message_and_sender(alloc: Global) -> Result<[Diagnostic; 2], Fail> {
    let head = head(alloc)?;
    both_of(&head)
}

fn both_of(head: &Head) -> Result<[Diagnostic; 2], Fail> {
    let message = Diagnostic::of_message(Code::SharedName, head)?;
    Ok([message, Diagnostic::of_sender(Code::UnknownNode, head)?])
}

fn are_written(alloc: Global, found: &[Diagnostic], wanted: &[u8]) -> bool {
    let mut sink = Limp::new(Vec::new(alloc), 5, u64::MAX, usize::MAX);
    write_lines(found, &mut sink).is_ok() && sink.bytes() == wanted
}

fn both_written(alloc: Global) -> Result<bool, Fail> {
    let found = of_message_and_sender(alloc)?;
    Ok(are_written(
        alloc,
        &found,
        b"3 SharedName 7 M\n13 UnknownNode 7 M Gate\n",
    ))
}

#[test]
fn several(rt: HostRuntime) -> Result<(), Fail> {
    assert!(rt; both_written(rt.alloc())?);
    Ok(())
}

#[test]
fn a_sink_that_fails(rt: HostRuntime) -> Result<(), Fail> {
    let alloc = rt.alloc();
    let message = Diagnostic::of_message(Code::SharedName, &head(alloc)?)?;
    let mut sink = Limp::new(Vec::new(alloc), 5, u64::MAX, 8);
    assert_eq!(rt; write_lines(&[message], &mut sink), Err(WriteFault));
    assert_eq!(rt; sink.bytes(), b"3 Shared".as_slice());
    Ok(())
}
