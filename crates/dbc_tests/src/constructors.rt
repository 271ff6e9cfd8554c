//! A database that is made by constructors alone, and how it is printed.

use crate::numbers::decimal;
use crate::values::name;
use dbc_model::{FromWrite, print};
use dbc_records::{Comment, Database, Head, Message, Signal, Tag, Target};
use dbc_values::{Decimal, List, Text};
use std::alloc::Global;
use std::test::Fail;

// The database as it is printed, with a byte of Latin-1 in a comment.
const PRINTED: &[u8] =
    b"VERSION \"\"\nNS_ :\nBS_:\nBU_:\nBO_ 1 A: 8 N\n SG_ S : 0|8@1+ (0.00001,1) [0.5|5] \"\"\nCM_ \"a\nb\\\"c\xFC\";\n";

fn text(alloc: Global, bytes: &[u8]) -> Result<Text, Fail> {
    Ok(Text::new(alloc, bytes)?.ok_or("no text")?)
}

fn head(alloc: Global) -> Result<Head, Fail> {
    let own = name(alloc, b"A")?;
    let sender = name(alloc, b"N")?;
    Ok(Head::new(1, own, 8, sender).ok_or("no head")?)
}

// Factor, offset, minimum and maximum.
fn decimals() -> Result<[Decimal; 4], Fail> {
    Ok([
        decimal(b"1E-005")?,
        decimal(b"1.0")?,
        decimal(b".5")?,
        decimal(b"5.")?,
    ])
}

fn signal(alloc: Global) -> Result<Signal, Fail> {
    let [factor, offset, minimum, maximum] = decimals()?;
    let own = name(alloc, b"S")?;
    let unit = text(alloc, b"")?;
    let receivers = List::new(alloc);
    Ok(Signal::new(
        own,
        Tag::Plain,
        0,
        8,
        true,
        false,
        factor,
        offset,
        minimum,
        maximum,
        unit,
        receivers,
    )
    .ok_or("no signal")?)
}

fn message(alloc: Global) -> Result<Message, Fail> {
    let head = head(alloc)?;
    let mut signals = List::new(alloc);
    signals.push(signal(alloc)?)?;
    Ok(Message::new(head, signals).ok_or("no message")?)
}

fn comment(alloc: Global) -> Result<Comment, Fail> {
    let text = text(alloc, b"a\nb\\\"c\xFC")?;
    Ok(Comment::new(Target::Whole, text).ok_or("no comment")?)
}

fn messages(alloc: Global) -> Result<List<Message>, Fail> {
    let mut messages = List::new(alloc);
    messages.push(message(alloc)?)?;
    Ok(messages)
}

fn comments(alloc: Global) -> Result<List<Comment>, Fail> {
    let mut comments = List::new(alloc);
    comments.push(comment(alloc)?)?;
    Ok(comments)
}

fn database(alloc: Global) -> Result<Database, Fail> {
    let version = text(alloc, b"")?;
    let messages = messages(alloc)?;
    let comments = comments(alloc)?;
    Ok(Database::new(
        version,
        List::new(alloc),
        None,
        List::new(alloc),
        List::new(alloc),
        messages,
        comments,
        List::new(alloc),
        List::new(alloc),
        List::new(alloc),
        List::new(alloc),
        List::new(alloc),
        List::new(alloc),
        List::new(alloc),
    )
    .ok_or("no database")?)
}

fn is_printed(alloc: Global, database: &Database) -> Result<bool, Fail> {
    let mut sink = FromWrite::new(Vec::new(alloc));
    print(database, &mut sink).or(Err("no print"))?;
    Ok(sink.into_inner().as_slice() == PRINTED)
}

fn is_made_and_printed(alloc: Global) -> Result<bool, Fail> {
    let database = database(alloc)?;
    is_printed(alloc, &database)
}

#[test]
fn database_by_constructors(rt: HostRuntime) -> Result<(), Fail> {
    assert!(rt; is_made_and_printed(rt.alloc())?);
    Ok(())
}
