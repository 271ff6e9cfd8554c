//! Scripts of sessions.

use crate::chance::Chance;
use crate::texts::{SIGNALS, number_of, push_field, word_of};
use std::alloc::{AllocError, Global};
use std::fmt::Write;

// Adds an edit of a signal of this message.
fn push_signal_edit(
    script: &mut String,
    chance: &mut Chance,
    message: usize,
    round: usize,
) -> Result<(), AllocError> {
    let signal = chance.below(SIGNALS);
    let word = word_of(message, signal);
    match round % 3 {
        0 => {
            write!(script, "change-signal {message} SG_ {word}Value_{signal}")?;
            push_field(script, chance, signal)?;
            script.push_str("\n")
        }
        1 => write!(
            script,
            "rename-signal {message} {word}Value_{signal} Renamed_{round}\n"
        ),
        _ => write!(script, "remove-signal {message} {word}Value_{signal}\n"),
    }
}

// Adds an edit of an entry of this message's CAN identifier.
fn push_row_edit(
    script: &mut String,
    chance: &mut Chance,
    message: usize,
    round: usize,
) -> Result<(), AllocError> {
    let number = number_of(message);
    let word = word_of(message, 2);
    let time = chance.below(1000);
    if round % 2 == 0 {
        write!(
            script,
            "set-values VAL_ {number} {word}Value_2 0 \"off\" 1 \"on\" {time} \"other\" ;\n"
        )
    } else {
        write!(
            script,
            "set-attribute BA_ \"GenMsgCycleTime\" BO_ {number} {time};\n"
        )
    }
}

// Adds an edit of a message of this many.
fn push_message_edit(
    script: &mut String,
    chance: &mut Chance,
    messages: usize,
    message: usize,
    round: usize,
) -> Result<(), AllocError> {
    match round % 3 {
        0 => write!(script, "change-message {message} Changed_{round} 8 Body\n"),
        1 => {
            let number = number_of(messages.wrapping_add(round));
            write!(
                script,
                "add-message {messages} BO_ {number} Added_{round}: 8 Body\n"
            )
        }
        _ => {
            let number = number_of(messages.wrapping_add(1000).wrapping_add(chance.below(1000)));
            write!(script, "renumber {message} {number}\n")
        }
    }
}

/// This many edits of a database of this many messages, each followed by the layout diagram of the message that was edited.
pub fn edits(
    alloc: Global,
    chance: &mut Chance,
    messages: usize,
    count: usize,
) -> Result<String, AllocError> {
    let mut script = String::new(alloc);
    for round in 0..count {
        let message = chance.below(messages.max(1));
        match round % 4 {
            0 | 2 => push_signal_edit(&mut script, chance, message, round / 2)?,
            1 => push_row_edit(&mut script, chance, message, round / 4)?,
            _ => push_message_edit(&mut script, chance, messages, message, round / 4)?,
        }
        write!(script, "show layout {message}\n")?;
    }
    script.push_str("show diagnostics\n")?;
    Ok(script)
}

/// This many changes of signals of the message at this index, each of another one, and then the lines of the log.
pub fn changes(
    alloc: Global,
    chance: &mut Chance,
    message: usize,
    count: usize,
) -> Result<String, AllocError> {
    let mut script = String::new(alloc);
    for round in 0..count {
        let signal = round % SIGNALS;
        let word = word_of(message, signal);
        write!(script, "change-signal {message} SG_ {word}Value_{signal}")?;
        push_field(&mut script, chance, signal)?;
        script.push_str("\n")?;
    }
    script.push_str("show lines\n")?;
    Ok(script)
}

// A line of a log for each of these identifiers.
fn push_lines(
    script: &mut String,
    chance: &mut Chance,
    identifiers: &[&str],
) -> Result<(), AllocError> {
    for identifier in identifiers {
        let data = chance.below(256);
        write!(script, "log (0.0) can0 {identifier}#{data:02X}\n")?;
    }
    Ok(())
}

/// A line of a log for each of these identifiers, given one per line, starting from one that the numbers choose.
pub fn lines_of(
    alloc: Global,
    chance: &mut Chance,
    identifiers: &str,
) -> Result<String, AllocError> {
    let mut all = Vec::new(alloc);
    for identifier in identifiers.lines() {
        all.push(identifier)?;
    }
    let mut script = String::new(alloc);
    if all.is_empty() {
        return Ok(script);
    }
    let first = chance.below(all.len());
    let (front, back) = all.as_slice().split_at(first);
    push_lines(&mut script, chance, back)?;
    push_lines(&mut script, chance, front)?;
    Ok(script)
}
