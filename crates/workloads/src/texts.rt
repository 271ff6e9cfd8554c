//! Database texts: shaped like a vehicle's, with any number of messages, and awkward ones.

use crate::chance::Chance;
use std::alloc::{AllocError, Global};
use std::fmt::Write;

const WORDS: &[&str] = &[
    "Wheel", "Brake", "Engine", "Torque", "Speed", "Temp", "Press", "Volt", "Door", "Lamp", "Seat",
    "Valve", "Pump", "Gear", "Axle", "Yaw", "Tank", "Fuel", "Oil", "Charge", "Cell", "Motor",
    "Inverter",
];

const UNITS: &[&str] = &["", "rpm", "km/h", "V", "A", "kPa", "%", "Nm", "degC", "ms"];

const FACTORS: &[&str] = &[
    "1", "1", "0.1", "0.01", "0.5", "0.25", "0.03125", "2", "0.001", "1E-005",
];

const OFFSETS: &[&str] = &["0", "0", "0", "-40", "-100.5", "250", "0.5", "-273.15"];

const LIMITS: &[&str] = &["0|0", "0|250.996", "-40|215", "-32000|33535"];

const NODES: &[&str] = &[
    "Gateway",
    "Engine_ECU",
    "Brake_ECU",
    "Body",
    "Cluster",
    "Charger",
];

const HEAD: &str =
    "VERSION \"\"\n\n\nNS_ : \n\tCM_\n\tBA_DEF_\n\tBA_\n\tVAL_\n\tBA_DEF_DEF_\n\tSIG_VALTYPE_\n\tSG_MUL_VAL_\n\nBS_:\n\nBU_:";
/// How many signals each message of a vehicle's database has.
pub const SIGNALS: usize = 4;

const BITS: usize = 16;

const EXTENDED: usize = 0x8000_0000;

const DISTANCE: usize = 37;

/// The CAN identifier of a message of a vehicle's database: the first 2,048 are standard (11-bit).
pub fn number_of(message: usize) -> usize {
    if message < 2048 {
        message
    } else {
        EXTENDED.wrapping_add(message.wrapping_mul(DISTANCE))
    }
}

/// A message's or a signal's name without its number.
pub fn word_of(message: usize, signal: usize) -> &'static str {
    WORDS[message.wrapping_add(signal) % WORDS.len()]
}

/// The field, scale, limits and unit of a signal, from its start bit on.
pub fn push_field(text: &mut String, chance: &mut Chance, signal: usize) -> Result<(), AllocError> {
    let is_intel = chance.below(2) == 0;
    let start = BITS
        .wrapping_mul(signal)
        .wrapping_add(if is_intel { 0 } else { 7 });
    let length = 9usize.wrapping_add(chance.below(8));
    let order = if is_intel { "1" } else { "0" };
    let sign = if chance.below(3) == 0 { "-" } else { "+" };
    let factor = chance.one_of(FACTORS);
    let offset = chance.one_of(OFFSETS);
    let limits = chance.one_of(LIMITS);
    let unit = chance.one_of(UNITS);
    let node = chance.one_of(NODES);
    write!(
        text,
        " : {start}|{length}@{order}{sign} ({factor},{offset}) [{limits}] \"{unit}\"  {node},Body"
    )
}

fn push_message(text: &mut String, chance: &mut Chance, message: usize) -> Result<(), AllocError> {
    let number = number_of(message);
    let node = chance.one_of(NODES);
    let word = word_of(message, 0);
    write!(text, "BO_ {number} {word}Status_{message}: 8 {node}\n")?;
    for signal in 0..SIGNALS {
        let word = word_of(message, signal);
        write!(text, " SG_ {word}Value_{signal}")?;
        push_field(text, chance, signal)?;
        text.push_str("\n")?;
    }
    text.push_str("\n")
}

fn push_comments(text: &mut String, chance: &mut Chance, message: usize) -> Result<(), AllocError> {
    let number = number_of(message);
    let one = chance.one_of(WORDS);
    let other = chance.one_of(WORDS);
    write!(
        text,
        "CM_ BO_ {number} \"{one} and {other},\nas sent by the {other} unit\";\n"
    )?;
    let word = word_of(message, 1);
    write!(
        text,
        "CM_ SG_ {number} {word}Value_1 \"the {one} of the {other}, filtered\";\n"
    )
}

fn push_values(text: &mut String, chance: &mut Chance, message: usize) -> Result<(), AllocError> {
    let number = number_of(message);
    let word = word_of(message, 0);
    let one = chance.one_of(WORDS);
    write!(
        text,
        "VAL_ {number} {word}Value_0 0 \"off\" 1 \"on\" 2 \"{one} fault\" 255 \"not available\" ;\n"
    )
}

fn push_attribute(
    text: &mut String,
    chance: &mut Chance,
    message: usize,
) -> Result<(), AllocError> {
    let number = number_of(message);
    let time = chance.below(1000);
    write!(text, "BA_ \"GenMsgCycleTime\" BO_ {number} {time};\n")
}

/// A database of this many messages, each with comments, value descriptions and an attribute.
pub fn vehicle(alloc: Global, chance: &mut Chance, messages: usize) -> Result<String, AllocError> {
    let mut text = String::from_str(alloc, HEAD)?;
    for node in NODES {
        write!(text, " {node}")?;
    }
    text.push_str("\n\n")?;
    for message in 0..messages {
        push_message(&mut text, chance, message)?;
    }
    for message in 0..messages {
        push_comments(&mut text, chance, message)?;
    }
    text.push_str(
        "BA_DEF_ BO_ \"GenMsgCycleTime\" INT 0 65535;\nBA_DEF_DEF_ \"GenMsgCycleTime\" 100;\n",
    )?;
    for message in 0..messages {
        push_attribute(&mut text, chance, message)?;
    }
    for message in 0..messages {
        push_values(&mut text, chance, message)?;
    }
    Ok(text)
}

/// This many messages of one CAN identifier, whose signal has one `VAL_` entry with four times as many value descriptions.
pub fn shared_values(
    alloc: Global,
    chance: &mut Chance,
    messages: usize,
) -> Result<String, AllocError> {
    let mut text = String::from_str(alloc, "BU_: Body\n")?;
    for message in 0..messages {
        let word = chance.one_of(WORDS);
        write!(
            text,
            "BO_ 1 {word}{message}: 8 Body\n SG_ Value : 0|32@1+ (1,0) [0|0] \"\" Body\n"
        )?;
    }
    text.push_str("VAL_ 1 Value")?;
    for value in 0..messages.wrapping_mul(4) {
        let word = chance.one_of(WORDS);
        write!(text, " {value} \"{word}\"")?;
    }
    text.push_str(" ;\n")?;
    Ok(text)
}

/// This many messages of 200 signals that are all on one bit.
pub fn overlapping(
    alloc: Global,
    chance: &mut Chance,
    messages: usize,
) -> Result<String, AllocError> {
    let mut text = String::from_str(alloc, "BU_: Body\n")?;
    for message in 0..messages {
        let bit = chance.below(64);
        write!(text, "BO_ {message} Message{message}: 8 Body\n")?;
        for signal in 0..200u32 {
            write!(
                text,
                " SG_ Signal{signal} : {bit}|1@1+ (1,0) [0|0] \"\" Body\n"
            )?;
        }
    }
    Ok(text)
}
