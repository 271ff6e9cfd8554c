//! The usual reasons of faults in real files.

use crate::class::Class;
use crate::location::FaultLocation;
use crate::words::is_keyword;
use dbc_tokens::Cause;
use dbc_values::{is_number, is_word, is_word_byte, same};

/// Why a file usually has a fault.
#[derive(Clone, Copy, Debug, PartialEq, Eq)]
pub enum Reason {
    /// The UTF-8 byte order mark.
    ByteOrderMark,
    /// Two bytes per character.
    Utf16,
    /// The byte that once ended files.
    ControlZ,
    /// A quote that is never closed.
    OpenQuote,
    /// A byte past ASCII in a name.
    PastAscii,
    /// Another byte at which no token begins.
    StrayByte,
    /// An infinity, or no number.
    NoNumber,
    /// A number that is no decimal.
    LongNumber,
    /// A number that isn't whole.
    Fraction,
    /// A name that begins with a digit.
    DigitFirst,
    /// A name with a mark in it.
    MarkInName,
    /// A keyword as a name.
    KeywordAsName,
    /// A comma after the last receiver.
    LastComma,
    /// No semicolon before.
    NoSemicolon,
    /// A second bit timing.
    SecondTiming,
    /// A version that isn't first.
    LateVersion,
    /// A word with which no statement begins.
    NoStatement,
    /// The text was cut off.
    CutOff,
    /// Two signals of the same name.
    RepeatedSignal,
    /// Too many messages.
    MessagesFull,
    /// Too many signals.
    SignalsFull,
    /// A number beyond what its field can hold.
    Limit,
}

impl Reason {
    /// The reason, with the remedy, in words.
    pub fn words(self) -> &'static [u8] {
        match self {
            Reason::ByteOrderMark =>
                b"the file begins with a byte order mark; candesk-format --mend removes it",
            Reason::Utf16 => b"the file is UTF-16; save it in a single-byte encoding",
            Reason::ControlZ =>
                b"Ctrl-Z, once a mark for the end of a file; candesk-format --mend removes it there",
            Reason::OpenQuote => {
                b"no closing quote follows, or a backslash escapes each; a string can't end in a backslash"
            }
            Reason::PastAscii =>
                b"non-ASCII byte outside a quoted string (an umlaut in a name?); rename it",
            Reason::StrayByte =>
                b"names have only letters, digits and underscores; text belongs in quotes",
            Reason::NoNumber =>
                b"inf and nan are not numbers; as limits of a signal, [0|0] means that there are none",
            Reason::LongNumber =>
                b"the number has an exponent above 400 or more than 36 digits; write the intended one",
            Reason::Fraction => b"an integer is required here",
            Reason::DigitFirst => b"a name begins with a letter or an underscore; rename it",
            Reason::MarkInName => b"names have only letters, digits and underscores; rename it",
            Reason::KeywordAsName =>
                b"a keyword can't be a name; rename it, or look for what is missing before it",
            Reason::LastComma =>
                b"a comma follows the last receiver; candesk-format --mend removes it",
            Reason::NoSemicolon => b"the semicolon of the previous statement is missing",
            Reason::SecondTiming => b"a file has at most one BS_; remove the second",
            Reason::LateVersion => b"VERSION is allowed only at the beginning; move it there",
            Reason::NoStatement =>
                b"no statement begins with this; remove it, or look for what is missing before it",
            Reason::CutOff => b"the file ends inside a statement; it may be truncated",
            Reason::RepeatedSignal => b"a message has two signals of the same name; rename one",
            Reason::MessagesFull => b"a database has at most 65,535 messages; split it",
            Reason::SignalsFull => b"a message has at most 999 signals; split it",
            Reason::Limit => b"the number is out of range here; write the intended one",
        }
    }

    /// The usual reason of a fault, if there is one.
    pub fn of(location: &FaultLocation<'_>) -> Option<Reason> {
        match location.fault.cause {
            Cause::Token => Some(reason_of_byte(location)),
            Cause::Statement if location.token.is_empty() => Some(Reason::CutOff),
            Cause::Statement => reason_of_token(location),
            Cause::RepeatedSignal => Some(Reason::RepeatedSignal),
            Cause::MessagesFull => Some(Reason::MessagesFull),
            Cause::SignalsFull => Some(Reason::SignalsFull),
            Cause::Limit => Some(Reason::Limit),
            Cause::Memory => None,
        }
    }
}

// Why no token begins at a byte.
fn reason_of_byte(location: &FaultLocation<'_>) -> Reason {
    match location.following {
        [0xEF, 0xBB, 0xBF, ..] if location.before.is_empty() => Reason::ByteOrderMark,
        [0xFF, 0xFE, ..] | [0xFE, 0xFF, ..] if location.before.is_empty() => Reason::Utf16,
        [0x1A, ..] => Reason::ControlZ,
        [b'"', ..] => Reason::OpenQuote,
        [first, ..] if *first >= 0x80 => Reason::PastAscii,
        _ => Reason::StrayByte,
    }
}

// Whether a token of the class may come there.
fn expects(location: &FaultLocation<'_>, class: Class) -> bool {
    location.expected.as_slice().contains(&class)
}

// Whether a decimal may come there.
fn expects_number(location: &FaultLocation<'_>) -> bool {
    expects(location, Class::Number(false)) || expects(location, Class::Number(true))
}

// Whether a name may come there.
fn expects_name(location: &FaultLocation<'_>) -> bool {
    expects(location, Class::Name) || expects(location, Class::SignalName)
}

// Whether a whole number may come there.
fn expects_whole(location: &FaultLocation<'_>) -> bool {
    for class in location.expected.as_slice() {
        if let Class::Whole(_, _) = class {
            return true;
        }
    }
    false
}

// Why a token can't be where it is.
fn reason_of_token(location: &FaultLocation<'_>) -> Option<Reason> {
    let token = location.token;
    if expects(location, Class::KeptWord) && is_word(token) {
        Some(reason_of_statement(token))
    } else if expects_number(location) {
        reason_of_number(token)
    } else if expects_whole(location) && is_number(token) {
        Some(Reason::Fraction)
    } else if is_in_name(location) {
        Some(Reason::MarkInName)
    } else if expects(location, Class::Mark(b';')) && is_keyword(token) {
        Some(Reason::NoSemicolon)
    } else if expects_name(location) {
        reason_of_name(location)
    } else if expects(location, Class::KeptWord) {
        Some(Reason::NoStatement)
    } else {
        None
    }
}

// Why a token isn't the number that it should be.
fn reason_of_number(token: &[u8]) -> Option<Reason> {
    if token.eq_ignore_ascii_case(b"inf") || token.eq_ignore_ascii_case(b"nan") {
        Some(Reason::NoNumber)
    } else if is_number(token) {
        Some(Reason::LongNumber)
    } else {
        None
    }
}

// Whether a mark is right after a word.
fn is_in_name(location: &FaultLocation<'_>) -> bool {
    match (location.before, location.token) {
        ([.., last], [b'-' | b'+' | b'(' | b'[' | b'@', ..]) => is_word_byte(*last),
        _ => false,
    }
}

// Why a token isn't the name that it should be.
fn reason_of_name(location: &FaultLocation<'_>) -> Option<Reason> {
    if location.before.trim_ascii_end().ends_with(b",") {
        Some(Reason::LastComma)
    } else if is_number(location.token) {
        Some(Reason::DigitFirst)
    } else if is_keyword(location.token) {
        Some(Reason::KeywordAsName)
    } else {
        None
    }
}

// Why no statement begins with a token.
fn reason_of_statement(token: &[u8]) -> Reason {
    if same(token, b"BS_") {
        Reason::SecondTiming
    } else if same(token, b"VERSION") {
        Reason::LateVersion
    } else {
        Reason::NoStatement
    }
}
