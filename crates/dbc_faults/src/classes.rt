//! What is expected at the location of a fault, in words.

use crate::class::Class;
use crate::keyword::Keyword;
use crate::words::{push_all, push_number};
use dbc_values::Memory;
use std::alloc::Global;

// Whether the class is one of those that the words for any statement cover.
fn is_of_statements(class: Class) -> bool {
    match class {
        Class::Word(
            Keyword::Symbols
            | Keyword::BitTiming
            | Keyword::Nodes
            | Keyword::Table
            | Keyword::Values
            | Keyword::Float
            | Keyword::Mux
            | Keyword::Comment
            | Keyword::Definition
            | Keyword::Default
            | Keyword::Attribute,
        )
        | Class::BeginsMessage => true,
        _ => false,
    }
}

// The classes that are reported: each once, and of those of statements only one.
fn given(alloc: Global, classes: &[Class]) -> Result<Vec<Class>, Memory> {
    let mut given = Vec::new(alloc);
    let any_statement = classes.contains(&Class::KeptWord);
    for class in classes {
        let is_covered = any_statement && is_of_statements(*class);
        if !is_covered && !given.as_slice().contains(class) {
            given.push(*class)?;
        }
    }
    Ok(given)
}

fn push_class(text: &mut Vec<u8>, class: Class) -> Result<(), Memory> {
    match class {
        Class::Word(word) => push_all(text, &[b"'", word.bytes(), b"'"]),
        Class::Mark(mark) => push_all(text, &[b"'", &[mark], b"'"]),
        Class::Name => push_all(text, &[b"a name"]),
        Class::Symbol => push_all(text, &[b"a word"]),
        Class::String => push_all(text, &[b"a quoted string"]),
        Class::Whole(least, most) => {
            push_all(text, &[b"an integer from "])?;
            push_number(text, least)?;
            push_all(text, &[b" to "])?;
            push_number(text, most)
        }
        Class::Number(_) => push_all(text, &[b"a number"]),
        Class::Order => push_all(text, &[b"0 or 1"]),
        Class::Tag => push_all(text, &[b"a multiplexer indicator such as M or m0"]),
        Class::Piece => push_all(text, &[b"any other token"]),
        Class::KeptWord => push_all(text, &[b"a statement"]),
        Class::BeginsMessage => push_all(text, &[b"'BO_'"]),
        Class::BeginsSignal => push_all(text, &[b"'SG_'"]),
        Class::SignalName => push_all(text, &[b"the name of another signal"]),
    }
}

/// Appends what is expected at the location of a fault to the text, as a list in words.
pub(crate) fn push_classes(
    alloc: Global,
    text: &mut Vec<u8>,
    classes: &[Class],
) -> Result<(), Memory> {
    let given = given(alloc, classes)?;
    let mut left = given.as_slice();
    let mut between: &[u8] = b"";
    'classes: while let [class, others @ ..] = left {
        push_all(text, &[between])?;
        push_class(text, *class)?;
        between = match others {
            [_] => b" or ",
            _ => b", ",
        };
        left = others;
    }
    Ok(())
}
