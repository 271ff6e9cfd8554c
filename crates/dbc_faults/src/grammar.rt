//! The grammar of texts, as patterns.
//!
//! Each function returns the pattern of its name followed by another one.
ghost use Rattle.std.specs.Prelude.{◌≡◌, [], ◌∷◌, map, IfOk, codes, ◌^◌, ◌-◌, slice_index};
ghost use Rattle.dbc_records.specs.Records.{most_bytes, most_bits};
ghost use Rattle.dbc_reader.specs.Grammar as grammar;
ghost use Rattle.dbc_reader.specs.Pattern.{Done, ◌⇒◌, Either, Repeat, ◌then◌, Mark, Word, String, Whole, Order};
ghost use Rattle.dbc_values.specs.Lexical.{minus, plus, bar, at_sign, comma, opening_parenthesis, closing_parenthesis};
ghost use Rattle.dbc_values.specs.Lexical.{opening_bracket, closing_bracket};
ghost use Rattle.dbc_faults.specs.Patterns.{class_of, pattern_of, chain, pattern_from};

use crate::class::Class;
use crate::keyword::Keyword;
use crate::pattern::Pattern;
use dbc_records::{Head, Signal};
use dbc_values::Memory;
use std::alloc::Global;

/// What a text begins with.
#[derive(Clone, Copy, Debug, PartialEq, Eq)]
pub enum Beginning {
    /// As every database does.
    Text,
    /// As one may inside a message: with signals, and then as every database does.
    Signals,
}

// A pattern, or that memory ran out for it.
type Made = Result<Pattern, Memory>;

// The CAN identifier of a message.
const NUMBER: Class = Class::Whole(0, u32::MAX as u64);

const SEMICOLON: Class = Class::Mark(b';');

const COLON: Class = Class::Mark(b':');

const COMMA: Class = Class::Mark(b',');

// ---- patterns of any kind

fn then(alloc: Global, class: Class, next: Pattern) -> Made
    ensures { IfOk result (λ p. pattern_of p ≡ class_of class ⇒ pattern_of next) }
{
    Ok(Pattern::Then(class, Box::new(alloc, next)?))
}

// The first or the second, and then.
fn either(alloc: Global, first: Pattern, second: Pattern, next: Pattern) -> Made
    ensures { IfOk result (λ p. pattern_of p ≡ Either (pattern_of first) (pattern_of second) (pattern_of next)) }
{
    let first = Box::new(alloc, first)?;
    let second = Box::new(alloc, second)?;
    Ok(Pattern::Either(first, second, Box::new(alloc, next)?))
}

// Any number of times, and then.
fn repeat(alloc: Global, each: Pattern, next: Pattern) -> Made
    ensures { IfOk result (λ p. pattern_of p ≡ Repeat (pattern_of each) (pattern_of next)) }
{
    let each = Box::new(alloc, each)?;
    Ok(Pattern::Repeat(each, Box::new(alloc, next)?))
}

// These classes one after the other, and then.
fn chain(alloc: Global, classes: &[Class], next: Pattern) -> Made
    ensures { IfOk result (λ p. pattern_of p ≡ chain (map class_of classes.now) (pattern_of next)) }
{
    match classes {
        [] => Ok(next),
        [first, others @ ..] => {
            let next = chain(alloc, others, next)?;
            then(alloc, *first, next)
        }
    }
}

// ---- parts

fn perhaps(alloc: Global, part: Pattern, next: Pattern) -> Made
    ensures { IfOk result (λ p. pattern_of p ≡ (grammar.perhaps (pattern_of part) then pattern_of next)) }
{
    either(alloc, part, Pattern::Done, next)
}

// A number after a minus, after a plus or without a sign, and then: after a minus of the first class, otherwise of the second.
fn signed(alloc: Global, negative: Class, positive: Class, next: Pattern) -> Made
    ensures { IfOk result (λ p. pattern_of p ≡ Either (Mark minus ⇒ class_of negative ⇒ Done)
        (Either (Mark plus ⇒ class_of positive ⇒ Done) (class_of positive ⇒ Done) Done) (pattern_of next)) }
{
    let below = chain(alloc, &[Class::Mark(b'-'), negative], Pattern::Done)?;
    let above = chain(alloc, &[Class::Mark(b'+'), positive], Pattern::Done)?;
    let unsigned = then(alloc, positive, Pattern::Done)?;
    let others = either(alloc, above, unsigned, Pattern::Done)?;
    either(alloc, below, others, next)
}

fn decimal(alloc: Global, next: Pattern) -> Made
    ensures { IfOk result (λ p. pattern_of p ≡ (grammar.decimal then pattern_of next)) }
{
    signed(alloc, Class::Number(true), Class::Number(false), next)
}

fn entry_number(alloc: Global, next: Pattern) -> Made
    ensures { IfOk result (λ p. pattern_of p ≡ (grammar.entry_number then pattern_of next)) }
{
    let negative = Class::Whole(0, 9_223_372_036_854_775_808);
    signed(alloc, negative, Class::Whole(0, u64::MAX), next)
}

fn statement_end(alloc: Global) -> Made
    ensures { IfOk result (λ p. pattern_of p ≡ grammar.statement_end) }
{
    then(alloc, SEMICOLON, Pattern::Done)
}

fn kept_rest(alloc: Global) -> Made
    ensures { IfOk result (λ p. pattern_of p ≡ grammar.kept_rest) }
{
    let piece = then(alloc, Class::Piece, Pattern::Done)?;
    let end = statement_end(alloc)?;
    repeat(alloc, piece, end)
}

fn entries(alloc: Global) -> Made
    ensures { IfOk result (λ p. pattern_of p ≡ grammar.entries) }
{
    let name = then(alloc, Class::String, Pattern::Done)?;
    let entry = entry_number(alloc, name)?;
    let end = statement_end(alloc)?;
    repeat(alloc, entry, end)
}

// ---- objects

fn symbols(alloc: Global) -> Made
    ensures { IfOk result (λ p. pattern_of p ≡ grammar.symbols) }
{
    let symbol = then(alloc, Class::Symbol, Pattern::Done)?;
    let symbols = repeat(alloc, symbol, Pattern::Done)?;
    chain(alloc, &[Class::Word(Keyword::Symbols), COLON], symbols)
}

fn timing(alloc: Global, next: Pattern) -> Made
    ensures { IfOk result (λ p. pattern_of p ≡ (grammar.timing then pattern_of next)) }
{
    let number = Class::Number(false);
    let numbers = chain(
        alloc,
        &[number, COLON, number, COMMA, number],
        Pattern::Done,
    )?;
    let timing = perhaps(alloc, numbers, next)?;
    chain(alloc, &[Class::Word(Keyword::BitTiming), COLON], timing)
}

fn nodes(alloc: Global) -> Made
    ensures { IfOk result (λ p. pattern_of p ≡ grammar.nodes) }
{
    let node = then(alloc, Class::Name, Pattern::Done)?;
    let nodes = repeat(alloc, node, Pattern::Done)?;
    chain(alloc, &[Class::Word(Keyword::Nodes), COLON], nodes)
}

// The head of a message.
fn head(alloc: Global, next: Pattern) -> Made
    ensures { IfOk result (λ p. pattern_of p ≡ (grammar.head then pattern_of next)) }
{
    let size = Class::Whole(0, Head::MAX_SIZE as u64);
    let classes = [
        Class::BeginsMessage,
        NUMBER,
        Class::Name,
        COLON,
        size,
        Class::Name,
    ];
    chain(alloc, &classes, next)
}

// `(a,b)`, with the three marks of the array.
fn pair(alloc: Global, marks: [u8; 3], next: Pattern) -> Made
    ensures { IfOk result (λ p. pattern_of p ≡ (grammar.pair (slice_index marks 0) (slice_index marks 1)
        (slice_index marks 2) then pattern_of next)) }
{
    let [opening, between, closing] = marks;
    let end = then(alloc, Class::Mark(closing), next)?;
    let second = decimal(alloc, end)?;
    let middle = then(alloc, Class::Mark(between), second)?;
    let first = decimal(alloc, middle)?;
    then(alloc, Class::Mark(opening), first)
}

fn receivers(alloc: Global) -> Made
    ensures { IfOk result (λ p. pattern_of p ≡ grammar.receivers) }
{
    let comma = then(alloc, COMMA, Pattern::Done)?;
    let name = then(alloc, Class::Name, Pattern::Done)?;
    let further = either(alloc, comma, Pattern::Done, name)?;
    let others = repeat(alloc, further, Pattern::Done)?;
    let receivers = then(alloc, Class::Name, others)?;
    perhaps(alloc, receivers, Pattern::Done)
}

// The factor, the range, the unit and the receivers of a signal.
fn scaling(alloc: Global) -> Made
    ensures { IfOk result (λ p. pattern_of p ≡ (grammar.pair opening_parenthesis comma closing_parenthesis then
        (grammar.pair opening_bracket bar closing_bracket then (String ⇒ grammar.receivers)))) }
{
    let receivers = receivers(alloc)?;
    let unit = then(alloc, Class::String, receivers)?;
    let range = pair(alloc, [b'[', b'|', b']'], unit)?;
    pair(alloc, [b'(', b',', b')'], range)
}

// The bit position of a signal in its message, and its sign.
fn location(alloc: Global, next: Pattern) -> Made
    ensures { IfOk result (λ p. pattern_of p ≡ (Whole 0 (2 ^ 16 - 1) ⇒ Mark bar ⇒ Whole 1 most_bits ⇒ Mark at_sign
        ⇒ Order ⇒ Either (Mark minus ⇒ Done) (Mark plus ⇒ Done) (pattern_of next))) }
{
    let minus = then(alloc, Class::Mark(b'-'), Pattern::Done)?;
    let plus = then(alloc, Class::Mark(b'+'), Pattern::Done)?;
    let sign = either(alloc, minus, plus, next)?;
    let start = Class::Whole(0, u16::MAX as u64);
    let length = Class::Whole(1, Signal::MAX_LENGTH as u64);
    let classes = [
        start,
        Class::Mark(b'|'),
        length,
        Class::Mark(b'@'),
        Class::Order,
    ];
    chain(alloc, &classes, sign)
}

fn signal(alloc: Global) -> Made
    ensures { IfOk result (λ p. pattern_of p ≡ grammar.signal) }
{
    let scaling = scaling(alloc)?;
    let location = location(alloc, scaling)?;
    let untagged = then(alloc, COLON, Pattern::Done)?;
    let tagged = chain(alloc, &[Class::Tag, COLON], Pattern::Done)?;
    let following = either(alloc, untagged, tagged, location)?;
    chain(alloc, &[Class::BeginsSignal, Class::SignalName], following)
}

fn message(alloc: Global) -> Made
    ensures { IfOk result (λ p. pattern_of p ≡ grammar.message) }
{
    let signal = signal(alloc)?;
    let signals = repeat(alloc, signal, Pattern::Done)?;
    head(alloc, signals)
}

fn objects(alloc: Global) -> Made
    ensures { IfOk result (λ p. pattern_of p ≡ grammar.objects) }
{
    let symbols = symbols(alloc)?;
    let nodes = nodes(alloc)?;
    let message = message(alloc)?;
    let others = either(alloc, nodes, message, Pattern::Done)?;
    either(alloc, symbols, others, Pattern::Done)
}

// ---- entries

fn table(alloc: Global) -> Made
    ensures { IfOk result (λ p. pattern_of p ≡ grammar.table) }
{
    let entries = entries(alloc)?;
    chain(alloc, &[Class::Word(Keyword::Table), Class::Name], entries)
}

fn values(alloc: Global) -> Made
    ensures { IfOk result (λ p. pattern_of p ≡ grammar.values) }
{
    let entries = entries(alloc)?;
    let of_signal = chain(alloc, &[NUMBER, Class::Name], entries)?;
    let kept = kept_rest(alloc)?;
    let of_variable = then(alloc, Class::Name, kept)?;
    let following = either(alloc, of_signal, of_variable, Pattern::Done)?;
    then(alloc, Class::Word(Keyword::Values), following)
}

fn float(alloc: Global) -> Made
    ensures { IfOk result (λ p. pattern_of p ≡ grammar.float) }
{
    let end = statement_end(alloc)?;
    let kind = then(alloc, Class::Whole(0, 2), end)?;
    let colon = then(alloc, COLON, Pattern::Done)?;
    let following = either(alloc, colon, Pattern::Done, kind)?;
    chain(
        alloc,
        &[Class::Word(Keyword::Float), NUMBER, Class::Name],
        following,
    )
}

fn range(alloc: Global, next: Pattern) -> Made
    ensures { IfOk result (λ p. pattern_of p ≡ (grammar.range then pattern_of next)) }
{
    let number = Class::Whole(0, u64::MAX);
    chain(alloc, &[number, Class::Mark(b'-'), number], next)
}

fn mux(alloc: Global) -> Made
    ensures { IfOk result (λ p. pattern_of p ≡ grammar.mux) }
{
    let further = range(alloc, Pattern::Done)?;
    let further = then(alloc, COMMA, further)?;
    let end = statement_end(alloc)?;
    let others = repeat(alloc, further, end)?;
    let ranges = range(alloc, others)?;
    let word = Class::Word(Keyword::Mux);
    chain(alloc, &[word, NUMBER, Class::Name, Class::Name], ranges)
}

fn rows(alloc: Global) -> Made
    ensures { IfOk result (λ p. pattern_of p ≡ grammar.rows) }
{
    let table = table(alloc)?;
    let values = values(alloc)?;
    let float = float(alloc)?;
    let mux = mux(alloc)?;
    let others = either(alloc, float, mux, Pattern::Done)?;
    let others = either(alloc, values, others, Pattern::Done)?;
    either(alloc, table, others, Pattern::Done)
}

// ---- notes

// A node, a message or a signal, or nothing, and then.
fn target(alloc: Global, next: Pattern) -> Made
    ensures { IfOk result (λ p. pattern_of p ≡ (grammar.target then pattern_of next)) }
{
    let node = chain(
        alloc,
        &[Class::Word(Keyword::Nodes), Class::Name],
        Pattern::Done,
    )?;
    let message = chain(
        alloc,
        &[Class::Word(Keyword::Message), NUMBER],
        Pattern::Done,
    )?;
    let signal = [Class::Word(Keyword::Signal), NUMBER, Class::Name];
    let signal = chain(alloc, &signal, Pattern::Done)?;
    let others = either(alloc, signal, Pattern::Done, Pattern::Done)?;
    let others = either(alloc, message, others, Pattern::Done)?;
    either(alloc, node, others, next)
}

// After `EV_`, what is kept verbatim; otherwise this.
fn of_variable_or(alloc: Global, other: Pattern) -> Made
    ensures { IfOk result (λ p. pattern_of p ≡ Either (Word (codes "EV_") ⇒ grammar.kept_rest) (pattern_of other) Done) }
{
    let kept = kept_rest(alloc)?;
    let of_variable = then(alloc, Class::Word(Keyword::Variable), kept)?;
    either(alloc, of_variable, other, Pattern::Done)
}

fn comment(alloc: Global) -> Made
    ensures { IfOk result (λ p. pattern_of p ≡ grammar.comment) }
{
    let end = statement_end(alloc)?;
    let text = then(alloc, Class::String, end)?;
    let targeted = target(alloc, text)?;
    let following = of_variable_or(alloc, targeted)?;
    then(alloc, Class::Word(Keyword::Comment), following)
}

// The kind of object of an attribute, or nothing, and then.
fn object(alloc: Global, next: Pattern) -> Made
    ensures { IfOk result (λ p. pattern_of p ≡ (grammar.object then pattern_of next)) }
{
    let node = then(alloc, Class::Word(Keyword::Nodes), Pattern::Done)?;
    let message = then(alloc, Class::Word(Keyword::Message), Pattern::Done)?;
    let signal = then(alloc, Class::Word(Keyword::Signal), Pattern::Done)?;
    let variable = then(alloc, Class::Word(Keyword::Variable), Pattern::Done)?;
    let others = either(alloc, variable, Pattern::Done, Pattern::Done)?;
    let others = either(alloc, signal, others, Pattern::Done)?;
    let others = either(alloc, message, others, Pattern::Done)?;
    either(alloc, node, others, next)
}

fn limits(alloc: Global) -> Made
    ensures { IfOk result (λ p. pattern_of p ≡ grammar.limits) }
{
    let second = decimal(alloc, Pattern::Done)?;
    let both = decimal(alloc, second)?;
    perhaps(alloc, both, Pattern::Done)
}

// This word and perhaps two limits.
fn limited(alloc: Global, word: Class) -> Made
    ensures { IfOk result (λ p. pattern_of p ≡ (class_of word ⇒ grammar.limits)) }
{
    let limits = limits(alloc)?;
    then(alloc, word, limits)
}

fn enumeration(alloc: Global) -> Made
    ensures { IfOk result (λ p. pattern_of p ≡ (Word (codes "ENUM") ⇒ String ⇒ Repeat (Mark comma ⇒ String ⇒ Done) Done)) }
{
    let further = chain(alloc, &[COMMA, Class::String], Pattern::Done)?;
    let others = repeat(alloc, further, Pattern::Done)?;
    chain(
        alloc,
        &[Class::Word(Keyword::EnumForm), Class::String],
        others,
    )
}

// What an attribute may hold, and then.
fn form(alloc: Global, next: Pattern) -> Made
    ensures { IfOk result (λ p. pattern_of p ≡ (grammar.form then pattern_of next)) }
{
    let whole = limited(alloc, Class::Word(Keyword::IntForm))?;
    let hexadecimal = limited(alloc, Class::Word(Keyword::HexForm))?;
    let float = limited(alloc, Class::Word(Keyword::FloatForm))?;
    let text = then(alloc, Class::Word(Keyword::StringForm), Pattern::Done)?;
    let enumeration = enumeration(alloc)?;
    let others = either(alloc, text, enumeration, Pattern::Done)?;
    let others = either(alloc, float, others, Pattern::Done)?;
    let others = either(alloc, hexadecimal, others, Pattern::Done)?;
    either(alloc, whole, others, next)
}

fn definition(alloc: Global) -> Made
    ensures { IfOk result (λ p. pattern_of p ≡ grammar.definition) }
{
    let end = statement_end(alloc)?;
    let form = form(alloc, end)?;
    let name = then(alloc, Class::String, form)?;
    let following = object(alloc, name)?;
    then(alloc, Class::Word(Keyword::Definition), following)
}

// A text or a number, and the end of the statement.
fn given(alloc: Global) -> Made
    ensures { IfOk result (λ p. pattern_of p ≡ (grammar.given then grammar.statement_end)) }
{
    let end = statement_end(alloc)?;
    let text = then(alloc, Class::String, Pattern::Done)?;
    let number = decimal(alloc, Pattern::Done)?;
    either(alloc, text, number, end)
}

fn default(alloc: Global) -> Made
    ensures { IfOk result (λ p. pattern_of p ≡ grammar.default) }
{
    let given = given(alloc)?;
    chain(
        alloc,
        &[Class::Word(Keyword::Default), Class::String],
        given,
    )
}

fn attribute(alloc: Global) -> Made
    ensures { IfOk result (λ p. pattern_of p ≡ grammar.attribute) }
{
    let given = given(alloc)?;
    let targeted = target(alloc, given)?;
    let following = of_variable_or(alloc, targeted)?;
    chain(
        alloc,
        &[Class::Word(Keyword::Attribute), Class::String],
        following,
    )
}

fn notes(alloc: Global) -> Made
    ensures { IfOk result (λ p. pattern_of p ≡ grammar.notes) }
{
    let comment = comment(alloc)?;
    let definition = definition(alloc)?;
    let default = default(alloc)?;
    let attribute = attribute(alloc)?;
    let others = either(alloc, default, attribute, Pattern::Done)?;
    let others = either(alloc, definition, others, Pattern::Done)?;
    either(alloc, comment, others, Pattern::Done)
}

// ---- texts

fn statement(alloc: Global) -> Made
    ensures { IfOk result (λ p. pattern_of p ≡ grammar.statement) }
{
    let objects = objects(alloc)?;
    let rows = rows(alloc)?;
    let notes = notes(alloc)?;
    let kept = kept_rest(alloc)?;
    let kept = then(alloc, Class::KeptWord, kept)?;
    let others = either(alloc, notes, kept, Pattern::Done)?;
    let others = either(alloc, rows, others, Pattern::Done)?;
    either(alloc, objects, others, Pattern::Done)
}

// Statements, at most one of them a bit timing.
fn statements(alloc: Global) -> Made
    ensures { IfOk result (λ p. pattern_of p ≡ Repeat grammar.statement
        (Either (grammar.timing then Repeat grammar.statement Done) Done Done)) }
{
    let later = statement(alloc)?;
    let later = repeat(alloc, later, Pattern::Done)?;
    let timed = timing(alloc, later)?;
    let timed = either(alloc, timed, Pattern::Done, Pattern::Done)?;
    let first = statement(alloc)?;
    repeat(alloc, first, timed)
}

fn text(alloc: Global) -> Made
    ensures { IfOk result (λ p. pattern_of p ≡ grammar.text) }
{
    let version = chain(
        alloc,
        &[Class::Word(Keyword::Version), Class::String],
        Pattern::Done,
    )?;
    let statements = statements(alloc)?;
    either(alloc, version, Pattern::Done, statements)
}

/// The pattern of a text that begins in this way.
pub fn pattern_from(alloc: Global, beginning: Beginning) -> Made
    ensures { IfOk result (λ p. pattern_of p ≡ pattern_from beginning) }
{
    let text = text(alloc)?;
    match beginning {
        Beginning::Text => Ok(text),
        Beginning::Signals => {
            let signal = signal(alloc)?;
            repeat(alloc, signal, text)
        }
    }
}
