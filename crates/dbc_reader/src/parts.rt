//! The parts of statements that are one token, and lists of them.
ghost use Rattle.std.specs.Prelude.{◌≡◌, [], ◌∷◌, Some, None, option_map, if◌then◌else◌};
ghost use Rattle.std.specs.Str.{bytes_eq};
ghost use Rattle.dbc_values.specs.Lexical.{quoted};
ghost use Rattle.dbc_values.specs.Pieces.{inside};
ghost use Rattle.dbc_reader.specs.Classes.{has_name};
ghost use Rattle.dbc_reader.specs.inner.Cursors.{left_at, following};
ghost use Rattle.dbc_reader.specs.inner.Readers.{GivesTo, MakesTo, MayGive, starts};
ghost use Rattle.dbc_reader.specs.inner.Parts.{word_at, mark_at, name_at, symbol_at, text_at, names_from, symbols_from};
ghost use Rattle.dbc_reader.specs.inner.Parts.{pieces_from, comma_at, begins_receiver, receivers_from, receivers_at, texts_from};

use crate::classes;
use crate::cursor::Cursor;
use crate::stopped::Stopped;
use dbc_tokens::{Cause, Next};
use dbc_values::{List, Name, Pieces, Symbol, Text};
use std::alloc::Global;

/// Takes this word.
#[tactic(auto, unfolding(crate::specs::inner::Parts::word_at))]
pub(crate) fn word(at: &mut Cursor<'_>, word: &[u8]) -> Result<(), Stopped>
    ensures { GivesTo result (left_at at.new) (word_at word.now (left_at at.old)) }
{
    let token = at.take()?;
    if classes::has_word(token, word) {
        Ok(())
    } else {
        Err(Stopped::at(token.line, Cause::Statement))
    }
}

/// Takes this mark.
#[tactic(auto, unfolding(crate::specs::inner::Parts::mark_at))]
pub(crate) fn mark(at: &mut Cursor<'_>, mark: u8) -> Result<(), Stopped>
    ensures { GivesTo result (left_at at.new) (mark_at mark (left_at at.old)) }
{
    let token = at.take()?;
    if classes::has_mark(token, mark) {
        Ok(())
    } else {
        Err(Stopped::at(token.line, Cause::Statement))
    }
}

/// Takes a name.
#[tactic(auto, unfolding(crate::specs::inner::Parts::name_at))]
pub(crate) fn name(alloc: Global, at: &mut Cursor<'_>) -> Result<Name, Stopped>
    ensures { GivesTo result (left_at at.new) (name_at (left_at at.old)) }
{
    let token = at.take()?;
    match Name::new(alloc, token.bytes)? {
        Some(name) => Ok(name),
        None => Err(Stopped::at(token.line, Cause::Statement)),
    }
}

/// Takes a name, if one is here.
#[tactic(auto, unfolding(crate::specs::inner::Cursors::left_at, crate::specs::inner::Readers::starts, crate::specs::inner::Readers::token_at, crate::specs::inner::Parts::name_at, crate::specs::Classes::has_name))]
fn name_if_any(alloc: Global, at: &mut Cursor<'_>) -> Result<Option<Name>, Stopped>
    ensures { MayGive result has_name name_at (left_at at.new) (left_at at.old) }
{
    let Next::Token(token) = at.next else {
        return Ok(None);
    };
    let Some(name) = Name::new(alloc, token.bytes)? else {
        return Ok(None);
    };
    at.step();
    Ok(Some(name))
}

/// Takes a word of the list of symbols.
#[tactic(auto, unfolding(crate::specs::inner::Parts::symbol_at))]
pub(crate) fn symbol(alloc: Global, at: &mut Cursor<'_>) -> Result<Symbol, Stopped>
    ensures { GivesTo result (left_at at.new) (symbol_at (left_at at.old)) }
{
    let token = at.take()?;
    match Symbol::new(alloc, token.bytes)? {
        Some(symbol) => Ok(symbol),
        None => Err(Stopped::at(token.line, Cause::Statement)),
    }
}

// What is between quotes.
#[tactic(auto, using(dbc_values::proofs::Strings::quoted_by_ends))]
fn between_quotes(bytes: &[u8]) -> Option<&[u8]>
    ensures { option_map (λ text. text.now) result ≡ (if bytes_eq bytes.now (quoted (inside bytes.now)) then Some (inside bytes.now)
        else None) }
{
    match bytes {
        [first, text @ .., last] => {
            if *first == b'"' && *last == b'"' {
                Some(text)
            } else {
                None
            }
        }
        _ => None,
    }
}

/// The text of the string that is here; it takes nothing.
#[tactic(auto, unfolding(crate::specs::inner::Cursors::left_at, crate::specs::inner::Parts::text_at, crate::specs::inner::Readers::token_at, crate::specs::Classes::text_of, dbc_values::specs::Pieces::is_string))]
pub(crate) fn text_here(alloc: Global, at: Cursor<'_>) -> Result<Text, Stopped>
    ensures { GivesTo result (following (left_at at.entry)) (text_at (left_at at.entry)) }
{
    let token = at.token()?;
    let Some(text) = between_quotes(token.bytes) else {
        return Err(Stopped::at(token.line, Cause::Statement));
    };
    match Text::new(alloc, text)? {
        Some(text) => Ok(text),
        None => Err(Stopped::at(token.line, Cause::Statement)),
    }
}

/// Takes a string, and gives its text.
pub(crate) fn text(alloc: Global, at: &mut Cursor<'_>) -> Result<Text, Stopped>
    ensures { GivesTo result (left_at at.new) (text_at (left_at at.old)) }
{
    let text = text_here(alloc, *at)?;
    at.step();
    Ok(text)
}

/// Takes the names that are here, and appends them to the others.
#[tactic(auto, using(crate::proofs::Rounds::Lists::names_on, crate::proofs::Rounds::Lists::names_fail, crate::proofs::Rounds::Lists::names_end, crate::proofs::Rounds::Lists::names_less))]
pub(crate) fn names(
    alloc: Global,
    at: &mut Cursor<'_>,
    names: &mut List<Name>,
) -> Result<(), Stopped>
    ensures { MakesTo result names.new (left_at at.new) (names_from names.old (left_at at.old)) }
{
    'names: while let Some(found) = name_if_any(alloc, at)? {
        names.push(found)?;
    }
    Ok(())
}

/// Takes the words of the list of symbols that are here, and appends them to the others.
#[tactic(auto, using(crate::proofs::Rounds::Lists::symbols_on, crate::proofs::Rounds::Lists::symbols_fail, crate::proofs::Rounds::Lists::symbols_end, crate::proofs::Rounds::Lists::symbols_less))]
pub(crate) fn symbols(
    alloc: Global,
    at: &mut Cursor<'_>,
    symbols: &mut List<Symbol>,
) -> Result<(), Stopped>
    ensures { MakesTo result symbols.new (left_at at.new) (symbols_from symbols.old (left_at at.old)) }
{
    'symbols: while at.starts_symbol() {
        let found = symbol(alloc, at)?;
        symbols.push(found)?;
    }
    Ok(())
}

/// Takes all tokens up to a semicolon.
#[tactic(auto, using(crate::proofs::Rounds::Lists::taken_is, crate::proofs::Rounds::Lists::taken_on, crate::proofs::Rounds::Lists::taken_fails, crate::proofs::Rounds::Lists::pieces_end, crate::proofs::Rounds::Lists::taken_less))]
pub(crate) fn pieces(alloc: Global, at: &mut Cursor<'_>) -> Result<Pieces, Stopped>
    ensures { GivesTo result (left_at at.new) (pieces_from [] (left_at at.old)) }
{
    let mut pieces = Pieces::new(alloc);
    'pieces: while at.starts_piece() {
        let token = at.take()?;
        pieces.push(token.bytes)?;
    }
    pieces.shrink_to_fit();
    Ok(pieces)
}

// Takes a comma, if one is here.
#[tactic(auto, unfolding(crate::specs::inner::Parts::comma_at))]
fn comma(at: &mut Cursor<'_>) -> Result<(), Stopped>
    ensures { GivesTo result (left_at at.new) (comma_at (left_at at.old)) }
{
    if at.starts_mark(b',') {
        mark(at, b',')?;
    }
    Ok(())
}

#[tactic(auto, unfolding(crate::specs::inner::Cursors::left_at, crate::specs::inner::Readers::starts))]
fn starts_receiver(at: Cursor<'_>) -> bool
    ensures { result ≡ starts begins_receiver (left_at at.entry) }
{
    match at.next {
        Next::Token(token) => classes::begins_receiver(token),
        _ => false,
    }
}

// The first receiver and all further ones, with memory for this many at first.
#[tactic(auto, using(crate::proofs::Rounds::Lists::receivers_on, crate::proofs::Rounds::Lists::receivers_fail_first, crate::proofs::Rounds::Lists::receivers_fail, crate::proofs::Rounds::Lists::receivers_end, crate::proofs::Rounds::Lists::receivers_less))]
fn receivers_after(
    alloc: Global,
    at: &mut Cursor<'_>,
    first: Name,
    count: usize,
) -> Result<List<Name>, Stopped>
    ensures { GivesTo result (left_at at.new) (receivers_from (first ∷ []) (left_at at.old)) }
{
    let mut names = List::with_capacity(alloc, count)?;
    names.push(first)?;
    'receivers: while starts_receiver(*at) {
        comma(at)?;
        let found = name(alloc, at)?;
        names.push(found)?;
    }
    names.shrink_to_fit();
    Ok(names)
}

/// Takes the receivers of a signal, with commas between them or without.
#[tactic(auto, unfolding(crate::specs::inner::Parts::receivers_at))]
pub(crate) fn receivers(alloc: Global, at: &mut Cursor<'_>) -> Result<List<Name>, Stopped>
    ensures { GivesTo result (left_at at.new) (receivers_at (left_at at.old)) }
{
    let list = *at;
    match name_if_any(alloc, at)? {
        Some(first) => receivers_after(alloc, at, first, list.items_ahead()),
        None => Ok(List::new(alloc)),
    }
}

/// The first text and all further ones, which are here after commas.
#[tactic(auto, using(crate::proofs::Rounds::Lists::texts_on, crate::proofs::Rounds::Lists::texts_fail_first, crate::proofs::Rounds::Lists::texts_fail, crate::proofs::Rounds::Lists::texts_end, crate::proofs::Rounds::Lists::texts_less))]
pub(crate) fn texts(alloc: Global, at: &mut Cursor<'_>, first: Text) -> Result<List<Text>, Stopped>
    ensures { GivesTo result (left_at at.new) (texts_from (first ∷ []) (left_at at.old)) }
{
    let mut texts = List::new(alloc);
    texts.push(first)?;
    'further: while at.starts_mark(b',') {
        mark(at, b',')?;
        let found = text(alloc, at)?;
        texts.push(found)?;
    }
    texts.shrink_to_fit();
    Ok(texts)
}
