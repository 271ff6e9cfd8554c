//! Whole texts: a database, or one statement.
ghost use Rattle.std.specs.Prelude.{◌≡◌, [], IfOk, IfSome, IsTrue};
ghost use Rattle.dbc_records.specs.Databases.{IsBitTiming, timing_fits};
ghost use Rattle.dbc_reader.specs.Texts.{IsRead, IsReadAlone};
ghost use Rattle.dbc_reader.specs.inner.Cursors.{left_at};
ghost use Rattle.dbc_reader.specs.inner.Readers.{GivesTo, MakesTo, fault_of};
ghost use Rattle.dbc_reader.specs.inner.Databases.{version_at, timing_numbers_at, timing_at, timed_into, empty_database};
ghost use Rattle.dbc_reader.specs.inner.Databases.{database_at, message_attribute_at, standalone_statement_at, statement_at};

use crate::attributes::{message_target, value};
use crate::cursor::Cursor;
use crate::messages::{head, signal};
use crate::numerals::number;
use crate::parts::{mark, text, word};
use crate::statement::Statement;
use crate::statements::add_statements;
use crate::stopped::Stopped;
use crate::tables::{mux, table, values};
use dbc_records::{AttrRow, Database};
use dbc_tokens::{Cause, ReadFault};
use dbc_values::{Decimal, List, Memory, Text};
use std::alloc::Global;

// Takes the version, or returns the empty text if none is here.
#[tactic(auto, unfolding(crate::specs::inner::Databases::version_at))]
pub(crate) fn version(alloc: Global, at: &mut Cursor<'_>) -> Result<Text, Stopped>
    ensures { GivesTo result (left_at at.new) (version_at (left_at at.old)) }
{
    if at.starts_word(b"VERSION") {
        word(at, b"VERSION")?;
        return text(alloc, at);
    }
    Ok(empty_text(alloc)?)
}

// The empty text.
#[tactic(auto, unfolding(dbc_values::specs::Lexical::is_text))]
fn empty_text(alloc: Global) -> Result<Text, Memory>
    ensures { IfOk result (λ text. text ≡ []) }
{
    match Text::new(alloc, b"")? {
        Some(text) => Ok(text),
        None => unreachable!(),
    }
}

// Takes the three values of a bit timing.
#[tactic(auto, unfolding(crate::specs::inner::Databases::timing_numbers_at))]
fn timing_numbers(at: &mut Cursor<'_>) -> Result<Option<[Decimal; 3]>, Stopped>
    ensures value { GivesTo result (left_at at.new) (timing_numbers_at (left_at at.old)) }
    ensures fits { IfOk result (λ timing. IsTrue (timing_fits timing)) }
    ensures valid { IfOk result (λ timing. IfSome timing IsBitTiming) }
{
    let rate = number(at, false)?;
    mark(at, b':')?;
    let first = number(at, false)?;
    mark(at, b',')?;
    let second = number(at, false)?;
    Ok(Some([rate, first, second]))
}

// Takes the bit timing, with or without its values.
#[tactic(auto, unfolding(crate::specs::inner::Databases::timing_at))]
pub(crate) fn timing(at: &mut Cursor<'_>) -> Result<Option<[Decimal; 3]>, Stopped>
    ensures value { GivesTo result (left_at at.new) (timing_at (left_at at.old)) }
    ensures fits { IfOk result (λ timing. IsTrue (timing_fits timing)) }
    ensures valid { IfOk result (λ timing. IfSome timing IsBitTiming) }
{
    word(at, b"BS_")?;
    mark(at, b':')?;
    if at.starts_number() {
        timing_numbers(at)
    } else {
        Ok(None)
    }
}

// Sets the bit timing of a database.
pub(crate) fn set_timing(database: &mut Database, timing: Option<[Decimal; 3]>)
    requires fits { IsTrue (timing_fits timing) }
    requires valid { IfSome timing IsBitTiming }
    ensures { database.new ≡ record database.old { bit_timing = timing } }
{
    database.bit_timing = timing;
}

// A database of this version, with nothing else.
pub(crate) fn empty_database(alloc: Global, version: Text) -> Database
    ensures { result ≡ empty_database version }
{
    Database {
        version,
        symbols: List::new(alloc),
        bit_timing: None,
        nodes: List::new(alloc),
        tables: List::new(alloc),
        messages: List::new(alloc),
        comments: List::new(alloc),
        definitions: List::new(alloc),
        defaults: List::new(alloc),
        attributes: List::new(alloc),
        values: List::new(alloc),
        floats: List::new(alloc),
        muxes: List::new(alloc),
        kept: List::new(alloc),
    }
}

// Takes the bit timing and what is after it, if there is one.
#[tactic(auto, unfolding(crate::specs::inner::Databases::timed_into))]
fn add_timed(alloc: Global, at: &mut Cursor<'_>, database: &mut Database) -> Result<(), Stopped>
    ensures { MakesTo result database.new (left_at at.new) (timed_into database.old (left_at at.old)) }
{
    if at.starts_word(b"BS_") {
        let timing = timing(at)?;
        set_timing(database, timing);
        add_statements(alloc, at, database)?;
    }
    Ok(())
}

#[tactic(auto, unfolding(crate::specs::inner::Databases::database_at))]
fn database(alloc: Global, at: &mut Cursor<'_>) -> Result<Database, Stopped>
    ensures { GivesTo result (left_at at.new) (database_at (left_at at.old)) }
{
    let version = version(alloc, at)?;
    let mut database = empty_database(alloc, version);
    add_statements(alloc, at, &mut database)?;
    add_timed(alloc, at, &mut database)?;
    at.end()?;
    Ok(database)
}

// The fault for which a reader stopped.
pub(crate) fn fault_of(stopped: Stopped) -> ReadFault
    ensures { result ≡ fault_of stopped }
{
    match stopped {
        Stopped::Memory => ReadFault {
            line: 0,
            cause: Cause::Memory,
        },
        Stopped::Fault(fault) => fault,
    }
}

/// The database that a text spells, or the first fault of the text. If memory runs out first, the fault is [`Cause::Memory`], and
/// it names no line.
#[tactic(auto, using(crate::proofs::Texts::Readings::database_read))]
pub fn read(alloc: Global, text: &[u8]) -> Result<Database, ReadFault>
    ensures { IsRead text.now result }
{
    let mut at = Cursor::new(text);
    match database(alloc, &mut at) {
        Ok(database) => Ok(database),
        Err(stopped) => Err(fault_of(stopped)),
    }
}

// Takes a value of an attribute of a message.
#[tactic(auto, unfolding(crate::specs::inner::Databases::message_attribute_at))]
fn message_attribute(alloc: Global, at: &mut Cursor<'_>) -> Result<AttrRow, Stopped>
    ensures { GivesTo result (left_at at.new) (message_attribute_at (left_at at.old)) }
{
    word(at, b"BA_")?;
    let title = text(alloc, at)?;
    let target = message_target(at)?;
    let value = value(alloc, at)?;
    mark(at, b';')?;
    Ok(AttrRow {
        name: title,
        target,
        value,
    })
}

#[tactic(auto, using(crate::proofs::Facts::Keywords::values_alone), unfolding(crate::specs::inner::Databases::standalone_statement_at))]
fn standalone_statement(alloc: Global, at: &mut Cursor<'_>) -> Result<Statement, Stopped>
    ensures { GivesTo result (left_at at.new) (standalone_statement_at (left_at at.old)) }
{
    if at.starts_word(b"BO_") {
        return Ok(Statement::Head(head(alloc, at, 0)?));
    }
    if at.starts_word(b"SG_") {
        return Ok(Statement::Signal(signal(alloc, at, &[])?));
    }
    if at.starts_word(b"VAL_TABLE_") {
        *at = at.following();
        return Ok(Statement::Table(table(alloc, at)?));
    }
    if at.starts_word(b"VAL_") {
        *at = at.following();
        return Ok(Statement::Values(values(alloc, at)?));
    }
    if at.starts_word(b"SG_MUL_VAL_") {
        *at = at.following();
        return Ok(Statement::Mux(mux(alloc, at)?));
    }
    Ok(Statement::Attribute(message_attribute(alloc, at)?))
}

#[tactic(auto, unfolding(crate::specs::inner::Databases::statement_at))]
fn statement(alloc: Global, at: &mut Cursor<'_>) -> Result<Statement, Stopped>
    ensures { GivesTo result (left_at at.new) (statement_at (left_at at.old)) }
{
    let statement = standalone_statement(alloc, at)?;
    at.end()?;
    Ok(statement)
}

/// The one statement that a text is: a `BO_` without signals, a `SG_`, a `VAL_TABLE_`, a `VAL_` of a signal, a `SG_MUL_VAL_` or a
/// `BA_` of a message. Blanks and comments may be before it and after it. Any other text has a fault, as for [`read`].
#[tactic(auto, using(crate::proofs::Texts::Readings::statement_read))]
pub fn read_one(alloc: Global, text: &[u8]) -> Result<Statement, ReadFault>
    ensures { IsReadAlone text.now result }
{
    let mut at = Cursor::new(text);
    match statement(alloc, &mut at) {
        Ok(statement) => Ok(statement),
        Err(stopped) => Err(fault_of(stopped)),
    }
}
