//! A database and one statement more.
ghost use Rattle.std.specs.Prelude.{◌≡◌, Some, true};
ghost use Rattle.dbc_reader.specs.inner.Cursors.{left_at};
ghost use Rattle.dbc_reader.specs.inner.Readers.{MakesTo};
ghost use Rattle.dbc_reader.specs.inner.Keywords.{keyword_at};
ghost use Rattle.dbc_reader.specs.inner.Databases.{begins_kept, statement_into, statements_into};
ghost use Rattle.dbc_reader.specs.declared.keyword.StatementKeyword.TheVariants as keywords;

use crate::attributes::{attribute, comment, default, definition};
use crate::cursor::Cursor;
use crate::kept::kept;
use crate::keyword::StatementKeyword;
use crate::messages::message;
use crate::parts::{mark, names, symbols};
use crate::stopped::Stopped;
use crate::tables::{float, mux, table, values};
use dbc_records::Database;
use std::alloc::Global;

// `NS_ :` and its words.
#[tactic(auto, using(crate::proofs::Facts::Keywords::symbols_step), unfolding(crate::specs::inner::Databases::symbols_into, crate::specs::inner::Parts::word_at, crate::specs::inner::Readers::token_at, crate::specs::Classes::has_word))]
fn add_symbols(alloc: Global, at: &mut Cursor<'_>, database: &mut Database) -> Result<(), Stopped>
    requires { keyword_at (left_at at.old) ≡ Some keywords.Symbols }
    ensures { MakesTo result database.new (left_at at.new) (statement_into database.old (left_at at.old)) }
{
    at.step();
    mark(at, b':')?;
    let read = symbols(alloc, at, &mut database.symbols);
    // the database's own bounds require that the list is one of symbols again
    let _ = database.symbols.as_slice();
    read
}

// `BU_ :` and its names.
#[tactic(auto, using(crate::proofs::Facts::Keywords::nodes_step), unfolding(crate::specs::inner::Databases::nodes_into, crate::specs::inner::Parts::word_at, crate::specs::inner::Readers::token_at, crate::specs::Classes::has_word))]
fn add_nodes(alloc: Global, at: &mut Cursor<'_>, database: &mut Database) -> Result<(), Stopped>
    requires { keyword_at (left_at at.old) ≡ Some keywords.Nodes }
    ensures { MakesTo result database.new (left_at at.new) (statement_into database.old (left_at at.old)) }
{
    at.step();
    mark(at, b':')?;
    let read = names(alloc, at, &mut database.nodes);
    // as for symbols
    let _ = database.nodes.as_slice();
    read
}

#[tactic(auto, using(crate::proofs::Facts::Keywords::message_begins, crate::proofs::Facts::Keywords::message_step), unfolding(crate::specs::inner::Databases::record_into))]
fn add_message(alloc: Global, at: &mut Cursor<'_>, database: &mut Database) -> Result<(), Stopped>
    requires { keyword_at (left_at at.old) ≡ Some keywords.Message }
    ensures { MakesTo result database.new (left_at at.new) (statement_into database.old (left_at at.old)) }
{
    let message = message(alloc, at, database.messages.len())?;
    database.messages.push(message)?;
    Ok(())
}

#[tactic(auto, using(crate::proofs::Facts::Keywords::kept_step), unfolding(crate::specs::inner::Databases::record_into))]
fn add_kept(alloc: Global, at: &mut Cursor<'_>, database: &mut Database) -> Result<(), Stopped>
    requires { begins_kept (left_at at.old) ≡ true }
    ensures { MakesTo result database.new (left_at at.new) (statement_into database.old (left_at at.old)) }
{
    let row = kept(alloc, at)?;
    database.kept.push(row)?;
    Ok(())
}

#[tactic(auto, using(crate::proofs::Facts::Keywords::table_step), unfolding(crate::specs::inner::Databases::record_into))]
fn add_table(alloc: Global, at: &mut Cursor<'_>, database: &mut Database) -> Result<(), Stopped>
    requires { keyword_at (left_at at.old) ≡ Some keywords.Table }
    ensures { MakesTo result database.new (left_at at.new) (statement_into database.old (left_at at.old)) }
{
    at.step();
    let row = table(alloc, at)?;
    database.tables.push(row)?;
    Ok(())
}

// Value descriptions: those of an environment variable, which has a name instead of a CAN identifier, are kept verbatim.
#[tactic(auto, using(crate::proofs::Facts::Keywords::values_kept_step, crate::proofs::Facts::Keywords::values_step), unfolding(crate::specs::inner::Databases::record_into))]
fn add_values(alloc: Global, at: &mut Cursor<'_>, database: &mut Database) -> Result<(), Stopped>
    requires { keyword_at (left_at at.old) ≡ Some keywords.Values }
    ensures { MakesTo result database.new (left_at at.new) (statement_into database.old (left_at at.old)) }
{
    let following = at.following();
    if following.starts_name() {
        return add_kept(alloc, at, database);
    }
    *at = following;
    let row = values(alloc, at)?;
    database.values.push(row)?;
    Ok(())
}

#[tactic(auto, using(crate::proofs::Facts::Keywords::float_step), unfolding(crate::specs::inner::Databases::record_into))]
fn add_float(alloc: Global, at: &mut Cursor<'_>, database: &mut Database) -> Result<(), Stopped>
    requires { keyword_at (left_at at.old) ≡ Some keywords.Float }
    ensures { MakesTo result database.new (left_at at.new) (statement_into database.old (left_at at.old)) }
{
    at.step();
    let row = float(alloc, at)?;
    database.floats.push(row)?;
    Ok(())
}

#[tactic(auto, using(crate::proofs::Facts::Keywords::mux_step), unfolding(crate::specs::inner::Databases::record_into))]
fn add_mux(alloc: Global, at: &mut Cursor<'_>, database: &mut Database) -> Result<(), Stopped>
    requires { keyword_at (left_at at.old) ≡ Some keywords.Mux }
    ensures { MakesTo result database.new (left_at at.new) (statement_into database.old (left_at at.old)) }
{
    at.step();
    let row = mux(alloc, at)?;
    database.muxes.push(row)?;
    Ok(())
}

// A comment: that of an environment variable is kept verbatim.
#[tactic(auto, using(crate::proofs::Facts::Keywords::comment_kept_step, crate::proofs::Facts::Keywords::comment_step), unfolding(crate::specs::inner::Databases::record_into))]
fn add_comment(alloc: Global, at: &mut Cursor<'_>, database: &mut Database) -> Result<(), Stopped>
    requires { keyword_at (left_at at.old) ≡ Some keywords.Comment }
    ensures { MakesTo result database.new (left_at at.new) (statement_into database.old (left_at at.old)) }
{
    let following = at.following();
    if following.starts_word(b"EV_") {
        return add_kept(alloc, at, database);
    }
    *at = following;
    let comment = comment(alloc, at)?;
    database.comments.push(comment)?;
    Ok(())
}

#[tactic(auto, using(crate::proofs::Facts::Keywords::definition_step), unfolding(crate::specs::inner::Databases::record_into))]
fn add_definition(
    alloc: Global,
    at: &mut Cursor<'_>,
    database: &mut Database,
) -> Result<(), Stopped>
    requires { keyword_at (left_at at.old) ≡ Some keywords.Definition }
    ensures { MakesTo result database.new (left_at at.new) (statement_into database.old (left_at at.old)) }
{
    at.step();
    let definition = definition(alloc, at)?;
    database.definitions.push(definition)?;
    Ok(())
}

#[tactic(auto, using(crate::proofs::Facts::Keywords::default_step), unfolding(crate::specs::inner::Databases::record_into))]
fn add_default(alloc: Global, at: &mut Cursor<'_>, database: &mut Database) -> Result<(), Stopped>
    requires { keyword_at (left_at at.old) ≡ Some keywords.Default }
    ensures { MakesTo result database.new (left_at at.new) (statement_into database.old (left_at at.old)) }
{
    at.step();
    let row = default(alloc, at)?;
    database.defaults.push(row)?;
    Ok(())
}

// The value of an attribute: that of an environment variable is kept verbatim.
#[tactic(auto, using(crate::proofs::Facts::Keywords::attribute_kept_step, crate::proofs::Facts::Keywords::attribute_step), unfolding(crate::specs::inner::Databases::record_into))]
fn add_attribute(alloc: Global, at: &mut Cursor<'_>, database: &mut Database) -> Result<(), Stopped>
    requires { keyword_at (left_at at.old) ≡ Some keywords.Attribute }
    ensures { MakesTo result database.new (left_at at.new) (statement_into database.old (left_at at.old)) }
{
    let title = at.following();
    let target = title.following();
    if target.starts_word(b"EV_") && title.starts_string() {
        return add_kept(alloc, at, database);
    }
    *at = target;
    let row = attribute(alloc, title, at)?;
    database.attributes.push(row)?;
    Ok(())
}

// Takes a statement that begins with this keyword.
#[tactic(auto, using(crate::proofs::Facts::Keywords::begins_kept_step))]
pub(crate) fn add_statement(
    alloc: Global,
    at: &mut Cursor<'_>,
    keyword: StatementKeyword,
    database: &mut Database,
) -> Result<(), Stopped>
    requires { keyword_at (left_at at.old) ≡ Some keyword }
    ensures { MakesTo result database.new (left_at at.new) (statement_into database.old (left_at at.old)) }
{
    match keyword {
        StatementKeyword::Symbols => add_symbols(alloc, at, database),
        StatementKeyword::Nodes => add_nodes(alloc, at, database),
        StatementKeyword::Message => add_message(alloc, at, database),
        StatementKeyword::Table => add_table(alloc, at, database),
        StatementKeyword::Values => add_values(alloc, at, database),
        StatementKeyword::Float => add_float(alloc, at, database),
        StatementKeyword::Mux => add_mux(alloc, at, database),
        StatementKeyword::Comment => add_comment(alloc, at, database),
        StatementKeyword::Definition => add_definition(alloc, at, database),
        StatementKeyword::Default => add_default(alloc, at, database),
        StatementKeyword::Attribute => add_attribute(alloc, at, database),
        StatementKeyword::Kept => add_kept(alloc, at, database),
    }
}

/// Takes the statements that are here, and appends their values to those of their kinds.
#[tactic(auto, using(crate::proofs::Facts::Keywords::statement_begins, crate::proofs::Rounds::Statements::statements_on, crate::proofs::Rounds::Statements::statements_over, crate::proofs::Rounds::Statements::statements_less))]
pub(crate) fn add_statements(
    alloc: Global,
    at: &mut Cursor<'_>,
    database: &mut Database,
) -> Result<(), Stopped>
    ensures { MakesTo result database.new (left_at at.new) (statements_into database.old (left_at at.old)) }
{
    'statements: while let Some(keyword) = at.keyword() {
        add_statement(alloc, at, keyword, database)?;
    }
    Ok(())
}
