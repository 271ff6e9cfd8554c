//! A database, with where its statements begin.
ghost use Rattle.std.specs.Prelude.{◌≡◌, ◌<◌, [], true, codes, IfOk, OnOk, IsTrue, Some};
ghost use Rattle.dbc_records.specs.Databases.{most_messages};
ghost use Rattle.dbc_records.specs.Records.{signals_fit};
ghost use Rattle.dbc_reader.specs.Classes.{has_word};
ghost use Rattle.dbc_reader.specs.Located.{IsReadWithStarts};
ghost use Rattle.dbc_reader.specs.inner.Cursors.{left_at};
ghost use Rattle.dbc_reader.specs.inner.Keywords.{keyword_at};
ghost use Rattle.dbc_reader.specs.inner.Readers.{GivesTo, MakesTo, starts};
ghost use Rattle.dbc_reader.specs.inner.Located.{GivesWith, signals_with_starts, message_with_starts};
ghost use Rattle.dbc_reader.specs.inner.Located.{message_with_starts_into, with_signals_into};
ghost use Rattle.dbc_reader.specs.inner.Located.{located_into, all_located_into, timed_located_into, located_database_at};

use crate::cursor::Cursor;
use crate::keyword::StatementKeyword;
use crate::messages::{head, signal};
use crate::reader::{empty_database, fault_of, set_timing, timing, version};
use crate::start::{Start, Starts};
use crate::statements::add_statement;
use crate::stopped::Stopped;
use dbc_records::{Database, Message, Signal};
use dbc_tokens::ReadFault;
use dbc_values::List;
use std::alloc::Global;

// Takes the signals of a message, and adds where each begins.
#[tactic(auto, using(crate::proofs::Rounds::Located::signals_on, crate::proofs::Rounds::Located::signals_end, crate::proofs::Rounds::Signals::signals_less, crate::proofs::Facts::MessageNames::signals_fit_more), unfolding(dbc_records::specs::Records::signals_fit))]
fn signals(
    alloc: Global,
    at: &mut Cursor<'_>,
    signal_starts: &mut List<Start>,
) -> Result<List<Signal>, Stopped>
    ensures value { GivesWith result signal_starts.new (left_at at.new) (signals_with_starts ([], signal_starts.old) (left_at
        at.old)) }
    ensures fit { IfOk result (λ signals. IsTrue (signals_fit signals)) }
{
    let mut signals = List::new(alloc);
    'signals: while at.starts_word(b"SG_") {
        let begin = at.start();
        let found = signal(alloc, at, signals.as_slice())?;
        signals.push(found)?;
        signal_starts.push(begin)?;
    }
    signals.shrink_to_fit();
    Ok(signals)
}

// Takes a message with its signals, in a text that already has this many messages, and adds where each signal begins.
#[tactic(auto, unfolding(crate::specs::inner::Located::message_with_starts))]
fn message(
    alloc: Global,
    at: &mut Cursor<'_>,
    count: usize,
    signal_starts: &mut List<Start>,
) -> Result<Message, Stopped>
    requires { starts (has_word (codes "BO_")) (left_at at.old) ≡ true }
    ensures value { GivesWith result signal_starts.new (left_at at.new) (message_with_starts count signal_starts.old (left_at
        at.old)) }
    ensures count { OnOk result (count < most_messages) }
{
    let head = head(alloc, at, count)?;
    let signals = signals(alloc, at, signal_starts)?;
    Ok(Message { head, signals })
}

#[tactic(auto, unfolding(crate::specs::inner::Located::message_with_starts_into))]
fn add_message(
    alloc: Global,
    at: &mut Cursor<'_>,
    read: &mut (Database, Starts),
) -> Result<(), Stopped>
    requires { starts (has_word (codes "BO_")) (left_at at.old) ≡ true }
    ensures { MakesTo result read.new (left_at at.new) (message_with_starts_into read.old (left_at
        at.old)) }
{
    let (database, starts) = read;
    let message = message(alloc, at, database.messages.len(), &mut starts.signals)?;
    database.messages.push(message)?;
    Ok(())
}

#[tactic(auto, unfolding(crate::specs::inner::Located::with_signals_into, crate::specs::inner::Located::without_signals_into))]
fn add_with_signals(
    alloc: Global,
    at: &mut Cursor<'_>,
    keyword: StatementKeyword,
    read: &mut (Database, Starts),
) -> Result<(), Stopped>
    requires { keyword_at (left_at at.old) ≡ Some keyword }
    ensures { MakesTo result read.new (left_at at.new) (with_signals_into read.old (left_at at.old)) }
{
    if at.starts_word(b"BO_") {
        add_message(alloc, at, read)
    } else {
        add_statement(alloc, at, keyword, &mut read.0)
    }
}

// Takes a statement that begins with this keyword, and adds where it begins.
#[tactic(auto, unfolding(crate::specs::inner::Located::located_into))]
fn add_located(
    alloc: Global,
    at: &mut Cursor<'_>,
    keyword: StatementKeyword,
    read: &mut (Database, Starts),
) -> Result<(), Stopped>
    requires { keyword_at (left_at at.old) ≡ Some keyword }
    ensures { MakesTo result read.new (left_at at.new) (located_into read.old (left_at at.old)) }
{
    let start = at.start();
    add_with_signals(alloc, at, keyword, read)?;
    read.1.catch_up(&read.0, start)?;
    Ok(())
}

// Takes the statements that are here, adds their values to the database, and where they begin.
#[tactic(auto, using(crate::proofs::Facts::Keywords::statement_begins, crate::proofs::Rounds::Located::located_on, crate::proofs::Rounds::Located::located_over, crate::proofs::Rounds::Located::located_less))]
fn add_all_located(
    alloc: Global,
    at: &mut Cursor<'_>,
    read: &mut (Database, Starts),
) -> Result<(), Stopped>
    ensures { MakesTo result read.new (left_at at.new) (all_located_into read.old (left_at at.old)) }
{
    'statements: while let Some(keyword) = at.keyword() {
        add_located(alloc, at, keyword, read)?;
    }
    Ok(())
}

// Takes the bit timing and what follows it, if there is one.
#[tactic(auto, unfolding(crate::specs::inner::Located::timed_located_into))]
fn add_timed_located(
    alloc: Global,
    at: &mut Cursor<'_>,
    read: &mut (Database, Starts),
) -> Result<(), Stopped>
    ensures { MakesTo result read.new (left_at at.new) (timed_located_into read.old (left_at at.old)) }
{
    if at.starts_word(b"BS_") {
        let timing = timing(at)?;
        set_timing(&mut read.0, timing);
        add_all_located(alloc, at, read)?;
    }
    Ok(())
}

#[tactic(auto, unfolding(crate::specs::inner::Located::located_database_at))]
fn located_database(alloc: Global, at: &mut Cursor<'_>) -> Result<(Database, Starts), Stopped>
    ensures { GivesTo result (left_at at.new) (located_database_at (left_at at.old)) }
{
    let version = version(alloc, at)?;
    let mut read = (empty_database(alloc, version), Starts::new(alloc));
    add_all_located(alloc, at, &mut read)?;
    add_timed_located(alloc, at, &mut read)?;
    at.end()?;
    Ok(read)
}

/// The database that a text spells and where its statements begin, or the first fault of the text, as for
/// [`read`](crate::read).
pub fn read_with_starts(alloc: Global, text: &[u8]) -> Result<(Database, Starts), ReadFault>
    ensures { IsReadWithStarts text.now result }
{
    let mut at = Cursor::new(text);
    match located_database(alloc, &mut at) {
        Ok(read) => Ok(read),
        Err(stopped) => Err(fault_of(stopped)),
    }
}
