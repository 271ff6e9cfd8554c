//! The edits that lines ask for.
ghost use Rattle.std.specs.Prelude.{◌≡◌, ℕ, IfOk, Some, None, if◌then◌else◌};
ghost use Rattle.dbc_values.specs.Pieces.{is_string, inside};
ghost use Rattle.dbc_edits.specs.declared.edit.Edit.TheVariants as edits;
ghost use Rattle.dbc_reader.specs.declared.statement.Statement.TheVariants as statements;
ghost use Rattle.session_script.specs.declared.verb.Verb.TheVariants as verbs;
ghost use Rattle.session_script.specs.Commands.{HasSense, edit_sense, changes, change_of, attribute_set, edit_by, by_statement};
ghost use Rattle.session_script.specs.Commands.{with_number};

use crate::statement::statement_of;
use crate::verb::Verb;
use crate::words::{number_and_rest, number_of, rest_of, word_of};
use dbc_edits::{Change, Edit};
use dbc_reader::Statement;
use dbc_records::{AttrRow, Head, MuxRow, Signal, TableRow, Target, ValueRow};
use dbc_values::{Memory, Name, Text, is_string};
use std::alloc::Global;

// An attribute of a message is set; an attribute of another object isn't an edit.
fn attribute_set(row: AttrRow) -> Option<Edit>
    ensures { result ≡ attribute_set row row.target }
{
    let AttrRow {
        name,
        target,
        value,
    } = row;
    match target {
        Target::Message(number) => Some(Edit::SetAttribute(name, number, value)),
        Target::Whole | Target::Node(_) | Target::Signal(_, _) => None,
    }
}

// By a message without its signals.
fn by_head(verb: Verb, index: u32, head: Head) -> Option<Edit>
    ensures { (at : ℕ) → result ≡ edit_by verb index at (statements.Head head) }
{
    match verb {
        Verb::AddMessage => Some(Edit::AddMessage(index as usize, head)),
        _ => None,
    }
}

// By a signal.
fn by_signal(verb: Verb, index: u32, at: u32, signal: Signal) -> Option<Edit>
    ensures { result ≡ edit_by verb index at (statements.Signal signal) }
{
    match verb {
        Verb::AddSignal => Some(Edit::AddSignal(index as usize, at as usize, signal)),
        Verb::ChangeSignal => Some(Edit::ChangeSignal(index as usize, signal)),
        _ => None,
    }
}

// By an entry of multiplexing.
fn by_mux(verb: Verb, row: MuxRow) -> Option<Edit>
    ensures { (index at : ℕ) → result ≡ edit_by verb index at (statements.Mux row) }
{
    match verb {
        Verb::SetMux => Some(Edit::SetMux(row)),
        _ => None,
    }
}

// By an entry of value descriptions.
fn by_values(verb: Verb, row: ValueRow) -> Option<Edit>
    ensures { (index at : ℕ) → result ≡ edit_by verb index at (statements.Values row) }
{
    match verb {
        Verb::SetValues => Some(Edit::SetValues(row)),
        _ => None,
    }
}

// By a value table.
fn by_table(verb: Verb, row: TableRow) -> Option<Edit>
    ensures { (index at : ℕ) → result ≡ edit_by verb index at (statements.Table row) }
{
    match verb {
        Verb::SetTable => Some(Edit::SetTable(row)),
        _ => None,
    }
}

// By an attribute.
fn by_attribute(verb: Verb, row: AttrRow) -> Option<Edit>
    ensures { (index at : ℕ) → result ≡ edit_by verb index at (statements.Attribute row) }
{
    match verb {
        Verb::SetAttribute => attribute_set(row),
        _ => None,
    }
}

// The edit that a verb asks for by a statement, after the indexes of a message and of a signal. Each kind of statement is dropped
// in a function of its own.
fn edit_by(verb: Verb, index: u32, at: u32, statement: Statement) -> Option<Edit>
    ensures { result ≡ edit_by verb index at statement }
{
    match statement {
        Statement::Head(head) => by_head(verb, index, head),
        Statement::Signal(signal) => by_signal(verb, index, at, signal),
        Statement::Mux(row) => by_mux(verb, row),
        Statement::Values(row) => by_values(verb, row),
        Statement::Table(row) => by_table(verb, row),
        Statement::Attribute(row) => by_attribute(verb, row),
    }
}

// By the statement of the text; 0 represents an index that the verb does not take.
fn by_statement(
    alloc: Global,
    verb: Verb,
    index: u32,
    at: u32,
    text: &[u8],
) -> Result<Option<Edit>, Memory>
    ensures { IfOk result (λ edit. HasSense (by_statement verb index at text.now) (changes edit)) }
{
    match statement_of(alloc, text)? {
        Some(statement) => Ok(edit_by(verb, index, at, statement)),
        None => Ok(None),
    }
}

// By the index of a message and a statement.
fn by_index(alloc: Global, verb: Verb, text: &[u8]) -> Result<Option<Edit>, Memory>
    ensures { IfOk result (λ edit. HasSense (with_number (λ index statement. by_statement verb index 0 statement) text.now)
        (changes edit)) }
{
    match number_and_rest(text) {
        Some((index, statement)) => by_statement(alloc, verb, index, 0, statement),
        None => Ok(None),
    }
}

// A signal is added: the index of its message, its own and a `SG_` statement.
fn add_signal(alloc: Global, text: &[u8]) -> Result<Option<Edit>, Memory>
    ensures { IfOk result (λ edit. HasSense (edit_sense verbs.AddSignal text.now) (changes edit)) }
{
    let Some((index, words)) = number_and_rest(text) else {
        return Ok(None);
    };
    match number_and_rest(words) {
        Some((at, statement)) => by_statement(alloc, Verb::AddSignal, index, at, statement),
        None => Ok(None),
    }
}

// A message is removed: its index.
fn remove_message(text: &[u8]) -> Option<Edit>
    ensures { HasSense (edit_sense verbs.RemoveMessage text.now) (changes result) }
{
    let index = number_of(text)?;
    Some(Edit::RemoveMessage(index as usize))
}

// The change of a message's first line, by its words.
fn change_to(alloc: Global, name: &[u8], size: u32, sender: &[u8]) -> Result<Option<Change>, Memory>
    ensures { IfOk result (λ change. change ≡ change_of name.now size sender.now) }
{
    let Ok(size) = u16::try_from(size) else {
        return Ok(None);
    };
    let Some(name) = Name::new(alloc, name)? else {
        return Ok(None);
    };
    let Some(sender) = Name::new(alloc, sender)? else {
        return Ok(None);
    };
    Ok(Change::new(name, size, sender))
}

// A first line is changed: an index, a name, a length (DLC) and a sender.
fn change_message(alloc: Global, text: &[u8]) -> Result<Option<Edit>, Memory>
    ensures { IfOk result (λ edit. HasSense (edit_sense verbs.ChangeMessage text.now) (changes edit)) }
{
    let Some((index, words)) = number_and_rest(text) else {
        return Ok(None);
    };
    let Some(after) = rest_of(words) else {
        return Ok(None);
    };
    let Some((size, sender)) = number_and_rest(after) else {
        return Ok(None);
    };
    match change_to(alloc, word_of(words), size, sender)? {
        Some(change) => Ok(Some(Edit::ChangeMessage(index as usize, change))),
        None => Ok(None),
    }
}

// A message takes another CAN identifier: its index and that CAN identifier.
fn renumber(text: &[u8]) -> Option<Edit>
    ensures { HasSense (edit_sense verbs.Renumber text.now) (changes result) }
{
    let (index, number) = number_and_rest(text)?;
    let number = number_of(number)?;
    Some(Edit::Renumber(index as usize, number))
}

// A signal is removed: the index of its message and its name.
fn remove_signal(alloc: Global, text: &[u8]) -> Result<Option<Edit>, Memory>
    ensures { IfOk result (λ edit. HasSense (edit_sense verbs.RemoveSignal text.now) (changes edit)) }
{
    let Some((index, name)) = number_and_rest(text) else {
        return Ok(None);
    };
    match Name::new(alloc, name)? {
        Some(name) => Ok(Some(Edit::RemoveSignal(index as usize, name))),
        None => Ok(None),
    }
}

// A signal takes another name: the index of its message, its name and the new one.
fn rename_signal(alloc: Global, text: &[u8]) -> Result<Option<Edit>, Memory>
    ensures { IfOk result (λ edit. HasSense (edit_sense verbs.RenameSignal text.now) (changes edit)) }
{
    let Some((index, names)) = number_and_rest(text) else {
        return Ok(None);
    };
    let Some(new) = rest_of(names) else {
        return Ok(None);
    };
    let Some(old) = Name::new(alloc, word_of(names))? else {
        return Ok(None);
    };
    match Name::new(alloc, new)? {
        Some(new) => Ok(Some(Edit::RenameSignal(index as usize, old, new))),
        None => Ok(None),
    }
}

// Multiplexer entries are dropped: a CAN identifier and a name.
fn drop_mux(alloc: Global, text: &[u8]) -> Result<Option<Edit>, Memory>
    ensures { IfOk result (λ edit. HasSense (edit_sense verbs.DropMux text.now) (changes edit)) }
{
    let Some((number, name)) = number_and_rest(text) else {
        return Ok(None);
    };
    match Name::new(alloc, name)? {
        Some(name) => Ok(Some(Edit::DropMux(number, name))),
        None => Ok(None),
    }
}

// Value descriptions are dropped: a CAN identifier and a name.
fn drop_values(alloc: Global, text: &[u8]) -> Result<Option<Edit>, Memory>
    ensures { IfOk result (λ edit. HasSense (edit_sense verbs.DropValues text.now) (changes edit)) }
{
    let Some((number, name)) = number_and_rest(text) else {
        return Ok(None);
    };
    match Name::new(alloc, name)? {
        Some(name) => Ok(Some(Edit::DropValues(number, name))),
        None => Ok(None),
    }
}

// Value tables are dropped: their name.
fn drop_table(alloc: Global, text: &[u8]) -> Result<Option<Edit>, Memory>
    ensures { IfOk result (λ edit. HasSense (edit_sense verbs.DropTable text.now) (changes edit)) }
{
    match Name::new(alloc, text)? {
        Some(name) => Ok(Some(Edit::DropTable(name))),
        None => Ok(None),
    }
}

// All except the first byte and the last.
fn inside(token: &[u8]) -> &[u8]
    ensures { result.now ≡ inside token.now }
{
    match token {
        [_, text @ .., _] => text,
        _ => &[],
    }
}

// The text of a string token.
#[tactic(auto, unfolding(dbc_values::specs::Pieces::is_string))]
fn string_in(alloc: Global, token: &[u8]) -> Result<Option<Text>, Memory>
    ensures { IfOk result (λ text. text ≡ (if is_string token.now then Some (inside token.now) else None)) }
{
    if is_string(token) {
        Text::new(alloc, inside(token))
    } else {
        Ok(None)
    }
}

// An attribute of a message is dropped: a CAN identifier and the attribute in quotes.
fn drop_attribute(alloc: Global, text: &[u8]) -> Result<Option<Edit>, Memory>
    ensures { IfOk result (λ edit. HasSense (edit_sense verbs.DropAttribute text.now) (changes edit)) }
{
    let Some((number, token)) = number_and_rest(text) else {
        return Ok(None);
    };
    match string_in(alloc, token)? {
        Some(name) => Ok(Some(Edit::DropAttribute(name, number))),
        None => Ok(None),
    }
}

/// The edit that a verb asks for with the text after it.
pub(crate) fn edit_of(alloc: Global, verb: Verb, text: &[u8]) -> Result<Option<Edit>, Memory>
    ensures { IfOk result (λ edit. HasSense (edit_sense verb text.now) (changes edit)) }
{
    match verb {
        Verb::AddMessage | Verb::ChangeSignal => by_index(alloc, verb, text),
        Verb::AddSignal => add_signal(alloc, text),
        Verb::SetMux | Verb::SetValues | Verb::SetTable | Verb::SetAttribute => {
            by_statement(alloc, verb, 0, 0, text)
        }
        Verb::RemoveMessage => Ok(remove_message(text)),
        Verb::ChangeMessage => change_message(alloc, text),
        Verb::Renumber => Ok(renumber(text)),
        Verb::RemoveSignal => remove_signal(alloc, text),
        Verb::RenameSignal => rename_signal(alloc, text),
        Verb::DropMux => drop_mux(alloc, text),
        Verb::DropValues => drop_values(alloc, text),
        Verb::DropTable => drop_table(alloc, text),
        Verb::DropAttribute => drop_attribute(alloc, text),
        Verb::Log | Verb::Show | Verb::Print => Ok(None),
    }
}
