//! Databases.
ghost use Rattle.std.specs.Prelude.{◌≡◌, Some, None, if◌then◌else◌, not, IfOk, IfSome};
ghost use Rattle.std.specs.List.{list_all};
ghost use Rattle.dbc_records.specs.Databases.{IsBitTiming, timing_fits, database_fits};

use crate::attribute::{AttrDefault, AttrRow};
use crate::comment::Comment;
use crate::definition::AttrDef;
use crate::float_row::FloatRow;
use crate::kept::Kept;
use crate::message::Message;
use crate::mux_row::MuxRow;
use crate::table_row::TableRow;
use crate::value_row::ValueRow;
use dbc_values::{Checked, Copied, Decimal, List, Memory, Name, Symbol, Text};
use std::marker::Model;

/// A database: the statements of a text by kind, each kind in the order of the text.
///
/// The bit timing is the baud rate and the two bit timing registers, as `BS_` gives them.
#[derive(Drop)]
pub struct Database {
    /// The string of `VERSION`, or the empty text.
    pub version: Text,
    /// The words of `NS_`.
    pub symbols: List<Symbol>,
    /// The numbers of `BS_`: the baud rate and two bit timing registers.
    pub bit_timing: Option<[Decimal; 3]>,
    /// The nodes of `BU_`.
    pub nodes: List<Name>,
    /// Value tables, `VAL_TABLE_`.
    pub tables: List<TableRow>,
    /// Messages with their signals, `BO_` and `SG_`.
    pub messages: List<Message>,
    /// Comments, `CM_`.
    pub comments: List<Comment>,
    /// Attribute definitions, `BA_DEF_`.
    pub definitions: List<AttrDef>,
    /// Defaults of attributes, `BA_DEF_DEF_`.
    pub defaults: List<AttrDefault>,
    /// Attributes, `BA_`.
    pub attributes: List<AttrRow>,
    /// Value descriptions of signals, `VAL_`.
    pub values: List<ValueRow>,
    /// Float types of signals, `SIG_VALTYPE_`.
    pub floats: List<FloatRow>,
    /// Extended multiplexing, `SG_MUL_VAL_`.
    pub muxes: List<MuxRow>,
    /// Statements kept verbatim.
    pub kept: List<Kept>,
}

impl Model for Database {
    ghost use Rattle.dbc_records.specs.Databases as databases;

    ghost Value = { databases.Database };

    ghost view = { λ a. record {
      version = a.version;
      symbols = a.symbols;
      bit_timing = a.bit_timing;
      nodes = a.nodes;
      tables = a.tables;
      messages = a.messages;
      comments = a.comments;
      definitions = a.definitions;
      defaults = a.defaults;
      attributes = a.attributes;
      values = a.values;
      floats = a.floats;
      muxes = a.muxes;
      kept = a.kept;
    } };

    ghost invariant = { λ a. databases.IsDatabase (record {
      version = a.version;
      symbols = a.symbols;
      bit_timing = a.bit_timing;
      nodes = a.nodes;
      tables = a.tables;
      messages = a.messages;
      comments = a.comments;
      definitions = a.definitions;
      defaults =
          a.defaults;
      attributes = a.attributes;
      values = a.values;
      floats = a.floats;
      muxes = a.muxes;
      kept = a.kept;
    }) };
}

fn none_negative(numbers: [Decimal; 3]) -> bool
    ensures fits { result ≡ list_all (λ number. not number.negative) numbers }
    ensures valid { IsBitTiming numbers }
{
    let [rate, first, second] = numbers;
    !(rate.negative | first.negative | second.negative)
}

fn timing_fits(bit_timing: &Option<[Decimal; 3]>) -> bool
    ensures fits { result ≡ timing_fits bit_timing.now }
    ensures valid { IfSome bit_timing.now IsBitTiming }
{
    match bit_timing {
        Some(numbers) => none_negative(*numbers),
        None => true,
    }
}

impl Database {
    /// The most messages that a database may have.
    pub const MAX_MESSAGES: usize = 65_535;

    /// The database, or `None` if a value of the bit timing is negative or there are more than [`Database::MAX_MESSAGES`] messages.
    pub fn new(
        version: Text,
        symbols: List<Symbol>,
        bit_timing: Option<[Decimal; 3]>,
        nodes: List<Name>,
        tables: List<TableRow>,
        messages: List<Message>,
        comments: List<Comment>,
        definitions: List<AttrDef>,
        defaults: List<AttrDefault>,
        attributes: List<AttrRow>,
        values: List<ValueRow>,
        floats: List<FloatRow>,
        muxes: List<MuxRow>,
        kept: List<Kept>,
    ) -> Option<Database>
        ensures { result ≡ (if database_fits bit_timing messages then Some (record {
          version = version;
          symbols = symbols;
          bit_timing = bit_timing;
          nodes = nodes;
          tables = tables;
          messages = messages;
          comments = comments;
          definitions =
              definitions;
          defaults = defaults;
          attributes = attributes;
          values = values;
          floats = floats;
          muxes = muxes;
          kept =
              kept;
        }) else None) }
    {
        if !timing_fits(&bit_timing) || messages.len() > Database::MAX_MESSAGES {
            return None;
        }
        Some(Database {
            version,
            symbols,
            bit_timing,
            nodes,
            tables,
            messages,
            comments,
            definitions,
            defaults,
            attributes,
            values,
            floats,
            muxes,
            kept,
        })
    }
}

impl Checked for Database {
    ghost use Rattle.dbc_records.specs.Databases.{IsDatabase};

    ghost IsValid = { IsDatabase };
}

// Parts of a database are copied a few at a time: a function that holds thirteen copies drops each of them on every exit, and
// takes minutes to prove.

// What precedes the messages.
#[derive(Drop)]
struct Preamble {
    version: Text,
    symbols: List<Symbol>,
    nodes: List<Name>,
    tables: List<TableRow>,
}

fn copied_preamble(database: &Database) -> Result<Preamble, Memory>
    ensures { IfOk result (λ copy. copy ≡ record {
      version = database.now.version;
      symbols = database.now.symbols;
      nodes = database.now.nodes;
      tables = database.now.tables;
    }) }
{
    let version = database.version.copy()?;
    let symbols = database.symbols.copy()?;
    let nodes = database.nodes.copy()?;
    let tables = database.tables.copy()?;
    Ok(Preamble {
        version,
        symbols,
        nodes,
        tables,
    })
}

// The messages, their comments, and the definitions and defaults of attributes.
#[derive(Drop)]
struct Objects {
    messages: List<Message>,
    comments: List<Comment>,
    definitions: List<AttrDef>,
    defaults: List<AttrDefault>,
}

fn copied_objects(database: &Database) -> Result<Objects, Memory>
    ensures { IfOk result (λ copy. copy ≡ record {
      messages = database.now.messages;
      comments = database.now.comments;
      definitions = database.now.definitions;
      defaults = database.now.defaults;
    }) }
{
    let messages = database.messages.copy()?;
    let comments = database.comments.copy()?;
    let definitions = database.definitions.copy()?;
    let defaults = database.defaults.copy()?;
    Ok(Objects {
        messages,
        comments,
        definitions,
        defaults,
    })
}

// The entries of messages and signals, and the statements kept verbatim.
#[derive(Drop)]
struct Rows {
    attributes: List<AttrRow>,
    values: List<ValueRow>,
    floats: List<FloatRow>,
    muxes: List<MuxRow>,
    kept: List<Kept>,
}

fn copied_rows(database: &Database) -> Result<Rows, Memory>
    ensures { IfOk result (λ copy. copy ≡ record {
      attributes = database.now.attributes;
      values = database.now.values;
      floats = database.now.floats;
      muxes = database.now.muxes;
      kept = database.now.kept;
    }) }
{
    let attributes = database.attributes.copy()?;
    let values = database.values.copy()?;
    let floats = database.floats.copy()?;
    let muxes = database.muxes.copy()?;
    let kept = database.kept.copy()?;
    Ok(Rows {
        attributes,
        values,
        floats,
        muxes,
        kept,
    })
}

// The database of these parts and of the bit timing of another with as many messages.
fn joined(database: &Database, preamble: Preamble, objects: Objects, rows: Rows) -> Database
    requires { objects.messages ≡ database.now.messages }
    ensures { result ≡ record {
      version = preamble.version;
      symbols = preamble.symbols;
      bit_timing = database.now.bit_timing;
      nodes = preamble.nodes;
      tables = preamble.tables;
      messages = objects.messages;
      comments = objects.comments;
      definitions = objects.definitions;
      defaults = objects.defaults;
      attributes = rows.attributes;
      values = rows.values;
      floats = rows.floats;
      muxes = rows.muxes;
      kept = rows.kept;
    } }
{
    Database {
        version: preamble.version,
        symbols: preamble.symbols,
        bit_timing: database.bit_timing,
        nodes: preamble.nodes,
        tables: preamble.tables,
        messages: objects.messages,
        comments: objects.comments,
        definitions: objects.definitions,
        defaults: objects.defaults,
        attributes: rows.attributes,
        values: rows.values,
        floats: rows.floats,
        muxes: rows.muxes,
        kept: rows.kept,
    }
}

impl Copied for Database {
    fn copy(&self) -> Result<Database, Memory> {
        let preamble = copied_preamble(self)?;
        let objects = copied_objects(self)?;
        let rows = copied_rows(self)?;
        Ok(joined(self, preamble, objects, rows))
    }
}
