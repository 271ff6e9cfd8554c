//! What belongs to no message.
ghost use Rattle.std.specs.Prelude.{◌≡◌, ◌∷◌, ◌++◌, [], ◌<◌, OnOk, Some, codes, filter, length, map, not, slice_get};
ghost use Rattle.std.specs.Prelude.{if◌then◌else◌};
ghost use Rattle.std.specs.List.{flat_map};
ghost use Rattle.json.specs.Tree.{json_tokens};
ghost use Rattle.can_json_texts.specs.Members.{text_members};
ghost use Rattle.can_json_texts.specs.Values.{tokens_of, array_of, or_null};
ghost use Rattle.can_json_texts.specs.Records.{decimal_json, names_json, table_json, definition_json, default_json, comment_json};
ghost use Rattle.can_json_texts.specs.Records.{attribute_json, values_json, float_json, mux_json, kept_json};
ghost use Rattle.can_json_dump.specs.Dumps.{is_given, other_comments, other_attributes, other_values, other_floats, other_muxes};
ghost use Rattle.can_json_dump.specs.Dumps.{front_members, definition_members, other_members, rest_json};

use can_entries::Lookup;
use can_json_texts::{JsonText, ToJson, write_array, write_array_member, write_text};
use can_references::CrossReferences;
use dbc_records::{
    AttrDef, AttrDefault, AttrRow, Comment, Database, FloatRow, MuxRow, TableRow, Target, ValueRow,
};
use dbc_values::{Decimal, Memory, Name, Symbol};

// Something that may be about a message or a signal that doesn't exist.
trait SaysOfTarget: ToJson {
    ghost use Rattle.std.specs.Prelude.{Bool};
    ghost use Rattle.dbc_records.specs.Databases.{Database as Whole};

    // Whether it is about one that exists.
    ghost is_given: { Whole → Self → Bool };

    // Whether it is about one that exists.
    fn is_given<'a, L: Lookup>(&'a self, known: &CrossReferences<'a, L>) -> bool
        ensures { result ≡ is_given known.now self.now };
}

fn is_given_target<'a, L: Lookup>(target: &'a Target, known: &CrossReferences<'a, L>) -> bool
    ensures { result ≡ is_given known.now target.now }
{
    match target {
        Target::Whole => false,
        Target::Node(_) => false,
        Target::Message(number) => known.has_number(*number),
        Target::Signal(number, name) => known.has_signal(*number, name.as_bytes()),
    }
}

impl SaysOfTarget for Comment {
    ghost use Rattle.can_json_dump.specs.Dumps as dumps;

    ghost is_given = { λ database comment. dumps.is_given database comment.target };

    fn is_given<'a, L: Lookup>(&'a self, known: &CrossReferences<'a, L>) -> bool {
        is_given_target(&self.target, known)
    }
}

impl SaysOfTarget for AttrRow {
    ghost use Rattle.can_json_dump.specs.Dumps as dumps;

    ghost is_given = { λ database row. dumps.is_given database row.target };

    fn is_given<'a, L: Lookup>(&'a self, known: &CrossReferences<'a, L>) -> bool {
        is_given_target(&self.target, known)
    }
}

impl SaysOfTarget for ValueRow {
    ghost use Rattle.can_json_dump.specs.Dumps.{has_signal};

    ghost is_given = { λ database row. has_signal database row.number row.signal };

    fn is_given<'a, L: Lookup>(&'a self, known: &CrossReferences<'a, L>) -> bool {
        known.has_signal(self.number, self.signal.as_bytes())
    }
}

impl SaysOfTarget for FloatRow {
    ghost use Rattle.can_json_dump.specs.Dumps.{has_signal};

    ghost is_given = { λ database row. has_signal database row.number row.signal };

    fn is_given<'a, L: Lookup>(&'a self, known: &CrossReferences<'a, L>) -> bool {
        known.has_signal(self.number, self.signal.as_bytes())
    }
}

impl SaysOfTarget for MuxRow {
    ghost use Rattle.can_json_dump.specs.Dumps.{has_signal};

    ghost is_given = { λ database row. has_signal database row.number row.signal };

    fn is_given<'a, L: Lookup>(&'a self, known: &CrossReferences<'a, L>) -> bool {
        known.has_signal(self.number, self.signal.as_bytes())
    }
}

// One that is about none; otherwise nothing.
fn write_other<'a, T: SaysOfTarget, L: Lookup>(
    text: &mut JsonText,
    known: &CrossReferences<'a, L>,
    row: &'a T,
) -> Result<(), Memory>
    ensures { OnOk result (text.new ≡ text.old ++ (if not (T.is_given known.now row.now) then json_tokens (T.json_of row.now) else
        [])) }
{
    if row.is_given(known) {
        Ok(())
    } else {
        row.write(text)
    }
}

fn row_at<T>(rows: &[T], index: usize) -> &T
    requires { index < length rows.now }
    ensures { Some result.now ≡ slice_get rows.now index }
{
    &rows[index]
}

// Those that are about none, one after another.
fn write_others_in<'a, T: SaysOfTarget, L: Lookup>(
    text: &mut JsonText,
    known: &CrossReferences<'a, L>,
    rows: &'a [T],
) -> Result<(), Memory>
    ensures { OnOk result (text.new ≡ text.old ++ flat_map (λ row. json_tokens (T.json_of row)) (filter (λ row. not
        (T.is_given known.now row)) rows.now)) }
{
    for index in 0..rows.len() {
        write_other(text, known, row_at(rows, index))?;
    }
    Ok(())
}

fn write_other_array<'a, T: SaysOfTarget, L: Lookup>(
    text: &mut JsonText,
    known: &CrossReferences<'a, L>,
    rows: &'a [T],
) -> Result<(), Memory>
    ensures { OnOk result (text.new ≡ text.old ++ json_tokens (array_of (map T.json_of (filter (λ row. not
        (T.is_given known.now row)) rows.now)))) }
{
    text.begin_array()?;
    write_others_in(text, known, rows)?;
    text.end_array()?;
    Ok(())
}

// A member of those that are about none.
fn write_others<'a, T: SaysOfTarget, L: Lookup>(
    text: &mut JsonText,
    key: &str,
    known: &CrossReferences<'a, L>,
    rows: &'a [T],
) -> Result<(), Memory>
    ensures { OnOk result (text.new ≡ text.old ++ tokens_of ((
      key.now,
      array_of (map T.json_of (filter (λ row. not
          (T.is_given known.now row)) rows.now)),
    ) ∷ [])) }
{
    text.key(key)?;
    write_other_array(text, known, rows)?;
    Ok(())
}

// ---- version, symbols, bit timing and nodes

fn write_timing_numbers(text: &mut JsonText, timing: &Option<[Decimal; 3]>) -> Result<(), Memory>
    ensures { OnOk result (text.new ≡ text.old ++ json_tokens (or_null (λ numbers. array_of (map decimal_json numbers))
        timing.now)) }
{
    match timing {
        Some(numbers) => write_array(text, numbers.as_slice()),
        None => text.null(),
    }
}

fn write_timing(text: &mut JsonText, timing: &Option<[Decimal; 3]>) -> Result<(), Memory>
    ensures { OnOk result (text.new ≡ text.old ++ tokens_of ((
      codes "bit_timing",
      or_null (λ numbers. array_of (map decimal_json
          numbers)) timing.now,
    ) ∷ [])) }
{
    text.key("bit_timing")?;
    write_timing_numbers(text, timing)?;
    Ok(())
}

fn write_symbols_and_timing(
    text: &mut JsonText,
    symbols: &[Symbol],
    timing: &Option<[Decimal; 3]>,
) -> Result<(), Memory>
    ensures { OnOk result (text.new ≡ text.old ++ tokens_of ((codes "symbols", names_json symbols.now)
        ∷ (codes "bit_timing", or_null (λ numbers. array_of (map decimal_json numbers)) timing.now) ∷ [])) }
{
    write_array_member(text, "symbols", symbols)?;
    write_timing(text, timing)?;
    Ok(())
}

fn write_lists(
    text: &mut JsonText,
    symbols: &[Symbol],
    timing: &Option<[Decimal; 3]>,
    nodes: &[Name],
) -> Result<(), Memory>
    ensures { OnOk result (text.new ≡ text.old ++ tokens_of ((codes "symbols", names_json symbols.now)
        ∷ (codes "bit_timing", or_null (λ numbers. array_of (map decimal_json numbers)) timing.now)
        ∷ (codes "nodes", names_json nodes.now) ∷ [])) }
{
    write_symbols_and_timing(text, symbols, timing)?;
    write_array_member(text, "nodes", nodes)?;
    Ok(())
}

fn write_version_and_lists(
    text: &mut JsonText,
    version: &[u8],
    symbols: &[Symbol],
    timing: &Option<[Decimal; 3]>,
    nodes: &[Name],
) -> Result<(), Memory>
    ensures { OnOk result (text.new ≡ text.old ++ tokens_of (text_members (codes "version") version.now
        ++ ((codes "symbols", names_json symbols.now)
        ∷ (codes "bit_timing", or_null (λ numbers. array_of (map decimal_json numbers)) timing.now)
        ∷ (codes "nodes", names_json nodes.now) ∷ []))) }
{
    write_text(text, "version", version)?;
    write_lists(text, symbols, timing, nodes)?;
    Ok(())
}

fn write_front(text: &mut JsonText, database: &Database) -> Result<(), Memory>
    ensures { OnOk result (text.new ≡ text.old ++ tokens_of (front_members database.now)) }
{
    write_version_and_lists(
        text,
        database.version.as_bytes(),
        database.symbols.as_slice(),
        &database.bit_timing,
        database.nodes.as_slice(),
    )
}

// ---- value tables, definitions and defaults

fn write_tables_and_definitions(
    text: &mut JsonText,
    tables: &[TableRow],
    definitions: &[AttrDef],
) -> Result<(), Memory>
    ensures { OnOk result (text.new ≡ text.old ++ tokens_of ((codes "value_tables", array_of (map table_json tables.now))
        ∷ (codes "definitions", array_of (map definition_json definitions.now)) ∷ [])) }
{
    write_array_member(text, "value_tables", tables)?;
    write_array_member(text, "definitions", definitions)?;
    Ok(())
}

fn write_tables_and_attributes(
    text: &mut JsonText,
    tables: &[TableRow],
    definitions: &[AttrDef],
    defaults: &[AttrDefault],
) -> Result<(), Memory>
    ensures { OnOk result (text.new ≡ text.old ++ tokens_of ((codes "value_tables", array_of (map table_json tables.now))
        ∷ (codes "definitions", array_of (map definition_json definitions.now))
        ∷ (codes "defaults", array_of (map default_json defaults.now)) ∷ [])) }
{
    write_tables_and_definitions(text, tables, definitions)?;
    write_array_member(text, "defaults", defaults)?;
    Ok(())
}

fn write_definitions(text: &mut JsonText, database: &Database) -> Result<(), Memory>
    ensures { OnOk result (text.new ≡ text.old ++ tokens_of (definition_members database.now)) }
{
    write_tables_and_attributes(
        text,
        database.tables.as_slice(),
        database.definitions.as_slice(),
        database.defaults.as_slice(),
    )
}

// ---- what is about no message that exists

fn write_comments<L: Lookup>(
    text: &mut JsonText,
    known: &CrossReferences<'_, L>,
) -> Result<(), Memory>
    ensures { OnOk result (text.new ≡ text.old ++ tokens_of ((
      codes "comments",
      array_of (map comment_json (other_comments
          known.now)),
    ) ∷ [])) }
{
    let database = known.database();
    write_others(text, "comments", known, database.comments.as_slice())?;
    Ok(())
}

fn write_attributes<L: Lookup>(
    text: &mut JsonText,
    known: &CrossReferences<'_, L>,
) -> Result<(), Memory>
    ensures { OnOk result (text.new ≡ text.old ++ tokens_of ((
      codes "attributes",
      array_of (map attribute_json (other_attributes
          known.now)),
    ) ∷ [])) }
{
    let database = known.database();
    write_others(text, "attributes", known, database.attributes.as_slice())?;
    Ok(())
}

fn write_values_of<L: Lookup>(
    text: &mut JsonText,
    known: &CrossReferences<'_, L>,
) -> Result<(), Memory>
    ensures { OnOk result (text.new ≡ text.old ++ tokens_of ((
      codes "values",
      array_of (map values_json (other_values
          known.now)),
    ) ∷ [])) }
{
    let database = known.database();
    write_others(text, "values", known, database.values.as_slice())?;
    Ok(())
}

fn write_value_types<L: Lookup>(
    text: &mut JsonText,
    known: &CrossReferences<'_, L>,
) -> Result<(), Memory>
    ensures { OnOk result (text.new ≡ text.old ++ tokens_of ((
      codes "value_types",
      array_of (map float_json (other_floats
          known.now)),
    ) ∷ [])) }
{
    let database = known.database();
    write_others(text, "value_types", known, database.floats.as_slice())?;
    Ok(())
}

fn write_multiplexing<L: Lookup>(
    text: &mut JsonText,
    known: &CrossReferences<'_, L>,
) -> Result<(), Memory>
    ensures { OnOk result (text.new ≡ text.old ++ tokens_of ((
      codes "multiplexing",
      array_of (map mux_json (other_muxes
          known.now)),
    ) ∷ [])) }
{
    let database = known.database();
    write_others(text, "multiplexing", known, database.muxes.as_slice())?;
    Ok(())
}

fn write_kept<L: Lookup>(text: &mut JsonText, known: &CrossReferences<'_, L>) -> Result<(), Memory>
    ensures { OnOk result (text.new ≡ text.old ++ tokens_of ((codes "kept", array_of (map kept_json known.now.kept)) ∷ [])) }
{
    let database = known.database();
    write_array_member(text, "kept", database.kept.as_slice())
}

fn write_other_remarks<L: Lookup>(
    text: &mut JsonText,
    known: &CrossReferences<'_, L>,
) -> Result<(), Memory>
    ensures { OnOk result (text.new ≡ text.old ++ tokens_of ((
      codes "comments",
      array_of (map comment_json (other_comments
          known.now)),
    ) ∷ (codes "attributes", array_of (map attribute_json (other_attributes known.now))) ∷ [])) }
{
    write_comments(text, known)?;
    write_attributes(text, known)?;
    Ok(())
}

fn write_other_values<L: Lookup>(
    text: &mut JsonText,
    known: &CrossReferences<'_, L>,
) -> Result<(), Memory>
    ensures { OnOk result (text.new ≡ text.old ++ tokens_of ((
      codes "values",
      array_of (map values_json (other_values
          known.now)),
    ) ∷ (codes "value_types", array_of (map float_json (other_floats known.now))) ∷ [])) }
{
    write_values_of(text, known)?;
    write_value_types(text, known)?;
    Ok(())
}

fn write_multiplexing_and_kept<L: Lookup>(
    text: &mut JsonText,
    known: &CrossReferences<'_, L>,
) -> Result<(), Memory>
    ensures { OnOk result (text.new ≡ text.old ++ tokens_of ((
      codes "multiplexing",
      array_of (map mux_json (other_muxes
          known.now)),
    ) ∷ (codes "kept", array_of (map kept_json known.now.kept)) ∷ [])) }
{
    write_multiplexing(text, known)?;
    write_kept(text, known)?;
    Ok(())
}

fn write_other_rows<L: Lookup>(
    text: &mut JsonText,
    known: &CrossReferences<'_, L>,
) -> Result<(), Memory>
    ensures { OnOk result (text.new ≡ text.old ++ tokens_of ((
      codes "values",
      array_of (map values_json (other_values
          known.now)),
    ) ∷ (codes "value_types", array_of (map float_json (other_floats known.now)))
        ∷ (codes "multiplexing", array_of (map mux_json (other_muxes known.now)))
        ∷ (codes "kept", array_of (map kept_json known.now.kept)) ∷ [])) }
{
    write_other_values(text, known)?;
    write_multiplexing_and_kept(text, known)?;
    Ok(())
}

fn write_rest_of<L: Lookup>(
    text: &mut JsonText,
    known: &CrossReferences<'_, L>,
) -> Result<(), Memory>
    ensures { OnOk result (text.new ≡ text.old ++ tokens_of (other_members known.now)) }
{
    write_other_remarks(text, known)?;
    write_other_rows(text, known)?;
    Ok(())
}

#[tactic(auto, using(can_json_texts::proofs::Tokens::members_then))]
fn write_after_front<L: Lookup>(
    text: &mut JsonText,
    known: &CrossReferences<'_, L>,
) -> Result<(), Memory>
    ensures { OnOk result (text.new ≡ text.old ++ tokens_of (definition_members known.now ++ other_members known.now)) }
{
    write_definitions(text, known.database())?;
    write_rest_of(text, known)
}

#[tactic(auto, using(can_json_texts::proofs::Tokens::members_then))]
fn write_rest_members<L: Lookup>(
    text: &mut JsonText,
    known: &CrossReferences<'_, L>,
) -> Result<(), Memory>
    ensures { OnOk result (text.new ≡ text.old ++ tokens_of (front_members known.now ++ (definition_members known.now
        ++ other_members known.now))) }
{
    write_front(text, known.database())?;
    write_after_front(text, known)
}

/// Writes the object of all that belongs to no message.
#[tactic(auto, using(can_json_texts::proofs::Tokens::object_written))]
pub(crate) fn write_rest<L: Lookup>(
    text: &mut JsonText,
    known: &CrossReferences<'_, L>,
) -> Result<(), Memory>
    ensures { OnOk result (text.new ≡ text.old ++ json_tokens (rest_json known.now)) }
{
    text.begin_object()?;
    write_rest_members(text, known)?;
    text.end_object()?;
    Ok(())
}
