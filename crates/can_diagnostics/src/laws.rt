//! A law of the definitions. The function does nothing: what it ensures is the law.
ghost use Rattle.std.specs.Prelude.{◌≡◌};
ghost use Rattle.dbc_records.specs.Records.{TableRow, ValueRow, FloatRow, MuxRow};
ghost use Rattle.dbc_records.specs.Comments.{Comment};
ghost use Rattle.dbc_records.specs.Attributes.{AttrDef, AttrDefault, AttrRow};
ghost use Rattle.dbc_records.specs.CanonicalText.{table_key, comment_key, definition_key, default_key, attribute_key, values_key};
ghost use Rattle.dbc_records.specs.CanonicalText.{float_key, mux_key};
ghost use Rattle.dbc_records.specs.EntryKeys.{key_layout, key_of_table, key_of_comment, key_of_definition, key_of_default};
ghost use Rattle.dbc_records.specs.EntryKeys.{key_of_attribute, key_of_values, key_of_float, key_of_mux};

/// The layout of an entry's key is what the entry is printed as, up to and including its key.
#[tactic(auto, unfolding(dbc_records::specs::EntryKeys::key_layout, dbc_records::specs::CanonicalText::table_key, dbc_records::specs::CanonicalText::comment_key, dbc_records::specs::CanonicalText::definition_key, dbc_records::specs::CanonicalText::default_key, dbc_records::specs::CanonicalText::attribute_key, dbc_records::specs::CanonicalText::values_key, dbc_records::specs::CanonicalText::float_key, dbc_records::specs::CanonicalText::mux_key))]
pub fn keys_as_printed()
    ensures table { (row : TableRow) → key_layout (key_of_table row) ≡ table_key row }
    ensures comment { (row : Comment) → key_layout (key_of_comment row) ≡ comment_key row }
    ensures definition { (row : AttrDef) → key_layout (key_of_definition row) ≡ definition_key row }
    ensures default { (row : AttrDefault) → key_layout (key_of_default row) ≡ default_key row }
    ensures attribute { (row : AttrRow) → key_layout (key_of_attribute row) ≡ attribute_key row }
    ensures values { (row : ValueRow) → key_layout (key_of_values row) ≡ values_key row }
    ensures float { (row : FloatRow) → key_layout (key_of_float row) ≡ float_key row }
    ensures mux { (row : MuxRow) → key_layout (key_of_mux row) ≡ mux_key row }
{}
