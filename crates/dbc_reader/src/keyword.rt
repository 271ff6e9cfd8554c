//! The words that statements begin with.
ghost use Rattle.std.specs.Prelude.{◌≡◌};
ghost use Rattle.dbc_reader.specs.inner.Keywords.{keyword_of};

use dbc_values::{is_kept_word, same};

/// What the first word of a statement is, for all statements except the bit timing and signals.
#[derive(Clone, Copy)]
pub(crate) enum StatementKeyword {
    /// `NS_`.
    Symbols,
    /// `BU_`.
    Nodes,
    /// `BO_`.
    Message,
    /// `VAL_TABLE_`.
    Table,
    /// `VAL_`.
    Values,
    /// `SIG_VALTYPE_`.
    Float,
    /// `SG_MUL_VAL_`.
    Mux,
    /// `CM_`.
    Comment,
    /// `BA_DEF_`.
    Definition,
    /// `BA_DEF_DEF_`.
    Default,
    /// `BA_`.
    Attribute,
    /// A word of statements kept verbatim.
    Kept,
}

/// The keyword that a word is, if it is one.
#[tactic(auto, unfolding(crate::specs::inner::Keywords::keyword_of))]
pub(crate) fn keyword_of(word: &[u8]) -> Option<StatementKeyword>
    ensures { result ≡ keyword_of word.now }
{
    if same(word, b"NS_") {
        Some(StatementKeyword::Symbols)
    } else if same(word, b"BU_") {
        Some(StatementKeyword::Nodes)
    } else if same(word, b"BO_") {
        Some(StatementKeyword::Message)
    } else if same(word, b"VAL_TABLE_") {
        Some(StatementKeyword::Table)
    } else if same(word, b"VAL_") {
        Some(StatementKeyword::Values)
    } else if same(word, b"SIG_VALTYPE_") {
        Some(StatementKeyword::Float)
    } else if same(word, b"SG_MUL_VAL_") {
        Some(StatementKeyword::Mux)
    } else if same(word, b"CM_") {
        Some(StatementKeyword::Comment)
    } else if same(word, b"BA_DEF_") {
        Some(StatementKeyword::Definition)
    } else if same(word, b"BA_DEF_DEF_") {
        Some(StatementKeyword::Default)
    } else if same(word, b"BA_") {
        Some(StatementKeyword::Attribute)
    } else if is_kept_word(word) {
        Some(StatementKeyword::Kept)
    } else {
        None
    }
}
