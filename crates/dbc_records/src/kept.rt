//! Statements kept verbatim.
ghost use Rattle.std.specs.Prelude.{◌≡◌, [], ◌∷◌, Some, None, if◌then◌else◌, codes};
ghost use Rattle.std.specs.Str.{bytes_eq};
ghost use Rattle.dbc_values.specs.Lexical.{is_name, is_kept_word};
ghost use Rattle.dbc_records.specs.Kept.{begins, kept_fits};
ghost use Rattle.dbc_values.specs.Pieces.{is_string};

use dbc_values::{Checked, Copied, Memory, Pieces, is_kept_word, is_name, is_string, same};
use std::marker::Model;

/// A statement kept verbatim: its tokens without the `;` that ends it.
///
/// It begins with one of the words of environment variables, signal groups, signal types, categories and relations (`EV_`,
/// `SIG_GROUP_`, ..), with `VAL_` and a name, with `CM_` and `EV_`, or with `BA_`, a string and `EV_`. Any tokens may follow.
#[derive(Drop)]
pub struct Kept {
    /// Its tokens, without the semicolon that ends it.
    pub tokens: Pieces,
}

impl Model for Kept {
    ghost use Rattle.dbc_records.specs.Kept as statements;

    ghost Value = { statements.Kept };

    ghost view = { λ a. record { tokens = a.tokens } };

    ghost invariant = { λ a. statements.IsKept (record { tokens = a.tokens }) };
}

fn begins_with_kept_word(tokens: &Pieces) -> bool
    ensures { result ≡ begins (is_kept_word ∷ []) tokens.now }
{
    match tokens.get(0) {
        Some(first) => is_kept_word(first),
        None => false,
    }
}

fn begins_as_values(tokens: &Pieces) -> bool
    ensures { result ≡ begins (bytes_eq (codes "VAL_") ∷ is_name ∷ []) tokens.now }
{
    match (tokens.get(0), tokens.get(1)) {
        (Some(first), Some(second)) => same(b"VAL_", first) && is_name(second),
        _ => false,
    }
}

fn begins_as_comment(tokens: &Pieces) -> bool
    ensures { result ≡ begins (bytes_eq (codes "CM_") ∷ bytes_eq (codes "EV_") ∷ []) tokens.now }
{
    match (tokens.get(0), tokens.get(1)) {
        (Some(first), Some(second)) => same(b"CM_", first) && same(b"EV_", second),
        _ => false,
    }
}

fn begins_as_attribute(tokens: &Pieces) -> bool
    ensures { result ≡ begins (bytes_eq (codes "BA_") ∷ is_string ∷ bytes_eq (codes "EV_") ∷ []) tokens.now }
{
    match (tokens.get(0), tokens.get(1), tokens.get(2)) {
        (Some(first), Some(second), Some(third)) => {
            same(b"BA_", first) && is_string(second) && same(b"EV_", third)
        }
        _ => false,
    }
}

#[tactic(auto, unfolding(crate::specs::Kept::kept_fits))]
fn kept_fits(tokens: &Pieces) -> bool
    ensures { result ≡ kept_fits tokens.now }
{
    begins_with_kept_word(tokens)
        || begins_as_values(tokens)
        || begins_as_comment(tokens)
        || begins_as_attribute(tokens)
}

impl Kept {
    /// The statement, or `None` if no statement kept verbatim begins with these tokens.
    pub fn new(tokens: Pieces) -> Option<Kept>
        ensures { result ≡ (if kept_fits tokens then Some (record { tokens = tokens }) else None) }
    {
        if !kept_fits(&tokens) {
            return None;
        }
        Some(Kept { tokens })
    }
}

impl Checked for Kept {
    ghost use Rattle.dbc_records.specs.Kept.{IsKept};

    ghost IsValid = { IsKept };
}

impl Copied for Kept {
    fn copy(&self) -> Result<Kept, Memory> {
        let tokens = self.tokens.copy()?;
        Ok(Kept { tokens })
    }
}
