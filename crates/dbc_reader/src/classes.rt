//! Classes of tokens.
ghost use Rattle.std.specs.Prelude.{◌≡◌, false};
ghost use Rattle.dbc_tokens.specs.Views.{token_of};
ghost use Rattle.dbc_reader.specs.Classes.{has_word, has_mark, has_name, has_symbol, has_string, has_piece, has_number};
ghost use Rattle.dbc_reader.specs.inner.Parts.{begins_decimal, begins_receiver};

use dbc_tokens::Token;
use dbc_values::{Decimal, is_name, is_piece, is_string, is_symbol, same};

/// Whether the token is this word.
#[tactic(auto, unfolding(crate::specs::Classes::has_word))]
pub fn has_word(token: Token<'_>, word: &[u8]) -> bool
    ensures { result ≡ has_word word.now (token_of token.entry) }
{
    same(token.bytes, word)
}

/// Whether the token is this mark.
#[tactic(auto, unfolding(crate::specs::Classes::has_mark))]
pub fn has_mark(token: Token<'_>, mark: u8) -> bool
    ensures { result ≡ has_mark mark (token_of token.entry) }
{
    same(token.bytes, &[mark])
}

#[tactic(auto, unfolding(crate::specs::Classes::has_name))]
pub fn has_name(token: Token<'_>) -> bool
    ensures { result ≡ has_name (token_of token.entry) }
{
    is_name(token.bytes)
}

#[tactic(auto, unfolding(crate::specs::Classes::has_symbol))]
pub fn has_symbol(token: Token<'_>) -> bool
    ensures { result ≡ has_symbol (token_of token.entry) }
{
    is_symbol(token.bytes)
}

/// Whether the token is a string.
#[tactic(auto, unfolding(crate::specs::Classes::has_string))]
pub fn has_string(token: Token<'_>) -> bool
    ensures { result ≡ has_string (token_of token.entry) }
{
    is_string(token.bytes)
}

/// Whether the token is no semicolon.
#[tactic(auto, unfolding(crate::specs::Classes::has_piece))]
pub fn has_piece(token: Token<'_>) -> bool
    ensures { result ≡ has_piece (token_of token.entry) }
{
    is_piece(token.bytes)
}

/// Whether the token is a number that is a decimal.
#[tactic(auto, unfolding(crate::specs::Classes::has_number))]
pub(crate) fn has_number(token: Token<'_>) -> bool
    ensures { result ≡ has_number false (token_of token.entry) }
{
    Decimal::of_number(false, token.bytes).is_some()
}

/// Whether the token begins a decimal with a sign or without.
#[tactic(auto, unfolding(crate::specs::inner::Parts::begins_decimal))]
pub(crate) fn begins_decimal(token: Token<'_>) -> bool
    ensures { result ≡ begins_decimal (token_of token.entry) }
{
    has_mark(token, b'-') || has_mark(token, b'+') || has_number(token)
}

/// Whether the token begins a further receiver.
#[tactic(auto, unfolding(crate::specs::inner::Parts::begins_receiver))]
pub(crate) fn begins_receiver(token: Token<'_>) -> bool
    ensures { result ≡ begins_receiver (token_of token.entry) }
{
    has_mark(token, b',') || has_name(token)
}
