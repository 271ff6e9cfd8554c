//! The tokens of a text, from its start.
ghost use Rattle.std.specs.Prelude.{◌≡◌};
ghost use Rattle.dbc_tokens.specs.Tokens.{HasTokens};
ghost use Rattle.dbc_tokens.specs.inner.Scanner.{cut_of};
ghost use Rattle.dbc_tokens.specs.Views.{left};

use crate::stream::Tokens;

/// The tokens of a text, whose first byte is in line 1. Nothing is allocated.
pub fn tokens(text: &[u8]) -> Tokens<'_>
    ensures definition { HasTokens 1 0 text.now (left result) }
    ensures scanner { left result ≡ cut_of 1 text.now }
{
    Tokens::new(text)
}
