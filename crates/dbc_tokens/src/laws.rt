//! Laws of tokens. The functions do nothing: what they ensure is the law.
ghost use Rattle.std.specs.Prelude.{◌≡◌, ◌↔◌, ℕ, List};
ghost use Rattle.dbc_tokens.specs.Tokens.{Cut, HasTokens};
ghost use Rattle.dbc_tokens.specs.Places.{TokensInOrder, TokensFromEach};
ghost use Rattle.dbc_tokens.specs.inner.Scanner.{cut_of};

/// A text has exactly one list of tokens with its end or fault, and it is the one that the scanner finds.
pub fn one_cut()
    ensures { (line : ℕ) (text : List ℕ) (cut : Cut) → HasTokens line 0 text cut ↔ (cut ≡ cut_of line text) }
{}

/// The tokens of a text are parts of it in ascending order, none within another, each in the line that the line
/// feeds before it determine.
pub fn tokens_in_order()
    ensures { TokensInOrder }
{}

/// From the first byte of each token on, a text has that token and those after it.
pub fn tokens_from_each()
    ensures { (line : ℕ) (text : List ℕ) (cut : Cut) → HasTokens line 0 text cut → TokensFromEach text cut }
{}
