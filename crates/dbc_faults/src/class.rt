//! Classes of tokens, and why a token isn't taken as one of a class.
ghost use Rattle.std.specs.Prelude.{◌≡◌, Ok, Err, codes};
ghost use Rattle.dbc_tokens.specs.Views.{token_of};
ghost use Rattle.dbc_reader.specs.Classes.{whole_of, order_of, tag_of};
ghost use Rattle.dbc_reader.specs.Pattern.{verdict, plain, judged_so};
ghost use Rattle.dbc_faults.specs.Patterns.{class_of, seen_of, cause_of, refusal_of};

use crate::keyword::Keyword;
use crate::seen::Seen;
use dbc_reader::{has_mark, has_name, has_piece, has_string, has_symbol, has_word, tag};
use dbc_tokens::{Cause, Token};
use dbc_values::{Decimal, Whole, is_kept_word, whole_of};

/// A class of tokens that may be at a position in a text.
#[derive(Clone, Copy, Debug, PartialEq, Eq)]
pub enum Class {
    /// This word.
    Word(Keyword),
    /// This mark.
    Mark(u8),
    /// A name: a word that is no keyword.
    Name,
    /// A word of the list of symbols.
    Symbol,
    /// A text in quotes.
    String,
    /// A whole number from the first to the second.
    Whole(u64, u64),
    /// A number without a sign that is a decimal, negated if this is true.
    Number(bool),
    /// The digit of a signal's byte order: 0 or 1.
    Order,
    /// A multiplexer indicator.
    Tag,
    /// Any token but a semicolon.
    Piece,
    /// A word that begins a statement kept verbatim.
    KeptWord,
    /// The word that begins a message.
    BeginsMessage,
    /// The word that begins a signal.
    BeginsSignal,
    /// The name of a signal, which no other signal of its message has.
    SignalName,
}

// A refusal of what passes no test.
fn unless(passes: bool) -> Option<Cause>
    ensures { result ≡ refusal_of passes }
{
    if passes { None } else { Some(Cause::Statement) }
}

#[tactic(auto, unfolding(dbc_reader::specs::Classes::whole_of))]
fn whole_refusal(least: u64, most: u64, bytes: &[u8]) -> Option<Cause>
    ensures { result ≡ cause_of (whole_of least most bytes.now) }
{
    match whole_of(bytes) {
        Some(Whole::Value(n)) if least <= n && n <= most => None,
        Some(Whole::Value(_) | Whole::TooLarge) => Some(Cause::Limit),
        Some(Whole::Fraction) | None => Some(Cause::Statement),
    }
}

#[tactic(auto, unfolding(dbc_reader::specs::Classes::order_of))]
fn order_refusal(bytes: &[u8]) -> Option<Cause>
    ensures { result ≡ cause_of (order_of bytes.now) }
{
    match whole_of(bytes) {
        Some(Whole::Value(0 | 1)) => None,
        _ => Some(Cause::Statement),
    }
}

fn tag_refusal(bytes: &[u8]) -> Option<Cause>
    ensures { result ≡ cause_of (tag_of bytes.now) }
{
    tag(bytes).err()
}

impl Class {
    /// Why the token isn't taken as one of the class, if it isn't.
    #[tactic(auto, unfolding(dbc_reader::specs::Classes::has_number, dbc_reader::specs::Classes::has_kept_word))]
    pub fn refusal(self, token: Token<'_>, seen: &Seen<'_>) -> Option<Cause>
        ensures { result ≡ cause_of (verdict (class_of self) (token_of token.entry) (seen_of seen.now)) }
    {
        match self {
            Class::Word(word) => unless(has_word(token, word.bytes())),
            Class::Mark(mark) => unless(has_mark(token, mark)),
            Class::Name => unless(has_name(token)),
            Class::Symbol => unless(has_symbol(token)),
            Class::String => unless(has_string(token)),
            Class::Whole(least, most) => whole_refusal(least, most, token.bytes),
            Class::Number(negative) => unless(Decimal::of_number(negative, token.bytes).is_some()),
            Class::Order => order_refusal(token.bytes),
            Class::Tag => tag_refusal(token.bytes),
            Class::Piece => unless(has_piece(token)),
            Class::KeptWord => unless(is_kept_word(token.bytes)),
            Class::BeginsMessage => seen.message_refusal(token),
            Class::BeginsSignal => seen.signal_refusal(token),
            Class::SignalName => seen.name_refusal(token),
        }
    }
}
