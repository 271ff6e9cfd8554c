//! The values of which database records consist: names, texts, symbols, tokens, exact decimals and scales, and
//! lists of such values.
//!
//! Every value of a type of this crate keeps the bounds of the format: a [`Name`] is no keyword, a [`Decimal`] has one form. So you
//! need not test it again.
#![tactic(auto)]

mod class;
mod decimal;
pub mod laws;
mod list;
mod memory;
mod name;
mod number;
mod piece;
mod scale;
mod stop;
mod stored;
mod symbol;
mod text;

pub use class::{is_digit, is_letter, is_mark, is_word_byte};
pub use decimal::Decimal;
pub use list::{Checked, Copied, List, Rewrite};
pub use memory::Memory;
pub use name::{Name, ends_in_underscore, is_kept_word, is_name, is_word, same};
pub use number::{Whole, are_digits, digits_len, is_number, whole_of};
pub use piece::{Pieces, is_piece, is_string};
pub use scale::Scale;
pub use stop::Stop;
pub use symbol::{Symbol, is_symbol};
pub use text::{Text, is_text};
