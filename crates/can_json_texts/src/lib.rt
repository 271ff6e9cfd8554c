//! Texts and objects of JSON, and the records of a database as JSON.
//!
//! A JSON text is UTF-8. Bytes that aren't UTF-8 become a text in which each byte is the character with its value, followed
//! by their hexadecimal pairs.
//!
//! A [`JsonText`] is a JSON text that is being written by the kit's writer, as its tokens. Whatever implements [`ToJson`] is a JSON
//! value.
#![tactic(auto)]

mod attributes;
mod decimal;
mod definitions;
mod entries;
mod hexadecimal;
mod key;
pub mod laws;
mod members;
mod name;
mod quoting;
mod rows;
mod text;
mod value;

pub use attributes::write_own_attribute;
pub use hexadecimal::push_hexadecimal;
pub use key::Key;
pub use members::{
    write_array_member, write_flag, write_member, write_optional, write_string, write_text,
    write_whole,
};
pub use quoting::{characters_of, is_plain, push_quoted};
pub use text::JsonText;
pub use value::{ToJson, write_array, write_values};
