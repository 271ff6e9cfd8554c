//! What is cached of the names of raw values.
use dbc_text_buffer::ReadyText;

/// What is cached of the name of a raw value.
#[derive(Clone, Copy)]
pub enum CachedName<'a> {
    /// The name, ready to print.
    Name(&'a ReadyText),
    /// That there is none.
    Unnamed,
    /// Nothing: the name has to be looked up among the entries.
    NotCached,
}
