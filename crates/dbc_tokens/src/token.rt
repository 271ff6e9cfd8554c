//! Tokens, and the step from one to the next.

/// What a token is.
#[derive(Clone, Copy, Debug, PartialEq, Eq)]
pub enum Kind {
    /// A string: a text in quotes.
    Text,
    /// A letter or an underscore, and then letters, digits and underscores: a keyword or a name.
    Word,
    /// A number without a sign.
    Number,
    /// One of the bytes `:`, `;`, `|`, `@`, `(`, `)`, `[`, `]`, `,`, `+` and `-`.
    Mark,
}

/// A token of a text.
#[derive(Clone, Copy, Debug, PartialEq, Eq)]
pub struct Token<'a> {
    /// What it is.
    pub kind: Kind,
    /// Its bytes as they are in the text, for a string with both quotes.
    pub bytes: &'a [u8],
    /// The line of its first byte: 1 and the number of LF before it.
    pub line: u64,
    /// How many bytes of the text remain from its first byte on.
    pub left: usize,
}

/// What comes next in a text.
#[derive(Clone, Copy, Debug, PartialEq, Eq)]
pub enum Next<'a> {
    /// A token.
    Token(Token<'a>),
    /// The end of the text, in this line: 1 and the number of all its LF.
    End(u64),
    /// In this line, a byte at which no token begins, or the opening quote of a string without an end.
    Fault(u64),
}
