//! Ranges of bytes.

/// Bytes of a text, one after another.
#[derive(Clone, Copy, Debug, PartialEq, Eq)]
pub struct Range {
    /// The line of the first byte: 1 and the number of LF before it.
    pub line: u64,
    /// The offset of the first byte in the text.
    pub from: usize,
    /// The offset after the last byte.
    pub to: usize,
}
