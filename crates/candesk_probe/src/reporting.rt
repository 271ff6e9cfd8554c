//! What is written: marks, texts and numbers. A write that fails is ignored, since the test that judges it
//! notices what wasn't written.

use arrayvec::ArrayString;
use byte_devices::{Sink, put_all};
use std::fmt::{Display, Write};

// Space for the longest line that is made of numbers and words.
const MAX_LINE_SIZE: usize = 256;

/// Writes these bytes.
pub(crate) fn put<W: Sink>(sink: &mut W, bytes: &[u8]) {
    let _ = put_all(sink, bytes);
}

/// Writes a line of these bytes.
pub(crate) fn put_line<W: Sink>(sink: &mut W, bytes: &[u8]) {
    put(sink, bytes);
    put(sink, b"\n");
}

/// Writes a line. It allocates nothing.
pub(crate) fn report<W: Sink>(sink: &mut W, text: impl Display + Drop) {
    let mut line: ArrayString<MAX_LINE_SIZE> = ArrayString::new();
    let _ = writeln!(line, "{text}");
    put(sink, line.as_bytes());
}

/// A call begins.
pub(crate) fn begin<W: Sink>(sink: &mut W) {
    put(sink, b"begin\n");
}

/// The call has ended.
pub(crate) fn end<W: Sink>(sink: &mut W) {
    put(sink, b"end\n");
}
