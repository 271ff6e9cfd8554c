//! What is written for each line.
ghost use Rattle.std.specs.Prelude.{◌≡◌, ℕ, List, OnOk, OnErr};
ghost use Rattle.can_line_stream.specs.LineTexts.{state_after, StreamsTexts};

use crate::fault::StreamFault;
use crate::handler::Handler;
use crate::streaming::stream_lines;
use arrayvec::ArrayVec;
use byte_devices::{Out, Sink, Source, WriteFault};
use dbc_text_buffer::TextBuffer;
use dbc_values::{Memory, Stop};
use std::alloc::Global;
use std::marker::PhantomData;

const MAX_LINE_SIZE: usize = 4096;

/// What is written for a line.
pub trait LineText: Drop {
    // What is written for a line, with any LF.
    ghost text_of: { Self → List ℕ → List ℕ };

    // The value after that text was made, such as a count that rises.
    ghost next: { Self → List ℕ → Self };

    /// Writes the text for a line to `text`, replacing what it held. If memory runs out it is as it was, and what `text` holds is
    /// meaningless. No contract sees what else it changes of itself, such as a table of what was looked up.
    fn renew(&mut self, text: &mut TextBuffer, line: &[u8]) -> Result<(), Memory>
        ensures text { OnOk result (text.new.items ≡ text_of self.old line.now) }
        ensures next { OnOk result (self.new ≡ next self.old line.now) }
        ensures same { OnErr result (self.new ≡ self.old) };

    // No text changes with that.
    ghost same_texts: { (texts : Self) (line : List ℕ) → text_of (next texts line) ≡ text_of texts };
}

// Lines are handled by writing their texts.
#[derive(Drop)]
struct Writer<T> {
    texts: PhantomData<T>,
}

impl<T: LineText> Handler for Writer<T> {
    ghost use Rattle.can_line_stream.specs.LineTexts.{writes_texts};

    type State = T;

    ghost View = { T };

    ghost view = { λ texts. texts };

    ghost rules = { λ _. writes_texts (record { text_of = T.text_of; next = T.next }) };

    fn handle<W: Sink>(
        &self,
        texts: &mut T,
        space: &mut TextBuffer,
        out: &mut Out<'_, W>,
        line: &[u8],
    ) -> Result<(), Stop> {
        let Ok(()) = texts.renew(space, line) else {
            return Err(Stop::Memory);
        };
        if let Err(WriteFault) = out.send(space.as_slice()) {
            return Err(Stop::Write);
        }
        Ok(())
    }

    ghost nothing_waits = { λ handler. tt };
}

/// Reads the source to its end, writes what is made of each line, and returns how many lines there are, up to `u64::MAX`. A line
/// has at most 4,096 bytes. Before it pulls again, what is made of all lines that were read whole is written.
pub fn stream_texts<T: LineText, R: Source, W: Sink>(
    alloc: Global,
    texts: &mut T,
    source: &mut R,
    sink: &mut W,
) -> Result<u64, StreamFault>
    ensures { (lines : List (List ℕ)) × (texts.new ≡ state_after (record { text_of = T.text_of; next = T.next }) texts.old lines)
        × StreamsTexts (T.text_of texts.old) (R.unread source.old) (R.unread source.new) (W.written sink.old) (W.written sink.new)
        result lines }
{
    let mut line = ArrayVec::<u8, MAX_LINE_SIZE>::new();
    let writer = Writer { texts: PhantomData };
    stream_lines(alloc, &writer, texts, source, sink, &mut line)
}
