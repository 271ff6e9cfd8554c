//! A source is read piece by piece, cut into lines and handled.
ghost use Rattle.std.specs.Prelude.{◌≡◌, ℕ, ◌-◌, ◌^◌, ◌+◌, ◌<◌, ◌≤◌, min, List, [], ◌∷◌, ◌++◌, length, IfOk, OnOk, OnErr, IfSome};
ghost use Rattle.std.specs.Prelude.{IfNone, IsErrOf};
ghost use Rattle.dbc_values.specs.Lexical.{line_feed};
ghost use Rattle.byte_devices.specs.Device.{Rises, Wrote, Broke, Prints, Passes};
ghost use Rattle.byte_devices.specs.Outs.{SameSink};
ghost use Rattle.can_line_stream.specs.Lines.{lines_of, IsShort};
ghost use Rattle.can_line_stream.specs.Cuts.{Cuts, HasNoLineFeed};
ghost use Rattle.can_line_stream.specs.Runs.{Leads, Handled, StopsAmong, BreaksAmong, FailsAt};
ghost use Rattle.can_line_stream.specs.Stream.{NoneFailed, EndsAtLong, EndsAtRead, HandlesAll, StreamEnds};

use crate::fault::StreamFault;
use crate::handler::Handler;
use arrayvec::ArrayVec;
use byte_devices::{Broken, Out, Sink, Source, WriteFault};
use dbc_text_buffer::TextBuffer;
use dbc_values::Stop;
use memchr::memchr;
use std::alloc::Global;

const READ_SIZE: usize = 16_384;

/// Where the texts of lines are made, and where they go.
#[derive(Drop)]
struct Streaming<'r, 'w, W: Sink> {
    space: &'r mut TextBuffer,
    out: Out<'w, W>,
}

// Cuts the bytes at their first LF.
fn split_line(bytes: &[u8]) -> Option<(&[u8], &[u8])>
    ensures none { IfNone result (HasNoLineFeed bytes.now) }
    ensures head { IfSome result (λ parts. HasNoLineFeed parts.0.now) }
    ensures parts { IfSome result (λ parts. bytes.now ≡ parts.0.now ++ line_feed ∷ parts.1.now) }
    ensures shorter { IfSome result (λ parts. length parts.1.now < length bytes.now) }
{
    let end = memchr(b'\n', bytes)?;
    Some((&bytes[..end], &bytes[end + 1..]))
}

impl<'r, 'w, W: Sink> Streaming<'r, 'w, W> {
    // Puts what is buffered, unless that is nothing: so if it fails, something was held.
    fn flush_held(&mut self) -> Result<(), WriteFault>
        ensures prints { Prints (W.written self.old.out.sink.now) (W.written self.new.out.sink.now) result self.old.out.held.items }
        ensures empty { OnOk result (self.new.out.held.items ≡ []) }
        ensures some { OnErr result (0 < length self.old.out.held.items) }
        ensures same { SameSink self.old.out self.new.out }
    {
        if self.out.held.is_empty() {
            return Ok(());
        }
        self.out.flush()
    }

    // Handles a line that isn't long. If memory runs out for it, the buffered texts are put, since they are whole.
    fn emit<const MAX_SIZE: usize, H: Handler>(
        &mut self,
        handler: &H,
        state: &mut H::State,
        line: &[u8],
    ) -> Result<(), StreamFault>
        requires line { HasNoLineFeed line.now }
        requires short { IsShort MAX_SIZE line.now }
        requires waits { (H.rules handler.now).Waits self.old.out.held.items }
        ensures ok { OnOk result ((text : List ℕ) × (H.rules handler.now).Step (H.view state.old) line.now (H.view state.new) text
            × Passes (W.written self.old.out.sink.now) (W.written self.new.out.sink.now) self.old.out.held.items text
            self.new.out.held.items × (H.rules handler.now).Waits self.new.out.held.items) }
        ensures memory { IsErrOf result StreamFault.Memory → (H.rules handler.now).Stops (H.view state.old) line.now
            × (H.view state.new ≡ H.view state.old)
            × Wrote (W.written self.old.out.sink.now) (W.written self.new.out.sink.now) self.old.out.held.items }
        ensures write { IsErrOf result StreamFault.Write →
            FailsAt (H.rules handler.now) MAX_SIZE (H.view state.old) (W.written self.old.out.sink.now) self.old.out.held.items
            line.now
            (H.view state.new) (W.written self.new.out.sink.now) }
        ensures others { (¬ IsErrOf result StreamFault.LongLine) × (¬ IsErrOf result StreamFault.Read) }
        ensures same { SameSink self.old.out self.new.out }
    {
        match handler.handle(state, self.space, &mut self.out, line) {
            Ok(()) => Ok(()),
            Err(Stop::Write) => Err(StreamFault::Write),
            Err(Stop::Memory) => {
                if let Err(WriteFault) = self.flush_held() {
                    return Err(StreamFault::Write);
                }
                Err(StreamFault::Memory)
            }
        }
    }

    // Handles the line that ends here: `line` has its start, from pieces before, and is emptied, and `head` has its end. If the
    // line is long or memory runs out, the buffered texts are put.
    fn end_line<const MAX_SIZE: usize, H: Handler>(
        &mut self,
        handler: &H,
        state: &mut H::State,
        line: &mut ArrayVec<u8, MAX_SIZE>,
        head: &[u8],
    ) -> Result<(), StreamFault>
        requires line { HasNoLineFeed (line.old.items ++ head.now) }
        requires waits { (H.rules handler.now).Waits self.old.out.held.items }
        ensures ok { OnOk result ((text : List ℕ) × (H.rules handler.now).Step (H.view state.old) (line.old.items ++ head.now)
            (H.view state.new) text
            × Passes (W.written self.old.out.sink.now) (W.written self.new.out.sink.now) self.old.out.held.items text
            self.new.out.held.items × (H.rules handler.now).Waits self.new.out.held.items) }
        ensures short { OnOk result (IsShort MAX_SIZE (line.old.items ++ head.now)) }
        ensures empty { OnOk result (line.new.items ≡ []) }
        ensures long { IsErrOf result StreamFault.LongLine → (MAX_SIZE < length (line.old.items ++ head.now))
            × (H.view state.new ≡ H.view state.old) × Wrote (W.written self.old.out.sink.now) (W.written self.new.out.sink.now)
            self.old.out.held.items }
        ensures memory { IsErrOf result StreamFault.Memory → (H.rules handler.now).Stops (H.view state.old) (line.old.items
            ++ head.now)
            × (H.view state.new ≡ H.view state.old) × Wrote (W.written self.old.out.sink.now) (W.written self.new.out.sink.now)
            self.old.out.held.items }
        ensures write { IsErrOf result StreamFault.Write →
            FailsAt (H.rules handler.now) MAX_SIZE (H.view state.old) (W.written self.old.out.sink.now) self.old.out.held.items
            (line.old.items ++ head.now) (H.view state.new) (W.written self.new.out.sink.now) }
        ensures others { ¬ IsErrOf result StreamFault.Read }
        ensures same { SameSink self.old.out self.new.out }
    {
        if line.remaining_capacity() < head.len() {
            if let Err(WriteFault) = self.flush_held() {
                return Err(StreamFault::Write);
            }
            return Err(StreamFault::LongLine);
        }
        if line.is_empty() {
            return self.emit::<MAX_SIZE, H>(handler, state, head);
        }
        let _ = line.try_extend_from_slice(head);
        self.emit::<MAX_SIZE, H>(handler, state, line.as_slice())?;
        line.clear();
        Ok(())
    }

    // Handles the lines that end in this piece, puts their texts, and keeps in `line` what is after the last LF. It returns
    // how many lines ended.
    fn feed<const MAX_SIZE: usize, H: Handler>(
        &mut self,
        handler: &H,
        state: &mut H::State,
        line: &mut ArrayVec<u8, MAX_SIZE>,
        piece: &[u8],
    ) -> Result<u64, StreamFault>
        requires no_line_feed { HasNoLineFeed line.old.items }
        requires empty { self.old.out.held.items ≡ [] }
        ensures ok { IfOk result (λ count. (lines : List (List ℕ)) × Cuts (line.old.items ++ piece.now) lines line.new.items
            × HasNoLineFeed line.new.items × IsShort MAX_SIZE line.new.items × (count ≡ min (length lines) (2 ^ 64 - 1))
            × Handled (H.rules handler.now) MAX_SIZE (H.view state.old) (W.written self.old.out.sink.now) lines (H.view state.new)
            (W.written self.new.out.sink.now)) }
        ensures empty { OnOk result (self.new.out.held.items ≡ []) }
        ensures long { IsErrOf result StreamFault.LongLine → (lines : List (List ℕ)) × (long rest : List ℕ)
            × Cuts (line.old.items ++ piece.now) lines (long ++ rest) × HasNoLineFeed long × (MAX_SIZE < length long)
            × Handled (H.rules handler.now) MAX_SIZE (H.view state.old) (W.written self.old.out.sink.now) lines (H.view state.new)
            (W.written self.new.out.sink.now) }
        ensures memory { IsErrOf result StreamFault.Memory → (lines : List (List ℕ)) × (rest : List ℕ)
            × Cuts (line.old.items ++ piece.now) lines rest
            × StopsAmong (H.rules handler.now) MAX_SIZE (H.view state.old) (W.written self.old.out.sink.now) lines (H.view
            state.new)
            (W.written self.new.out.sink.now) }
        ensures write { IsErrOf result StreamFault.Write → (lines : List (List ℕ)) × (rest : List ℕ)
            × Cuts (line.old.items ++ piece.now) lines rest
            × BreaksAmong (H.rules handler.now) MAX_SIZE (H.view state.old) (W.written self.old.out.sink.now) lines (H.view
            state.new)
            (W.written self.new.out.sink.now) }
        ensures others { ¬ IsErrOf result StreamFault.Read }
        ensures same { SameSink self.old.out self.new.out }
    {
        let mut count = 0u64;
        let mut rest = piece;
        while let Some((head, tail)) = split_line(rest) {
            self.end_line(handler, state, line, head)?;
            count = count.saturating_add(1);
            rest = tail;
        }
        if let Err(WriteFault) = self.flush_held() {
            return Err(StreamFault::Write);
        }
        if line.try_extend_from_slice(rest).is_err() {
            return Err(StreamFault::LongLine);
        }
        Ok(count)
    }

    // At the end of the input, handles what is after the last LF: one line, or none if nothing is there. It returns which.
    fn finish<const MAX_SIZE: usize, H: Handler>(
        &mut self,
        handler: &H,
        state: &mut H::State,
        line: &[u8],
    ) -> Result<u64, StreamFault>
        requires no_line_feed { HasNoLineFeed line.now }
        requires short { IsShort MAX_SIZE line.now }
        requires empty { self.old.out.held.items ≡ [] }
        ensures ok { OnOk result (Handled (H.rules handler.now) MAX_SIZE (H.view state.old) (W.written self.old.out.sink.now)
            (lines_of line.now) (H.view state.new) (W.written self.new.out.sink.now)) }
        ensures count { IfOk result (λ count. count ≡ length (lines_of line.now)) }
        ensures memory { IsErrOf result StreamFault.Memory →
            StopsAmong (H.rules handler.now) MAX_SIZE (H.view state.old) (W.written self.old.out.sink.now) (lines_of line.now)
            (H.view state.new) (W.written self.new.out.sink.now) }
        ensures write { IsErrOf result StreamFault.Write →
            BreaksAmong (H.rules handler.now) MAX_SIZE (H.view state.old) (W.written self.old.out.sink.now) (lines_of line.now)
            (H.view state.new) (W.written self.new.out.sink.now) }
        ensures others { (¬ IsErrOf result StreamFault.LongLine) × (¬ IsErrOf result StreamFault.Read) }
        ensures same { SameSink self.old.out self.new.out }
    {
        if line.is_empty() {
            return Ok(0);
        }
        self.emit::<MAX_SIZE, H>(handler, state, line)?;
        if let Err(WriteFault) = self.flush_held() {
            return Err(StreamFault::Write);
        }
        Ok(1)
    }

    // Reads the source to its end and handles each line, with one clause for each way in which that may end.
    fn run_lines<const MAX_SIZE: usize, H: Handler, R: Source>(
        &mut self,
        handler: &H,
        state: &mut H::State,
        source: &mut R,
        line: &mut ArrayVec<u8, MAX_SIZE>,
    ) -> Result<u64, StreamFault>
        requires empty { line.old.items ≡ [] }
        requires nothing_waits { self.old.out.held.items ≡ [] }
        ensures ok { IfOk result (λ count. IfSome (R.unread source.old).bytes (λ input.
            HandlesAll (H.rules handler.now) MAX_SIZE (H.view state.old) (W.written self.old.out.sink.now) input
            (R.unread source.new).bytes (H.view state.new) (W.written self.new.out.sink.now) count)) }
        ensures long { IsErrOf result StreamFault.LongLine → IfSome (R.unread source.old).bytes (λ input.
            EndsAtLong (H.rules handler.now) MAX_SIZE (H.view state.old) (W.written self.old.out.sink.now) input (H.view state.new)
            (W.written self.new.out.sink.now)) }
        ensures read { IsErrOf result StreamFault.Read →
            EndsAtRead (H.rules handler.now) MAX_SIZE (H.view state.old) (W.written self.old.out.sink.now) (R.unread source.old)
            (R.unread source.new) (H.view state.new) (W.written self.new.out.sink.now) }
        ensures write { IsErrOf result StreamFault.Write → IfSome (R.unread source.old).bytes (λ input.
            BreaksAmong (H.rules handler.now) MAX_SIZE (H.view state.old) (W.written self.old.out.sink.now) (lines_of input)
            (H.view state.new) (W.written self.new.out.sink.now)) }
        ensures memory { IsErrOf result StreamFault.Memory → IfSome (R.unread source.old).bytes (λ input.
            StopsAmong (H.rules handler.now) MAX_SIZE (H.view state.old) (W.written self.old.out.sink.now) (lines_of input)
            (H.view state.new) (W.written self.new.out.sink.now)) }

        // At a write fault the sink has failed, even if the source's bytes are unknown.
        ensures sink_failed { IsErrOf result StreamFault.Write → Rises (W.written self.old.out.sink.now).failures
            (W.written self.new.out.sink.now).failures }

        // At a memory fault memory may run out for some line, even if the source's bytes are unknown.
        ensures handler_stops { IsErrOf result StreamFault.Memory → (view : H.View) × (line : List ℕ)
            × (H.rules handler.now).Stops view line }

        // At all ends except a failed read no pull failed; and whatever the end, some lines led there.
        ensures none_failed { (¬ IsErrOf result StreamFault.Read) → NoneFailed (R.unread source.old) (R.unread source.new) }
        ensures leads { Leads (H.rules handler.now).Step (H.view state.old) (H.view state.new) }
        ensures same { SameSink self.old.out self.new.out }
    {
        let mut piece = [0u8; READ_SIZE];
        let mut count = 0u64;
        loop {
            let len = match source.pull(&mut piece) {
                Ok(len) => len,
                Err(Broken) => return Err(StreamFault::Read),
            };
            if len == 0 {
                break;
            }
            let fed = self.feed(handler, state, line, &piece[..len])?;
            count = count.saturating_add(fed);
        }
        let last = self.finish::<MAX_SIZE, H>(handler, state, line.as_slice())?;
        Ok(count.saturating_add(last))
    }
}

/// Reads the source to its end, handles each line, and returns how many lines there are, up to `u64::MAX`. Before it pulls again,
/// it has written the texts of all lines that were read whole.
///
/// A line that comes in several pieces is put together in `line`, whose capacity is the most bytes that a line may have. A small
/// one may be on the stack; a large one belongs in a `Box`, made once.
#[tactic(auto, using(crate::proofs::Ending::ends))]
pub fn stream_lines<const MAX_SIZE: usize, H: Handler, R: Source, W: Sink>(
    alloc: Global,
    handler: &H,
    state: &mut H::State,
    source: &mut R,
    sink: &mut W,
    line: &mut ArrayVec<u8, MAX_SIZE>,
) -> Result<u64, StreamFault>
    requires empty { line.old.items ≡ [] }
    ensures ends { StreamEnds (H.rules handler.now) MAX_SIZE (H.view state.old) (W.written sink.old) (R.unread source.old)
        (R.unread source.new) (H.view state.new) (W.written sink.new) result }
    ensures leads { Leads (H.rules handler.now).Step (H.view state.old) (H.view state.new) }
{
    let mut space = TextBuffer::new(alloc);
    let mut streaming = Streaming {
        space: &mut space,
        out: Out::new(sink),
    };
    streaming.run_lines(handler, state, source, line)
}
