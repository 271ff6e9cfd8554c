//! The use of a stream of lines.
ghost use Rattle.std.specs.Prelude.{◌≡◌, ℕ, List, [], ◌++◌, OnOk, IsErrOf};
ghost use Rattle.byte_devices.specs.Device.{Passes, Broke};
ghost use Rattle.byte_devices.specs.Outs.{SameSink};
ghost use Rattle.can_line_stream.specs.Cuts.{HasNoLineFeed};

use byte_devices::{Out, Sink};
use dbc_text_buffer::TextBuffer;
use dbc_values::Stop;

/// What is done for each line of a stream, in the order of the lines.
///
/// The handler itself stays as it is, and what lines change is its `State`. A text may be buffered before the sink, so that many
/// short texts cost one call; the stream puts what is buffered before it pulls again.
pub trait Handler: Drop {
    ghost use Rattle.dbc_values.specs.declared.stop.Stop.TheVariants as stops;
    ghost use Rattle.can_line_stream.specs.Runs.{Rules};

    /// What lines change.
    type State: Drop;

    // What contracts see of a state.
    ghost View: { Type 0 };

    ghost view: { Self.State → View };

    // What lines may do.
    ghost rules: { Self → Rules View };

    /// Handles a line, given without its LF, and sends its text out. At `Stop::Write` the line was handled, but only a prefix of
    /// what was buffered and its text was written; at `Stop::Memory` it is as if there had been no call. `space` is where a text
    /// can be made: the stream keeps one for all lines, and what it holds from one to the next is meaningless.
    fn handle<W: Sink>(
        &self,
        state: &mut Self::State,
        space: &mut TextBuffer,
        out: &mut Out<'_, W>,
        line: &[u8],
    ) -> Result<(), Stop>
        requires line { HasNoLineFeed line.now }
        requires waits { (rules self.now).Waits out.old.held.items }
        ensures ok { OnOk result ((text : List ℕ) × (rules self.now).Step (view state.old) line.now (view state.new) text
            × Passes (W.written out.old.sink.now) (W.written out.new.sink.now) out.old.held.items text out.new.held.items
            × (rules self.now).Waits out.new.held.items) }
        ensures write { IsErrOf result stops.Write → (text : List ℕ) × (rules self.now).Step (view state.old) line.now
            (view state.new) text
            × Broke (W.written out.old.sink.now) (W.written out.new.sink.now) (out.old.held.items ++ text) }
        ensures memory { IsErrOf result stops.Memory → (rules self.now).Stops (view state.old) line.now
            × (view state.new ≡ view state.old)
            × (W.written out.new.sink.now ≡ W.written out.old.sink.now) × (out.new.held.items ≡ out.old.held.items) }
        ensures same { SameSink out.old out.new };

    // Nothing may be buffered.
    ghost nothing_waits: { (handler : Self) → (rules handler).Waits [] };
}
