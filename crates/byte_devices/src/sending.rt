//! A sink, and the bytes that are buffered before it.
ghost use Rattle.std.specs.Prelude.{◌≡◌, [], OnOk};
ghost use Rattle.std.specs.List.{flat_map};
ghost use Rattle.byte_devices.specs.Device.{Prints};
ghost use Rattle.byte_devices.specs.Outs.{SameSink, Sends};

use crate::device::{Sink, WriteFault, put_all};
use crate::held::Held;

/// A sink, and the bytes that are buffered before they are put to it, so that many short texts cost one call. What is buffered is
/// lost if it isn't [flushed](Out::flush).
#[derive(Drop)]
pub struct Out<'w, W: Sink> {
    /// The sink.
    pub sink: &'w mut W,
    /// The buffered bytes.
    pub held: Held,
}

impl<'w, W: Sink> Out<'w, W> {
    /// The sink, and no bytes.
    pub fn new(sink: &'w mut W) -> Out<'w, W>
        ensures same { result.sink.ghost_name ≡ sink.entry.ghost_name }
        ensures written { result.sink.now ≡ sink.old }
        ensures empty { result.held.items ≡ [] }
    {
        Out {
            sink,
            held: Held::new(),
        }
    }

    /// Puts what is buffered.
    pub fn flush(&mut self) -> Result<(), WriteFault>
        ensures prints { Prints (W.written self.old.sink.now) (W.written self.new.sink.now) result self.old.held.items }
        ensures same { SameSink self.old self.new }
        ensures empty { OnOk result (self.new.held.items ≡ []) }
    {
        put_all(self.sink, self.held.as_slice())?;
        self.held.clear();
        Ok(())
    }

    /// Sends these bytes: they are buffered, and what there is no space for is put to the sink.
    #[inline(always)]
    pub fn send(&mut self, bytes: &[u8]) -> Result<(), WriteFault>
        ensures { Sends W.written self.old self.new result bytes.now }
    {
        if self.held.try_push(bytes) {
            return Ok(());
        }
        self.make_space(bytes)
    }

    // Puts what is buffered, and then sends these bytes, which are put too if there is no space for them at all.
    fn make_space(&mut self, bytes: &[u8]) -> Result<(), WriteFault>
        ensures { Sends W.written self.old self.new result bytes.now }
    {
        self.flush()?;
        if !self.held.try_push(bytes) {
            put_all(self.sink, bytes)?;
        }
        Ok(())
    }

    /// Sends these pieces, one after another.
    pub fn send_pieces(&mut self, pieces: &[&[u8]]) -> Result<(), WriteFault>
        ensures { Sends W.written self.old self.new result (flat_map (λ piece. piece.now) pieces.now) }
    {
        for piece in pieces {
            self.send(piece)?;
        }
        Ok(())
    }
}
