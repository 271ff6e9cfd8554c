//! Devices made of std's readers and writers.
ghost use Rattle.std.specs.Prelude.{◌≡◌, ◌-◌, ◌^◌};
ghost use Rattle.byte_devices.specs.Views.{unread_of, writer_of, written_of};

use crate::device::{Broken, Sink, Source};
use std::io::{Read, Write};

/// A source over a reader. Each pull is one `read`. After `u64::MAX` pulls it fails.
#[derive(Drop)]
pub struct FromRead<R> {
    reader: R,
    pulls_left: u64,
    failures: u64,
}

impl<R: Read> FromRead<R> {
    /// The reader as a source that hasn't failed.
    pub fn new(reader: R) -> Self
        ensures { unread_of R.remaining result ≡ record { bytes = R.remaining reader; failures = 0; patience = 2 ^ 64 - 1 } }
    {
        FromRead {
            reader,
            pulls_left: u64::MAX,
            failures: 0,
        }
    }
}

impl<R: Read> Source for FromRead<R> {
    ghost unread = { unread_of R.remaining };

    fn pull(&mut self, piece: &mut [u8]) -> Result<usize, Broken> {
        if self.pulls_left == 0 {
            self.failures = self.failures.saturating_add(1);
            return Err(Broken);
        }
        match self.reader.read(piece) {
            Ok(count) => {
                self.pulls_left -= 1;
                Ok(count)
            }
            Err(_) => {
                self.failures = self.failures.saturating_add(1);
                Err(Broken)
            }
        }
    }
}

/// A sink over a writer. Each put is one `write`, and a `write` of 0 bytes is a failure.
#[derive(Drop)]
pub struct FromWrite<W> {
    writer: W,
    failures: u64,
}

impl<W: Write> FromWrite<W> {
    /// The writer as a sink that hasn't failed.
    pub fn new(writer: W) -> Self
        ensures writer { writer_of result ≡ writer }
        ensures written { written_of W.contents result ≡ record { bytes = W.contents writer; failures = 0 } }
    {
        FromWrite {
            writer,
            failures: 0,
        }
    }

    /// The writer.
    pub fn into_inner(self) -> W
        ensures { result ≡ writer_of self }
    {
        let FromWrite {
            writer,
            failures: _,
        } = self;
        writer
    }
}

impl<W: Write> Sink for FromWrite<W> {
    ghost written = { written_of W.contents };

    fn put(&mut self, piece: &[u8]) -> Result<usize, Broken> {
        match self.writer.write(piece) {
            Ok(count) if count > 0 || piece.is_empty() => Ok(count),
            _ => {
                self.failures = self.failures.saturating_add(1);
                Err(Broken)
            }
        }
    }
}
