//! The external devices: what bytes are pulled from and put to.
ghost use Rattle.std.specs.Prelude.{◌≡◌, ◌<◌, ◌≤◌, [], length, take, IfOk, OnErr};
ghost use Rattle.std.specs.Io.KnownBytes.{IsAtEnd};
ghost use Rattle.byte_devices.specs.Device.{Unread, Written, Pulled, PullFailed, Wrote, Broke, Prints};

use thiserror::Error;

/// A device did not do what it was asked.
#[derive(Clone, Copy, Debug, PartialEq, Eq, Error)]
#[error("the device failed")]
pub struct Broken;

/// A sink failed, and has a prefix of what was to be written: fault 42.
#[derive(Clone, Copy, Debug, PartialEq, Eq, Error)]
#[error("42 Write")]
pub struct WriteFault;

impl From<Broken> for WriteFault {
    fn from(_broken: Broken) -> WriteFault {
        WriteFault
    }
}

/// What bytes are pulled from.
pub trait Source {
    // The bytes left, the failures so far, and a number that each pull with bytes lowers.
    ghost unread: { Self → Unread };

    /// Moves the next bytes to the front of the piece, and returns how many. For a piece that isn't empty, 0 is the end.
    /// An `Err` moves none.
    fn pull(&mut self, piece: &mut [u8]) -> Result<usize, Broken>
        ensures count { IfOk result (λ n. n ≤ length piece.new) }
        ensures pulled { IfOk result (λ n. Pulled (unread self.old) (unread self.new) (take n piece.new)) }
        ensures end { IfOk result (λ n. n ≡ 0 → 0 < length piece.new → IsAtEnd (unread self.new).bytes) }
        ensures lowers { IfOk result (λ n. 0 < n → (unread self.new).patience < (unread self.old).patience) }
        ensures failed { OnErr result (PullFailed (unread self.old) (unread self.new) []) };
}

/// What bytes are put to.
pub trait Sink {
    // The bytes written, and the failures so far.
    ghost written: { Self → Written };

    /// Takes bytes from the front of the piece, at least one if there is one, and returns how many. An `Err` takes none.
    fn put(&mut self, piece: &[u8]) -> Result<usize, Broken>
        ensures count { IfOk result (λ n. n ≤ length piece.now) }
        ensures moves { 0 < length piece.now → IfOk result (λ n. 0 < n) }
        ensures wrote { IfOk result (λ n. Wrote (written self.old) (written self.new) (take n piece.now)) }
        ensures broke { OnErr result (Broke (written self.old) (written self.new) []) };
}

/// Puts all the bytes. At an `Err` a prefix of them was put.
pub fn put_all<W: Sink>(sink: &mut W, bytes: &[u8]) -> Result<(), WriteFault>
    ensures { Prints (W.written sink.old) (W.written sink.new) result bytes.now }
{
    let mut done = 0;
    while done < bytes.len() {
        let (_, rest) = bytes.split_at(done);
        let count = sink.put(rest)?;
        done += count;
    }
    Ok(())
}
