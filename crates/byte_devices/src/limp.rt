//! A faulty device over memory, for the tests of every crate: it moves little at a time, and fails from some call or byte on.
ghost use Rattle.std.specs.Prelude.{◌≡◌, ◌<◌, ◌≤◌, [], length, take, min, true, IfOk, OnErr, Some, vec_len};
ghost use Rattle.std.specs.Io.KnownBytes.{IsAtEnd};

use crate::device::{Broken, Sink, Source};

/// As a source it gives its bytes from the first on, and as a sink it adds to their end.
#[derive(Drop)]
pub struct Limp {
    bytes: Vec<u8>,
    index: usize,
    most: usize,
    calls_left: u64,
    bytes_left: usize,
    failures: u64,
    ghost put_in: { index ≤ vec_len bytes },
    ghost moves: { 0 < most },
}

impl Limp {
    ghost use Rattle.byte_devices.specs.Device.{Rises};
    ghost use Rattle.byte_devices.specs.Views.{bytes_of, failures_of, limping_of, unread_of_limp, written_of_limp};

    /// A device over these bytes that moves at most `most` of them in a call. It fails in each call after the first `calls`, and
    /// once `limit` bytes have moved.
    pub fn new(bytes: Vec<u8>, most: usize, calls: u64, limit: usize) -> Self
        requires { 0 < most }
        ensures source { unread_of_limp result ≡ record { bytes = Some bytes.items; failures = 0; patience = calls } }
        ensures sink { written_of_limp result ≡ record { bytes = Some bytes.items; failures = 0 } }
        ensures limping { limping_of result ≡ record { most = most; calls = calls; bytes = limit } }
    {
        Limp {
            bytes,
            index: 0,
            most,
            calls_left: calls,
            bytes_left: limit,
            failures: 0,
        }
    }

    /// All the bytes, including those that a source has given.
    pub fn bytes(&self) -> &[u8]
        ensures { result.now ≡ bytes_of self.now }
    {
        self.bytes.as_slice()
    }

    /// How often a call has failed.
    pub fn failures(&self) -> u64
        ensures { result ≡ failures_of self.now }
    {
        self.failures
    }

    // Counts a failure.
    fn fail(&mut self) -> Broken
        ensures bytes { self.new.bytes ≡ self.old.bytes }
        ensures index { self.new.index ≡ self.old.index }
        ensures limping { limping_of self.new ≡ limping_of self.old }
        ensures failures { Rises self.old.failures self.new.failures }
    {
        self.failures = self.failures.saturating_add(1);
        Broken
    }
}

impl Source for Limp {
    ghost use Rattle.byte_devices.specs.Device.{Pulled, PullFailed};
    ghost use Rattle.byte_devices.specs.Views.{limping_of, unread_of_limp, rest_of, is_spent, Limped};

    ghost unread = { unread_of_limp };

    fn pull(&mut self, piece: &mut [u8]) -> Result<usize, Broken>
        ensures count { IfOk result (λ n. n ≤ length piece.new) }
        ensures pulled { IfOk result (λ n. Pulled (unread_of_limp self.old) (unread_of_limp self.new) (take n piece.new)) }
        ensures end { IfOk result (λ n. n ≡ 0 → 0 < length piece.new → IsAtEnd (unread_of_limp self.new).bytes) }
        ensures lowers { IfOk result (λ n. 0 < n → (unread_of_limp self.new).patience < (unread_of_limp self.old).patience) }
        ensures failed { OnErr result (PullFailed (unread_of_limp self.old) (unread_of_limp self.new) []) }
        ensures limped { IfOk result (Limped (limping_of self.old) (limping_of self.new)
            (min (length (rest_of self.old)) (length piece.new))) }
        ensures spent { OnErr result (is_spent (limping_of self.old) ≡ true) }
        ensures stays { OnErr result (limping_of self.new ≡ limping_of self.old) }
    {
        if self.calls_left == 0 || self.bytes_left == 0 {
            return Err(self.fail());
        }
        let rest = &self.bytes[self.index..];
        let count = rest
            .len()
            .min(piece.len())
            .min(self.most)
            .min(self.bytes_left);
        piece[..count].copy_from_slice(&rest[..count]);
        self.index += count;
        self.bytes_left -= count;
        self.calls_left -= 1;
        Ok(count)
    }
}

impl Sink for Limp {
    ghost use Rattle.byte_devices.specs.Device.{Wrote, Broke};
    ghost use Rattle.byte_devices.specs.Views.{limping_of, written_of_limp, Limped};

    ghost written = { written_of_limp };

    // It also fails if memory runs out for the bytes.
    fn put(&mut self, piece: &[u8]) -> Result<usize, Broken>
        ensures count { IfOk result (λ n. n ≤ length piece.now) }
        ensures moves { 0 < length piece.now → IfOk result (λ n. 0 < n) }
        ensures wrote { IfOk result (λ n. Wrote (written_of_limp self.old) (written_of_limp self.new) (take n piece.now)) }
        ensures broke { OnErr result (Broke (written_of_limp self.old) (written_of_limp self.new) []) }
        ensures limped { IfOk result (Limped (limping_of self.old) (limping_of self.new) (length piece.now)) }
        ensures stays { OnErr result (limping_of self.new ≡ limping_of self.old) }
    {
        if self.calls_left == 0 || self.bytes_left == 0 {
            return Err(self.fail());
        }
        let count = piece.len().min(self.most).min(self.bytes_left);
        if self.bytes.extend_from_slice(&piece[..count]).is_err() {
            return Err(self.fail());
        }
        self.bytes_left -= count;
        self.calls_left -= 1;
        Ok(count)
    }
}
