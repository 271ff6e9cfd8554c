//! The bytes that are buffered before a sink.
ghost use Rattle.std.specs.Prelude.{◌≡◌, ◌==◌, ◌+◌, ◌<◌, ◌≤◌, ◌++◌, [], length, take, true, false};

use std::marker::Model;

const BUFFER_SIZE: usize = 16_384;

/// Buffered bytes, at most 16,384. Clearing them writes none, so it costs the same however many are buffered.
#[derive(Drop)]
pub struct Held {
    // The buffered bytes, followed by spare space with arbitrary contents.
    bytes: [u8; BUFFER_SIZE],
    // How many bytes are buffered.
    len: usize,
}

impl Model for Held {
    ghost use Rattle.std.specs.Prelude.{◌≤◌, ◌≡◌, length, take};
    ghost use Rattle.byte_devices.specs.Waiting as waiting;

    ghost Value = { waiting.Held };

    ghost view = { λ h. record { items = take h.len h.bytes } };

    ghost invariant = { λ h. h.len ≤ length h.bytes };
}

// Writes bytes at an offset.
#[inline(always)]
fn put_bytes(space: &mut [u8], at: usize, bytes: &[u8])
    requires { at + length bytes.now ≤ length space.old }
    ensures bytes { take (at + length bytes.now) space.new ≡ take at space.old ++ bytes.now }
    ensures len { length space.new ≡ length space.old }
{
    space[at..at + bytes.len()].copy_from_slice(bytes);
}

impl Held {
    /// No bytes.
    pub fn new() -> Held
        ensures { result.items ≡ [] }
    {
        Held {
            bytes: [0; BUFFER_SIZE],
            len: 0,
        }
    }

    /// The buffered bytes.
    pub fn as_slice(&self) -> &[u8]
        ensures { result.now ≡ self.now.items }
    {
        &self.bytes[..self.len]
    }

    /// Whether no bytes are buffered.
    pub fn is_empty(&self) -> bool
        ensures { result ≡ (length self.now.items == 0) }
    {
        self.len == 0
    }

    /// Removes all bytes.
    pub fn clear(&mut self)
        ensures { self.new.items ≡ [] }
    {
        self.len = 0;
    }

    /// Appends all of these bytes, or none if there is no space for them, and returns whether there was.
    #[inline(always)]
    pub fn try_push(&mut self, bytes: &[u8]) -> bool
        ensures pushed { result ≡ true → self.new.items ≡ self.old.items ++ bytes.now }
        ensures fits { result ≡ true → length self.old.items + length bytes.now ≤ 16384 }
        ensures same { result ≡ false → self.new ≡ self.old }
        ensures full { result ≡ false → 16384 < length self.old.items + length bytes.now }
    {
        if BUFFER_SIZE - self.len < bytes.len() {
            return false;
        }
        put_bytes(&mut self.bytes, self.len, bytes);
        self.len += bytes.len();
        true
    }
}
