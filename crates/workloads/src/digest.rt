//! A sink that keeps a digest of what is written, by words of eight bytes, however the bytes are cut into pieces.
ghost use Rattle.std.specs.Prelude.{None};
ghost use Rattle.byte_devices.specs.Device.{Written};

use byte_devices::{Broken, Sink};

const FACTOR: u64 = 0x9E37_79B1_85EB_CA87;

/// How many bytes were written, and a digest of them.
#[derive(Clone, Copy)]
pub struct Digest {
    hash: u64,
    word: u64,
    shift: u32,
    count: u64,
}

impl Digest {
    /// The digest of no bytes.
    pub fn new() -> Self {
        Digest {
            hash: 0,
            word: 0,
            shift: 0,
            count: 0,
        }
    }

    fn add_word(&mut self, word: u64) {
        self.hash = (self.hash.rotate_left(29) ^ word).wrapping_mul(FACTOR);
    }

    fn add_byte(&mut self, byte: u8) {
        self.word |= u64::from(byte).wrapping_shl(self.shift);
        self.shift = self.shift.wrapping_add(8);
        if self.shift >= 64 {
            self.add_word(self.word);
            self.word = 0;
            self.shift = 0;
        }
    }

    /// Adds these bytes.
    pub fn add(&mut self, bytes: &[u8]) {
        self.count = self.count.wrapping_add(bytes.len() as u64);
        let mut rest = bytes;
        while self.shift != 0
            && let [first, others @ ..] = rest
        {
            self.add_byte(*first);
            rest = others;
        }
        while let [a, b, c, d, e, f, g, h, others @ ..] = rest {
            self.add_word(u64::from_le_bytes([*a, *b, *c, *d, *e, *f, *g, *h]));
            rest = others;
        }
        for byte in rest {
            self.add_byte(*byte);
        }
    }

    /// How many bytes, and their digest.
    pub fn result(self) -> (u64, u64) {
        let mut whole = self;
        whole.add_word(self.word);
        whole.add_word(self.count);
        (self.count, whole.hash)
    }
}

impl Sink for Digest {
    ghost written = { λ d. record { bytes = None; failures = 0 } };

    fn put(&mut self, piece: &[u8]) -> Result<usize, Broken> {
        self.add(piece);
        Ok(piece.len())
    }
}
