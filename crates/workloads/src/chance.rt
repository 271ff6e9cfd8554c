//! Numbers that look random and are the same in each run: the generator SplitMix64 of Steele, Lea and Flood ("Fast splittable
//! pseudorandom number generators", 2014).
ghost use Rattle.std.specs.Prelude.{◌<◌};

const STEP: u64 = 0x9E37_79B9_7F4A_7C15;

/// A sequence of numbers that a seed determines.
#[derive(Clone, Copy)]
pub struct Chance {
    state: u64,
}

impl Chance {
    /// The sequence of this seed.
    pub fn new(seed: u32) -> Self {
        Chance {
            state: u64::from(seed).wrapping_mul(0xA076_1D64_78BD_642F),
        }
    }

    /// The next number.
    pub fn word(&mut self) -> u64 {
        self.state = self.state.wrapping_add(STEP);
        let mixed = (self.state ^ (self.state >> 30)).wrapping_mul(0xBF58_476D_1CE4_E5B9);
        let mixed = (mixed ^ (mixed >> 27)).wrapping_mul(0x94D0_49BB_1331_11EB);
        mixed ^ (mixed >> 31)
    }

    /// A number below `limit`, which isn't 0.
    pub fn below(&mut self, limit: usize) -> usize
        requires { 0 < limit }
        ensures { result < limit }
    {
        self.word() as usize % limit
    }

    /// One of these, or the empty text if there is none.
    pub fn one_of<'a>(&mut self, words: &'a [&'a str]) -> &'a str {
        if words.is_empty() {
            return "";
        }
        words[self.below(words.len())]
    }
}
