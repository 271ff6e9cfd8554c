//! The bits of one byte that count for a signal, and what they count.
ghost use Rattle.std.specs.Prelude.{◌≡◌, ℕ, List, ◌+◌, ◌-◌, ◌*◌, ◌/◌, ◌%◌, ◌^◌, ◌<◌, ◌≤◌, slice_index};
ghost use Rattle.can_bits.specs.declared.step.Shift.TheVariants.{Up};
ghost use Rattle.can_bits.specs.Steps.{moved, part_of, StaysInWord, IsStep};

/// How far, and in which direction, the bits of a byte move to their position in a raw value.
#[derive(Clone, Copy, Debug, PartialEq, Eq)]
pub enum Shift {
    /// To the left, this many bits up.
    Up(u8),
    /// To the right, this many bits down.
    Down(u8),
}

impl Shift {
    fn moved(self, bits: u64) -> u64
        requires { StaysInWord self bits }
        ensures { result ≡ moved self bits }
    {
        match self {
            Shift::Up(indexes) => bits << indexes,
            Shift::Down(indexes) => bits >> indexes,
        }
    }
}

impl Default for Shift {
    fn default() -> Shift
        ensures { result ≡ Up 0 }
    {
        Shift::Up(0)
    }
}

/// What one byte of the data adds to a raw value: its bits under a mask, moved.
#[derive(Clone, Copy, Debug, Default, PartialEq, Eq)]
pub struct Step {
    /// The index of the byte.
    pub byte: u16,
    /// A 1 for each bit of the byte that counts.
    pub mask: u8,
    /// How far those bits move.
    pub shift: Shift,
}

// The byte at an index; after the data it is 0.
fn byte_at(bytes: &[u8], index: usize) -> u8
    ensures { result ≡ slice_index bytes.now index }
{
    match bytes.get(index) {
        Some(byte) => *byte,
        None => 0,
    }
}

// `run` ones, the lowest at the bit `low`.
fn mask_of(low: u8, run: u8) -> u8
    requires some { 0 < run }
    requires within { low + run ≤ 8 }
    ensures { result ≡ 2 ^ (run + low) - 2 ^ low }
{
    (u8::MAX >> (8 - run)) << low
}

impl Step {
    /// The step for the `run` bits of a byte from bit `low` up, the lowest of which has the weight `2^weight`.
    pub(crate) fn of_run(byte: u16, low: u8, run: u8, weight: u8) -> Step
        requires some { 0 < run }
        requires within { low + run ≤ 8 }
        requires top { weight + run ≤ 64 }
        ensures takes { (bytes : List ℕ) → part_of bytes result ≡ slice_index bytes byte / 2 ^ low % 2 ^ run * 2 ^ weight }
        ensures valid { IsStep result }
    {
        let mask = mask_of(low, run);
        let shift = if low <= weight {
            Shift::Up(weight - low)
        } else {
            Shift::Down(low - weight)
        };
        Step { byte, mask, shift }
    }

    /// What the byte adds to the raw value.
    pub(crate) fn part(self, bytes: &[u8]) -> u64
        requires { IsStep self }
        ensures { result ≡ part_of bytes.now self }
    {
        let bits = byte_at(bytes, self.byte as usize) & self.mask;
        self.shift.moved(bits as u64)
    }
}
