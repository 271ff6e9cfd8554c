//! A text being written.
ghost use Rattle.std.specs.Prelude.{◌≡◌, ℕ, [], ◌∷◌, ◌+◌, ◌<◌, ◌≤◌, ◌^◌, ◌++◌, true, false, IfOk, OnOk, length, take, drop};
ghost use Rattle.std.specs.Prelude.{if◌then◌else◌};

use dbc_values::Memory;
use std::alloc::Global;
use std::marker::Model;

// The least capacity that is reserved.
const MIN_CAPACITY: usize = 256;

/// A text being written. There is spare capacity after it, so that a short piece costs one test and one copy of a fixed length. If
/// memory runs out, what it holds is meaningless until it is [cleared](TextBuffer::clear).
#[derive(Drop)]
pub struct TextBuffer {
    // The text, followed by spare capacity with arbitrary contents.
    bytes: Vec<u8>,
    // How many of the bytes are the text.
    len: usize,
}

impl Model for TextBuffer {
    ghost use Rattle.std.specs.Prelude.{◌-◌, ◌≤◌, length, take};
    ghost use Rattle.dbc_text_buffer.specs.TextBuffers as drafts;

    ghost Value = { drafts.TextBuffer };

    ghost view = { λ a. record { items = take a.len a.bytes.items; ready = length a.bytes.items - a.len } };

    ghost invariant = { λ a. a.len ≤ length a.bytes.items };
}

// Writes a piece at the front, if there is space for it, and returns whether there is.
#[inline(always)]
fn put_front<const N: usize>(space: &mut [u8], piece: &[u8; N]) -> bool
    ensures written { result ≡ true → space.new ≡ piece.now ++ drop N space.old }
    ensures within { result ≡ true → N ≤ length space.old }
    ensures same { result ≡ false → space.new ≡ space.old }
{
    match space.first_chunk_mut::<N>() {
        Some(index) => {
            *index = *piece;
            true
        }
        None => false,
    }
}

// Writes a piece at an offset, if there is space for it, and returns whether there is.
#[inline(always)]
fn put_piece<const N: usize>(space: &mut [u8], at: usize, piece: &[u8; N]) -> bool
    requires { at ≤ length space.old }
    ensures written { result ≡ true → space.new ≡ take at space.old ++ (piece.now ++ drop (at + N) space.old) }
    ensures within { result ≡ true → at + N ≤ length space.old }
    ensures same { result ≡ false → space.new ≡ space.old }
{
    put_front(&mut space[at..], piece)
}

// Writes bytes at an offset.
#[inline(always)]
fn put_bytes(space: &mut [u8], at: usize, bytes: &[u8])
    requires { at + length bytes.now ≤ length space.old }
    ensures bytes { take (at + length bytes.now) space.new ≡ take at space.old ++ bytes.now }
    ensures len { length space.new ≡ length space.old }
{
    space[at..at + bytes.len()].copy_from_slice(bytes);
}

impl TextBuffer {
    /// An empty text.
    pub fn new(alloc: Global) -> TextBuffer
        ensures { result.items ≡ [] }
    {
        TextBuffer {
            bytes: Vec::new(alloc),
            len: 0,
        }
    }

    /// Removes all bytes of the text, and keeps the capacity.
    pub fn clear(&mut self)
        ensures { self.new.items ≡ [] }
    {
        self.len = 0;
    }

    /// The text.
    pub fn as_slice(&self) -> &[u8]
        ensures { result.now ≡ self.now.items }
    {
        &self.bytes.as_slice()[..self.len]
    }

    /// The text in a vector of its own, without spare capacity.
    pub fn to_vec(&self) -> Result<Vec<u8>, Memory>
        ensures { IfOk result (λ text. text.items ≡ self.now.items) }
    {
        let text = Vec::from_slice(*self.bytes.allocator(), self.as_slice())?;
        Ok(text)
    }

    /// Where its memory comes from.
    pub fn allocator(&self) -> Global {
        *self.bytes.allocator()
    }

    // Makes space for some more bytes, at least for as many as there are.
    #[cold]
    #[inline(never)]
    fn grow(&mut self, count: usize) -> Result<(), Memory>
        requires { count < 2 ^ 63 }
        ensures items { self.new.items ≡ self.old.items }
        ensures ready { OnOk result (count ≤ self.new.ready) }
    {
        let more = count.max(self.bytes.len()).max(MIN_CAPACITY);
        self.bytes.resize(self.len + more, 0)?;
        Ok(())
    }

    // Appends bytes for which there is no space.
    #[cold]
    #[inline(never)]
    fn push_after_space(&mut self, bytes: &[u8]) -> Result<(), Memory>
        ensures { OnOk result (self.new.items ≡ self.old.items ++ bytes.now) }
    {
        self.grow(bytes.len())?;
        put_bytes(self.bytes.as_mut_slice(), self.len, bytes);
        self.len += bytes.len();
        Ok(())
    }

    /// Appends the first bytes of a piece. All of it is written, which is faster than writing just those.
    #[tactic(auto, using(crate::proofs::Parts::part_written))]
    #[inline(always)]
    pub(crate) fn push_first<const N: usize>(
        &mut self,
        piece: &[u8; N],
        count: usize,
    ) -> Result<(), Memory>
        requires { count ≤ N }
        ensures { OnOk result (self.new.items ≡ self.old.items ++ take count piece.now) }
    {
        if !put_piece(self.bytes.as_mut_slice(), self.len, piece) {
            return self.push_after_space(&piece[..count]);
        }
        self.len += count;
        Ok(())
    }

    /// Appends a byte.
    #[inline(always)]
    pub fn push(&mut self, byte: u8) -> Result<(), Memory>
        ensures { OnOk result (self.new.items ≡ self.old.items ++ byte ∷ []) }
    {
        self.push_first(&[byte], 1)
    }

    /// Appends a byte if it is present, without a branch on whether it is, which a processor can't predict.
    #[inline(always)]
    pub fn push_if(&mut self, is_there: bool, byte: u8) -> Result<(), Memory>
        ensures { OnOk result (self.new.items ≡ self.old.items ++ (if is_there then byte ∷ [] else [])) }
    {
        self.push_first(&[byte], usize::from(is_there))
    }

    /// Appends a short piece of a known length.
    #[inline(always)]
    pub fn push_piece<const N: usize>(&mut self, piece: &[u8; N]) -> Result<(), Memory>
        ensures { OnOk result (self.new.items ≡ self.old.items ++ piece.now) }
    {
        self.push_first(piece, N)
    }
}

/// Appends bytes, as they are.
#[inline(always)]
pub fn push_bytes(text: &mut TextBuffer, bytes: &[u8]) -> Result<(), Memory>
    ensures { OnOk result (text.new.items ≡ text.old.items ++ bytes.now) }
{
    if text.bytes.len() - text.len < bytes.len() {
        return text.push_after_space(bytes);
    }
    put_bytes(text.bytes.as_mut_slice(), text.len, bytes);
    text.len += bytes.len();
    Ok(())
}
