//! Bytes that are stored and don't change.
ghost use Rattle.std.specs.Prelude.{◌≡◌, ◌<◌, nat_le, IfOk, OnErr, Some, None, length, if◌then◌else◌};

use crate::memory::Memory;
use std::alloc::Global;
use std::marker::Model;
use std::rc::Rc;

// This many bytes fit in the value itself, which takes three words with their count and the discriminant of `Storage`.
const INLINE_SIZE: usize = 22;

/// At most [`INLINE_SIZE`] bytes.
#[derive(Drop)]
pub(crate) struct Inline {
    // How many of the bytes are used.
    count: u8,
    // The bytes, followed by zeros.
    space: [u8; INLINE_SIZE],
}

impl Model for Inline {
    ghost use Rattle.std.specs.Prelude.{ℕ, List, ◌≤◌, take};
    ghost use Rattle.dbc_values.specs.declared.stored.TheConstants.{INLINE_SIZE};

    ghost Value = { List ℕ };

    ghost view = { λ few. take few.count few.space };

    ghost invariant = { λ few. few.count ≤ INLINE_SIZE };
}

impl Inline {
    // These bytes, or `None` if there are more than [`INLINE_SIZE`].
    fn of(bytes: &[u8]) -> Option<Inline>
        ensures { result ≡ (if nat_le (length bytes.now) INLINE_SIZE then Some bytes.now else None) }
    {
        if bytes.len() > INLINE_SIZE {
            return None;
        }
        let mut space = [0; INLINE_SIZE];
        space[..bytes.len()].copy_from_slice(bytes);
        Some(Inline {
            count: bytes.len() as u8,
            space,
        })
    }

    fn as_slice(&self) -> &[u8]
        ensures { result.now ≡ self.now }
    {
        &self.space[..usize::from(self.count)]
    }

    fn again(&self) -> Inline
        ensures { result ≡ self.now }
    {
        Inline {
            count: self.count,
            space: self.space,
        }
    }
}

/// Where bytes are.
#[derive(Drop)]
pub(crate) enum Storage {
    /// In the value itself.
    Here(Inline),
    /// After it, shared by all copies.
    Shared(Rc<Vec<u8>>),
}

/// Bytes that don't change: up to 22 of them are in the value itself; more are shared by its copies.
#[derive(Drop)]
pub(crate) struct Stored {
    storage: Storage,
}

impl Model for Stored {
    ghost use Rattle.std.specs.Prelude.{ℕ, List};
    ghost use Rattle.dbc_values.specs.inner.Stores.{bytes_at};

    ghost Value = { List ℕ };

    ghost view = { λ stored. bytes_at stored.storage };
}

impl Stored {
    /// These bytes.
    pub fn of(alloc: Global, bytes: &[u8]) -> Result<Stored, Memory>
        ensures made { IfOk result (λ made. made ≡ bytes.now) }
        ensures memory_for_many { OnErr result (INLINE_SIZE < length bytes.now) }
    {
        if let Some(few) = Inline::of(bytes) {
            return Ok(Stored {
                storage: Storage::Here(few),
            });
        }
        let shared = Rc::new(alloc, Vec::from_slice(alloc, bytes)?)?;
        Ok(Stored {
            storage: Storage::Shared(shared),
        })
    }

    pub fn as_slice(&self) -> &[u8]
        ensures { result.now ≡ self.now }
    {
        match &self.storage {
            Storage::Here(few) => few.as_slice(),
            Storage::Shared(shared) => shared.as_ref().as_slice(),
        }
    }

    /// The same bytes.
    pub fn copy(&self) -> Result<Stored, Memory>
        ensures { IfOk result (λ copy. copy ≡ self.now) }
    {
        let storage = match &self.storage {
            Storage::Here(few) => Storage::Here(few.again()),
            Storage::Shared(shared) => Storage::Shared(shared.clone()?),
        };
        Ok(Stored { storage })
    }
}
