//! Cached raw bits of multiplexors.

/// What was found of a multiplexor (switch), so that signals under one multiplexor extract its bits from data once.
#[derive(Clone, Copy, Debug, PartialEq, Eq)]
pub(crate) struct CachedMultiplexor {
    /// The index of the multiplexor.
    pub(crate) switch: usize,
    /// Its raw bits, unsigned, if it is present in data with all its bits.
    pub(crate) raw: Option<u64>,
}

/// The bits of this many multiplexors that signals alternate between are cached.
pub(crate) const MAX_KEPT: usize = 8;

/// What was found of multiplexors.
#[derive(Drop)]
pub(crate) struct Switches {
    /// The multiplexor that was looked up last.
    pub(crate) last: CachedMultiplexor,
    /// Those that signals alternate between, each in its slot, once one was looked up.
    pub(crate) kept: Option<[CachedMultiplexor; MAX_KEPT]>,
}
