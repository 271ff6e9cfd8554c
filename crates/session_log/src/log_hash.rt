//! How the index of a log is hashed: with keys, if the caller has drawn some. No contract of a log depends on it.
ghost use Rattle.session_log.specs.inner.Hashes.{initial_hasher_of};

use std::hash::{BuildHasher, DefaultHasher, RandomState};

/// What makes the hasher of each key, by SipHash: the same in each run, or with keys that were drawn. Only with keys can nobody
/// craft identifiers that make the index slow.
#[derive(Clone, Copy)]
pub(crate) enum LogHash {
    Fixed,
    Keyed(RandomState),
}

impl BuildHasher for LogHash {
    type Hasher = DefaultHasher;

    ghost build_hasher = { initial_hasher_of };

    fn build_hasher(&self) -> DefaultHasher {
        match self {
            LogHash::Fixed => DefaultHasher::new(),
            LogHash::Keyed(keys) => keys.build_hasher(),
        }
    }
}
