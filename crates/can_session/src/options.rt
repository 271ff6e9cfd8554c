//! The options of a session.
ghost use Rattle.std.specs.Prelude.{◌≡◌};
ghost use Rattle.can_session.specs.States.{usual};

use can_decode::Short;
use session_kept_lines::Keep;
use std::hash::RandomState;

/// The options with which a session is opened. No command changes them.
#[derive(Clone, Copy, Debug, PartialEq, Eq)]
pub struct Options {
    /// How truncated frames are decoded.
    pub short: Short,
    /// Which lines are kept.
    pub keep: Keep,
}

/// The options of a session, and the keys with which its log's index hashes. They come from `RandomState::new`, and what is
/// shown is the same without them; but then identifiers can be crafted that make each line as slow as all lines before it, so a
/// program that reads untrusted lines draws keys.
#[derive(Clone, Copy)]
pub struct KeyedOptions {
    /// The options.
    pub options: Options,
    /// The keys, if any were drawn.
    pub keys: Option<RandomState>,
}

impl Default for Options {
    fn default() -> Options
        ensures { result ≡ usual }
    {
        Options {
            short: Short::Refuse,
            keep: Keep::All,
        }
    }
}
