//! What `--version` prints after the program's name.

/// The version, and in parentheses what the program was built from. A proof of the whole program replaces the word there by the
/// first digits of its digest (`space_for` in `scripts/proving.py`).
pub(crate) const VERSION: &str = "1.0.0 (development)";
