//! The multiplexer indicator of a signal: its part in the multiplexing of its message.

/// What is between a signal's name and its colon.
#[derive(Clone, Copy, Debug, PartialEq, Eq)]
pub enum Tag {
    /// Nothing: the signal is always present.
    Plain,
    /// `M`: its raw value selects which other signals are present.
    Switch,
    /// `m` and a number: it is present if the multiplexor (switch) has this raw value.
    Muxed(u64),
    /// `m`, a number and `M`: it is present if the multiplexor has this raw value, and is a multiplexor itself.
    Both(u64),
}
