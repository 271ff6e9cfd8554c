//! The multiplexor of a signal.

use crate::link::Link;
use dbc_values::Checked;

/// The parent of a signal in multiplexing.
#[derive(Drop)]
pub enum MuxParent {
    /// Nothing: the signal is not multiplexed.
    Nothing,
    /// A multiplexor that is not in the message.
    Missing,
    /// A multiplexor of the message.
    Switch(Link),
}

impl Checked for MuxParent {
    ghost IsValid = { λ mux_parent. Unit {0} };
}
