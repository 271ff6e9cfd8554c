//! What a frame goes to.

use crate::short::Short;
use can_layout::Plan;
use dbc_records::Message;
use std::marker::Model;

/// The message that a frame goes to, with its plan.
#[derive(Drop)]
pub struct Target<'a> {
    /// The message.
    pub message: &'a Message,
    /// Its plan.
    pub plan: &'a Plan,
    /// Whether it is a J1939 message.
    pub group: bool,
    /// How truncated frames are decoded.
    pub short: Short,
}

impl<'a> Model for Target<'a> {
    ghost use Rattle.can_decode.specs.DecodedLines as lines;

    ghost Value = { lines.Target };

    ghost view = { λ a. record { message = a.message.now; plan = a.plan.now; group = a.group; short = a.short } };
}
