//! What the data of a message means for its signals: decode plans, multiplexing, and diagrams of messages.
//!
//! A [`Plan`] describes how each signal of a message is read and when it is present. Plans and diagrams read only their message and
//! the entries of its CAN identifier.
#![tactic(auto)]

mod asking;
mod cached;
mod cached_name;
mod decoder;
mod diagram;
mod entries;
pub mod laws;
mod layout;
mod legend;
mod making;
mod meter;
mod named;
mod naming;
mod order;
mod plan;
mod presence;
mod refusal;
mod row;
mod runs;
mod shared_row;
mod sharing;
mod switch_chain;
mod text;

pub use asking::{cause, chain};
pub use cached_name::CachedName;
pub use can_bits::{Field, Steps, position};
pub use can_entries::{
    Indexed, Link, Lookup, Walk, group_in, group_number, group_of, is_bad_number,
};
pub use decoder::Decoder;
pub use diagram::{picture, picture_with, pictures};
pub use making::{make_plan, make_plans, plan_and_picture, plan_sharing, plan_with, plans_with};
pub use meter::Meter;
pub use naming::first_entry;
pub use plan::Plan;
pub use presence::Presence;
pub use refusal::Cause;
pub use row::{Reading, Row};
pub use sharing::{SharedRows, Sharing};
pub use switch_chain::Chain;
