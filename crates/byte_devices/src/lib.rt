//! The external devices: sources that bytes are pulled from and sinks that they are put to, std's readers and writers as such, a
//! buffer before a sink, and a faulty device over memory for tests.
#![tactic(auto)]

mod device;
mod from_std;
mod held;
pub mod limp;
mod sending;

pub use device::{Broken, Sink, Source, WriteFault, put_all};
pub use from_std::{FromRead, FromWrite};
pub use held::Held;
pub use sending::Out;
