//! The tokens of a DBC text.
//!
//! [`tokens`] gives the tokens of a text one after another without allocating. The definitions of `specs/Tokens.antt` determine
//! which tokens a text has, independently of how they are found; [`laws`] states that both agree.
#![tactic(auto)]

mod cutting;
mod fault;
pub mod laws;
mod lengths;
mod stream;
mod token;

pub use cutting::tokens;
pub use fault::{Cause, ReadFault};
pub use lengths::gap_len;
pub use stream::Tokens;
pub use token::{Kind, Next, Token};
