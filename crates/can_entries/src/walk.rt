//! The multiplexing chain from a multiplexed signal.
ghost use Rattle.std.specs.Prelude.{◌≡◌, ◌==◌, IfOk, length, slice_get};
ghost use Rattle.std.specs.Option.{option_map};
ghost use Rattle.can_entries.specs.Walks.{walk_of};
ghost use Rattle.can_entries.specs.declared.walk.Walk.TheVariants.{Absent};

use crate::link::Link;
use crate::mux_parent::MuxParent;
use dbc_values::{Copied, List, Memory};
use std::alloc::Global;

/// The multiplexing chain from a signal, from multiplexor to multiplexor.
#[derive(Drop)]
pub enum Walk {
    /// It leads to a signal that is not multiplexed, through these multiplexors. The chain of a signal that is not
    /// multiplexed itself is empty.
    Chain(List<Link>),
    /// It leads to a signal whose multiplexor is not in the message.
    Absent {
        /// Whether it is the signal's own multiplexor that doesn't exist.
        own: bool,
    },
    /// It leads to a signal for the second time.
    Loop,
}

// The multiplexing parent of the signal at an index, if there is one.
pub fn mux_parent_at<'a>(mux_parents: &'a [MuxParent], index: usize) -> Option<&'a MuxParent>
    ensures { option_map (λ mux_parent. mux_parent.now) result ≡ slice_get mux_parents.now index }
{
    mux_parents.get(index)
}

// The walk after these links leads to a signal whose multiplexor doesn't exist.
fn absent(links: &List<Link>) -> Walk
    ensures { result ≡ Absent (length links.now == 0) }
{
    Walk::Absent {
        own: links.is_empty(),
    }
}

/// The multiplexing chain from the signal at an index, where `mux_parents` has the multiplexing parent of each signal of the
/// message.
pub fn walk_of(alloc: Global, mux_parents: &[MuxParent], index: usize) -> Result<Walk, Memory>
    ensures { IfOk result (λ walk. walk ≡ walk_of mux_parents.now index) }
{
    let mut links = List::new(alloc);
    let mut current = index;
    for _passed in 0..mux_parents.len() + 1 {
        let Some(mux_parent) = mux_parent_at(mux_parents, current) else {
            return Ok(absent(&links));
        };
        match mux_parent {
            MuxParent::Nothing => return Ok(Walk::Chain(links)),
            MuxParent::Missing => return Ok(absent(&links)),
            MuxParent::Switch(link) => {
                links.push(link.copy()?)?;
                current = link.switch;
            }
        }
    }
    Ok(Walk::Loop)
}
