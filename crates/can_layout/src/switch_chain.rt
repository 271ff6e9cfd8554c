//! The multiplexing chain of a signal, which all signals of a message share.
ghost use Rattle.std.specs.Prelude.{◌≡◌, IfOk, Some, slice_get, is_some};
ghost use Rattle.std.specs.Option.{option_map};
ghost use Rattle.can_layout.specs.Plans.{chain_of};
ghost use Rattle.can_layout.specs.Presence.{link_of, is_top};
ghost use Rattle.can_entries.specs.Walks.{walk_of, mux_parent_at};

use can_entries::{Link, MuxParent, mux_parent_at};
use dbc_values::{List, Memory};
use std::marker::Model;
use std::rc::Rc;

/// The multiplexing chain of a signal, from its own multiplexor (switch) up to one that isn't multiplexed. It takes the memory of
/// an index: the multiplexing parents of a message's signals are stored once.
#[derive(Drop)]
pub struct Chain {
    mux_parents: Rc<List<MuxParent>>,
    index: usize,
}

impl Model for Chain {
    ghost use Rattle.std.specs.Prelude.{◌≡◌, List as Items};
    ghost use Rattle.can_entries.specs.Links as links;
    ghost use Rattle.can_entries.specs.Walks.{walk_of, links_in};
    ghost use Rattle.can_entries.specs.declared.walk.Walk.TheVariants.{Chain as IsOf};

    ghost Value = { Items links.Link };

    ghost view = { λ chain. links_in (walk_of chain.mux_parents.value chain.index) };

    ghost invariant = { λ chain. walk_of chain.mux_parents.value chain.index
        ≡ IsOf (links_in (walk_of chain.mux_parents.value chain.index)) };
}

// Whether the multiplexing chain from an index is a chain.
fn is_chain(mux_parents: &[MuxParent], index: usize) -> bool
    ensures { result ≡ is_some (chain_of (walk_of mux_parents.now index)) }
{
    let mut current = index;
    for _passed in 0..mux_parents.len() + 1 {
        match mux_parent_at(mux_parents, current) {
            Some(MuxParent::Nothing) => return true,
            Some(MuxParent::Switch(link)) => current = link.switch,
            _ => return false,
        }
    }
    false
}

// The link of the signal at an index to its multiplexor.
fn link_at(mux_parents: &[MuxParent], index: usize) -> Option<&Link>
    ensures { option_map (λ link. link.now) result ≡ link_of (mux_parent_at mux_parents.now index) }
{
    match mux_parents.get(index) {
        Some(MuxParent::Switch(link)) => Some(link),
        _ => None,
    }
}

impl Chain {
    /// The chain of the signal at an index, if its multiplexing chain is one.
    pub(crate) fn of(
        mux_parents: &Rc<List<MuxParent>>,
        index: usize,
    ) -> Result<Option<Chain>, Memory>
        ensures { IfOk result (λ chain. chain ≡ chain_of (walk_of mux_parents.now.value index)) }
    {
        if !is_chain(mux_parents.as_ref().as_slice(), index) {
            return Ok(None);
        }
        let mux_parents = mux_parents.clone()?;
        Ok(Some(Chain { mux_parents, index }))
    }

    /// Whether the signal has no multiplexor.
    #[tactic(auto, using(crate::proofs::Chains::without_first, crate::proofs::Chains::with_first))]
    pub(crate) fn is_empty(&self) -> bool
        ensures { result ≡ is_top (Some self.now) }
    {
        match self.link(0) {
            Some(_) => false,
            None => true,
        }
    }

    /// The link this many multiplexors up: 0 is the link to the signal's own multiplexor. It is found by following the chain.
    pub fn link(&self, up: usize) -> Option<&Link>
        ensures { option_map (λ link. link.now) result ≡ slice_get self.now up }
    {
        let mux_parents = self.mux_parents.as_ref().as_slice();
        let mut current = self.index;
        for _passed in 0..up {
            match link_at(mux_parents, current) {
                Some(link) => current = link.switch,
                None => return None,
            }
        }
        link_at(mux_parents, current)
    }
}
