//! The multiplexing paths of a message's signals, each by its own link and the path of its multiplexor (switch).
ghost use Rattle.std.specs.Prelude.{◌≡◌, List, ◌∷◌, Some, None, IsTrue, IfOk, IfSome, length, slice_get};
ghost use Rattle.std.specs.Option.{option_map};
ghost use Rattle.can_entries.specs.Links.{Link as PlainLink};
ghost use Rattle.can_entries.specs.declared.walk.Walk.TheVariants.{Chain};
ghost use Rattle.can_overlap.specs.inner.MuxPaths.{IsStep, own_at, chain_if};

use crate::sorted_link::SortedLink;
use can_entries::{Link, Walk};
use dbc_records::Range;
use dbc_values::Memory;
use std::alloc::Global;
use std::marker::Model;

/// The multiplexing paths of a message's signals. If a signal's path is its own link and then the path of that multiplexor, its own
/// link is kept with its ranges in order.
#[derive(Drop)]
pub(crate) struct MuxPaths<'a> {
    walks: &'a [Walk],
    own: Vec<Option<SortedLink<'a>>>,
}

impl<'a> Model for MuxPaths<'a> {
    ghost use Rattle.can_overlap.specs.inner.MuxPaths.{MuxPaths as Plain, AreOwn};

    ghost Value = { Plain };

    ghost view = { λ paths. record { walks = paths.walks.now; own = paths.own.items } };

    ghost invariant = { λ paths. AreOwn paths.walks.now paths.own.items };
}

fn same_ranges(these: &[Range], those: &[Range]) -> bool
    ensures { IsTrue result → these.now ≡ those.now }
{
    if these.len() != those.len() {
        return false;
    }
    for (index, this) in these.iter().enumerate() {
        let that = &those[index];
        if this.first != that.first || this.last != that.last {
            return false;
        }
    }
    true
}

fn is_same(this: &Link, that: &Link) -> bool
    ensures { IsTrue result → this.now ≡ that.now }
{
    this.switch == that.switch && same_ranges(this.ranges(), that.ranges())
}

fn are_same(these: &[Link], those: &[Link]) -> bool
    ensures { IsTrue result → these.now ≡ those.now }
{
    if these.len() != those.len() {
        return false;
    }
    for (index, this) in these.iter().enumerate() {
        if !is_same(this, &those[index]) {
            return false;
        }
    }
    true
}

// The links of the walk at an index, if it is a chain.
fn chain_at(walks: &[Walk], index: usize) -> Option<&[Link]>
    ensures { option_map (λ links. links.now) result ≡ chain_if (slice_get walks.now index) }
{
    match walks.get(index) {
        Some(Walk::Chain(links)) => Some(links.as_slice()),
        _ => None,
    }
}

// The first link of a chain that continues as the walk of the link's multiplexor.
fn first_step<'a>(walks: &[Walk], links: &'a [Link]) -> Option<&'a Link>
    ensures { IfSome result (λ link. (above : List PlainLink) × (links.now ≡ link.now ∷ above)
        × (slice_get walks.now link.now.switch ≡ Some (Chain above))) }
{
    if links.is_empty() {
        return None;
    }
    let (_, above) = links.split_at(1);
    let first = &links[0];
    match chain_at(walks, first.switch) {
        Some(others) if are_same(above, others) => Some(first),
        _ => None,
    }
}

// The first link of the walk at an index, if the walk continues as that of the link's multiplexor.
fn step_at(walks: &[Walk], index: usize) -> Option<&Link>
    ensures { IfSome result (λ link. IsStep walks.now index link.now) }
{
    match chain_at(walks, index) {
        Some(links) => first_step(walks, links),
        None => None,
    }
}

fn tidied<'a>(alloc: Global, link: Option<&'a Link>) -> Result<Option<SortedLink<'a>>, Memory>
    ensures { IfOk result (λ sorted_link. sorted_link ≡ option_map (λ one. one.now) link.entry) }
{
    match link {
        Some(link) => Ok(Some(SortedLink::of(alloc, link)?)),
        None => Ok(None),
    }
}

// What is kept of the walk at an index.
fn own_step<'a>(
    alloc: Global,
    walks: &'a [Walk],
    index: usize,
) -> Result<Option<SortedLink<'a>>, Memory>
    ensures { IfOk result (λ own. IfSome own (λ link. IsStep walks.now index link)) }
{
    tidied(alloc, step_at(walks, index))
}

impl<'a> MuxPaths<'a> {
    /// The paths of these walks.
    pub(crate) fn of(alloc: Global, walks: &'a [Walk]) -> Result<MuxPaths<'a>, Memory>
        ensures { IfOk result (λ paths. paths.walks ≡ walks.now) }
    {
        let mut own = Vec::with_capacity(alloc, walks.len())?;
        for index in 0..walks.len() {
            own.push(own_step(alloc, walks, index)?)?;
        }
        Ok(MuxPaths { walks, own })
    }

    /// How many there are.
    pub(crate) fn count(&self) -> usize
        ensures { result ≡ length self.now.walks }
    {
        self.walks.len()
    }

    /// The links of the walk at an index, if it is a chain.
    pub(crate) fn chain_at(&self, index: usize) -> Option<&[Link]>
        ensures { option_map (λ links. links.now) result ≡ chain_if (slice_get self.now.walks index) }
    {
        chain_at(self.walks, index)
    }

    /// An index at which no link is kept.
    pub(crate) fn nowhere(&self) -> usize
        ensures { own_at self.now.own result ≡ None }
    {
        self.own.len()
    }

    /// The link that is kept at an index.
    pub(crate) fn own_at(&self, index: usize) -> Option<&SortedLink<'a>>
        ensures value { option_map (λ sorted_link. sorted_link.now) result ≡ own_at self.now.own index }
        ensures step { IfSome result (λ sorted_link. IsStep self.now.walks index sorted_link.now) }
    {
        match self.own.get(index) {
            Some(Some(sorted_link)) => Some(sorted_link),
            _ => None,
        }
    }
}
