//! The links of one multiplexing chain, indexed by their multiplexors (switches).
ghost use Rattle.std.specs.Prelude.{◌≡◌, ℕ, Some, None, IsTrue, IfOk, length, slice_get};
ghost use Rattle.std.specs.Option.{option_map};
ghost use Rattle.can_entries.specs.declared.walk.Walk.TheVariants.{Chain};
ghost use Rattle.can_overlap.specs.Overlaps.{agrees_with};
ghost use Rattle.can_overlap.specs.inner.MuxPaths.{of_switch, noted_if, goes_at, AreEntered, AreNoted};

use crate::agreeing::{agrees_with, all_agree};
use crate::mux_paths::MuxPaths;
use crate::sorted_link::SortedLink;
use can_entries::Link;
use dbc_values::Memory;
use std::alloc::Global;
use std::marker::Model;

/// A multiplexing chain, compared with the paths of its message, with a table of its links by their multiplexors. The table is used
/// if each multiplexor occurs once and each link is kept.
#[derive(Drop)]
pub(crate) struct ChainIndex<'a> {
    paths: &'a MuxPaths<'a>,
    links: &'a [Link],
    owners: Vec<usize>,
    entered: bool,
}

impl<'a> Model for ChainIndex<'a> {
    ghost use Rattle.std.specs.Prelude.{IsTrue};
    ghost use Rattle.can_overlap.specs.inner.MuxPaths.{ChainIndex as Plain, AreEntered};

    ghost Value = { Plain };

    ghost view = { λ indexed. record { links = indexed.links.now; walks = indexed.paths.now.walks } };

    ghost invariant = { λ indexed. IsTrue indexed.entered → AreEntered indexed.paths.now.own indexed.owners.items
        indexed.links.now };
}

fn owner_at(owners: &[usize], switch: usize) -> Option<usize>
    ensures { result ≡ slice_get owners.now switch }
{
    owners.get(switch).copied()
}

// The link of a multiplexor.
fn of_switch<'b, 'a>(
    paths: &'b MuxPaths<'a>,
    owners: &[usize],
    switch: usize,
) -> Option<&'b SortedLink<'a>>
    ensures { option_map (λ sorted_link. sorted_link.now) result ≡ of_switch paths.now.own owners.now switch }
{
    match owner_at(owners, switch) {
        Some(owner) => paths.own_at(owner),
        None => None,
    }
}

fn is_free(paths: &MuxPaths<'_>, owners: &[usize], switch: usize) -> bool
    ensures { IsTrue result → of_switch paths.now.own owners.now switch ≡ None }
{
    of_switch(paths, owners, switch).is_none()
}

// Enters the links of the walk at an index into an empty table. It is false if a link isn't kept or a multiplexor occurs twice.
fn enter_all(paths: &MuxPaths<'_>, owners: &mut [usize], links: &[Link], index: usize) -> bool
    requires empty { (switch : ℕ) → of_switch paths.now.own owners.old switch ≡ None }
    requires chain { slice_get paths.now.walks index ≡ Some (Chain links.now) }
    ensures { IsTrue result → AreEntered paths.now.own owners.new links.now }
{
    let mut owner = index;
    for _passed in 0..links.len() {
        let Some(own) = paths.own_at(owner) else {
            return false;
        };
        let switch = own.switch();
        if switch >= owners.len() || !is_free(paths, owners, switch) {
            return false;
        }
        owners[switch] = owner;
        owner = switch;
    }
    true
}

// A table with no entry.
fn none_entered(alloc: Global, paths: &MuxPaths<'_>, count: usize) -> Result<Vec<usize>, Memory>
    ensures { IfOk result (λ owners. (switch : ℕ) → of_switch paths.now.own owners.items switch ≡ None) }
{
    let owners = vec![in alloc; paths.nowhere(); count]?;
    Ok(owners)
}

impl<'a> ChainIndex<'a> {
    /// The chain of the signal at an index.
    pub(crate) fn of(
        alloc: Global,
        paths: &'a MuxPaths<'a>,
        links: &'a [Link],
        index: usize,
    ) -> Result<ChainIndex<'a>, Memory>
        requires { slice_get paths.now.walks index ≡ Some (Chain links.now) }
        ensures { IfOk result (λ indexed. indexed ≡ record { links = links.now; walks = paths.now.walks }) }
    {
        let mut owners = none_entered(alloc, paths, paths.count())?;
        let entered = enter_all(paths, &mut owners, links, index);
        Ok(ChainIndex {
            paths,
            links,
            owners,
            entered,
        })
    }

    /// How many walks there are.
    pub(crate) fn count(&self) -> usize
        ensures { result ≡ length self.now.walks }
    {
        self.paths.count()
    }

    // Whether a link agrees with each of the chain.
    fn agrees(&self, link: &SortedLink<'_>) -> bool
        ensures { result ≡ agrees_with self.now.links link.now }
    {
        if self.entered {
            match of_switch(self.paths, &self.owners, link.switch()) {
                Some(there) => there.agrees(link),
                None => true,
            }
        } else {
            agrees_with(self.links, link.link())
        }
    }

    // Compares each link with each.
    fn goes_slowly(&self, index: usize) -> bool
        ensures { result ≡ goes_at self.now.links self.now.walks index }
    {
        match self.paths.chain_at(index) {
            Some(links) => all_agree(self.links, links),
            None => false,
        }
    }
}

/// Nothing is memoized for any walk.
pub(crate) fn none_noted(
    alloc: Global,
    indexed: &ChainIndex<'_>,
) -> Result<Vec<Option<bool>>, Memory>
    ensures { IfOk result (λ noted. AreNoted indexed.now noted.items) }
{
    let noted = vec![in alloc; None; indexed.count()]?;
    Ok(noted)
}

fn noted_at(noted: &[Option<bool>], index: usize) -> Option<bool>
    ensures { result ≡ noted_if (slice_get noted.now index) }
{
    match noted.get(index) {
        Some(noted) => *noted,
        None => None,
    }
}

fn note(noted: &mut [Option<bool>], indexed: &ChainIndex<'_>, index: usize, goes: bool)
    requires noted { AreNoted indexed.now noted.old }
    requires goes { goes ≡ goes_at indexed.now.links indexed.now.walks index }
    ensures { AreNoted indexed.now noted.new }
{
    if index < noted.len() {
        noted[index] = Some(goes);
    }
}

// Whether a signal with that chain and the one at an index can be active at once: up from there, link by link, to one for which it
// is known. It allocates nothing, and uses the stack of one call, however many links there are.
fn goes_up(indexed: &ChainIndex<'_>, noted: &[Option<bool>], index: usize) -> bool
    requires { AreNoted indexed.now noted.now }
    ensures { result ≡ goes_at indexed.now.links indexed.now.walks index }
{
    let mut current = index;
    for _passed in 0..indexed.count() {
        if let Some(goes) = noted_at(noted, current) {
            return goes;
        }
        match indexed.paths.own_at(current) {
            Some(own) if indexed.agrees(own) => current = own.switch(),
            Some(_) => return false,
            None => return indexed.goes_slowly(current),
        }
    }
    indexed.goes_slowly(current)
}

// Memoizes what was found for the signal at an index, and so for all on its multiplexing chain for which that decided it.
fn note_up(noted: &mut [Option<bool>], indexed: &ChainIndex<'_>, index: usize, goes: bool)
    requires noted { AreNoted indexed.now noted.old }
    requires goes { goes ≡ goes_at indexed.now.links indexed.now.walks index }
    ensures { AreNoted indexed.now noted.new }
{
    let mut current = index;
    for _passed in 0..indexed.count() {
        if noted_at(noted, current).is_some() {
            return;
        }
        note(noted, indexed, current, goes);
        match indexed.paths.own_at(current) {
            Some(own) if indexed.agrees(own) => current = own.switch(),
            _ => return,
        }
    }
}

/// Whether a signal with that chain and the one at an index can be active at once. What is found on the
/// multiplexing chain is memoized.
pub(crate) fn can_coexist(
    indexed: &ChainIndex<'_>,
    noted: &mut [Option<bool>],
    index: usize,
) -> bool
    requires { AreNoted indexed.now noted.old }
    ensures goes { result ≡ goes_at indexed.now.links indexed.now.walks index }
    ensures noted { AreNoted indexed.now noted.new }
{
    let goes = goes_up(indexed, noted, index);
    note_up(noted, indexed, index, goes);
    goes
}
