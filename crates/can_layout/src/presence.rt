//! Which signals of a message are present in data.
ghost use Rattle.std.specs.Prelude.{◌≡◌, ℕ, ◌<◌, ◌≤◌, None, IfOk, length, slice_get};
ghost use Rattle.can_layout.specs.Plans.{is_present};
ghost use Rattle.can_layout.specs.Presence.{AreKnown, IsCached, IsLongestRun, chain_at, known_at};

use crate::cached::{CachedMultiplexor, Switches};
use crate::plan::Plan;
use dbc_values::Memory;
use std::alloc::Global;
use std::marker::Model;

/// Which signals of a message are present in data. If multiplexors (switches) have parents, each run of signals is looked up once,
/// at the cost of one link; what is asked of its other signals then is known.
#[derive(Drop)]
pub struct Presence<'a> {
    plan: &'a Plan,
    bytes: &'a [u8],
    // Which runs that were looked up are present, at their first signals.
    known: Vec<Option<bool>>,
    // What was found of multiplexors.
    cached: Switches,
}

impl<'a> Model for Presence<'a> {
    ghost use Rattle.can_layout.specs.Presence as plain;

    ghost Value = { plain.Presence };

    ghost view = { λ a. record { bytes = a.bytes.now; rows = a.plan.now.rows } };

    ghost invariant = { λ a. plain.AreKnown a.bytes.now a.plan.now.rows a.known.items
        × plain.AreCached a.bytes.now a.plan.now.rows a.cached };
}

/// What is known of the signal at an index.
pub(crate) fn known_at(known: &[Option<bool>], index: usize) -> Option<bool>
    ensures { result ≡ known_at known.now index }
{
    match known.get(index) {
        Some(there) => *there,
        None => None,
    }
}

// Nothing is known of the signals at this many indexes.
fn none_known(alloc: Global, count: usize) -> Result<Vec<Option<bool>>, Memory>
    ensures { IfOk result (λ known. (index : ℕ) → known_at known.items index ≡ None) }
{
    let known = vec![in alloc; None; count]?;
    Ok(known)
}

// Looks up the run that begins at an index, by what is known of others.
#[inline(always)]
fn look_for(
    known: &mut [Option<bool>],
    cached: &mut CachedMultiplexor,
    plan: &Plan,
    index: usize,
    bytes: &[u8],
)
    requires known { AreKnown bytes.now plan.now.rows known.old }
    requires cached { IsCached bytes.now plan.now.rows cached.old.switch cached.old.raw }
    ensures known { AreKnown bytes.now plan.now.rows known.new }
    ensures cached { IsCached bytes.now plan.now.rows cached.new.switch cached.new.raw }
{
    if index < known.len() && index < plan.signals() {
        let there = plan.present_by(known, cached, index, bytes);
        known[index] = Some(there);
    }
}

// Looks up runs in this order. It isn't inlined, since few plans have an order.
#[cold]
#[inline(never)]
fn known_of(
    alloc: Global,
    plan: &Plan,
    order: &[usize],
    bytes: &[u8],
) -> Result<Vec<Option<bool>>, Memory>
    ensures { IfOk result (λ known. AreKnown bytes.now plan.now.rows known.items) }
{
    let mut known = none_known(alloc, plan.signals())?;
    let mut cached = plan.nothing_cached();
    for index in order {
        look_for(&mut known, &mut cached, plan, *index, bytes);
    }
    Ok(known)
}

impl<'a> Presence<'a> {
    // Which signals are present, once the runs of an order have been looked up.
    #[inline(always)]
    fn by_order(
        alloc: Global,
        plan: &'a Plan,
        order: &[usize],
        bytes: &'a [u8],
    ) -> Result<Presence<'a>, Memory>
        ensures { IfOk result (λ presence. presence ≡ record { bytes = bytes.now; rows = plan.now.rows }) }
    {
        let known = if order.is_empty() {
            Vec::new(alloc)
        } else {
            known_of(alloc, plan, order, bytes)?
        };
        let cached = plan.none_cached();
        Ok(Presence {
            plan,
            bytes,
            known,
            cached,
        })
    }

    /// Which signals of a plan are present in data. It allocates if a multiplexor has a parent.
    pub fn of(alloc: Global, plan: &'a Plan, bytes: &'a [u8]) -> Result<Presence<'a>, Memory>
        ensures { IfOk result (λ presence. presence ≡ record { bytes = bytes.now; rows = plan.now.rows }) }
    {
        Presence::by_order(alloc, plan, plan.order(), bytes)
    }

    /// The same for a caller of [`Presence::run_from`] that asks for each run once. It is faster, since only runs with multiplexors
    /// of other signals are looked up at first. [`Presence::has`] is slower after it, since it follows a signal's chain.
    #[inline(always)]
    pub fn for_runs(alloc: Global, plan: &'a Plan, bytes: &'a [u8]) -> Result<Presence<'a>, Memory>
        ensures { IfOk result (λ presence. presence ≡ record { bytes = bytes.now; rows = plan.now.rows }) }
    {
        Presence::by_order(alloc, plan, plan.order_of_parents(), bytes)
    }

    /// Whether the signal at an index is present, as [`Plan::present`] defines it.
    pub fn has(&self, signal: usize) -> bool
        requires { signal < length self.now.rows }
        ensures { result ≡ is_present self.now.bytes self.now.rows (slice_get self.now.rows signal) }
    {
        self.plan
            .known_or_found(self.known.as_slice(), signal, self.bytes)
    }

    /// Whether the signal at an index is present, as [`Plan::present`] defines it, and up to where the same holds for those from it
    /// on: as far as they have the same chain.
    #[inline(always)]
    pub fn run_from(&mut self, signal: usize) -> (bool, usize)
        requires { signal < length self.old.rows }
        ensures some { signal < result.1 }
        ensures within { result.1 ≤ length self.old.rows }
        ensures there { (index : ℕ) → signal ≤ index → index < result.1
            → result.0 ≡ is_present self.old.bytes self.old.rows (slice_get self.old.rows index) }
        ensures longest { IsLongestRun (chain_at self.old.rows) (length self.old.rows) signal result.1 }
        ensures same { self.new ≡ self.old }
    {
        self.plan.run_from(self.known.as_slice(), &mut self.cached, signal, self.bytes)
    }
}
