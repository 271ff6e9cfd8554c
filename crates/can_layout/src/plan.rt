//! Decode plans.
ghost use Rattle.std.specs.Prelude.{◌≡◌, ℕ, List, [], ◌<◌, ◌≤◌, IfOk, IfSome, Some, None, true, length, map, slice_get, option_map};
ghost use Rattle.can_layout.specs.Plans.{reading_unless, chain_of, plan_rows, label_of, plan_in, raw_at};
ghost use Rattle.can_layout.specs.Layouts.{row_by};
ghost use Rattle.can_layout.specs.Plans.{raw_value_at, has_number, is_met, are_met, is_present};
ghost use Rattle.can_layout.specs.Presence.{AreKnown, ArePlain, AreChained, AreRuns, IsRunOf, IsLongestRun, IsCached, chain_at};
ghost use Rattle.can_layout.specs.Presence.{AreCached, AreAllCached, raw_of, switch_raw, is_among, is_top, are_plain};
ghost use Rattle.can_layout.specs.declared.runs.Run.{Run as PlainRun};
ghost use Rattle.std.specs.List.{list_any, enumerate_from};
ghost use Rattle.dbc_records.specs.Ranges.{in_range};
ghost use Rattle.can_entries.specs.Walks.{walk_of};
ghost use Rattle.can_entries.specs.declared.mux_parent.MuxParent.{MuxParent as PlainAbove};

use crate::cached::{CachedMultiplexor, MAX_KEPT, Switches};
use crate::decoder::Decoder;
use crate::layout::{Layout, SignalLayout};
use crate::order::{Order, order_of, slots_unless_in_row};
use crate::presence::known_at;
use crate::row::{Reading, Row};
use crate::runs::{Run, runs_of};
use crate::sharing::PlanRows;
use crate::switch_chain::Chain;
use can_bits::Field;
use can_entries::{Link, Lookup, MuxParent, mux_parent_at};
use dbc_records::Range;
use dbc_text_buffer::{ReadyText, TextBuffer, push_bytes};
use dbc_values::{Copied, List, Memory};
use std::alloc::Global;
use std::marker::Model;
use std::rc::Rc;

/// How the data of a message is decoded: its length, and a row for each signal.
#[derive(Drop)]
pub struct Plan {
    size: u16,
    rows: List<Row>,
    // What is between the value of each signal and that of the one before.
    labels: Vec<ReadyText>,
    // The multiplexing parents of the signals.
    mux_parents: Rc<List<MuxParent>>,
    // The order in which runs are looked up, if some chain has more than one link.
    order: Order,
    // If signals alternate between multiplexors (switches): for each such multiplexor, the slot in which its bits are cached.
    slots: Vec<usize>,
    // Whether no signal has a parent multiplexor, as in most messages.
    plain: bool,
    // If some signals have one: for each signal the run that it is in.
    runs: Vec<Run>,
}

impl Model for Plan {
    ghost use Rattle.std.specs.Prelude.{◌≡◌, ◌<◌, length, map, true};
    ghost use Rattle.can_layout.specs.Plans as plans;
    ghost use Rattle.can_layout.specs.Presence.{AreChained, ArePlain, AreRuns, are_plain};

    ghost Value = { plans.Plan };

    ghost view = { λ a. record { size = a.size; rows = a.rows } };

    ghost invariant = { λ a. (a.labels.items ≡ map plans.label_of a.rows) × AreChained a.rows a.mux_parents.value
        × (a.plain ≡ true → ArePlain a.rows) × AreRuns a.rows a.runs.items
        × (length a.runs.items < length a.rows → ArePlain a.rows) × (a.plain ≡ are_plain a.rows) };
}

fn reading_of<L: Lookup>(
    buffer: &mut TextBuffer,
    rows: &PlanRows<'_, L>,
    layout: &SignalLayout<'_>,
) -> Result<Reading, Memory>
    ensures { IfOk result (λ reading. reading ≡ reading_unless layout.now.cause rows.now layout.now.signal) }
{
    let signal = layout.signal;
    match layout.scale {
        Ok(scale) => {
            let named = rows.named(buffer, &signal.name)?;
            let decoder = Decoder::of(buffer, signal, scale, named)?;
            Ok(Reading::Read(decoder))
        }
        Err(cause) => Ok(Reading::Refused(cause)),
    }
}

fn row_of<L: Lookup>(
    buffer: &mut TextBuffer,
    rows: &PlanRows<'_, L>,
    chain: Option<Chain>,
    layout: &SignalLayout<'_>,
) -> Result<Row, Memory>
    ensures { IfOk result (λ row. (mux_parents : List PlainAbove) (index : ℕ) → chain ≡ chain_of (walk_of mux_parents index)
        → row ≡ row_by rows.now mux_parents index layout.now) }
{
    let signal = layout.signal;
    let name = signal.name.copy()?;
    let reading = reading_of(buffer, rows, layout)?;
    Ok(Row {
        name,
        field: Field::of(signal),
        chain,
        reading,
    })
}

// A row for each signal. Texts are made in the buffer.
fn rows_by<L: Lookup>(
    buffer: &mut TextBuffer,
    rows: &PlanRows<'_, L>,
    mux_parents: &Rc<List<MuxParent>>,
    signals: &[SignalLayout<'_>],
) -> Result<List<Row>, Memory>
    ensures { IfOk result (λ made. made ≡ map (λ placed. row_by rows.now mux_parents.now.value placed.0 placed.1)
        (enumerate_from 0 signals.now)) }
{
    let mut made = List::with_capacity(buffer.allocator(), signals.len())?;
    for (index, layout) in signals.iter().enumerate() {
        let chain = Chain::of(mux_parents, index)?;
        made.push(row_of(buffer, rows, chain, layout)?)?;
    }
    Ok(made)
}

// The same for a message of this layout.
fn plan_rows<L: Lookup>(
    buffer: &mut TextBuffer,
    layout: &Layout<'_, L>,
    mux_parents: &Rc<List<MuxParent>>,
) -> Result<List<Row>, Memory>
    ensures { IfOk result (λ made. made ≡ plan_rows layout.now.rows mux_parents.now.value layout.now.message.head.size
        layout.now.message.signals) }
{
    let made = rows_by(buffer, layout.rows(), mux_parents, layout.signals())?;
    Ok(made)
}

fn label_of(buffer: &mut TextBuffer, row: &Row) -> Result<ReadyText, Memory>
    ensures { IfOk result (λ label. label ≡ label_of row.now) }
{
    buffer.clear();
    push_bytes(buffer, b", ")?;
    push_bytes(buffer, row.name.as_bytes())?;
    push_bytes(buffer, b": ")?;
    ReadyText::of(buffer.allocator(), buffer.as_slice())
}

fn labels_of(buffer: &mut TextBuffer, rows: &[Row]) -> Result<Vec<ReadyText>, Memory>
    ensures { IfOk result (λ labels. labels.items ≡ map label_of rows.now) }
{
    let mut labels = Vec::with_capacity(buffer.allocator(), rows.len())?;
    for row in rows {
        labels.push(label_of(buffer, row)?)?;
    }
    Ok(labels)
}

// Whether a signal has no parent multiplexor.
fn is_plain(row: &Row) -> bool
    ensures { result ≡ is_top row.now.chain }
{
    match &row.chain {
        Some(chain) => chain.is_empty(),
        None => false,
    }
}

// Whether no signal has a parent multiplexor.
#[tactic(auto, unfolding(crate::specs::Presence::are_plain))]
fn are_plain(rows: &[Row]) -> bool
    ensures { result ≡ are_plain rows.now }
{
    rows.iter().all(|row| is_plain(row))
}

// The run of each signal, if some signal has a parent multiplexor.
fn runs_unless(
    alloc: Global,
    plain: bool,
    rows: &[Row],
    mux_parents: &[MuxParent],
) -> Result<Vec<Run>, Memory>
    requires chained { AreChained rows.now mux_parents.now }
    requires plain { plain ≡ true → ArePlain rows.now }
    ensures runs { IfOk result (λ runs. AreRuns rows.now runs.items) }
    ensures plain { IfOk result (λ runs. length runs.items < length rows.now → ArePlain rows.now) }
{
    if plain {
        Ok(Vec::new(alloc))
    } else {
        runs_of(alloc, rows, mux_parents)
    }
}

/// The plan of a message of this layout.
#[tactic(auto, unfolding(crate::specs::Plans::plan_in))]
pub(crate) fn plan_in<L: Lookup>(alloc: Global, layout: &Layout<'_, L>) -> Result<Plan, Memory>
    ensures { IfOk result (λ plan. plan ≡ plan_in layout.now.rows layout.now.message) }
{
    let mut buffer = TextBuffer::new(alloc);
    let mux_parents = layout.shared_mux_parents()?;
    let made = plan_rows(&mut buffer, layout, &mux_parents)?;
    let labels = labels_of(&mut buffer, made.as_slice())?;
    let plain = are_plain(made.as_slice());
    let runs = runs_unless(
        alloc,
        plain,
        made.as_slice(),
        mux_parents.as_ref().as_slice(),
    )?;
    let order = order_of(alloc, &runs)?;
    let slots = slots_unless_in_row(alloc, &runs)?;
    Ok(Plan {
        size: layout.message().head.size,
        rows: made,
        labels,
        mux_parents,
        order,
        slots,
        plain,
        runs,
    })
}

// Whether the raw value of a multiplexor is one of the link's.
fn has_number(reading: &Reading, link: &Link, bytes: &[u8]) -> bool
    ensures { result ≡ has_number bytes.now link.now.ranges reading.now }
{
    match reading {
        Reading::Read(decoder) => link.has(decoder.bits.raw(bytes)),
        Reading::Refused(_) => false,
    }
}

// Whether the multiplexor of a link has one of its raw values.
fn is_met(rows: &[Row], link: &Link, bytes: &[u8]) -> bool
    ensures { result ≡ is_met bytes.now rows.now link.now }
{
    match rows.get(link.switch) {
        Some(row) => row.is_whole(bytes) && has_number(&row.reading, link, bytes),
        None => false,
    }
}

// The raw bits of a multiplexor, if it isn't refused.
fn raw_of(reading: &Reading, bytes: &[u8]) -> Option<u64>
    ensures { result ≡ raw_of bytes.now reading.now }
{
    match reading {
        Reading::Read(decoder) => Some(decoder.bits.raw(bytes)),
        Reading::Refused(_) => None,
    }
}

// The run that a signal is in, among those of all signals.
fn run_in(runs: &[Run], signal: usize) -> Option<&Run>
    ensures { option_map (λ run. run.now) result ≡ slice_get runs.now signal }
{
    runs.get(signal)
}

// Whether a range has the raw bits.
fn is_in(range: Range, raw: u64) -> bool
    ensures { result ≡ in_range raw range }
{
    range.first <= raw && raw <= range.last
}

// Whether the raw bits are one of the link's raw values. Most links have one range.
fn is_in_ranges(link: &Link, raw: u64) -> bool
    ensures { result ≡ list_any (in_range raw) link.now.ranges }
{
    match link.ranges() {
        [only] => is_in(*only, raw),
        _ => link.has(raw),
    }
}

// Whether the raw bits of a multiplexor are one of the link's raw values.
fn is_among(link: &Link, raw: Option<u64>) -> bool
    ensures { result ≡ is_among link.now.ranges raw }
{
    match raw {
        Some(raw) => is_in_ranges(link, raw),
        None => false,
    }
}

// Whether the multiplexing chain from an index is a chain in which each multiplexor has one of its raw values.
#[inline(never)]
fn are_met(rows: &[Row], mux_parents: &[MuxParent], index: usize, bytes: &[u8]) -> bool
    ensures { result ≡ are_met bytes.now rows.now (chain_of (walk_of mux_parents.now index)) }
{
    let mut current = index;
    for _passed in 0..mux_parents.len() + 1 {
        match mux_parent_at(mux_parents, current) {
            Some(MuxParent::Nothing) => return true,
            Some(MuxParent::Switch(link)) if is_met(rows, link, bytes) => current = link.switch,
            _ => return false,
        }
    }
    false
}

impl Plan {
    /// How many bytes the message has.
    pub fn size(&self) -> u16
        ensures { result ≡ self.now.size }
    {
        self.size
    }

    /// How many signals the message has.
    pub fn signals(&self) -> usize
        ensures { result ≡ length self.now.rows }
    {
        self.rows.len()
    }

    /// Whether no signal has a multiplexor, as in most messages: then all of them are present in any data.
    pub fn is_plain(&self) -> bool
        ensures { result ≡ are_plain self.now.rows }
    {
        self.plain
    }

    /// The plan's row for the signal at an index.
    pub fn row(&self, signal: usize) -> &Row
        requires { signal < length self.now.rows }
        ensures { Some result.now ≡ slice_get self.now.rows signal }
    {
        &self.rows.as_slice()[signal]
    }

    /// The plan's row for the signal at an index, and the text between its value and that of the signal before: a comma, a blank,
    /// its name, a colon and a blank.
    pub fn labelled(&self, signal: usize) -> (&ReadyText, &Row)
        requires { signal < length self.now.rows }
        ensures row { Some result.1.now ≡ slice_get self.now.rows signal }
        ensures label { result.0.now ≡ label_of result.1.now }
    {
        (&self.labels[signal], &self.rows.as_slice()[signal])
    }

    /// Whether the signal at an index is present in data: each multiplexor in its chain has one of the raw values of its link. A
    /// multiplexor that can't be decoded has none, nor has one with a bit that is not in the data.
    pub fn present(&self, signal: usize, bytes: &[u8]) -> bool
        requires { signal < length self.now.rows }
        ensures { result ≡ is_present bytes.now self.now.rows (slice_get self.now.rows signal) }
    {
        if self.plain {
            return true;
        }
        are_met(
            self.rows.as_slice(),
            self.mux_parents.as_ref().as_slice(),
            signal,
            bytes,
        )
    }

    /// The run that the signal at an index is in, if some signal has a parent multiplexor.
    fn run_at(&self, signal: usize) -> Option<&Run>
        requires { signal < length self.now.rows }
        ensures run { (run : PlainRun) → option_map (λ run. run.now) result ≡ Some run → IsRunOf self.now.rows signal run }
        ensures plain { result ≡ None → ArePlain self.now.rows }
    {
        run_in(self.runs.as_slice(), signal)
    }

    /// If some chain has more than one link: the first signals of the runs with a parent multiplexor, each after the run of that.
    /// Otherwise it is empty.
    pub(crate) fn order(&self) -> &[usize] {
        self.order.runs.as_slice()
    }

    /// Those of them that have runs under them.
    pub(crate) fn order_of_parents(&self) -> &[usize] {
        let order = self.order();
        &order[..self.order.parents.min(order.len())]
    }

    /// Whether the signal at an index is present, by its run if that is known, otherwise by its chain.
    #[inline(always)]
    pub(crate) fn known_or_found(&self, known: &[Option<bool>], index: usize, bytes: &[u8]) -> bool
        requires { AreKnown bytes.now self.now.rows known.now }
        ensures { result ≡ is_present bytes.now self.now.rows (slice_get self.now.rows index) }
    {
        if index >= self.rows.len() {
            return false;
        }
        let Some(run) = self.run_at(index) else {
            return true;
        };
        match &run.parent {
            MuxParent::Nothing => true,
            MuxParent::Missing => false,
            MuxParent::Switch(_) => match known_at(known, run.first) {
                Some(there) => there,
                None => self.present(index, bytes),
            },
        }
    }

    // The raw bits of the multiplexor at an index, if it is present in data with all its bits.
    #[inline(always)]
    fn switch_raw(&self, known: &[Option<bool>], index: usize, bytes: &[u8]) -> Option<u64>
        requires { AreKnown bytes.now self.now.rows known.now }
        ensures { result ≡ switch_raw bytes.now self.now.rows (slice_get self.now.rows index) }
    {
        let row = self.rows.as_slice().get(index)?;
        if row.is_whole(bytes) && self.known_or_found(known, index, bytes) {
            raw_of(&row.reading, bytes)
        } else {
            None
        }
    }

    // These raw bits, which are looked up only if another multiplexor was looked up before.
    #[inline(always)]
    fn last_raw(
        &self,
        known: &[Option<bool>],
        cached: &mut CachedMultiplexor,
        index: usize,
        bytes: &[u8],
    ) -> Option<u64>
        requires known { AreKnown bytes.now self.now.rows known.now }
        requires cached { IsCached bytes.now self.now.rows cached.old.switch cached.old.raw }
        ensures raw { result ≡ switch_raw bytes.now self.now.rows (slice_get self.now.rows index) }
        ensures cached { IsCached bytes.now self.now.rows cached.new.switch cached.new.raw }
    {
        if cached.switch != index {
            *cached = CachedMultiplexor {
                switch: index,
                raw: self.switch_raw(known, index, bytes),
            };
        }
        cached.raw
    }

    /// Whether the signal at an index is present in data, by what is known of others and what was found of the
    /// multiplexor looked up last.
    #[inline(always)]
    pub(crate) fn present_by(
        &self,
        known: &[Option<bool>],
        cached: &mut CachedMultiplexor,
        index: usize,
        bytes: &[u8],
    ) -> bool
        requires known { AreKnown bytes.now self.now.rows known.now }
        requires cached { IsCached bytes.now self.now.rows cached.old.switch cached.old.raw }
        requires index { index < length self.now.rows }
        ensures there { result ≡ is_present bytes.now self.now.rows (slice_get self.now.rows index) }
        ensures cached { IsCached bytes.now self.now.rows cached.new.switch cached.new.raw }
    {
        let Some(run) = self.run_at(index) else {
            return true;
        };
        match &run.parent {
            MuxParent::Nothing => true,
            MuxParent::Missing => false,
            MuxParent::Switch(link) => {
                let raw = self.last_raw(known, cached, link.switch, bytes);
                is_among(link, raw)
            }
        }
    }

    // The raw bits of a multiplexor. It isn't inlined, so that cached bits are found with few registers.
    #[inline(never)]
    fn found_raw(&self, known: &[Option<bool>], index: usize, bytes: &[u8]) -> Option<u64>
        requires { AreKnown bytes.now self.now.rows known.now }
        ensures { result ≡ switch_raw bytes.now self.now.rows (slice_get self.now.rows index) }
    {
        self.switch_raw(known, index, bytes)
    }

    // The raw bits of a multiplexor, which are looked up only if its slot has those of another one.
    fn slot_raw(
        &self,
        known: &[Option<bool>],
        kept: &mut [CachedMultiplexor],
        slot: usize,
        index: usize,
        bytes: &[u8],
    ) -> Option<u64>
        requires known { AreKnown bytes.now self.now.rows known.now }
        requires kept { AreAllCached bytes.now self.now.rows kept.old }
        requires slot { slot < length kept.old }
        ensures raw { result ≡ switch_raw bytes.now self.now.rows (slice_get self.now.rows index) }
        ensures kept { AreAllCached bytes.now self.now.rows kept.new }
    {
        let cached = kept[slot];
        if cached.switch == index {
            return cached.raw;
        }
        let raw = self.found_raw(known, index, bytes);
        kept[slot] = CachedMultiplexor { switch: index, raw };
        raw
    }

    // The raw bits of a multiplexor by its slot; the slots are made for the first one.
    fn kept_raw(
        &self,
        known: &[Option<bool>],
        kept: &mut Option<[CachedMultiplexor; MAX_KEPT]>,
        slot: usize,
        index: usize,
        bytes: &[u8],
    ) -> Option<u64>
        requires known { AreKnown bytes.now self.now.rows known.now }
        requires kept { IfSome kept.old (AreAllCached bytes.now self.now.rows) }
        requires slot { slot < 8 }
        ensures raw { result ≡ switch_raw bytes.now self.now.rows (slice_get self.now.rows index) }
        ensures kept { IfSome kept.new (AreAllCached bytes.now self.now.rows) }
    {
        match kept {
            Some(all) => self.slot_raw(known, all, slot, index, bytes),
            None => {
                let mut all = [self.nothing_cached(); MAX_KEPT];
                let raw = self.slot_raw(known, &mut all, slot, index, bytes);
                *kept = Some(all);
                raw
            }
        }
    }

    // The raw bits of a multiplexor that wasn't looked up last, by its slot if it has one. It isn't inlined, so that the loop over
    // runs of signals keeps its registers.
    #[inline(never)]
    fn raw_anew(
        &self,
        known: &[Option<bool>],
        kept: &mut Option<[CachedMultiplexor; MAX_KEPT]>,
        index: usize,
        bytes: &[u8],
    ) -> Option<u64>
        requires known { AreKnown bytes.now self.now.rows known.now }
        requires kept { IfSome kept.old (AreAllCached bytes.now self.now.rows) }
        ensures raw { result ≡ switch_raw bytes.now self.now.rows (slice_get self.now.rows index) }
        ensures kept { IfSome kept.new (AreAllCached bytes.now self.now.rows) }
    {
        match self.slots.get(index) {
            Some(slot) if *slot < MAX_KEPT => self.kept_raw(known, kept, *slot, index, bytes),
            _ => self.found_raw(known, index, bytes),
        }
    }

    // The raw bits of a multiplexor, which are looked up only if another one was looked up last.
    fn cached_raw(
        &self,
        known: &[Option<bool>],
        cached: &mut Switches,
        index: usize,
        bytes: &[u8],
    ) -> Option<u64>
        requires known { AreKnown bytes.now self.now.rows known.now }
        requires cached { AreCached bytes.now self.now.rows cached.old }
        ensures raw { result ≡ switch_raw bytes.now self.now.rows (slice_get self.now.rows index) }
        ensures cached { AreCached bytes.now self.now.rows cached.new }
    {
        if cached.last.switch != index {
            let raw = self.raw_anew(known, &mut cached.kept, index, bytes);
            cached.last = CachedMultiplexor { switch: index, raw };
        }
        cached.last.raw
    }

    /// Whether the signal at an index is present in data, and up to where the same holds for those from it on: as far as they have
    /// the same chain. It uses what is known of the run, otherwise the multiplexor, whose bits are cached once looked up.
    #[inline(always)]
    pub(crate) fn run_from(
        &self,
        known: &[Option<bool>],
        cached: &mut Switches,
        signal: usize,
        bytes: &[u8],
    ) -> (bool, usize)
        requires known { AreKnown bytes.now self.now.rows known.now }
        requires cached { AreCached bytes.now self.now.rows cached.old }
        requires signal { signal < length self.now.rows }
        ensures there { (index : ℕ) → signal ≤ index → index < result.1
            → result.0 ≡ is_present bytes.now self.now.rows (slice_get self.now.rows index) }
        ensures longest { IsLongestRun (chain_at self.now.rows) (length self.now.rows) signal result.1 }
        ensures cached { AreCached bytes.now self.now.rows cached.new }
    {
        let Some(run) = self.run_at(signal) else {
            return (true, self.rows.len());
        };
        match &run.parent {
            MuxParent::Nothing => (true, run.end),
            MuxParent::Missing => (false, run.end),
            MuxParent::Switch(link) => {
                if let Some(there) = known_at(known, run.first) {
                    return (there, run.end);
                }
                let raw = self.cached_raw(known, cached, link.switch, bytes);
                (is_among(link, raw), run.end)
            }
        }
    }

    /// No multiplexor was looked up last.
    pub(crate) fn nothing_cached(&self) -> CachedMultiplexor
        ensures { (bytes : List ℕ) → IsCached bytes self.now.rows result.switch result.raw }
    {
        CachedMultiplexor {
            switch: self.rows.len(),
            raw: None,
        }
    }

    /// No multiplexors were looked up yet.
    pub(crate) fn none_cached(&self) -> Switches
        ensures { (bytes : List ℕ) → AreCached bytes self.now.rows result }
    {
        Switches {
            last: self.nothing_cached(),
            kept: None,
        }
    }

    /// The raw bits of the signal at an index, unsigned, and 0 if it is refused. Bits after the end of the data are 0.
    pub fn raw(&self, signal: usize, bytes: &[u8]) -> u64
        requires { signal < length self.now.rows }
        ensures { result ≡ raw_at bytes.now (slice_get self.now.rows signal) }
    {
        match &self.rows.as_slice()[signal].reading {
            Reading::Read(decoder) => decoder.bits.raw(bytes),
            Reading::Refused(_) => 0,
        }
    }

    /// The raw value of the signal at an index: in two's complement if it is signed, and 0 if it is refused. Bits after the end of
    /// the data are 0.
    pub fn raw_value(&self, signal: usize, bytes: &[u8]) -> i128
        requires { signal < length self.now.rows }
        ensures { result ≡ raw_value_at bytes.now (slice_get self.now.rows signal) }
    {
        match &self.rows.as_slice()[signal].reading {
            Reading::Read(decoder) => decoder.raw_value(bytes),
            Reading::Refused(_) => 0,
        }
    }
}
