//! The diagnostics of a database, and how many of them are of each message.
ghost use Rattle.std.specs.Prelude.{◌≡◌, ◌++◌, [], ◌∷◌, IfOk, OnOk, length, map};
ghost use Rattle.std.specs.List.{flat_map};
ghost use Rattle.can_references.specs.HeadFaults.{head_faults};
ghost use Rattle.can_references.specs.RowFaults.{row_faults};
ghost use Rattle.can_check.specs.MessageFaults.{head_then_own};
ghost use Rattle.session_database.specs.Diagnosed.{counts_of};
ghost use Rattle.session_database.specs.CompiledDatabase.{AreDiagnosed};

use can_check::laws::faults_in_order;
use can_check::{Diagnostic, Occupancy, push_own_faults};
use can_layout::Lookup;
use can_references::{CrossReferences, push_head_faults, row_faults};
use dbc_records::Message;
use dbc_values::{Copied, Memory};
use std::alloc::Global;

/// How many diagnostics a message has.
#[derive(Clone, Copy)]
pub(crate) struct FaultCounts {
    /// Those of its head: codes 1 to 4.
    pub of_head: usize,
    /// Its own: codes 5 to 15.
    pub own: usize,
}

/// Diagnostics, and how many of them are of each message.
#[derive(Drop)]
pub(crate) struct Diagnosed {
    /// The diagnostics.
    pub diagnostics: Vec<Diagnostic>,
    /// How many are of each message, in order.
    pub counts: Vec<FaultCounts>,
}

// Adds the diagnostics of a message's head, and returns how many there are.
fn push_head<'a, L: Lookup>(
    found: &mut Vec<Diagnostic>,
    known: &CrossReferences<'a, L>,
    message: &'a Message,
) -> Result<usize, Memory>
    ensures found { OnOk result (found.new.items ≡ found.old.items ++ head_faults known.now message.now) }
    ensures count { IfOk result (λ count. count ≡ length (head_faults known.now message.now)) }
{
    let before = found.len();
    push_head_faults(found, known, message)?;
    Ok(found.len() - before)
}

// Adds copies of diagnostics.
fn push_copies(found: &mut Vec<Diagnostic>, copied: &[Diagnostic]) -> Result<(), Memory>
    ensures { OnOk result (found.new.items ≡ found.old.items ++ copied.now) }
{
    for one in copied {
        found.push(one.copy()?)?;
    }
    Ok(())
}

impl Diagnosed {
    /// None yet, with space for the counts of this many messages.
    pub(crate) fn with_space(alloc: Global, messages: usize) -> Result<Diagnosed, Memory>
        ensures diagnostics { IfOk result (λ made. made.diagnostics.items ≡ []) }
        ensures counts { IfOk result (λ made. made.counts.items ≡ []) }
    {
        let counts = Vec::with_capacity(alloc, messages)?;
        Ok(Diagnosed {
            diagnostics: Vec::new(alloc),
            counts,
        })
    }

    /// Adds the diagnostics of a message. The table for overlaps is empty before and after.
    pub(crate) fn push_new<'a, L: Lookup>(
        &mut self,
        known: &CrossReferences<'a, L>,
        occupancy: Occupancy,
        message: &'a Message,
    ) -> Result<Occupancy, Memory>
        ensures diagnostics { OnOk result (self.new.diagnostics.items ≡ self.old.diagnostics.items
            ++ head_then_own known.now message.now) }
        ensures counts { OnOk result (self.new.counts.items ≡ self.old.counts.items ++ counts_of known.now message.now ∷ []) }
    {
        let of_head = push_head(&mut self.diagnostics, known, message)?;
        let before = self.diagnostics.len();
        let occupancy = push_own_faults(&mut self.diagnostics, known, occupancy, message)?;
        let own = self.diagnostics.len() - before;
        self.counts.push(FaultCounts { of_head, own })?;
        Ok(occupancy)
    }

    /// Adds the diagnostics of entries.
    pub(crate) fn push_entries<L: Lookup>(
        &mut self,
        alloc: Global,
        known: CrossReferences<'_, L>,
    ) -> Result<(), Memory>
        ensures diagnostics { OnOk result (self.new.diagnostics.items ≡ self.old.diagnostics.items ++ row_faults known.entry) }
        ensures counts { OnOk result (self.new.counts.items ≡ self.old.counts.items) }
    {
        let mut found = row_faults(alloc, known)?;
        self.diagnostics.append(&mut found)?;
        Ok(())
    }

    /// Adds the diagnostics of a message, with copies of its own ones.
    pub(crate) fn push_kept<'a, L: Lookup>(
        &mut self,
        known: &CrossReferences<'a, L>,
        message: &'a Message,
        own: &[Diagnostic],
    ) -> Result<(), Memory>
        ensures diagnostics { OnOk result (self.new.diagnostics.items ≡ self.old.diagnostics.items
            ++ (head_faults known.now message.now ++ own.now)) }
        ensures counts { OnOk result (self.new.counts.items ≡ self.old.counts.items ++ record {
          of_head = length (head_faults known.now message.now);
          own = length own.now;
        } ∷ []) }
    {
        let of_head = push_head(&mut self.diagnostics, known, message)?;
        push_copies(&mut self.diagnostics, own)?;
        self.counts.push(FaultCounts {
            of_head,
            own: own.len(),
        })?;
        Ok(())
    }
}

// Adds the diagnostics of messages, in order.
fn push_messages<'a, L: Lookup>(
    made: &mut Diagnosed,
    alloc: Global,
    known: &CrossReferences<'a, L>,
    messages: &'a [Message],
) -> Result<(), Memory>
    ensures diagnostics { OnOk result (made.new.diagnostics.items ≡ made.old.diagnostics.items
        ++ flat_map (head_then_own known.now) messages.now) }
    ensures counts { OnOk result (made.new.counts.items ≡ made.old.counts.items ++ map (counts_of known.now) messages.now) }
{
    let mut occupancy = Occupancy::new(alloc);
    for message in messages {
        occupancy = made.push_new(known, occupancy, message)?;
    }
    Ok(())
}

/// All diagnostics of a database whose entries are found by `lookup`.
pub(crate) fn diagnose<L: Lookup>(alloc: Global, lookup: &L) -> Result<Diagnosed, Memory>
    ensures { IfOk result (λ made. AreDiagnosed (L.whole lookup.now) made.diagnostics.items made.counts.items) }
{
    faults_in_order();
    let known = CrossReferences::of(alloc, lookup)?;
    let messages = known.database().messages.as_slice();
    let mut made = Diagnosed::with_space(alloc, messages.len())?;
    push_messages(&mut made, alloc, &known, messages)?;
    made.push_entries(alloc, known)?;
    Ok(made)
}
