//! The lines of the log by the CAN identifiers and by the parameter groups of their data frames.
ghost use Rattle.std.specs.Prelude.{◌≡◌, [], OnOk, OnErr};
ghost use Rattle.std.specs.Option.{option_map_or};
ghost use Rattle.indexmap.specs.IndexMap.{hasher_of};
ghost use Rattle.can_entries.specs.Groups.{is_extended, group_number_of};
ghost use Rattle.session_log.specs.Touched.{may_have_group};
ghost use Rattle.session_log.specs.inner.Indexes.{numbers_in, SameSerials, Puts, Drops, serials_of, IsIndexed};

use crate::keyed_serials::{KeyedSerials, Serials, add, drop_first, drop_last};
use crate::log_hash::LogHash;
use crate::touching::may_have_group;
use can_decode::group_number;
use can_entries::is_extended;
use dbc_values::Memory;
use indexmap::IndexMap;
use std::alloc::Global;

/// The serial numbers of lines by the CAN identifiers of their data frames, and of those with extended (29-bit) identifiers by
/// their parameter groups. A CAN identifier or parameter group has an entry as long as it has a line.
#[derive(Drop)]
pub(crate) struct LogIndex {
    numbers: KeyedSerials,
    groups: KeyedSerials,
}

impl LogIndex {
    /// The index of no lines, which hashes in this way.
    pub(crate) fn new(alloc: Global, hash: LogHash) -> LogIndex
        ensures none { IsIndexed 0 [] result }
        ensures numbers { hasher_of result.numbers ≡ hash }
        ensures groups { hasher_of result.groups ≡ hash }
    {
        LogIndex {
            numbers: IndexMap::with_hasher(alloc, hash),
            groups: IndexMap::with_hasher(alloc, hash),
        }
    }

    /// Appends a line with a data frame of the CAN identifier to the others.
    pub(crate) fn add(&mut self, alloc: Global, number: u32, serial: usize) -> Result<(), Memory>
        ensures ok { OnOk result (Puts number serial self.old self.new) }
        ensures err { OnErr result (SameSerials self.old self.new) }
    {
        add(alloc, &mut self.numbers, number, serial)?;
        if is_extended(number) {
            let grouped = add(alloc, &mut self.groups, group_number(number), serial);
            if grouped.is_err() {
                drop_last(&mut self.numbers, number);
            }
            return grouped;
        }
        Ok(())
    }

    /// Removes the first line with a data frame of the CAN identifier.
    pub(crate) fn drop_first(&mut self, number: u32)
        ensures { Drops number self.old self.new }
    {
        drop_first(&mut self.numbers, number);
        if is_extended(number) {
            drop_first(&mut self.groups, group_number(number));
        }
    }

    /// The serial numbers of the lines that a CAN identifier concerns: those of its parameter group, otherwise those
    /// with that CAN identifier.
    pub(crate) fn serials_of(&self, number: u32) -> Option<&Serials>
        ensures { option_map_or (λ serials. numbers_in serials.now) result [] ≡ serials_of number self.now }
    {
        if may_have_group(number) {
            self.groups.get(&group_number(number))
        } else {
            self.numbers.get(&number)
        }
    }
}
