//! The value descriptions of a signal.
ghost use Rattle.std.specs.Prelude.{◌≡◌, IfOk, IfSome, option_map};
ghost use Rattle.can_layout.specs.Decoders.{first_entry, name_of};
ghost use Rattle.can_layout.specs.CachedNames.{IsCachedName};

use crate::cached_name::CachedName;
use crate::entries::{EntrySearch, entry_of, search_of_many};
use crate::naming::ready_names;
use dbc_records::{Entries, Entry};
use dbc_text_buffer::{ReadyText, TextBuffer};
use dbc_values::Memory;
use std::marker::Model;

/// The value descriptions of a signal, found by their raw values.
#[derive(Drop)]
pub(crate) struct Named {
    // The names of the first raw values.
    names: Vec<Option<ReadyText>>,
    entries: Entries,
    // If there are many entries, how they are found by their raw values.
    search: Option<EntrySearch>,
}

impl Model for Named {
    ghost use Rattle.std.specs.Prelude.{List as Items, IfSome};
    ghost use Rattle.dbc_records.specs.Records.{Entry as PlainEntry};
    ghost use Rattle.can_layout.specs.Decoders.{AreNames};
    ghost use Rattle.can_layout.specs.inner.Searches.{IsEntrySearch};

    ghost Value = { Items PlainEntry };

    ghost view = { λ a. a.entries };

    ghost invariant = { λ a. AreNames a.entries a.names.items × IfSome a.search (λ search. IsEntrySearch search a.entries) };
}

impl Named {
    /// These value descriptions. Their texts are made in the buffer.
    pub(crate) fn of(buffer: &mut TextBuffer, entries: Entries) -> Result<Named, Memory>
        ensures { IfOk result (λ named. named ≡ entries) }
    {
        let search = search_of_many(buffer.allocator(), &entries)?;
        let names = ready_names(buffer, &search, entries.as_slice())?;
        Ok(Named {
            names,
            entries,
            search,
        })
    }

    /// The value descriptions, in the order of the text.
    pub(crate) fn entries(&self) -> &[Entry]
        ensures { result.now ≡ self.now }
    {
        self.entries.as_slice()
    }

    // The name of a raw value, or that it has none, if it is one of the first raw values.
    #[inline(always)]
    fn name_at(&self, raw: i128) -> Option<&Option<ReadyText>>
        ensures { IfSome result (λ name. name.now ≡ name_of raw self.now) }
    {
        let Ok(index) = usize::try_from(raw) else {
            return None;
        };
        let name = self.names.as_slice().get(index)?;
        Some(name)
    }

    /// What is cached of the name of a raw value.
    pub(crate) fn cached_name(&self, raw: i128) -> CachedName<'_>
        ensures { IsCachedName result (name_of raw self.now) }
    {
        match self.name_at(raw) {
            Some(Some(name)) => CachedName::Name(name),
            Some(None) => CachedName::Unnamed,
            None => CachedName::NotCached,
        }
    }

    /// The first entry for a raw value.
    pub(crate) fn entry(&self, raw: i128) -> Option<&Entry>
        ensures { option_map (λ entry. entry.now) result ≡ first_entry raw self.now }
    {
        entry_of(&self.search, self.entries.as_slice(), raw)
    }
}
