//! Signals by the CAN identifiers of their messages and their names.
ghost use Rattle.std.specs.Prelude.{◌≡◌, map, IfOk};
ghost use Rattle.std.specs.List.{list_any};
ghost use Rattle.std.specs.List.Sorted.{IsPermutation};
ghost use Rattle.can_references.specs.SignalNames.{same_signal, named_signal};

use crate::hashed_signals::HashedSignals;
use crate::numbered_signals::NumberedSignals;
use crate::signal_search::SignalSearch;
use dbc_values::Memory;
use std::alloc::Global;
use std::marker::Model;

/// Signals, in any order: the CAN identifier of the message, and the signal's name.
#[derive(Drop)]
pub struct SignalNames<'a> {
    search: SignalSearch<'a>,
}

impl<'a> Model for SignalNames<'a> {
    ghost use Rattle.std.specs.Prelude.{ℕ, List};
    ghost use Rattle.can_references.specs.inner.SignalSearches.{searched_signals};

    ghost Value = { List (ℕ × List ℕ) };

    ghost view = { λ names. searched_signals names.search };
}

impl<'a> SignalNames<'a> {
    /// These signals.
    pub fn of(alloc: Global, signals: &[(u32, &'a [u8])]) -> Result<SignalNames<'a>, Memory>
        ensures { IfOk result (λ made. IsPermutation (map named_signal signals.now) made) }
    {
        if let Some(numbered) = NumberedSignals::of(alloc, signals)? {
            return Ok(SignalNames {
                search: SignalSearch::ByNumber(numbered),
            });
        }
        Ok(SignalNames {
            search: SignalSearch::ByHash(HashedSignals::of(alloc, signals)?),
        })
    }

    /// Whether the signal is among them.
    pub fn has(&self, key: (u32, &'a [u8])) -> bool
        ensures { result ≡ list_any (same_signal (key.entry.0, key.entry.1.now)) self.now }
    {
        match &self.search {
            SignalSearch::ByNumber(signals) => signals.has(key),
            SignalSearch::ByHash(signals) => signals.has(key),
        }
    }
}
