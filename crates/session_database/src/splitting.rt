//! The own diagnostics of messages, cut out of all diagnostics of a database.
ghost use Rattle.std.specs.Prelude.{◌≡◌, ◌<◌, MatchOption, [], length, get_or, take, drop};
ghost use Rattle.session_database.specs.Diagnosed.{own_parts};

use crate::diagnosing::FaultCounts;
use can_check::Diagnostic;
use std::marker::Model;

// The first diagnostics, this many or all if there are fewer, and the others.
fn parted(found: &[Diagnostic], count: usize) -> (&[Diagnostic], &[Diagnostic])
    ensures front { result.0.now ≡ take count found.now }
    ensures back { result.1.now ≡ drop count found.now }
{
    if count <= found.len() {
        found.split_at(count)
    } else {
        (found, &[])
    }
}

/// The own diagnostics of messages, in order: for each message, a part of all diagnostics.
#[derive(Drop)]
pub(crate) struct OwnParts<'a> {
    found: &'a [Diagnostic],
    counts: &'a [FaultCounts],
}

impl<'a> Model for OwnParts<'a> {
    ghost use Rattle.std.specs.Prelude.{List};
    ghost use Rattle.can_diagnostics.specs.declared.diagnostic.Diagnostic.{Diagnostic as Found};
    ghost use Rattle.session_database.specs.Diagnosed.{own_parts};

    ghost Value = { List (List Found) };

    ghost view = { λ parts. own_parts parts.counts.now parts.found.now };
}

impl<'a> OwnParts<'a> {
    /// The own diagnostics of messages that have this many diagnostics.
    pub(crate) fn of(found: &'a [Diagnostic], counts: &'a [FaultCounts]) -> OwnParts<'a>
        ensures { result ≡ own_parts counts.now found.now }
    {
        OwnParts { found, counts }
    }

    /// The own diagnostics of the next message, which are then no longer among them.
    pub(crate) fn next(&mut self) -> Option<&'a [Diagnostic]>
        ensures own { MatchOption result (length self.old ≡ 0) (λ own. (0 < length self.old) × (own.now ≡ get_or self.old 0 [])) }
        ensures rest { self.new ≡ drop 1 self.old }
    {
        if let [first, others @ ..] = self.counts {
            let (_, rest) = parted(self.found, first.of_head);
            let (own, left) = parted(rest, first.own);
            self.found = left;
            self.counts = others;
            Some(own)
        } else {
            None
        }
    }
}
