//! What takes diagnostics, a few at a time.
ghost use Rattle.std.specs.Prelude.{◌≡◌};
ghost use Rattle.can_check.specs.Reports.{Takes};

use can_diagnostics::Diagnostic;
use dbc_values::{Memory, Stop};

/// A receiver of diagnostics in their order, a few at a time, so that they need not all be kept.
pub trait Report: Drop {
    ghost use Rattle.std.specs.Prelude.{List, [], ◌++◌};
    ghost use Rattle.can_diagnostics.specs.declared.diagnostic.Diagnostic.{Diagnostic as Found};
    ghost use Rattle.dbc_values.specs.declared.stop.Stop.{Stop as Why};
    ghost use Rattle.dbc_values.specs.declared.stop.Stop.TheVariants as stops;

    // These were taken.
    ghost Took: { Self → Self → List Found → Type 0 };

    // These were to be taken, and a prefix of them was.
    ghost Stopped: { Self → Self → Why → List Found → Type 0 };

    /// Takes diagnostics, after those before.
    fn take(&mut self, found: Vec<Diagnostic>) -> Result<(), Stop>
        ensures { Takes Took Stopped self.old self.new result found.items };

    // Taking none changes nothing.
    ghost took_none: { (here : Self) → Took here here [] };

    // One part is taken after another.
    ghost took_then: { (old mid new : Self) (xs ys : List Found) → Took old mid xs → Took mid new ys → Took old new (xs ++ ys) };

    // It stops at a part after another.
    ghost stopped_after: { (old mid new : Self) (why : Why) (xs ys : List Found) → Took old mid xs → Stopped mid new why ys
        → Stopped old new why (xs ++ ys) };

    // It stops before the rest of what was to be taken.
    ghost stopped_before: { (old new : Self) (why : Why) (xs ys : List Found) → Stopped old new why xs
        → Stopped old new why (xs ++ ys) };

    // Memory may run out before any is taken.
    ghost refused: { (here : Self) (xs : List Found) → Stopped here here stops.Memory xs };
}

impl Report for Vec<Diagnostic> {
    ghost use Rattle.std.specs.Prelude.{◌++◌, ⊤};
    ghost use Rattle.can_check.specs.Reports.{following_none, after_both};

    ghost Took = { λ old new found. new.items ≡ old.items ++ found };

    ghost Stopped = { λ old new why found. ⊤ };

    fn take(&mut self, found: Vec<Diagnostic>) -> Result<(), Stop> {
        let mut found = found;
        match self.append(&mut found) {
            Ok(()) => Ok(()),
            Err(_) => Err(Stop::Memory),
        }
    }

    ghost took_none = { λ here. following_none here.items };

    ghost took_then = { λ old mid new xs ys p q. after_both old.items mid.items new.items xs ys p q };

    ghost stopped_after = { λ old mid new why xs ys p q. tt };

    ghost stopped_before = { λ old new why xs ys p. tt };

    ghost refused = { λ here xs. tt };
}
