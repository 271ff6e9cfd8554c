//! Laws of the definitions. The functions do nothing: what they ensure is the law.
ghost use Rattle.std.specs.Prelude.{◌≡◌, ◌↔◌, ℕ, List};
ghost use Rattle.can_entries.specs.Walks.{walk_of, IsWalk};
ghost use Rattle.can_entries.specs.declared.mux_parent.MuxParent.{MuxParent};
ghost use Rattle.can_entries.specs.declared.walk.Walk.{Walk};

/// The multiplexing chain from a signal is exactly one of these: a chain of multiplexors (switches) up to a signal that is not
/// multiplexed, a walk to a signal whose multiplexor doesn't exist, or a walk that leads back to a signal.
pub fn one_walk()
    ensures { (mux_parents : List MuxParent) (index : ℕ) (walk : Walk) → (walk_of mux_parents index ≡ walk) ↔ IsWalk mux_parents
        index walk }
{}
