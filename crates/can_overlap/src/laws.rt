//! Laws of overlaps, for callers that visit them signal by signal.
ghost use Rattle.std.specs.Prelude.{◌≡◌, ◌-◌, length};
ghost use Rattle.std.specs.List.{flat_map, range_with_len};
ghost use Rattle.can_overlap.specs.Overlaps.{overlapping, pairs_from};

use can_bits::Field;
use can_entries::Walk;

/// The pairs of a message are those of each signal except the last with later ones.
#[tactic(auto, unfolding(crate::specs::Overlaps::overlapping))]
pub fn pairs_by_signal(fields: &[Field], walks: &[Walk])
    requires { length walks.now ≡ length fields.now }
    ensures { overlapping fields.now walks.now ≡ flat_map (pairs_from fields.now walks.now) (range_with_len 0
        (length fields.now - 1)) }
{}
