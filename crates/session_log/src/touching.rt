//! The lines of a log that an edit touches.
ghost use Rattle.std.specs.Prelude.{◌≡◌};
ghost use Rattle.std.specs.List.{list_any};
ghost use Rattle.session_log.specs.Touched.{may_have_group, shares_group, concerns, number_touched};

use can_entries::{group_number, is_bad_number, is_extended};

/// Whether a message of this CAN identifier may be a J1939 message.
#[tactic(auto, unfolding(crate::specs::Touched::may_have_group))]
pub(crate) fn may_have_group(number: u32) -> bool
    ensures { result ≡ may_have_group number }
{
    is_extended(number) && !is_bad_number(number)
}

fn shares_group(frame_number: u32, number: u32) -> bool
    ensures { result ≡ shares_group frame_number number }
{
    is_extended(frame_number)
        && may_have_group(number)
        && group_number(number) == group_number(frame_number)
}

// Whether a frame of the first CAN identifier may go to a message of the second.
#[tactic(auto, unfolding(crate::specs::Touched::concerns))]
fn concerns(frame_number: u32, number: u32) -> bool
    ensures { result ≡ concerns frame_number number }
{
    number == frame_number || shares_group(frame_number, number)
}

fn any_concerns(frame_number: u32, numbers: &[u32]) -> bool
    ensures { result ≡ list_any (concerns frame_number) numbers.now }
{
    numbers.iter().any(|number| concerns(frame_number, *number))
}

/// Whether one of the CAN identifiers concerns a frame of the given CAN identifier, if there is one, so that the text of its line
/// may change with the messages and entries of the former.
pub(crate) fn number_touched(numbers: &[u32], number: Option<u32>) -> bool
    ensures { result ≡ number_touched numbers.now number }
{
    match number {
        Some(number) => any_concerns(number, numbers),
        None => false,
    }
}
