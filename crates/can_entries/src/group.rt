//! Which messages are J1939 messages, and of which parameter group.
ghost use Rattle.std.specs.Prelude.{◌≡◌};
ghost use Rattle.can_entries.specs.Groups.{group_number_of, group_of, is_bad_number, is_extended};

use crate::format::frame_format;
use crate::lookup::Lookup;
use dbc_records::Database;
use dbc_values::same;

/// The frame format of J1939 messages.
const GROUP_FORMAT: &[u8] = b"J1939PG";

/// The greatest standard (11-bit) identifier.
const MAX_STANDARD_ID: u32 = 2_047;

/// The first PDU format of parameter groups without a destination.
const FIRST_BROADCAST_FORMAT: u32 = 240;

/// Whether a message ID, or the CAN identifier of a frame with the same mark, is extended (29-bit): bit 31 marks it.
pub fn is_extended(number: u32) -> bool
    ensures { result ≡ is_extended number }
{
    number >> 31 == 1
}

/// Whether a message ID is no valid CAN identifier. Bit 31 marks an extended (29-bit) identifier; otherwise
/// it is standard (11-bit).
#[tactic(auto, unfolding(crate::specs::Groups::is_bad_number))]
pub fn is_bad_number(number: u32) -> bool
    ensures { result ≡ is_bad_number number }
{
    if is_extended(number) {
        (number >> 29) % 4 != 0
    } else {
        number > MAX_STANDARD_ID
    }
}

/// The PGN of an extended (29-bit) identifier. Higher bits are ignored.
#[tactic(auto, unfolding(crate::specs::Groups::group_number_of))]
pub fn group_number(identifier: u32) -> u32
    ensures { result ≡ group_number_of identifier }
{
    let extended_page = (identifier >> 25) % 2;
    let page = (identifier >> 24) % 2;
    let format = (identifier >> 16) % 256;
    let specific = if format >= FIRST_BROADCAST_FORMAT {
        (identifier >> 8) % 256
    } else {
        0
    };
    extended_page * 0x2_0000 + page * 0x1_0000 + format * 0x100 + specific
}

/// The parameter group of the J1939 messages with this CAN identifier, if they are such.
#[tactic(auto, unfolding(crate::specs::Groups::group_of, crate::specs::Groups::is_group_number))]
pub fn group_in<L: Lookup>(lookup: &L, number: u32) -> Option<u32>
    ensures { result ≡ group_of number (L.whole lookup.now) }
{
    if !is_extended(number) || is_bad_number(number) {
        return None;
    }
    match frame_format(lookup, number) {
        Some(text) if same(text, GROUP_FORMAT) => Some(group_number(number)),
        _ => None,
    }
}

/// The parameter group of the J1939 messages with this CAN identifier in a database. [`group_in`] an index finds it faster.
pub fn group_of(database: &Database, number: u32) -> Option<u32>
    ensures { result ≡ group_of number database.now }
{
    group_in(database, number)
}
