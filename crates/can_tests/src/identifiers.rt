//! Parameter groups of some identifiers, as J1939 lists them, and the fields of one of these.

use can_decode::J1939;
use can_entries::group_number;

#[test]
fn group_numbers(rt: HostRuntime) {
    let table: [(u32, u32); 4] = [
        (0x18EF_1234, 61_184),
        (0x18F0_0434, 61_444),
        (0x19F1_1234, 127_250),
        (0x18FE_F131, 65_265),
    ];
    for (identifier, group) in table {
        assert_eq!(rt; group_number(identifier), group);
    }
}

#[test]
fn fields(rt: HostRuntime) {
    let fields = J1939 {
        priority: 6,
        extended_page: 0,
        page: 0,
        format: 254,
        specific: 241,
        source: 49,
    };
    assert_eq!(rt; J1939::of(0x18FE_F131), fields);
}
