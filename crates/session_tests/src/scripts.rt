//! What no contract states: that commands are done if there is enough memory. The replies, and the state of a session when a device
//! has failed, are worked out by hand.

use crate::runs::{ALL, Devices, Run, SessionState, all_done};
use can_line_stream::StreamFault;
use session_script::Keep;
use std::test::Fail;

/// Two messages of one CAN identifier.
pub(crate) const SHARED: &[u8] = b"\
BU_: E
BO_ 83 A: 1 E
 SG_ S : 0|8@1+ (1,0) [0|0] \"\"
BO_ 83 B: 1 E
 SG_ S : 0|8@1+ (2,0) [0|0] \"\"
";

// Its first line has 22 bytes and its second 17, each with its LF.
const SCRIPT: &[u8] = b"log (1.5) can0 053#2A\nremove-message 0\nshow lines\n";

const REPLIES: &[u8] = b"ok\nok\n(1.5) can0 053#2A :: B(S: 84)\nok\n";

// After its first command.
const BOTH: SessionState = SessionState {
    messages: 2,
    signals: 1,
    diagnostics: 2,
    line: b"(1.5) can0 053#2A",
    decoded: b"(1.5) can0 053#2A :: A(S: 42)",
};

// After its second.
const SECOND: SessionState = SessionState {
    messages: 1,
    signals: 1,
    diagnostics: 0,
    line: b"(1.5) can0 053#2A",
    decoded: b"(1.5) can0 053#2A :: B(S: 84)",
};

// The script, ended in this way.
fn script_ended(
    ended: Result<u64, StreamFault>,
    replies: &'static [u8],
    standing: SessionState,
    made: (u64, u64),
) -> Run {
    Run {
        commands: SCRIPT,
        replies,
        ended,
        standing,
        made,
    }
}

#[test]
fn scripts(rt: HostRuntime) -> Result<(), Fail> {
    let table: [((usize, usize), Run); 4] = [
        ((ALL, ALL), script_ended(Ok(3), REPLIES, SECOND, (3, 2))),
        // the first line was read, and then the second too except its LF
        (
            (22, ALL),
            script_ended(Err(StreamFault::Read), b"ok\n", BOTH, (2, 1)),
        ),
        (
            (38, ALL),
            script_ended(Err(StreamFault::Read), b"ok\n", BOTH, (2, 1)),
        ),
        // the second reply lacks its LF
        (
            (ALL, 5),
            script_ended(Err(StreamFault::Write), b"ok\nok", SECOND, (3, 2)),
        ),
    ];
    for ((read, written), run) in table {
        let runs = [run];
        for at_once in [1, ALL] {
            let devices = Devices {
                at_once,
                read,
                written,
            };
            assert!(rt; all_done(rt.alloc(), SHARED, Keep::All, &devices, &runs)?);
        }
    }
    Ok(())
}
