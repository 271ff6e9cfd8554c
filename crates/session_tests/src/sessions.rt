//! What no contract states: that edits are accepted if there is enough memory, what a session then shows, and that the meter rises
//! as far as it has to. `tests/test_session_rows.py` tries the refusals over the built program.

use crate::runs::{ALL, Devices, Run, SessionState, all_done};
use session_script::{Keep, LineCount};
use std::test::Fail;

// Devices that don't fail.
const SOUND: Devices = Devices {
    at_once: 4_096,
    read: ALL,
    written: ALL,
};

// ---- all edits

// one message, of two signals
const ONE: &[u8] = b"\
BU_: N
BO_ 300 X: 2 N
 SG_ M M : 0|8@1+ (1,0) [0|0] \"\"
 SG_ A m0 : 8|8@1+ (1,0) [0|0] \"\"
BA_DEF_ BO_ \"Cycle\" INT 0 9;
";

const EDITS: &[u8] = b"\
log (0.0) c 12C#0005
add-message 1 BO_ 301 Y: 1 N
add-signal 0 2 SG_ B m1 : 8|8@1+ (1,0) [0|0] \"\"
show lines
set-mux SG_MUL_VAL_ 300 B M 0-1;
show lines
show diagnostics
drop-mux 300 B
set-values VAL_ 300 A 5 \"five\" ;
show lines
drop-values 300 A
set-table VAL_TABLE_ T 0 \"zero\" ;
drop-table T
set-attribute BA_ \"Cycle\" BO_ 300 3;
drop-attribute 300 \"Cycle\"
change-signal 0 SG_ A m0 : 8|8@1+ (2,0) [0|0] \"\"
show lines
remove-signal 0 B
change-message 0 Z 3 N
show lines
renumber 0 302
remove-message 1
show lines
show layout 0
show diagnostics
";

const EDITED: &[u8] = b"\
ok
ok
ok
(0.0) c 12C#0005 :: X(M: 0, A: 5)
ok
ok
(0.0) c 12C#0005 :: X(M: 0, A: 5, B: 5)
ok
6 Overlap 300 X.A X.B
ok
ok
ok
(0.0) c 12C#0005 :: X(M: 0, A: five)
ok
ok
ok
ok
ok
ok
ok
(0.0) c 12C#0005 :: X(M: 0, A: 10)
ok
ok
ok
(0.0) c 12C#0005 :: Wrong data size: 2 instead of 3 bytes
ok
ok
ok
(0.0) c 12C#0005 :: Unknown frame id 300 (0x12c)
ok
Message Z 302 3
   0:   0   0   0   0   0   0   0   0
   1:   1   1   1   1   1   1   1   1
   2:   .   .   .   .   .   .   .   .
   0 M 0|8@1+
   1 A 8|8@1+ when M 0-0
ok
ok
";

#[test]
fn all_edits(rt: HostRuntime) -> Result<(), Fail> {
    let runs = [Run {
        commands: EDITS,
        replies: EDITED,
        ended: Ok(25),
        standing: SessionState {
            messages: 1,
            signals: 2,
            diagnostics: 0,
            line: b"(0.0) c 12C#0005",
            decoded: b"(0.0) c 12C#0005 :: Unknown frame id 300 (0x12c)",
        },
        made: (13, 12),
    }];
    assert!(rt; all_done(rt.alloc(), ONE, Keep::All, &SOUND, &runs)?);
    Ok(())
}

// ---- what is made again

const MUXED: &[u8] = b"\
BO_ 300 X: 2 Vector__XXX
 SG_ M M : 0|8@1+ (1,0) [0|0] \"\"
 SG_ A m0 : 8|8@1+ (1,0) [0|0] \"\"
 SG_ B m1 : 8|8@1+ (1,0) [0|0] \"\"
BO_ 301 Y: 1 Vector__XXX
";

const THREE_LINES: &[u8] = b"\
log (0.0) c 12C#0005
log (0.0) c 12C#0105
log (0.0) c 12D#00
";

// A multiplexer entry touches the two lines of its message, a value table none.
const ROW: &[u8] = b"\
set-mux SG_MUL_VAL_ 300 B M 0-1;
set-table VAL_TABLE_ T 0 \"zero\" ;
show lines
";

const WITH_ROW: &[u8] = b"\
ok
ok
(0.0) c 12C#0005 :: X(M: 0, A: 5, B: 5)
(0.0) c 12C#0105 :: X(M: 1, B: 5)
(0.0) c 12D#00 :: Y()
ok
";

const NO_ROW: &[u8] = b"\
drop-mux 300 B
show lines
";

const WITHOUT_ROW: &[u8] = b"\
ok
(0.0) c 12C#0005 :: X(M: 0, A: 5)
(0.0) c 12C#0105 :: X(M: 1, B: 5)
(0.0) c 12D#00 :: Y()
ok
";

// After commands of which each was done.
fn done(
    commands: &'static [u8],
    replies: &'static [u8],
    count: u64,
    standing: SessionState,
    made: (u64, u64),
) -> Run {
    Run {
        commands,
        replies,
        ended: Ok(count),
        standing,
        made,
    }
}

fn muxed(diagnostics: usize, decoded: &'static [u8]) -> SessionState {
    SessionState {
        messages: 2,
        signals: 3,
        diagnostics,
        line: b"(0.0) c 12C#0005",
        decoded,
    }
}

const OF_ITS_TAG: &[u8] = b"(0.0) c 12C#0005 :: X(M: 0, A: 5)";

const OF_ITS_ROW: &[u8] = b"(0.0) c 12C#0005 :: X(M: 0, A: 5, B: 5)";

#[test]
fn metered(rt: HostRuntime) -> Result<(), Fail> {
    let runs = [
        done(
            THREE_LINES,
            b"ok\nok\nok\n",
            3,
            muxed(0, OF_ITS_TAG),
            (2, 3),
        ),
        done(ROW, WITH_ROW, 3, muxed(1, OF_ITS_ROW), (3, 5)),
        done(NO_ROW, WITHOUT_ROW, 2, muxed(0, OF_ITS_TAG), (4, 7)),
    ];
    assert!(rt; all_done(rt.alloc(), MUXED, Keep::All, &SOUND, &runs)?);
    Ok(())
}

// ---- what isn't made again

// one message, of signals in big-endian byte order, one of them with value descriptions
const EXAMPLE: &[u8] = b"\
BO_ 496 ExampleMessage: 8 Vector__XXX
 SG_ Enable : 7|1@0+ (1,0) [0|0] \"-\"
 SG_ AverageRadius : 6|6@0+ (0.1,0) [0|5] \"m\"
 SG_ Temperature : 0|12@0- (0.01,250) [229.52|270.47] \"degK\"
VAL_ 496 Enable 0 \"Disabled\" 1 \"Enabled\" ;
";

const EXAMPLE_LINES: &[u8] = b"\
log (0.000000) vcan0 1F0#804A0F0000000000
log (0.000000) vcan0 1F0#804A0F0000000000
log (0.000000) vcan0 1F0#804A0F0000000000
";

const TABLE: &[u8] = b"\
set-table VAL_TABLE_ T 0 \"z\" ;
print
";

const WITH_TABLE: &[u8] = b"\
ok
VERSION \"\"
NS_ :
BS_:
BU_:
VAL_TABLE_ T 0 \"z\" ;
BO_ 496 ExampleMessage: 8 Vector__XXX
 SG_ Enable : 7|1@0+ (1,0) [0|0] \"-\"
 SG_ AverageRadius : 6|6@0+ (0.1,0) [0|5] \"m\"
 SG_ Temperature : 0|12@0- (0.01,250) [229.52|270.47] \"degK\"
VAL_ 496 Enable 0 \"Disabled\" 1 \"Enabled\" ;
ok
";

const EXAMPLE_STATE: SessionState = SessionState {
    messages: 1,
    signals: 3,
    diagnostics: 0,
    line: b"(0.000000) vcan0 1F0#804A0F0000000000",
    decoded: b"(0.000000) vcan0 1F0#804A0F0000000000 :: ExampleMessage(Enable: Enabled, AverageRadius: 0 m, Temperature: 255.92 degK)",
};

// A value table makes no plan and no diagram anew, and decodes no line again.
#[test]
fn unmetered(rt: HostRuntime) -> Result<(), Fail> {
    let runs = [
        done(EXAMPLE_LINES, b"ok\nok\nok\n", 3, EXAMPLE_STATE, (1, 3)),
        done(TABLE, WITH_TABLE, 2, EXAMPLE_STATE, (1, 3)),
    ];
    assert!(rt; all_done(rt.alloc(), EXAMPLE, Keep::All, &SOUND, &runs)?);
    Ok(())
}

// ---- the last lines

const LAST_TWO: &[u8] = b"\
log (0.0) c 12C#0005
log (0.0) c 12C#0105
log (0.0) c 12D#00
show lines
";

const LAST_SHOWN: &[u8] = b"\
ok
ok
ok
(0.0) c 12C#0105 :: X(M: 1, B: 5)
(0.0) c 12D#00 :: Y()
ok
";

const OF_LAST_ROW: &[u8] = b"\
ok
ok
(0.0) c 12C#0105 :: X(M: 1, B: 5)
(0.0) c 12D#00 :: Y()
ok
";

// A multiplexer entry touches the one line of its message that is still there.
#[test]
fn last_lines(rt: HostRuntime) -> Result<(), Fail> {
    let line = b"(0.0) c 12C#0105".as_slice();
    let decoded = b"(0.0) c 12C#0105 :: X(M: 1, B: 5)".as_slice();
    let before = SessionState {
        line,
        ..muxed(0, decoded)
    };
    let after = SessionState {
        line,
        ..muxed(1, decoded)
    };
    let runs = [
        done(LAST_TWO, LAST_SHOWN, 4, before, (2, 3)),
        done(ROW, OF_LAST_ROW, 3, after, (3, 4)),
    ];
    let Some(count) = LineCount::new(2) else {
        return Err(Fail::from("no count"));
    };
    assert!(rt; all_done(rt.alloc(), MUXED, Keep::Last(count), &SOUND, &runs)?);
    Ok(())
}

const GROUP: &[u8] = b"\
BO_ 2566844672 CCVS: 8 Vector__XXX
 SG_ Speed : 8|16@1+ (0.00390625,0) [0|0] \"km/h\"
BA_DEF_ BO_ \"VFrameFormat\" ENUM \"StandardCAN\",\"ExtendedCAN\",\"reserved\",\"J1939PG\";
BA_ \"VFrameFormat\" BO_ 2566844672 3;
";

const TWO_LINES: &[u8] = b"\
log (0.0) c 18FEF131#FF0014FFFFFFFFFF
log (0.0) c 123#00
show lines
";

const IN_GROUP: &[u8] = b"\
ok
ok
(0.0) c 18FEF131#FF0014FFFFFFFFFF :: CCVS[p6 s49](Speed: 20 km/h)
(0.0) c 123#00 :: Unknown frame id 291 (0x123)
ok
";

const OWN: &[u8] = b"\
add-message 0 BO_ 2566844721 Own: 8 Vector__XXX
show lines
";

const EXACT: &[u8] = b"\
ok
(0.0) c 18FEF131#FF0014FFFFFFFFFF :: Own()
(0.0) c 123#00 :: Unknown frame id 291 (0x123)
ok
";

const AGAIN: &[u8] = b"remove-message 0\n";

fn standing(messages: usize, signals: usize, decoded: &'static [u8]) -> SessionState {
    SessionState {
        messages,
        signals,
        diagnostics: 0,
        line: b"(0.0) c 18FEF131#FF0014FFFFFFFFFF",
        decoded,
    }
}

const BY_GROUP: &[u8] = b"(0.0) c 18FEF131#FF0014FFFFFFFFFF :: CCVS[p6 s49](Speed: 20 km/h)";

const BY_NUMBER: &[u8] = b"(0.0) c 18FEF131#FF0014FFFFFFFFFF :: Own()";

// An exact message takes the frames of its CAN identifier from a J1939 message; others are not decoded again.
#[test]
fn exact_before_group(rt: HostRuntime) -> Result<(), Fail> {
    let runs = [
        done(TWO_LINES, IN_GROUP, 3, standing(1, 1, BY_GROUP), (1, 2)),
        done(OWN, EXACT, 2, standing(2, 0, BY_NUMBER), (2, 3)),
        done(AGAIN, b"ok\n", 1, standing(1, 1, BY_GROUP), (2, 4)),
    ];
    assert!(rt; all_done(rt.alloc(), GROUP, Keep::All, &SOUND, &runs)?);
    Ok(())
}
