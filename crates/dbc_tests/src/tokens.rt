//! Texts cut into tokens, and the texts of the faults.

use dbc_tokens::{Cause, Kind, ReadFault, Token, tokens};
use std::alloc::AllocError;

// A text, its tokens with their lines and how many bytes remain from each on, and the line of the fault that ends them.
struct Case {
    text: &'static [u8],
    tokens: &'static [(Kind, &'static [u8], u64, usize)],
    fault: Option<u64>,
}

const CASES: &[Case] = &[
    Case {
        text: b"BO_ 500 Motor: 8 Gateway\n SG_ Speed : 7|16@0+",
        tokens: &[
            (Kind::Word, b"BO_", 1, 45),
            (Kind::Number, b"500", 1, 41),
            (Kind::Word, b"Motor", 1, 37),
            (Kind::Mark, b":", 1, 32),
            (Kind::Number, b"8", 1, 30),
            (Kind::Word, b"Gateway", 1, 28),
            (Kind::Word, b"SG_", 2, 19),
            (Kind::Word, b"Speed", 2, 15),
            (Kind::Mark, b":", 2, 9),
            (Kind::Number, b"7", 2, 7),
            (Kind::Mark, b"|", 2, 6),
            (Kind::Number, b"16", 2, 5),
            (Kind::Mark, b"@", 2, 3),
            (Kind::Number, b"0", 2, 2),
            (Kind::Mark, b"+", 2, 1),
        ],
        fault: None,
    },
    Case {
        text: b"1E+",
        tokens: &[
            (Kind::Number, b"1", 1, 3),
            (Kind::Word, b"E", 1, 2),
            (Kind::Mark, b"+", 1, 1),
        ],
        fault: None,
    },
    Case {
        text: b"\"a \\\" b\" c",
        tokens: &[
            (Kind::Text, b"\"a \\\" b\"", 1, 10),
            (Kind::Word, b"c", 1, 1),
        ],
        fault: None,
    },
    Case {
        text: b"a\"\n//\n\"b\n",
        tokens: &[
            (Kind::Word, b"a", 1, 9),
            (Kind::Text, b"\"\n//\n\"", 1, 8),
            (Kind::Word, b"b", 3, 2),
        ],
        fault: None,
    },
    Case {
        text: b"\n\n.E5",
        tokens: &[],
        fault: Some(3),
    },
];

#[test]
fn cuts_texts(rt: HostRuntime) {
    for case in CASES {
        let text = case.text;
        let mut given = tokens(text);
        for (kind, bytes, line, left) in case.tokens {
            let token = Token {
                kind: *kind,
                bytes: *bytes,
                line: *line,
                left: *left,
            };
            assert_eq!(rt; given.next(), Some(Ok(token)), "in {text:?}");
        }
        let last = case.fault.map(|line| Err(ReadFault {
            line,
            cause: Cause::Token,
        }));
        assert_eq!(rt; given.next(), last, "after {text:?}");
        assert_eq!(rt; given.next(), None, "after the end of {text:?}");
    }
}

#[test]
fn shows_faults(rt: HostRuntime) -> Result<(), AllocError> {
    let cases = [
        (3, Cause::Token, "line 3: 1 Token"),
        (3, Cause::Statement, "line 3: 2 Statement"),
        (1, Cause::RepeatedSignal, "line 1: 3 RepeatedSignal"),
        (
            18446744073709551615,
            Cause::MessagesFull,
            "line 18446744073709551615: 4 MessagesFull",
        ),
        (10, Cause::SignalsFull, "line 10: 5 SignalsFull"),
        (2, Cause::Limit, "line 2: 6 Limit"),
        (0, Cause::Memory, "90 Memory"),
    ];
    for (line, cause, want) in cases {
        let fault = ReadFault { line, cause };
        let shown = format!(in rt.alloc(); "{fault}")?;
        assert_eq!(rt; shown.as_str(), want);
    }
    Ok(())
}
