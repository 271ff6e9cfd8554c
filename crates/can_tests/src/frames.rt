//! A frame of each kind, and a line that is none.
use can_frames::{Kind, read_frame};
use std::test::Fail;

#[test]
fn frames_of_each_kind(rt: HostRuntime) -> Result<(), Fail> {
    let table: [(&[u8], Kind, bool, u32, &[u8]); 4] = [
        (
            b"(1.5) can0 123#0aFF",
            Kind::Classic,
            false,
            0x123,
            b"\x0a\xff",
        ),
        (b"(1.5) can0 00000123##7", Kind::Fd, true, 0x123, b""),
        (b"(1.5) can0 7ff#R8_9 R", Kind::Remote, false, 0x7FF, b""),
        (b"(1.5) can0 A0000004#00\r", Kind::Error, true, 4, b"\x00"),
    ];
    for (line, kind, extended, identifier, bytes) in table {
        match read_frame(line) {
            Some(frame) => {
                assert_eq!(rt; frame.kind, kind);
                assert_eq!(rt; frame.extended, extended);
                assert_eq!(rt; frame.identifier, identifier);
                assert_eq!(rt; frame.bytes.as_slice(), bytes);
            }
            None => return Err(Fail::from("no frame")),
        }
    }
    Ok(())
}

#[test]
fn a_line_that_is_none(rt: HostRuntime) -> Result<(), Fail> {
    assert!(rt; read_frame(b"(1.5) can0 800#00").is_none());
    Ok(())
}
