//! Texts as long as a prefix, and longer; and a text of two lines.
use dbc_text_buffer::{ReadyText, TextBuffer, push_bytes, push_shown};
use std::test::Fail;

#[test]
fn texts_of_each_length(rt: HostRuntime) -> Result<(), Fail> {
    let all = b"abcdefghijklmnopqrstuvwxyz0123456789";
    for count in 0..37 {
        let ready = ReadyText::of(rt.alloc(), &all[..count])?;
        let mut text = TextBuffer::new(rt.alloc());
        push_bytes(&mut text, b"< ")?;
        ready.push_to(&mut text)?;
        assert_eq!(rt; &text.as_slice()[2..], &all[..count]);
    }
    Ok(())
}

#[test]
fn a_text_of_two_lines(rt: HostRuntime) -> Result<(), Fail> {
    let mut text = TextBuffer::new(rt.alloc());
    push_shown(&mut text, b"a\r\nb")?;
    assert_eq!(rt; text.as_slice(), b"a  b".as_slice());
    Ok(())
}
