//! What no contract states: that runs succeed, and the texts of faults.
ghost use Rattle.std.specs.Prelude.{ℕ, List, ◌++◌};

use byte_devices::limp::Limp;
use can_line_stream::{LineText, StreamFault, stream_texts};
use dbc_text_buffer::{TextBuffer, push_bytes};
use dbc_values::Memory;
use std::marker::Model;
use std::test::Fail;

// Lines with a mark before each.
#[derive(Drop)]
struct Marked<'t> {
    mark: &'t [u8],
    // how many lines there were
    lines: u64,
}

impl<'t> Model for Marked<'t> {
    ghost Value = { List ℕ };

    ghost view = { λ marked. marked.mark.now };
}

impl<'t> LineText for Marked<'t> {
    ghost use Rattle.std.proofs.Common.{refl};
    ghost use Rattle.can_line_stream.specs.LineTexts.{line_text};

    ghost text_of = { λ mark. line_text (λ line. mark ++ line) };

    ghost next = { λ mark line. mark };

    fn renew(&mut self, text: &mut TextBuffer, line: &[u8]) -> Result<(), Memory> {
        self.lines = self.lines.saturating_add(1);
        text.clear();
        push_bytes(text, self.mark)?;
        push_bytes(text, line)?;
        text.push(b'\n')?;
        Ok(())
    }

    ghost same_texts = { λ mark line. refl };
}

#[test]
fn lines_byte_by_byte(rt: HostRuntime) -> Result<(), Fail> {
    let alloc = rt.alloc();
    let mut source = Limp::new(b"one\n\nhalf".to_vec(alloc)?, 1, u64::MAX, usize::MAX);
    let mut sink = Limp::new(Vec::new(alloc), 2, u64::MAX, usize::MAX);
    let mut texts = Marked {
        mark: b"> ",
        lines: 0,
    };
    let result = stream_texts(alloc, &mut texts, &mut source, &mut sink);
    assert_eq!(rt; result, Ok(3));
    assert_eq!(rt; sink.bytes(), b"> one\n> \n> half\n".as_slice());
    assert_eq!(rt; texts.lines, 3);
    Ok(())
}

#[test]
fn a_line_and_a_half(rt: HostRuntime) -> Result<(), Fail> {
    let alloc = rt.alloc();
    let mut source = Limp::new(b"one\ntwo\n".to_vec(alloc)?, 3, u64::MAX, 6);
    let mut sink = Limp::new(Vec::new(alloc), 9, u64::MAX, usize::MAX);
    let mut texts = Marked {
        mark: b"> ",
        lines: 0,
    };
    let result = stream_texts(alloc, &mut texts, &mut source, &mut sink);
    assert_eq!(rt; result, Err(StreamFault::Read));
    assert_eq!(rt; sink.bytes(), b"> one\n".as_slice());
    assert_eq!(rt; StreamFault::Read.to_string(alloc)?.as_str(), "41 Read");
    Ok(())
}
