//! What no contract states: that calls succeed, the text of the fault, and names, texts, symbols and tokens at their edges, with
//! the answers that a reader of the format gives.

use dbc_values::{Copied, List, Memory, Name, Pieces, Symbol, Text, is_piece};
use std::alloc::Global;
use std::test::Fail;

pub(crate) fn name(alloc: Global, bytes: &[u8]) -> Result<Name, Fail> {
    match Name::new(alloc, bytes)? {
        Some(name) => Ok(name),
        None => Err(Fail::from("no name")),
    }
}

#[test]
fn names(rt: HostRuntime) -> Result<(), Fail> {
    let table: [(&[u8], bool); 12] = [
        (b"", false),
        (b"_", true),
        (b"Wheel_1", true),
        (b"VERSION", true),
        (b"1A", false),
        (b"A-B", false),
        (b"N\x80", false),
        (b"\x80", false),
        (b"BO_", false),
        (b"BA_DEF_DEF_REL_", false),
        (b"BU_BO_REL_", false),
        (b"BO_1", true),
    ];
    for (bytes, is_name) in table {
        let made = Name::new(rt.alloc(), bytes)?;
        assert_eq!(rt; made.is_some(), is_name);
    }
    Ok(())
}

#[test]
fn texts(rt: HostRuntime) -> Result<(), Fail> {
    let table: [(&[u8], bool); 10] = [
        (b"", true),
        (b"a\nb", true),
        (b"\xfc\x00", true),
        (b"\"", false),
        (b"\\\"", true),
        (b"a\\\"b", true),
        (b"\\", false),
        (b"a\\\\", false),
        (b"\\a\"", false),
        (b"\\\"\"", false),
    ];
    for (bytes, is_text) in table {
        let made = Text::new(rt.alloc(), bytes)?;
        assert_eq!(rt; made.is_some(), is_text);
    }
    Ok(())
}

#[test]
fn symbols(rt: HostRuntime) -> Result<(), Fail> {
    let table: [(&[u8], bool); 12] = [
        (b"", false),
        (b"NS_DESC_", true),
        (b"NS_", true),
        (b"CM_", true),
        (b"SG_", true),
        (b"VERSION", true),
        (b"bo_", true),
        (b"BS_", false),
        (b"BU_", false),
        (b"BO_", false),
        (b"1A", false),
        (b"A-B", false),
    ];
    for (bytes, is_symbol) in table {
        let made = Symbol::new(rt.alloc(), bytes)?;
        assert_eq!(rt; made.is_some(), is_symbol);
    }
    Ok(())
}

#[test]
fn pieces(rt: HostRuntime) -> Result<(), Fail> {
    let table: [(&[u8], bool); 36] = [
        (b"", false),
        (b"\"", false),
        (b"\"\"", true),
        (b"\"a b\"", true),
        (b"\"a", false),
        (b"a\"", false),
        (b"\"a\"b\"", false),
        (b"\"a\\\"b\"", true),
        (b"\"\\\"", false),
        (b"EV_", true),
        (b"E5", true),
        (b"A-B", false),
        (b"N\x80", false),
        (b"0", true),
        (b"00", true),
        (b"1.", true),
        (b".5", true),
        (b".", false),
        (b"1.2.3", false),
        (b"1.e5", true),
        (b"1E+3", true),
        (b"1e-3", true),
        (b"1E", false),
        (b"1E+", false),
        (b".E5", false),
        (b"1E5E5", false),
        (b"1E5.0", false),
        (b"-1", false),
        (b"0x10", false),
        (b"1 2", false),
        (b":", true),
        (b"-", true),
        (b"|", true),
        (b";", false),
        (b"::", false),
        (b"/", false),
    ];
    for (bytes, is_one) in table {
        assert_eq!(rt; is_piece(bytes), is_one);
    }
    Ok(())
}

#[test]
fn tokens(rt: HostRuntime) -> Result<(), Fail> {
    let mut tokens = Pieces::new(rt.alloc());
    assert!(rt; tokens.get(0).is_none());
    let wanted: [&[u8]; 3] = [b"EV_", b"\"a b\"", b":"];
    for bytes in wanted {
        if is_piece(bytes) {
            tokens.push(bytes)?;
        }
    }
    tokens.shrink_to_fit();
    let copy = tokens.copy()?;
    assert_eq!(rt; copy.len(), 3);
    for (index, bytes) in wanted.iter().enumerate() {
        assert_eq!(rt; copy.get(index), Some(*bytes));
    }
    assert!(rt; copy.get(3).is_none());
    Ok(())
}

#[test]
fn copies(rt: HostRuntime) -> Result<(), Fail> {
    let alloc = rt.alloc();
    let mut names = List::new(alloc);
    assert!(rt; names.is_empty());
    names.push(name(alloc, b"A")?)?;
    names.push(name(alloc, b"B")?)?;
    let copy = names.copy()?;
    assert_eq!(rt; copy.len(), 2);
    for (name, wanted) in copy.iter().zip([b"A", b"B"]) {
        assert_eq!(rt; name.as_bytes(), wanted.as_slice());
    }
    Ok(())
}

#[test]
fn fault_text(rt: HostRuntime) -> Result<(), Fail> {
    assert_eq!(rt; Memory.to_string(rt.alloc())?.as_str(), "90 Memory");
    Ok(())
}
