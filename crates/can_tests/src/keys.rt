//! What no contract states: that calls succeed.

use can_references::{EntryKeys, Names, Numbers, SignalNames, all_differ, entry_hash};
use dbc_records::{Comment, DatabaseEntry, EntryKeyRef, Object, Target, TargetRef};
use dbc_values::Text;
use std::test::Fail;

#[test]
fn numbers(rt: HostRuntime) -> Result<(), Fail> {
    let mut added = Vec::new(rt.alloc());
    added.push(5)?;
    added.push(6)?;
    added.push(5)?;
    let numbers = Numbers::of(added);
    assert!(rt; numbers.has(6));
    assert!(rt; !numbers.has(7));
    assert!(rt; numbers.is_shared(5));
    assert!(rt; !numbers.is_shared(6));
    Ok(())
}

#[test]
fn names(rt: HostRuntime) -> Result<(), Fail> {
    let added: [&[u8]; 3] = [b"a", b"ab", b"a"];
    let names = Names::of(rt.alloc(), &added)?;
    assert!(rt; names.has(b"ab"));
    assert!(rt; !names.has(b"b"));
    assert!(rt; names.is_shared(b"a"));
    assert!(rt; !names.is_shared(b"ab"));
    Ok(())
}

#[test]
fn signals(rt: HostRuntime) -> Result<(), Fail> {
    let added: [(u32, &[u8]); 3] = [(1, b"S"), (2, b"S"), (1, b"S")];
    let names = SignalNames::of(rt.alloc(), &added)?;
    assert!(rt; names.has((2, b"S")));
    assert!(rt; !names.has((2, b"T")));
    assert!(rt; !names.has((3, b"S")));
    Ok(())
}

#[test]
fn hashes(rt: HostRuntime) -> Result<(), Fail> {
    let mut hashes = Vec::new(rt.alloc());
    hashes.push(entry_hash(&EntryKeyRef::Default(b"n")))?;
    hashes.push(entry_hash(&EntryKeyRef::Default(b"m")))?;
    hashes.push(entry_hash(&EntryKeyRef::Default(b"o")))?;
    assert!(rt; all_differ(hashes));
    let mut twice = Vec::new(rt.alloc());
    twice.push(entry_hash(&EntryKeyRef::Default(b"n")))?;
    twice.push(entry_hash(&EntryKeyRef::Default(b"m")))?;
    twice.push(entry_hash(&EntryKeyRef::Default(b"n")))?;
    assert!(rt; !all_differ(twice));
    Ok(())
}

#[test]
fn rows(rt: HostRuntime) {
    let mut keys = EntryKeys::new(rt.alloc());
    assert_eq!(rt; keys.add(EntryKeyRef::Default(b"n")), Ok(true));
    assert_eq!(rt; keys.add(EntryKeyRef::Definition(None, b"n")), Ok(true));
    assert_eq!(rt;
        keys.add(EntryKeyRef::Definition(Some(Object::Node), b"n")),
        Ok(false)
    );
    assert_eq!(rt;
        keys.add(EntryKeyRef::Attribute(b"n", TargetRef::Message(5))),
        Ok(true)
    );
    assert_eq!(rt;
        keys.add(EntryKeyRef::Attribute(b"n", TargetRef::Message(6))),
        Ok(true)
    );
    assert_eq!(rt;
        keys.add(EntryKeyRef::Attribute(b"n", TargetRef::Message(5))),
        Ok(false)
    );
}

#[test]
fn of_records(rt: HostRuntime) -> Result<(), Fail> {
    let alloc = rt.alloc();
    let Some(text) = Text::new(alloc, b"t")? else {
        return Err(Fail::from("no text"));
    };
    let Some(comment) = Comment::new(Target::Message(5), text) else {
        return Err(Fail::from("no comment"));
    };
    assert!(rt; comment.key().target() == TargetRef::Message(5));
    let mut keys = EntryKeys::new(alloc);
    assert_eq!(rt; keys.add(comment.key()), Ok(true));
    assert_eq!(rt;
        keys.add(EntryKeyRef::Comment(TargetRef::Message(5))),
        Ok(false)
    );
    Ok(())
}
