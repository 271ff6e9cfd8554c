//! What no contract states: that calls succeed, and the text of the fault.

use byte_devices::limp::Limp;
use byte_devices::{FromRead, FromWrite, Sink, Source, WriteFault, put_all};
use std::test::Fail;

#[test]
fn std_devices(rt: HostRuntime) -> Result<(), Fail> {
    let mut source = FromRead::new(b"abc".as_slice());
    let mut piece = [0u8; 2];
    assert_eq!(rt; source.pull(&mut piece), Ok(2));
    assert_eq!(rt; piece, *b"ab");
    assert_eq!(rt; source.pull(&mut piece), Ok(1));
    assert_eq!(rt; source.pull(&mut piece), Ok(0));
    let mut sink = FromWrite::new(Vec::new(rt.alloc()));
    assert_eq!(rt; put_all(&mut sink, b"abc"), Ok(()));
    assert_eq!(rt; sink.into_inner().as_slice(), b"abc".as_slice());
    Ok(())
}

#[test]
fn a_full_writer_fails(rt: HostRuntime) {
    let mut space = [0u8; 2];
    let mut sink = FromWrite::new(space.as_mut_slice());
    assert_eq!(rt; put_all(&mut sink, b"abc"), Err(WriteFault));
    assert!(rt; sink.put(b"").is_ok());
}

#[test]
fn a_limping_sink(rt: HostRuntime) -> Result<(), Fail> {
    let alloc = rt.alloc();
    for limit in 0..5usize {
        let mut sink = Limp::new(Vec::new(alloc), 2, u64::MAX, limit);
        assert_eq!(rt; put_all(&mut sink, b"abcde"), Err(WriteFault));
        assert_eq!(rt; sink.bytes(), &b"abcde"[..limit]);
        assert_eq!(rt; sink.failures(), 1);
    }
    for calls in 0..3u64 {
        let mut sink = Limp::new(Vec::new(alloc), 2, calls, usize::MAX);
        assert_eq!(rt; put_all(&mut sink, b"abcde"), Err(WriteFault));
        assert_eq!(rt; sink.bytes().len() as u64, 2 * calls);
    }
    Ok(())
}

#[test]
fn a_limping_source(rt: HostRuntime) -> Result<(), Fail> {
    let mut source = Limp::new(b"abcde".to_vec(rt.alloc())?, 2, 3, 4);
    let mut piece = [0u8; 8];
    assert_eq!(rt; source.pull(&mut piece), Ok(2));
    assert_eq!(rt; source.pull(&mut piece), Ok(2));
    assert_eq!(rt; &piece[..2], b"cd".as_slice());
    assert!(rt; source.pull(&mut piece).is_err());
    assert_eq!(rt; source.failures(), 1);
    Ok(())
}

#[test]
fn fault_text(rt: HostRuntime) -> Result<(), Fail> {
    assert_eq!(rt; WriteFault.to_string(rt.alloc())?.as_str(), "42 Write");
    Ok(())
}
