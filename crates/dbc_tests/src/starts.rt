//! What no contract states: that a text is read with where its statements begin.

use dbc_reader::{Start, Starts, read_with_starts};
use dbc_values::List;
use std::alloc::Global;
use std::test::Fail;

const TEXT: &[u8] =
    b"VERSION \"1.0\"\nBU_: N\nBO_ 291 A: 8 N // SG_\n SG_ S : 7|8@0- (0.5,-1) [0|0.5] \"a\nb\" N SG_\n T : 0|1@1+ (1,0) [0|1] \"\"\n\
BS_:\n\nBO_ 7 B: 0 N CM_ \"d\";\nCM_ EV_ e \"kept\";\nBA_ \"x\" 1;\nVAL_\n291 S -1 \"off\" ;\n";

// A line, and how the text continues where something begins in it.
type Begin = (u64, &'static [u8]);

fn is_at(start: Start, begin: &Begin) -> bool {
    let (_, rest) = TEXT.split_at(TEXT.len().saturating_sub(start.left));
    start.line == begin.0 && rest.starts_with(begin.1)
}

// Whether something begins at these locations.
fn are_at(starts: &List<Start>, begins: &[Begin]) -> bool {
    let starts = starts.as_slice();
    if starts.len() != begins.len() {
        return false;
    }
    for (start, begin) in starts.iter().zip(begins) {
        if !is_at(*start, begin) {
            return false;
        }
    }
    true
}

fn all_are_there(starts: &Starts) -> bool {
    are_at(&starts.messages, &[(3, b"BO_ 291 A"), (9, b"BO_ 7 B")])
        && are_at(&starts.signals, &[(4, b"SG_ S"), (5, b"SG_\n T")])
        && are_at(&starts.comments, &[(9, b"CM_ \"d\"")])
        && are_at(&starts.attributes, &[(11, b"BA_")])
        && are_at(&starts.values, &[(12, b"VAL_\n291")])
        && are_at(&starts.kept, &[(10, b"CM_ EV_")])
        && are_at(&starts.tables, &[])
}

fn are_read(alloc: Global) -> Result<bool, Fail> {
    let (_, starts) = read_with_starts(alloc, TEXT).ok().ok_or("no database")?;
    Ok(all_are_there(&starts))
}

#[test]
fn statements_begin_there(rt: HostRuntime) -> Result<(), Fail> {
    assert!(rt; are_read(rt.alloc())?);
    Ok(())
}
