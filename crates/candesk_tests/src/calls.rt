//! Fault lines, and that calls succeed if there is enough memory. `tests/test_run_rows.py` tries the built program on more
//! words, databases and logs.

use byte_devices::limp::Limp;
use candesk_calls::{
    Command, Job, LogForm, NoJob, ReportForm, Verdict, check_run, refuse, refuse_file, run, status,
};
use std::alloc::{AllocError, Global};
use std::test::Fail;

const WHEEL: &[u8] =
    b"BU_: Ecu\nBO_ 291 Wheel: 2 Ecu\n SG_ Speed : 0|16@1+ (2,5) [0|0] \"rpm\" Ecu\n";

const LOG: &[u8] = b"(1.5) can0 123#0A01\nhello\n";

const DECODED: &[u8] = b"(1.5) can0 123#0A01 :: Wheel(Speed: 537 rpm)\nhello\n";

const PRINTED: &[u8] =
    b"VERSION \"\"\nNS_ :\nBS_:\nBU_: Ecu\nBO_ 291 Wheel: 2 Ecu\n SG_ Speed : 0|16@1+ (2,5) [0|0] \"rpm\" Ecu\n";

const ALL: usize = usize::MAX;

fn source(alloc: Global, limit: usize) -> Result<Limp, AllocError> {
    Ok(Limp::new(LOG.to_vec(alloc)?, 7, u64::MAX, limit))
}

fn sink(alloc: Global, limit: usize) -> Limp {
    Limp::new(Vec::new(alloc), 5, u64::MAX, limit)
}

// Whether a job on WHEEL, over devices that fail after this many bytes, ends with this status, output and fault line.
fn ends_so(
    alloc: Global,
    command: Command,
    limits: (usize, usize),
    status: u8,
    output: &[u8],
    line: &[u8],
) -> Result<bool, AllocError> {
    let job = Job {
        command,
        file: String::new(alloc),
    };
    let mut from = source(alloc, limits.0)?;
    let mut to = sink(alloc, limits.1);
    let mut errors = sink(alloc, ALL);
    let ended = run(alloc, &job, WHEEL, &mut from, &mut to, &mut errors);
    Ok(ended == status && to.bytes() == output && errors.bytes() == line)
}

#[test]
fn runs(rt: HostRuntime) -> Result<(), AllocError> {
    let check = Command::Check(ReportForm::Lines);
    let decode = Command::Decode {
        short: false,
        form: LogForm::Lines,
    };
    let table: [(Command, (usize, usize), u8, &[u8], &[u8]); 6] = [
        (check, (0, ALL), status::DONE, b"", b""),
        (decode, (ALL, ALL), status::DONE, DECODED, b""),
        // of the lines whose LF was read
        (
            decode,
            (22, ALL),
            status::DEVICE,
            &DECODED[..45],
            b"candesk: 41 Read\n",
        ),
        (
            decode,
            (ALL, 7),
            status::DEVICE,
            &DECODED[..7],
            b"candesk: 42 Write\n",
        ),
        // from a source that fails at once
        (Command::Print, (0, ALL), status::DONE, PRINTED, b""),
        (
            Command::Print,
            (0, 9),
            status::DEVICE,
            &PRINTED[..9],
            b"candesk: 42 Write\n",
        ),
    ];
    for (command, limits, status, output, line) in table {
        assert!(rt; ends_so(rt.alloc(), command, limits, status, output, line)?);
    }
    Ok(())
}

#[test]
fn checks(rt: HostRuntime) -> Result<(), AllocError> {
    let mut to = sink(rt.alloc(), ALL);
    let verdict = check_run(rt.alloc(), b"BU_: Ecu\nBO_ 1 A: 0 N\n", &mut to);
    assert!(rt; verdict == Ok(Verdict::HasDiagnostics));
    assert!(rt; to.bytes() == b"13 UnknownNode 1 A N\n".as_slice());
    Ok(())
}

#[test]
fn refusals(rt: HostRuntime) -> Result<(), Fail> {
    let alloc = rt.alloc();
    let mut to = sink(alloc, ALL);
    let mut errors = sink(alloc, ALL);
    assert_eq!(rt; refuse_file(&mut errors), status::DEVICE);
    assert_eq!(rt; errors.bytes(), b"candesk: cannot read file\n".as_slice());
    let answer = NoJob::Help(String::from_str(alloc, "said\n")?);
    assert_eq!(rt; refuse(&answer, &mut to, &mut errors), status::DONE);
    assert_eq!(rt; to.bytes(), b"said\n".as_slice());
    Ok(())
}
