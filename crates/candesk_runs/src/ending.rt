//! How runs end: the lines of their faults, and their exit statuses.
ghost use Rattle.std.specs.Prelude.{◌≡◌};
ghost use Rattle.candesk_runs.specs.Checking.{verdict_status};
ghost use Rattle.candesk_runs.specs.Statuses.{status_of, status_of_cause, status_of_fault, well};

use crate::checking::Verdict;
use crate::fault::RunFault;
use arrayvec::ArrayString;
use can_line_stream::StreamFault;
use dbc_model::{Sink, put_all};
use dbc_tokens::Cause;
use std::fmt::{Display, Write};

/// The exit statuses.
pub mod status {
    /// All went well.
    pub const DONE: u8 = 0;
    /// The database was rejected.
    pub const REFUSED: u8 = 1;
    /// The database has diagnostics.
    pub const HAS_DIAGNOSTICS: u8 = 1;
    /// The words name no job.
    pub const USAGE: u8 = 2;
    /// A file, a read or a write failed, or a line was too long.
    pub const DEVICE: u8 = 3;
    /// Out of memory.
    pub const MEMORY: u8 = 4;
}

// The status of a text that isn't read.
fn status_of_cause(cause: Cause) -> u8
    ensures { result ≡ status_of_cause cause }
{
    match cause {
        Cause::Memory => status::MEMORY,
        _ => status::REFUSED,
    }
}

// The status of a fault.
fn status_of_fault(fault: RunFault) -> u8
    ensures { result ≡ status_of_fault fault }
{
    match fault {
        RunFault::Read(fault) => status_of_cause(fault.cause),
        RunFault::Memory | RunFault::Stream(StreamFault::Memory) => status::MEMORY,
        RunFault::Stream(StreamFault::LongLine | StreamFault::Read | StreamFault::Write) => {
            status::DEVICE
        }
    }
}

// Space for the longest fault line.
const MAX_FAULT_SIZE: usize = 96;

/// Writes a fault's line: `candesk: ` and its message. It allocates nothing, and if the sink fails nothing more can be reported. It
/// only prints, so no clause states what is written.
pub fn report<E: Sink>(errors: &mut E, fault: impl Display + Drop) {
    let mut line: ArrayString<MAX_FAULT_SIZE> = ArrayString::new();
    let _ = writeln!(line, "candesk: {fault}");
    let _ = put_all(errors, line.as_bytes());
}

// Writes the line of a fault, and returns its exit status.
fn report_fault<E: Sink>(errors: &mut E, fault: RunFault) -> u8
    ensures { result ≡ status_of_fault fault }
{
    report(errors, fault);
    status_of_fault(fault)
}

/// Writes the line of the fault with which a run ended, if it did, to `errors`, and returns its exit status.
pub fn ended<T: Copy, E: Sink>(outcome: Result<T, RunFault>, errors: &mut E) -> u8
    ensures { result ≡ status_of well outcome }
{
    match outcome {
        Ok(_) => status::DONE,
        Err(fault) => report_fault(errors, fault),
    }
}

/// The same for a run that has a verdict on the database.
pub fn ended_with_verdict<E: Sink>(outcome: Result<Verdict, RunFault>, errors: &mut E) -> u8
    ensures { result ≡ status_of verdict_status outcome }
{
    match outcome {
        Ok(Verdict::Clean) => status::DONE,
        Ok(Verdict::HasDiagnostics) => status::HAS_DIAGNOSTICS,
        Err(fault) => report_fault(errors, fault),
    }
}
