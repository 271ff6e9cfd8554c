//! Words that are no job.
ghost use Rattle.std.specs.Prelude.{◌≡◌};
ghost use Rattle.candesk_calls.specs.Refusals.{RefusesWith};
ghost use Rattle.candesk_runs.specs.Statuses.{device};

use candesk_runs::{report, status};
use candesk_words::NoJob;
use dbc_model::{Memory, Sink, put_all};

/// Writes the help that the words ask for to `sink`, or why there is no job to `errors`, and returns the exit status. That `errors`
/// fails doesn't change the status.
pub fn refuse<W: Sink, E: Sink>(why: &NoJob, sink: &mut W, errors: &mut E) -> u8
    ensures { RefusesWith why.now (W.written sink.old) (W.written sink.new) result }
{
    match why {
        NoJob::Usage => {
            report(errors, "usage");
            status::USAGE
        }
        NoJob::Memory => {
            report(errors, Memory);
            status::MEMORY
        }
        NoJob::Help(text) => match put_all(sink, text.as_bytes()) {
            Ok(()) => status::DONE,
            Err(fault) => {
                report(errors, fault);
                status::DEVICE
            }
        },
    }
}

/// Writes to `errors` that the job's file can't be read, and returns the exit status. That `errors` fails doesn't change it.
pub fn refuse_file<E: Sink>(errors: &mut E) -> u8
    ensures { result ≡ device }
{
    report(errors, "cannot read file");
    status::DEVICE
}
