//! A job on a file's bytes, the standard streams and an exit status.
ghost use Rattle.std.specs.Prelude.{◌≡◌};
ghost use Rattle.candesk_calls.specs.Scripting.{outcome_of, SessionRuns};
ghost use Rattle.candesk_calls.specs.Run.{Checked, Decoded, Dumped, Explained, EndsWith, short_of};

use can_decode::Short;
use candesk_runs::{
    RunFault, Verdict, check_run, decode_csv_run, decode_json_run, decode_run, dump_json_run,
    dump_run, ended, ended_with_verdict, explain_json_run, explain_run, locations_run, print_run,
};
use candesk_words::{Command, DumpForm, Job, LogForm, ReportForm};
use dbc_model::{Sink, Source};
use session_script::{KeyedOptions, Options, SessionFault, keyed_run};
use std::alloc::Global;
use std::hash::RandomState;

// The outcome of `session` as one of any command.
fn outcome_of(ended: Result<u64, SessionFault>) -> Result<u64, RunFault>
    ensures { result ≡ outcome_of ended }
{
    match ended {
        Ok(count) => Ok(count),
        Err(SessionFault::Read(fault)) => Err(RunFault::Read(fault)),
        Err(SessionFault::Stream(fault)) => Err(RunFault::Stream(fault)),
    }
}

// What the flag of the command line chooses for truncated frames.
fn short_of(flag: bool) -> Short
    ensures { result ≡ short_of flag }
{
    if flag { Short::Show } else { Short::Refuse }
}

// Decodes a log, and writes it in this form.
fn decoded<R: Source, W: Sink>(
    alloc: Global,
    form: LogForm,
    text: &[u8],
    short: Short,
    source: &mut R,
    sink: &mut W,
) -> Result<u64, RunFault>
    ensures { Decoded form text.now short (R.unread source.old) (R.unread source.new) (W.written sink.old) (W.written sink.new)
        result }
{
    match form {
        LogForm::Lines => decode_run(alloc, text, short, source, sink),
        LogForm::Objects => decode_json_run(alloc, text, short, source, sink),
        LogForm::Rows => decode_csv_run(alloc, text, short, source, sink),
    }
}

// Writes the messages of a database in this form.
fn dumped<W: Sink>(alloc: Global, form: DumpForm, text: &[u8], sink: &mut W) -> Result<(), RunFault>
    ensures { Dumped form text.now (W.written sink.old) (W.written sink.new) result }
{
    match form {
        DumpForm::Diagrams => dump_run(alloc, text, sink),
        DumpForm::Objects => dump_json_run(alloc, text, sink),
        DumpForm::Locations => locations_run(alloc, text, sink),
    }
}

// Checks a database, and writes its diagnostics in this form.
fn checked<W: Sink>(
    alloc: Global,
    form: ReportForm,
    text: &[u8],
    sink: &mut W,
) -> Result<Verdict, RunFault>
    ensures { Checked form text.now (W.written sink.old) (W.written sink.new) result }
{
    match form {
        ReportForm::Lines => check_run(alloc, text, sink),
        ReportForm::Objects => explain_json_run(alloc, text, sink),
    }
}

// Explains a database in this form.
fn explained<W: Sink>(
    alloc: Global,
    form: ReportForm,
    text: &[u8],
    sink: &mut W,
) -> Result<Verdict, RunFault>
    ensures { Explained form text.now (W.written sink.old) (W.written sink.new) result }
{
    match form {
        ReportForm::Lines => explain_run(alloc, text, sink),
        ReportForm::Objects => explain_json_run(alloc, text, sink),
    }
}

// Runs a script, by the options of the command line.
fn scripted<R: Source, W: Sink>(
    alloc: Global,
    text: &[u8],
    options: KeyedOptions,
    source: &mut R,
    sink: &mut W,
) -> Result<u64, RunFault>
    ensures { SessionRuns text.now options.options (R.unread source.old) (R.unread source.new) (W.written sink.old)
        (W.written sink.new) result }
{
    outcome_of(keyed_run(alloc, text, options, source, sink))
}

/// Does the job on the bytes of its file: writes the output to `sink` and a fault's line to `errors`, and returns the exit status.
/// `source` is standard input, which only `decode` and `session` read. That `errors` fails doesn't change the status.
pub fn run<R: Source, W: Sink, E: Sink>(
    alloc: Global,
    job: &Job,
    text: &[u8],
    source: &mut R,
    sink: &mut W,
    errors: &mut E,
) -> u8
    ensures { EndsWith job.now.command text.now (R.unread source.old) (R.unread source.new)
        (W.written sink.old) (W.written sink.new) result }
{
    run_keyed(alloc, job, text, None, source, sink, errors)
}

/// The same, with keys for the index of a session's log, if any were drawn. Without them a script can contain lines
/// that make `session` slow.
pub fn run_keyed<R: Source, W: Sink, E: Sink>(
    alloc: Global,
    job: &Job,
    text: &[u8],
    keys: Option<RandomState>,
    source: &mut R,
    sink: &mut W,
    errors: &mut E,
) -> u8
    ensures { EndsWith job.now.command text.now (R.unread source.old) (R.unread source.new)
        (W.written sink.old) (W.written sink.new) result }
{
    match job.command {
        Command::Check(form) => ended_with_verdict(checked(alloc, form, text, sink), errors),
        Command::Decode { short, form } => {
            let short = short_of(short);
            ended(decoded(alloc, form, text, short, source, sink), errors)
        }
        Command::Dump(form) => ended(dumped(alloc, form, text, sink), errors),
        Command::Explain(form) => ended_with_verdict(explained(alloc, form, text, sink), errors),
        Command::Print => ended(print_run(alloc, text, sink), errors),
        Command::Session { short, keep } => {
            let short = short_of(short);
            let options = Options { short, keep };
            let keyed = KeyedOptions { options, keys };
            ended(scripted(alloc, text, keyed, source, sink), errors)
        }
    }
}
