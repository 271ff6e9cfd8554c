//! The job that the words name.
ghost use Rattle.std.specs.Prelude.{◌≡◌, map, Some, None, IfOk, IfErr, ◌⊎◌, codes};
ghost use Rattle.clap.specs.Words.{kind_of, found_of, rows_of, subcommand_rows_of};
ghost use Rattle.candesk_words.specs.Words.{has_flag, keep_found, report_form, log_form, dump_form, command_found, job_found};
ghost use Rattle.candesk_words.specs.Words.{job_as_found, SaysOf, IsJobOf};

use crate::line::command_line;
use clap::ArgMatches;
use clap::error::ErrorKind;
use session_kept_lines::{Keep, LineCount};
use std::alloc::{AllocError, Global};

/// How diagnostics are written.
#[derive(Clone, Copy, Debug, PartialEq, Eq)]
pub enum ReportForm {
    /// As lines for people.
    Lines,
    /// As JSON objects.
    Objects,
}

/// How a decoded log is written.
#[derive(Clone, Copy, Debug, PartialEq, Eq)]
pub enum LogForm {
    /// As lines for people.
    Lines,
    /// As JSON objects.
    Objects,
    /// As rows of CSV.
    Rows,
}

/// How the messages of a database are written.
#[derive(Clone, Copy, Debug, PartialEq, Eq)]
pub enum DumpForm {
    /// As diagrams of their layouts.
    Diagrams,
    /// As JSON objects.
    Objects,
    /// As JSON objects with the bytes of each message, signal and entry.
    Locations,
}

/// What the program does with a database, and what the options ask for.
#[derive(Clone, Copy, Debug, PartialEq, Eq)]
pub enum Command {
    /// Reports problems in the database.
    Check(ReportForm),
    /// Decodes the log on standard input.
    Decode {
        /// Whether the signals that are present in truncated frames are shown.
        short: bool,
        /// How the log is written.
        form: LogForm,
    },
    /// Writes the messages of the database.
    Dump(DumpForm),
    /// Explains why the database text is rejected, or the diagnostics of the database.
    Explain(ReportForm),
    /// Prints the canonical text of the database.
    Print,
    /// Keeps a session open for the script on standard input.
    Session {
        /// Whether the signals that are present in truncated frames are shown.
        short: bool,
        /// Which lines of the log are kept.
        keep: Keep,
    },
}

/// A job: a command, and the path of its database.
#[derive(Debug, Drop)]
pub struct Job {
    /// What is done.
    pub command: Command,
    /// The path of the database.
    pub file: String,
}

/// Why there is no job.
#[derive(Debug, Drop)]
pub enum NoJob {
    /// The words name no command, not one FILE, or an option that doesn't exist.
    Usage,
    /// They ask for help or for the version, and this is its text.
    Help(String),
    /// Out of memory.
    Memory,
}

impl From<AllocError> for NoJob {
    ghost use Rattle.candesk_words.specs.declared.job.NoJob.TheVariants.{Memory};

    ghost from_gives = { λ _ e. e ≡ Memory };

    fn from(_error: AllocError) -> NoJob {
        NoJob::Memory
    }
}

// What `clap`'s fault means for the words.
fn no_job(alloc: Global, fault: &clap::Error) -> NoJob
    ensures { SaysOf (kind_of fault.now) result }
{
    match fault.kind() {
        ErrorKind::OutOfMemory => NoJob::Memory,
        ErrorKind::DisplayHelp | ErrorKind::DisplayVersion => match fault.to_string(alloc) {
            Ok(text) => NoJob::Help(text),
            Err(_) => NoJob::Memory,
        },
        _ => NoJob::Usage,
    }
}

// Whether the flag of this name is given.
fn has_flag(found: &ArgMatches<'_>, name: &str) -> bool
    ensures { result ≡ has_flag name.now (rows_of (found_of found.now)) }
{
    found.get_one::<bool>(name).unwrap_or(false)
}

// Which lines `--keep` asks for; none if its value is no number of lines, which clap accepts for no words.
fn keep_in(found: &ArgMatches<'_>) -> Option<Keep>
    ensures { result ≡ keep_found (rows_of (found_of found.now)) }
{
    match found.try_get_one::<u64>("keep") {
        Ok(None) => Some(Keep::All),
        Ok(Some(count)) => Some(Keep::Last(LineCount::new(count)?)),
        Err(_) => None,
    }
}

// How diagnostics are to be written.
fn report_form(found: &ArgMatches<'_>) -> ReportForm
    ensures { result ≡ report_form (has_flag (codes "json") (rows_of (found_of found.now))) }
{
    if has_flag(found, "json") {
        ReportForm::Objects
    } else {
        ReportForm::Lines
    }
}

// How a log is to be written; none if the words ask for two forms.
fn log_form(found: &ArgMatches<'_>) -> Option<LogForm>
    ensures { result ≡ log_form (has_flag (codes "json") (rows_of (found_of found.now))) (has_flag (codes "csv")
        (rows_of (found_of found.now))) }
{
    match (has_flag(found, "json"), has_flag(found, "csv")) {
        (false, false) => Some(LogForm::Lines),
        (true, false) => Some(LogForm::Objects),
        (false, true) => Some(LogForm::Rows),
        (true, true) => None,
    }
}

// How messages are to be written; none if the words ask for two forms.
fn dump_form(found: &ArgMatches<'_>) -> Option<DumpForm>
    ensures { result ≡ dump_form (has_flag (codes "json") (rows_of (found_of found.now))) (has_flag (codes "at")
        (rows_of (found_of found.now))) }
{
    match (has_flag(found, "json"), has_flag(found, "at")) {
        (false, false) => Some(DumpForm::Diagrams),
        (true, false) => Some(DumpForm::Objects),
        (false, true) => Some(DumpForm::Locations),
        (true, true) => None,
    }
}

// The command of this name, and what its options ask for.
#[tactic(auto, unfolding(crate::specs::Words::command_found))]
fn command_in(name: &str, found: &ArgMatches<'_>) -> Option<Command>
    ensures { result ≡ command_found name.now (rows_of (found_of found.now)) }
{
    match name {
        "check" => Some(Command::Check(report_form(found))),
        "decode" => {
            let form = log_form(found)?;
            let short = has_flag(found, "short");
            Some(Command::Decode { short, form })
        }
        "dump" => Some(Command::Dump(dump_form(found)?)),
        "explain" => Some(Command::Explain(report_form(found))),
        "print" => Some(Command::Print),
        "session" => {
            let keep = keep_in(found)?;
            let short = has_flag(found, "short");
            Some(Command::Session { short, keep })
        }
        _ => None,
    }
}

// The job that the matches name.
fn job_in(alloc: Global, matches: &ArgMatches<'_>) -> Result<Job, NoJob>
    ensures ok { IfOk result (λ job. job_found (subcommand_rows_of matches.now) ≡ Some (job_as_found job)) }
    ensures err { IfErr result (λ why. (why ≡ NoJob.Memory)
        ⊎ ((why ≡ NoJob.Usage) × (job_found (subcommand_rows_of matches.now) ≡ None))) }
{
    let Some((name, found)) = matches.subcommand() else {
        return Err(NoJob::Usage);
    };
    let Some(command) = command_in(name, found) else {
        return Err(NoJob::Usage);
    };
    let Some(file) = found.get_str("FILE") else {
        return Err(NoJob::Usage);
    };
    let file = String::from_str(alloc, file)?;
    Ok(Job { command, file })
}

/// Reads the words after the program's name. Options come before or after FILE, `--` ends them, `help` is the word for `--help`,
/// and `--version` and `-V` come only before a command. `decode` and `session` alone take `--short`, `decode` takes `--json` or
/// `--csv`, `check` and `explain` take `--json`, `dump` takes `--json` or `--at`, and `session` alone takes `--keep`, with an
/// integer from 1 to 1,048,576.
pub fn job_of<'a>(alloc: Global, words: &'a [&'a str]) -> Result<Job, NoJob>
    ensures { IsJobOf (map (λ word. word.now) words.now) result }
{
    let command = command_line(alloc)?;
    match command.try_get_matches_from(words) {
        Ok(matches) => job_in(alloc, &matches),
        Err(fault) => Err(no_job(alloc, &fault)),
    }
}
