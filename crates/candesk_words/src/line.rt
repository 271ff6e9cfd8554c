//! The command line, as clap gets it.
ghost use Rattle.std.specs.Prelude.{◌≡◌, false, codes, IfOk};
ghost use Rattle.clap.specs.Words.{app_of};
ghost use Rattle.clap.specs.declared.builder.command.Command.TheViews.{out-Command};
ghost use Rattle.candesk_words.specs.Words.{before_command, on_file, on_frames, on_decode, on_objects, on_dump, on_session};
ghost use Rattle.candesk_words.specs.Words.{with_command, command_line};

use crate::notes;
use crate::version::VERSION;
use clap::builder::ValueParser;
use clap::{Arg, ArgAction, Command};
use session_kept_lines::LineCount;
use std::alloc::{AllocError, Global};

// The help of `--json` of `check` and `explain`.
const FINDINGS: &str = "Write a JSON object for each problem, with its location in the text";

// The words before a command.
#[tactic(auto, unfolding(crate::specs::Words::before_command))]
fn before_command<'a>(alloc: Global) -> Result<Command<'a>, AllocError>
    ensures { IfOk result (λ line. app_of line ≡ before_command) }
{
    let line = Command::new(alloc, "candesk")
        .about("Checks, prints and draws CAN databases and decodes logs, with proved answers")
        .version(VERSION)
        .no_binary_name(true)
        .bin_name("candesk")?
        .subcommand_required(true);
    Ok(line)
}

// A command that takes a FILE.
#[tactic(auto, unfolding(crate::specs::Words::on_file))]
fn on_file<'a>(
    alloc: Global,
    name: &'a str,
    about: &'a str,
    notes: &'a str,
) -> Result<Command<'a>, AllocError>
    ensures app { IfOk result (λ command. app_of command ≡ on_file name.entry.now) }
    ensures local { IfOk result (λ command. (out-Command command).has_globals ≡ false) }
{
    let file = Arg::new(alloc, "FILE")
        .required(true)
        .help("The path of a DBC database");
    Command::new(alloc, name)
        .about(about)
        .after_help(notes)
        .arg(file)
}

// A command that takes a FILE, and `--short`.
#[tactic(auto, unfolding(crate::specs::Words::on_frames))]
fn on_frames<'a>(
    alloc: Global,
    name: &'a str,
    about: &'a str,
    notes: &'a str,
) -> Result<Command<'a>, AllocError>
    ensures app { IfOk result (λ command. app_of command ≡ on_frames name.entry.now) }
    ensures local { IfOk result (λ command. (out-Command command).has_globals ≡ false) }
{
    let short = Arg::new(alloc, "short")
        .long("short")
        .action(ArgAction::SetTrue)
        .help("Decode frames that are shorter than their message as far as they go");
    on_file(alloc, name, about, notes)?.arg(short)
}

// `decode`, which takes `--json` and `--csv` too.
#[tactic(auto, unfolding(crate::specs::Words::on_decode))]
fn on_decode<'a>(alloc: Global, about: &'a str, notes: &'a str) -> Result<Command<'a>, AllocError>
    ensures app { IfOk result (λ command. app_of command ≡ on_decode) }
    ensures local { IfOk result (λ command. (out-Command command).has_globals ≡ false) }
{
    let json = Arg::new(alloc, "json")
        .long("json")
        .action(ArgAction::SetTrue)
        .help("Write a JSON object for each line");
    let csv = Arg::new(alloc, "csv")
        .long("csv")
        .action(ArgAction::SetTrue)
        .help("Write a CSV row for each signal");
    on_frames(alloc, "decode", about, notes)?
        .arg(json)?
        .arg(csv)
}

// A command that takes a FILE, and `--json`, of which this is the help.
#[tactic(auto, unfolding(crate::specs::Words::on_objects))]
fn on_objects<'a>(
    alloc: Global,
    name: &'a str,
    about: &'a str,
    notes: &'a str,
    help: &'a str,
) -> Result<Command<'a>, AllocError>
    ensures app { IfOk result (λ command. app_of command ≡ on_objects name.entry.now) }
    ensures local { IfOk result (λ command. (out-Command command).has_globals ≡ false) }
{
    let json = Arg::new(alloc, "json")
        .long("json")
        .action(ArgAction::SetTrue)
        .help(help);
    on_file(alloc, name, about, notes)?.arg(json)
}

// `dump`, which takes `--json` and `--at`.
#[tactic(auto, unfolding(crate::specs::Words::on_dump))]
fn on_dump<'a>(alloc: Global, about: &'a str, notes: &'a str) -> Result<Command<'a>, AllocError>
    ensures app { IfOk result (λ command. app_of command ≡ on_dump) }
    ensures local { IfOk result (λ command. (out-Command command).has_globals ≡ false) }
{
    let json = Arg::new(alloc, "json")
        .long("json")
        .action(ArgAction::SetTrue)
        .help("Write a JSON object for each message, and one for the rest");
    let locations = Arg::new(alloc, "at")
        .long("at")
        .action(ArgAction::SetTrue)
        .help("Write a JSON object for each name, with its location in the text");
    on_file(alloc, "dump", about, notes)?
        .arg(json)?
        .arg(locations)
}

// `session`, which takes `--keep` too.
#[tactic(auto, unfolding(crate::specs::Words::on_session))]
fn on_session<'a>(alloc: Global, about: &'a str, notes: &'a str) -> Result<Command<'a>, AllocError>
    ensures app { IfOk result (λ command. app_of command ≡ on_session) }
    ensures local { IfOk result (λ command. (out-Command command).has_globals ≡ false) }
{
    let keep = Arg::new(alloc, "keep")
        .long("keep")
        .value_name("N")
        .action(ArgAction::Set)
        .value_parser(ValueParser::unsigned(1, LineCount::MAX_LINES))
        .help("Keep only the last N lines, from 1 to 1048576");
    on_frames(alloc, "session", about, notes)?.arg(keep)
}

// The command line with one command more.
#[tactic(auto, unfolding(crate::specs::Words::with_command))]
fn with_command<'a>(line: Command<'a>, command: Command<'a>) -> Result<Command<'a>, AllocError>
    requires { (out-Command command).has_globals ≡ false }
    ensures { IfOk result (λ longer. app_of longer ≡ with_command (app_of line.entry) (app_of command.entry)) }
{
    line.subcommand(command)
}

fn with_check<'a>(alloc: Global, line: Command<'a>) -> Result<Command<'a>, AllocError>
    ensures { IfOk result (λ longer. app_of longer ≡ with_command (app_of line.entry) (on_objects (codes "check"))) }
{
    let about = "Report problems in a database";
    let command = on_objects(alloc, "check", about, notes::CHECK, FINDINGS)?;
    with_command(line, command)
}

fn with_decode<'a>(alloc: Global, line: Command<'a>) -> Result<Command<'a>, AllocError>
    ensures { IfOk result (λ longer. app_of longer ≡ with_command (app_of line.entry) on_decode) }
{
    let about = "Decode a log of `candump -L` from standard input";
    let command = on_decode(alloc, about, notes::DECODE)?;
    with_command(line, command)
}

fn with_dump<'a>(alloc: Global, line: Command<'a>) -> Result<Command<'a>, AllocError>
    ensures { IfOk result (λ longer. app_of longer ≡ with_command (app_of line.entry) on_dump) }
{
    let about = "Draw the layout of each message, bit by bit";
    let command = on_dump(alloc, about, notes::DUMP)?;
    with_command(line, command)
}

fn with_explain<'a>(alloc: Global, line: Command<'a>) -> Result<Command<'a>, AllocError>
    ensures { IfOk result (λ longer. app_of longer ≡ with_command (app_of line.entry) (on_objects (codes "explain"))) }
{
    let about = "Explain why a database is rejected, or what `check` reports";
    let command = on_objects(alloc, "explain", about, notes::EXPLAIN, FINDINGS)?;
    with_command(line, command)
}

fn with_print<'a>(alloc: Global, line: Command<'a>) -> Result<Command<'a>, AllocError>
    ensures { IfOk result (λ longer. app_of longer ≡ with_command (app_of line.entry) (on_file (codes "print"))) }
{
    let about = "Print a database as its canonical text";
    let command = on_file(alloc, "print", about, notes::PRINT)?;
    with_command(line, command)
}

fn with_session<'a>(alloc: Global, line: Command<'a>) -> Result<Command<'a>, AllocError>
    ensures { IfOk result (λ longer. app_of longer ≡ with_command (app_of line.entry) on_session) }
{
    let about = "Edit a database and keep a log, by a script on standard input";
    let command = on_session(alloc, about, notes::SESSION)?;
    with_command(line, command)
}

/// The command line: `candesk check FILE`, and likewise with `decode`, `dump`, `explain`, `print` and `session`, of which `decode`
/// and `session` also take `--short`, `decode` takes `--json` and `--csv`, `check`, `dump` and `explain` take `--json`, `dump`
/// takes `--at`, and `session` takes `--keep N`.
#[tactic(auto, unfolding(crate::specs::Words::command_line))]
pub(crate) fn command_line<'a>(alloc: Global) -> Result<Command<'a>, AllocError>
    ensures { IfOk result (λ line. app_of line ≡ command_line) }
{
    let line = before_command(alloc)?;
    let line = with_check(alloc, line)?;
    let line = with_decode(alloc, line)?;
    let line = with_dump(alloc, line)?;
    let line = with_explain(alloc, line)?;
    let line = with_print(alloc, line)?;
    with_session(alloc, line)
}
