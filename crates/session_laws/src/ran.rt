//! A run as a whole.
ghost use Rattle.std.specs.Prelude.{◌≡◌, IfOk, IfErr, Err, map};
ghost use Rattle.dbc_reader.specs.Texts.{IsRead};
ghost use Rattle.session_laws.specs.Runs.{command_of};
ghost use Rattle.session_laws.specs.SessionView.{view_of};
ghost use Rattle.session_laws.specs.Transcripts.{Shows};

use crate::command::Command;
use crate::running::{Answers, run_all};
use crate::showing::{SessionView, show};
use can_session::{Options, Refusal, Session};
use dbc_tokens::ReadFault;
use dbc_values::Memory;
use std::alloc::Global;
use std::marker::Model;

/// A run: a text, options and commands, the answers to these, and the session that they led to. Contracts see all but the session,
/// which is what the rest defines.
#[derive(Drop)]
pub struct Ran<'a> {
    text: &'a [u8],
    options: Options,
    commands: &'a [Command],
    answers: Answers,
    session: Session,
}

impl<'a> Model for Ran<'a> {
    ghost use Rattle.std.specs.Prelude.{map};
    ghost use Rattle.session_laws.specs.Runs.{command_of, RunsText};
    ghost use Rattle.session_laws.specs.Transcripts.{Transcript};

    ghost Value = { Transcript };

    ghost view = { λ a. record {
      text = a.text.now;
      options = a.options;
      commands = map command_of a.commands.now;
      answers = a.answers.items;
    } };

    ghost invariant = { λ a. RunsText a.text.now a.options (map command_of a.commands.now) a.answers.items a.session.state };
}

impl<'a> Ran<'a> {
    /// Opens a session on the text with these options, and performs the commands in it. If the text has no database, returns its
    /// first fault; running out of memory for the database or for the answers is a fault of line 0.
    pub fn of(
        alloc: Global,
        text: &'a [u8],
        options: Options,
        commands: &'a [Command],
    ) -> Result<Ran<'a>, ReadFault>
        ensures text { IfOk result (λ ran. ran.text ≡ text.now) }
        ensures options { IfOk result (λ ran. ran.options ≡ options) }
        ensures commands { IfOk result (λ ran. ran.commands ≡ map command_of commands.now) }
        ensures fault { IfErr result (λ fault. IsRead text.now (Err fault)) }
    {
        let (short, keep) = (options.short, options.keep);
        let ran = run_all(alloc, text, options, commands)?;
        Ok(Ran {
            text,
            options: Options { short, keep },
            commands,
            session: ran.0,
            answers: ran.1,
        })
    }

    /// The answer to each command.
    pub fn answers(&self) -> &[Result<(), Refusal>]
        ensures { result.now ≡ self.now.answers }
    {
        self.answers.as_slice()
    }

    /// All that is shown after the run, or memory ran out for the lists. For this text, these options and these commands
    /// the answers and the state are what the definitions give, command by command, and a refused command leaves all as it
    /// was. The diagnostics, plans, layout diagrams and decoded lines are what the printed database, read again, and each
    /// line by itself define.
    pub fn show(&self, alloc: Global) -> Result<SessionView<'_>, Memory>
        ensures { IfOk result (λ all. Shows self.now (view_of all)) }
    {
        show(alloc, &self.session)
    }
}
