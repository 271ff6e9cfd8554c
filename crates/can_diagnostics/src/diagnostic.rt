//! Diagnostics, and how they are made of the records that they are about.
ghost use Rattle.std.specs.Prelude.{◌≡◌, IfOk};
ghost use Rattle.can_diagnostics.specs.Diagnostics.{of_message, of_sender, of_signal, of_pair, of_receiver, of_value, of_row};

use crate::code::Code;
use crate::subject::Subject;
use dbc_records::{EntryKey, Head, Signal};
use dbc_values::{Checked, Copied, Memory, Name};

/// One diagnostic of a database.
#[derive(Drop)]
pub struct Diagnostic {
    /// What is reported.
    pub code: Code,
    /// What it is about.
    pub subject: Subject,
}

impl Diagnostic {
    /// The diagnostic of a message.
    pub fn of_message(code: Code, head: &Head) -> Result<Diagnostic, Memory>
        ensures { IfOk result (λ made. made ≡ of_message code head.now) }
    {
        let subject = Subject::Message(head.number, head.name.copy()?);
        Ok(Diagnostic { code, subject })
    }

    /// The diagnostic of the sender of a message.
    pub fn of_sender(code: Code, head: &Head) -> Result<Diagnostic, Memory>
        ensures { IfOk result (λ made. made ≡ of_sender code head.now) }
    {
        let message = head.name.copy()?;
        let subject = Subject::Sender(head.number, message, head.sender.copy()?);
        Ok(Diagnostic { code, subject })
    }

    /// The diagnostic of a signal of the message.
    pub fn of_signal(code: Code, head: &Head, signal: &Signal) -> Result<Diagnostic, Memory>
        ensures { IfOk result (λ made. made ≡ of_signal code head.now signal.now) }
    {
        let message = head.name.copy()?;
        let subject = Subject::Signal(head.number, message, signal.name.copy()?);
        Ok(Diagnostic { code, subject })
    }

    /// The diagnostic of two signals of the message.
    pub fn of_pair(
        code: Code,
        head: &Head,
        first: &Signal,
        second: &Signal,
    ) -> Result<Diagnostic, Memory>
        ensures { IfOk result (λ made. made ≡ of_pair code head.now first.now second.now) }
    {
        let message = head.name.copy()?;
        let first = first.name.copy()?;
        let subject = Subject::Pair(head.number, message, first, second.name.copy()?);
        Ok(Diagnostic { code, subject })
    }

    /// The diagnostic of a receiver of a signal of the message.
    pub fn of_receiver(
        code: Code,
        head: &Head,
        signal: &Signal,
        node: &Name,
    ) -> Result<Diagnostic, Memory>
        ensures { IfOk result (λ made. made ≡ of_receiver code head.now signal.now node.now) }
    {
        let message = head.name.copy()?;
        let signal = signal.name.copy()?;
        let subject = Subject::Receiver(head.number, message, signal, node.copy()?);
        Ok(Diagnostic { code, subject })
    }

    /// The diagnostic of a value description of a signal of the message.
    pub fn of_value(
        code: Code,
        head: &Head,
        signal: &Signal,
        value: i128,
    ) -> Result<Diagnostic, Memory>
        ensures { IfOk result (λ made. made ≡ of_value code head.now signal.now value) }
    {
        let message = head.name.copy()?;
        let subject = Subject::Value(head.number, message, signal.name.copy()?, value);
        Ok(Diagnostic { code, subject })
    }

    /// The diagnostic of an entry.
    pub fn of_row(code: Code, key: EntryKey) -> Diagnostic
        ensures { result ≡ of_row code key }
    {
        Diagnostic {
            code,
            subject: Subject::Row(key),
        }
    }
}

impl Checked for Diagnostic {
    ghost use Rattle.can_diagnostics.specs.Diagnostics.{IsSubject};

    ghost IsValid = { λ diagnostic. IsSubject diagnostic.subject };
}

impl Copied for Diagnostic {
    fn copy(&self) -> Result<Diagnostic, Memory> {
        let subject = self.subject.copy()?;
        Ok(Diagnostic {
            code: self.code,
            subject,
        })
    }
}
