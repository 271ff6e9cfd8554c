//! What a walk over tokens has seen: the number of messages, and the names of the last one's signals.
ghost use Rattle.std.specs.Prelude.{◌≡◌, None, Ok, IfOk, OnOk, map};
ghost use Rattle.std.specs.List.{list_any};
ghost use Rattle.std.specs.Str.{bytes_eq};
ghost use Rattle.dbc_tokens.specs.Views.{token_of};
ghost use Rattle.dbc_reader.specs.Pattern.{verdict, BeginsMessage, BeginsSignal, SignalName, nothing_seen};
ghost use Rattle.dbc_faults.specs.Patterns.{class_of, seen_of, cause_of, Answers};

use crate::class::Class;
use dbc_reader::{has_name, has_word};
use dbc_records::{Database, Message};
use dbc_tokens::{Cause, Token};
use dbc_values::Memory;
use std::alloc::Global;

/// What was seen of a text: the number of messages begun, and the names of the last one's signals.
#[derive(Drop)]
pub struct Seen<'t> {
    messages: u64,
    signals: Vec<&'t [u8]>,
}

// Whether the name is one of these.
fn is_among(name: &[u8], names: &[&[u8]]) -> bool
    ensures { result ≡ list_any (bytes_eq name.now) (map (λ other. other.now) names.now) }
{
    for other in names {
        if name == *other {
            return true;
        }
    }
    false
}

impl<'t> Seen<'t> {
    /// Nothing.
    pub fn nothing(alloc: Global) -> Seen<'t>
        ensures { seen_of result ≡ nothing_seen }
    {
        Seen {
            messages: 0,
            signals: Vec::new(alloc),
        }
    }

    /// Why the token isn't taken as the one that begins a message, if it isn't.
    pub fn message_refusal(&self, token: Token<'_>) -> Option<Cause>
        ensures { result ≡ cause_of (verdict BeginsMessage (token_of token.entry) (seen_of self.now)) }
    {
        if !has_word(token, b"BO_") {
            Some(Cause::Statement)
        } else if self.messages >= Database::MAX_MESSAGES as u64 {
            Some(Cause::MessagesFull)
        } else {
            None
        }
    }

    /// Why the token isn't taken as the one that begins a signal, if it isn't.
    pub fn signal_refusal(&self, token: Token<'_>) -> Option<Cause>
        ensures { result ≡ cause_of (verdict BeginsSignal (token_of token.entry) (seen_of self.now)) }
    {
        if !has_word(token, b"SG_") {
            Some(Cause::Statement)
        } else if self.signals.len() >= Message::MAX_SIGNALS {
            Some(Cause::SignalsFull)
        } else {
            None
        }
    }

    /// Why the token isn't taken as the name of a signal, if it isn't.
    pub fn name_refusal(&self, token: Token<'_>) -> Option<Cause>
        ensures { result ≡ cause_of (verdict SignalName (token_of token.entry) (seen_of self.now)) }
    {
        if !has_name(token) {
            Some(Cause::Statement)
        } else if is_among(token.bytes, self.signals.as_slice()) {
            Some(Cause::RepeatedSignal)
        } else {
            None
        }
    }

    // Records the token, which is of the class and breaks no rule.
    fn note(&mut self, class: Class, token: Token<'t>) -> Result<(), Memory>
        requires { cause_of (verdict (class_of class) (token_of token) (seen_of self.old)) ≡ None }
        ensures { OnOk result (verdict (class_of class) (token_of token.entry) (seen_of self.old) ≡ Ok (seen_of self.new)) }
    {
        match class {
            Class::BeginsMessage => {
                self.messages += 1;
                self.signals.clear();
            }
            Class::SignalName => self.signals.push(token.bytes)?,
            _ => (),
        }
        Ok(())
    }

    /// Sees the token as one of the class, or reports why it isn't taken as one, and then sees nothing.
    #[tactic(auto, using(crate::proofs::Verdicts::refused))]
    pub fn see(&mut self, class: Class, token: Token<'t>) -> Result<Option<Cause>, Memory>
        ensures { IfOk result (λ refusal. Answers (verdict (class_of class) (token_of token.entry) (seen_of self.old)) refusal
            (seen_of self.old) (seen_of self.new)) }
    {
        match class.refusal(token, self) {
            Some(cause) => Ok(Some(cause)),
            None => {
                self.note(class, token)?;
                Ok(None)
            }
        }
    }
}
