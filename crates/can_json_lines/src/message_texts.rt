//! What is prepared of a message.
ghost use Rattle.std.specs.Prelude.{◌≡◌, IfOk, map};
ghost use Rattle.can_json_lines.specs.PreparedTexts.{texts_by};

use crate::prepare::Prepare;
use can_layout::Plan;
use dbc_records::Message;
use dbc_text_buffer::TextBuffer;
use dbc_values::Memory;
use std::alloc::Global;
use std::marker::Model;

/// What is prepared of a message, and of its signals in order.
#[derive(Drop)]
pub struct MessageTexts<P: Prepare> {
    head: P::Head,
    signals: Vec<P::Signal>,
}

impl<P: Prepare> Model for MessageTexts<P> {
    ghost use Rattle.can_json_lines.specs.PreparedTexts as texts;

    ghost Value = { texts.MessageTexts P.Head P.Signal };

    ghost view = { λ a. record { head = a.head; signals = a.signals.items } };
}

// What is prepared of the signals of a plan, in order.
fn signal_texts<P: Prepare>(
    alloc: Global,
    text: &mut TextBuffer,
    preparer: &P,
    message: &Message,
    plan: &Plan,
) -> Result<Vec<P::Signal>, Memory>
    ensures { IfOk result (λ signals. signals.items ≡ map (P.signal_of message.now) plan.now.rows) }
{
    let mut signals = Vec::with_capacity(alloc, plan.signals())?;
    for index in 0..plan.signals() {
        signals.push(preparer.signal(text, message, plan.row(index))?)?;
    }
    Ok(signals)
}

impl<P: Prepare> MessageTexts<P> {
    /// The texts of a message by its plan.
    pub(crate) fn of(
        alloc: Global,
        text: &mut TextBuffer,
        preparer: &P,
        message: &Message,
        plan: &Plan,
    ) -> Result<MessageTexts<P>, Memory>
        ensures { IfOk result (λ texts. texts ≡ texts_by P.head_of P.signal_of message.now plan.now) }
    {
        let head = preparer.head(text, message)?;
        let signals = signal_texts(alloc, text, preparer, message, plan)?;
        Ok(MessageTexts { head, signals })
    }

    /// The text of the message.
    pub(crate) fn head(&self) -> &P::Head
        ensures { result.now ≡ self.now.head }
    {
        &self.head
    }

    /// The texts of its signals.
    pub(crate) fn signals(&self) -> &[P::Signal]
        ensures { result.now ≡ self.now.signals }
    {
        self.signals.as_slice()
    }
}
