//! What a frame goes to, with what is prepared of it.
ghost use Rattle.std.specs.Prelude.{◌≡◌, ◌<◌, Some, length, map, slice_get};
ghost use Rattle.can_layout.specs.declared.row.Row.{Row as PlainRow};
ghost use Rattle.can_decode.specs.DecodedLines.{is_refused};
ghost use Rattle.can_json_lines.specs.PreparedTexts.{texts_by};

use crate::message_texts::MessageTexts;
use crate::prepare::Prepare;
use can_decode::Target;
use can_layout::Plan;
use dbc_records::Message;
use std::marker::Model;

/// The message that a frame goes to, with its plan and what is prepared of both.
#[derive(Drop)]
pub struct PreparedTarget<'a, P: Prepare> {
    target: Target<'a>,
    texts: &'a MessageTexts<P>,
}

impl<'a, P: Prepare> Model for PreparedTarget<'a, P> {
    ghost use Rattle.std.specs.Prelude.{◌≡◌};
    ghost use Rattle.can_decode.specs.DecodedLines as lines;
    ghost use Rattle.can_json_lines.specs.PreparedTexts.{texts_by};

    ghost Value = { lines.Target };

    ghost view = { λ a. a.target };

    ghost invariant = { λ a. a.texts.now ≡ texts_by P.head_of P.signal_of a.target.message a.target.plan };
}

fn signal_at<S>(signals: &[S], index: usize) -> &S
    requires { index < length signals.now }
    ensures { Some result.now ≡ slice_get signals.now index }
{
    &signals[index]
}

impl<'a, P: Prepare> PreparedTarget<'a, P> {
    /// A target, with what is prepared of its message and plan.
    pub(crate) fn of(target: Target<'a>, texts: &'a MessageTexts<P>) -> PreparedTarget<'a, P>
        requires { texts.now ≡ texts_by P.head_of P.signal_of target.message target.plan }
        ensures { result ≡ target.entry }
    {
        PreparedTarget { target, texts }
    }

    /// The message.
    pub fn message(&self) -> &'a Message
        ensures { result.now ≡ self.now.message }
    {
        self.target.message
    }

    /// Its plan.
    pub fn plan(&self) -> &'a Plan
        ensures { result.now ≡ self.now.plan }
    {
        self.target.plan
    }

    /// Whether it is a J1939 message.
    pub fn is_group(&self) -> bool
        ensures { result ≡ self.now.group }
    {
        self.target.group
    }

    /// Whether data of this many bytes is refused.
    pub fn refuses(&self, there: usize) -> bool
        ensures { result ≡ is_refused self.now.short there self.now.plan.size }
    {
        self.target.short.refuses(there, self.target.plan.size())
    }

    /// What is prepared of the message.
    pub fn head(&self) -> &P::Head
        ensures { result.now ≡ P.head_of self.now.message }
    {
        self.texts.head()
    }

    // What is prepared of its signals, in order.
    fn signals(&self) -> &[P::Signal]
        ensures { result.now ≡ map (P.signal_of self.now.message) self.now.plan.rows }
    {
        self.texts.signals()
    }

    /// What is prepared of the signal at an index.
    #[inline(always)]
    #[tactic(auto, using(crate::proofs::Taken::made_at))]
    pub fn signal(&self, index: usize) -> &P::Signal
        requires { index < length self.now.plan.rows }
        ensures { (row : PlainRow) → Some row ≡ slice_get self.now.plan.rows index
            → result.now ≡ P.signal_of self.now.message row }
    {
        signal_at(self.signals(), index)
    }
}
