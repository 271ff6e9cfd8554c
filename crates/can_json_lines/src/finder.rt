//! Which message a frame goes to, with what is prepared of it.
ghost use Rattle.std.specs.Prelude.{◌≡◌, IfOk, option_map, slice_get};
ghost use Rattle.can_decode.specs.Choices.{choice_at};
ghost use Rattle.can_decode.specs.DecodedLines.{target_of, chosen_target};
ghost use Rattle.can_json_lines.specs.PreparedTexts.{all_texts};

use crate::message_texts::MessageTexts;
use crate::prepare::Prepare;
use crate::prepared_target::PreparedTarget;
use can_decode::{Choice, Finder, MessageSearch};
use can_frames::Frame;
use dbc_values::Memory;
use std::marker::Model;

/// What finds the messages of frames, with what is prepared of each message. Contracts see the bus.
#[derive(Drop)]
pub struct PreparedFinder<'a, C: MessageSearch, P: Prepare> {
    finder: Finder<'a, C>,
    texts: &'a [MessageTexts<P>],
}

impl<'a, C: MessageSearch, P: Prepare> Model for PreparedFinder<'a, C, P> {
    ghost use Rattle.std.specs.Prelude.{◌≡◌};
    ghost use Rattle.can_decode.specs.DecodedLines.{Bus};
    ghost use Rattle.can_json_lines.specs.PreparedTexts.{all_texts};

    ghost Value = { Bus };

    ghost view = { λ a. a.finder };

    ghost invariant = { λ a. a.texts.now ≡ all_texts P.head_of P.signal_of a.finder.database };
}

fn texts_at<P: Prepare>(texts: &[MessageTexts<P>], index: usize) -> Option<&MessageTexts<P>>
    ensures { option_map (λ texts. texts.now) result ≡ slice_get texts.now index }
{
    texts.get(index)
}

impl<'a, C: MessageSearch, P: Prepare> PreparedFinder<'a, C, P> {
    /// A finder, with what is prepared of its messages.
    pub(crate) fn of(
        finder: Finder<'a, C>,
        texts: &'a [MessageTexts<P>],
    ) -> PreparedFinder<'a, C, P>
        requires { texts.now ≡ all_texts P.head_of P.signal_of finder.database }
        ensures { result ≡ finder.entry }
    {
        PreparedFinder { finder, texts }
    }

    // The message of a choice.
    #[tactic(auto, using(crate::proofs::Indexes::texts_of_target))]
    #[inline(always)]
    fn target_at(&self, choice: Choice) -> Option<PreparedTarget<'a, P>>
        requires { choice ≡ choice_at self.now.database choice.index }
        ensures { result ≡ option_map (target_of self.now.short self.now.database) (slice_get self.now.database.messages
            choice.index) }
    {
        let target = self.finder.target_at(choice)?;
        let texts = texts_at(self.texts, choice.index)?;
        Some(PreparedTarget::of(target, texts))
    }

    /// What a frame goes to. Only a search that caches allocates.
    #[tactic(auto, unfolding(can_decode::specs::DecodedLines::chosen_target, can_decode::specs::Choices::chosen_index, can_decode::specs::Choices::frame_choice, can_decode::specs::Choices::choice_of))]
    #[inline(always)]
    pub fn target_of(&mut self, frame: &Frame) -> Result<Option<PreparedTarget<'a, P>>, Memory>
        ensures target { IfOk result (λ target. target ≡ chosen_target self.old.short self.old.database frame.now) }
        ensures same { self.new ≡ self.old }
    {
        match self.finder.choose(frame)? {
            Some(choice) => Ok(self.target_at(choice)),
            None => Ok(None),
        }
    }
}
