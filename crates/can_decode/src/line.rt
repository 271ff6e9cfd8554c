//! The decoded line.
ghost use Rattle.std.specs.Prelude.{◌≡◌, ◌<◌, ◌++◌, OnOk, IfOk, IfSome, Some, length, map, slice_get, option_map};
ghost use Rattle.can_layout.specs.Plans.{plan_of};
ghost use Rattle.can_layout.specs.Meters.{with_line};
ghost use Rattle.can_decode.specs.Choices.{choice_at, frame_choice, line_index};
ghost use Rattle.can_decode.specs.DecodedLines.{target_of, chosen_target, bus_line, decoded_line};

use crate::choice::choose;
use crate::frame_text::push_decoded;
use crate::known_line::decode_at;
use crate::log_line::LogLine;
use crate::message_search::{Choice, MessageSearch, message_at};
use crate::short::Short;
use crate::target::Target;
use can_frames::{Frame, body_of, fill_frame};
use can_layout::{Meter, Plan};
use dbc_records::Database;
use dbc_text_buffer::{TextBuffer, push_bytes};
use dbc_values::Memory;
use std::alloc::Global;
use std::marker::Model;

/// Where the messages of frames are looked up: a database, the plans of its messages in order, how truncated frames are decoded,
/// and what finds the message of a CAN identifier.
#[derive(Drop)]
pub struct Finder<'a, C: MessageSearch> {
    /// The database.
    pub database: &'a Database,
    /// The plans of its messages.
    pub plans: &'a [Plan],
    /// How truncated frames are decoded.
    pub short: Short,
    /// What finds the message of a CAN identifier.
    pub search: C,
}

impl<'a, C: MessageSearch> Model for Finder<'a, C> {
    ghost use Rattle.can_decode.specs.DecodedLines.{Bus};
    ghost use Rattle.can_decode.specs.Decodings.{DecodesBy};

    ghost Value = { Bus };

    ghost view = { λ a. record { database = a.database.now; short = a.short } };

    ghost invariant = { λ a. DecodesBy a.database.now a.plans.now (C.whole a.search) };
}

fn plan_at(plans: &[Plan], index: usize) -> Option<&Plan>
    ensures { option_map (λ plan. plan.now) result ≡ slice_get plans.now index }
{
    plans.get(index)
}

impl<'a, C: MessageSearch> Finder<'a, C> {
    /// The message of a choice, with its plan.
    pub fn target_at(&self, choice: Choice) -> Option<Target<'a>>
        requires { choice ≡ choice_at self.now.database choice.index }
        ensures { result ≡ option_map (target_of self.now.short self.now.database) (slice_get self.now.database.messages
            choice.index) }
    {
        let message = message_at(self.database, choice.index)?;
        let plan = plan_at(self.plans, choice.index)?;
        Some(Target {
            message,
            plan,
            group: choice.group,
            short: self.short,
        })
    }

    /// The choice of a frame, if it is a data frame that goes to a message. Only a search that caches allocates.
    #[tactic(auto, unfolding(crate::specs::Choices::frame_choice))]
    pub fn choose(&mut self, frame: &Frame) -> Result<Option<Choice>, Memory>
        ensures choice { IfOk result (λ choice. choice ≡ frame_choice self.old.database frame.now) }
        ensures same { self.new ≡ self.old }
    {
        if frame.is_data() {
            self.search.choice(frame.number())
        } else {
            Ok(None)
        }
    }

    // What a frame goes to.
    #[tactic(auto, unfolding(crate::specs::DecodedLines::chosen_target, crate::specs::Choices::chosen_index, crate::specs::Choices::frame_choice, crate::specs::Choices::choice_of))]
    fn target_of(&mut self, frame: &Frame) -> Result<Option<Target<'a>>, Memory>
        ensures target { IfOk result (λ target. target ≡ chosen_target self.old.short self.old.database frame.now) }
        ensures same { self.new ≡ self.old }
    {
        match self.choose(frame)? {
            Some(choice) => Ok(self.target_at(choice)),
            None => Ok(None),
        }
    }
}

/// A line, and its decoded frame.
#[tactic(auto, using(crate::proofs::Pushing::pushed_then), unfolding(crate::specs::DecodedLines::decoded_line))]
pub(crate) fn push_line<C: MessageSearch>(
    alloc: Global,
    text: &mut TextBuffer,
    finder: &mut Finder<'_, C>,
    line: &[u8],
) -> Result<(), Memory>
    ensures text { OnOk result (text.new.items ≡ text.old.items ++ bus_line finder.old line.now) }
    ensures same { finder.new ≡ finder.old }
{
    push_bytes(text, body_of(line))?;
    let mut frame = Frame::empty();
    if !fill_frame(&mut frame, line) {
        return Ok(());
    }
    let target = finder.target_of(&frame)?;
    push_decoded(alloc, text, &frame, target.as_ref())
}

// The plan of a message that is there.
fn known_plan(plans: &[Plan], index: usize) -> &Plan
    requires { index < length plans.now }
    ensures { Some result.now ≡ slice_get plans.now index }
{
    &plans[index]
}

// The index of the message that the frame of a line goes to, with the plan of that message.
fn chosen_of<'a>(
    database: &Database,
    plans: &'a [Plan],
    line: &LogLine<'_>,
) -> Option<(usize, &'a Plan)>
    requires { plans.now ≡ map (plan_of database.now) database.now.messages }
    ensures index { option_map (λ one. one.0) result ≡ line_index database.now line.now }
    ensures plan { IfSome result (λ one. Some one.1.now ≡ option_map (plan_of database.now) (slice_get database.now.messages
        one.0)) }
{
    let frame = line.frame()?;
    let index = choose(database, frame)?;
    Some((index, known_plan(plans, index)))
}

/// The decoded line: the line without a final CR, followed by its decoded frame. `plans` are those of the messages in order, and
/// `short` determines how truncated frames are decoded. The meter counts it, even if memory runs out.
pub fn decode_line(
    alloc: Global,
    database: &Database,
    plans: &[Plan],
    line: &[u8],
    meter: &mut Meter,
    short: Short,
) -> Result<Vec<u8>, Memory>
    requires { plans.now ≡ map (plan_of database.now) database.now.messages }
    ensures text { IfOk result (λ text. text.items ≡ decoded_line short database.now line.now) }
    ensures counted { meter.new ≡ with_line meter.old }
{
    let chosen = chosen_of(database, plans, &LogLine::of(line));
    decode_at(alloc, database, chosen, line, meter, short)
}
