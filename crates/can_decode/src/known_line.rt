//! The decoded line of a frame whose message is known.
ghost use Rattle.std.specs.Prelude.{◌≡◌, IfOk, OnOk, IfSome, Some, slice_get, option_map, option_and_then};
ghost use Rattle.can_layout.specs.Plans.{plan_of};
ghost use Rattle.can_layout.specs.Meters.{with_line};
ghost use Rattle.can_decode.specs.Choices.{choice_at, line_index, line_choice};
ghost use Rattle.can_decode.specs.DecodedLines.{target_of, decoded_line, bus_line};

use crate::frame_text::push_decoded;
use crate::log_line::LogLine;
use crate::message_search::{Choice, choice_at, message_at};
use crate::short::Short;
use crate::target::Target;
use can_frames::body_of;
use can_layout::{Meter, Plan};
use dbc_records::Database;
use dbc_text_buffer::{TextBuffer, push_bytes};
use dbc_values::Memory;
use std::alloc::Global;
use std::marker::Model;

/// A bus whose lines are decoded when it is known which messages their frames go to: its database, and how
/// truncated frames are decoded.
#[derive(Drop)]
pub struct Bus<'a> {
    /// The database.
    pub database: &'a Database,
    /// How truncated frames are decoded.
    pub short: Short,
}

impl<'a> Model for Bus<'a> {
    ghost use Rattle.can_decode.specs.DecodedLines as lines;

    ghost Value = { lines.Bus };

    ghost view = { λ a. record { database = a.database.now; short = a.short } };
}

impl<'a> Bus<'a> {
    // The choice of the message at an index for a frame, with its plan.
    fn with_choice(&self, chosen: Option<(usize, &'a Plan)>) -> Option<(Choice, &'a Plan)>
        requires { IfSome chosen (λ one. Some one.1.now ≡ option_map (plan_of self.now.database)
            (slice_get self.now.database.messages one.0)) }
        ensures choice { option_map (λ one. one.0) result ≡ option_map (choice_at self.now.database)
            (option_map (λ one. one.0) chosen.entry) }
        ensures plan { IfSome result (λ one. Some one.1.now ≡ option_map (plan_of self.now.database)
            (slice_get self.now.database.messages one.0.index)) }
    {
        let (index, plan) = chosen?;
        Some((choice_at(self.database, index), plan))
    }

    // What a frame goes to: the message of a choice, with its plan.
    fn target_of(&self, chosen: Option<(Choice, &'a Plan)>) -> Option<Target<'a>>
        requires choice { IfSome chosen (λ one. one.0 ≡ choice_at self.now.database one.0.index) }
        requires plan { IfSome chosen (λ one. Some one.1.now ≡ option_map (plan_of self.now.database)
            (slice_get self.now.database.messages one.0.index)) }
        ensures { result ≡ option_and_then (λ index. option_map (target_of self.now.short self.now.database)
            (slice_get self.now.database.messages index)) (option_map (λ one. one.0.index) chosen.entry) }
    {
        let (choice, plan) = chosen?;
        let message = message_at(self.database, choice.index)?;
        Some(Target {
            message,
            plan,
            group: choice.group,
            short: self.short,
        })
    }

    /// The decoded line, when it is known which message its frame goes to, if it has one that goes to any: `chosen` has the index
    /// of that message and its plan. It only looks up whether that is a J1939 message, and reads nothing again. The meter counts
    /// it, even if memory runs out.
    #[tactic(auto, using(crate::proofs::LineChoices::line_choice_by))]
    pub fn decode_frame_at(
        &self,
        alloc: Global,
        chosen: Option<(usize, &'a Plan)>,
        line: &LogLine<'_>,
        meter: &mut Meter,
    ) -> Result<Vec<u8>, Memory>
        requires index { option_map (λ one. one.0) chosen ≡ line_index self.now.database line.now }
        requires plan { IfSome chosen (λ one. Some one.1.now ≡ option_map (plan_of self.now.database)
            (slice_get self.now.database.messages one.0)) }
        ensures text { IfOk result (λ text. text.items ≡ bus_line self.now line.now) }
        ensures counted { meter.new ≡ with_line meter.old }
    {
        let mut text = TextBuffer::new(alloc);
        self.renew_frame_at(&mut text, self.with_choice(chosen), line, meter)?;
        text.to_vec()
    }

    /// Like [`Bus::decode_frame_at`], when it is also known whether that is a J1939 message: nothing is looked up. It writes the
    /// decoded line to `text`, replacing what that held, so its capacity serves one line after another. If memory runs out, what
    /// `text` holds is meaningless.
    #[tactic(auto, using(crate::proofs::Pushing::pushed_then), unfolding(crate::specs::DecodedLines::decoded_line, crate::specs::DecodedLines::chosen_target, crate::specs::Choices::frame_choice, crate::specs::Choices::choice_of, crate::specs::Choices::chosen_index))]
    pub fn renew_frame_at(
        &self,
        text: &mut TextBuffer,
        chosen: Option<(Choice, &'a Plan)>,
        line: &LogLine<'_>,
        meter: &mut Meter,
    ) -> Result<(), Memory>
        requires choice { option_map (λ one. one.0) chosen ≡ line_choice self.now.database line.now }
        requires plan { IfSome chosen (λ one. Some one.1.now ≡ option_map (plan_of self.now.database)
            (slice_get self.now.database.messages one.0.index)) }
        ensures text { OnOk result (text.new.items ≡ bus_line self.now line.now) }
        ensures counted { meter.new ≡ with_line meter.old }
    {
        meter.count_line();
        text.clear();
        push_bytes(text, body_of(line.bytes()))?;
        if let Some(frame) = line.frame() {
            let target = self.target_of(chosen);
            push_decoded(text.allocator(), text, frame, target.as_ref())?;
        }
        Ok(())
    }
}

/// Like [`Bus::decode_frame_at`], but it also reads the line. `short` determines how truncated frames are decoded.
pub fn decode_at(
    alloc: Global,
    database: &Database,
    chosen: Option<(usize, &Plan)>,
    line: &[u8],
    meter: &mut Meter,
    short: Short,
) -> Result<Vec<u8>, Memory>
    requires index { option_map (λ one. one.0) chosen ≡ line_index database.now line.now }
    requires plan { IfSome chosen (λ one. Some one.1.now ≡ option_map (plan_of database.now) (slice_get database.now.messages
        one.0)) }
    ensures text { IfOk result (λ text. text.items ≡ decoded_line short database.now line.now) }
    ensures counted { meter.new ≡ with_line meter.old }
{
    let bus = Bus { database, short };
    bus.decode_frame_at(alloc, chosen, &LogLine::of(line), meter)
}
