//! The line of a location.
ghost use Rattle.std.specs.Prelude.{◌≡◌, ◌∷◌, ◌++◌, [], OnOk};
ghost use Rattle.json.specs.Tree.{json_tokens};
ghost use Rattle.can_json_texts.specs.Members.{object_of};
ghost use Rattle.can_json_texts.specs.Values.{tokens_of};
ghost use Rattle.dbc_ranges.specs.Ranges.{part_of};
ghost use Rattle.can_json_findings.specs.Findings.{subject_members, at_members};
ghost use Rattle.can_json_findings.specs.Locations.{ranges_line, location_line};

use crate::finding::{line_of, write_at};
use crate::subject::write_subject;
use can_diagnostics::Subject;
use can_json_texts::JsonText;
use dbc_ranges::{Part, Range, range_of};
use dbc_reader::Start;
use dbc_values::Memory;

#[tactic(auto, using(can_json_texts::proofs::Tokens::members_then))]
fn write_members(text: &mut JsonText, subject: &Subject, ranges: &[Range]) -> Result<(), Memory>
    ensures { OnOk result (text.new ≡ text.old ++ tokens_of (subject_members subject.now ++ at_members ranges.now)) }
{
    write_subject(text, subject)?;
    write_at(text, ranges)
}

#[tactic(auto, using(can_json_texts::proofs::Tokens::object_written))]
fn write_object(text: &mut JsonText, subject: &Subject, ranges: &[Range]) -> Result<(), Memory>
    ensures { OnOk result (text.new ≡ text.old ++ json_tokens (object_of (subject_members subject.now
        ++ at_members ranges.now))) }
{
    text.begin_object()?;
    write_members(text, subject, ranges)?;
    text.end_object()?;
    Ok(())
}

/// Appends the line of something with its ranges to the lines.
pub(crate) fn push_ranges(
    lines: &mut Vec<u8>,
    subject: &Subject,
    ranges: &[Range],
) -> Result<(), Memory>
    ensures { OnOk result (lines.new.items ≡ lines.old.items ++ ranges_line subject.now ranges.now) }
{
    let mut object = JsonText::new(*lines.allocator());
    write_object(&mut object, subject, ranges)?;
    let mut line = line_of(object)?;
    lines.append(&mut line)?;
    Ok(())
}

/// Appends the line of something to the lines, with the range of a part of the statement or signal that begins there in the text.
#[tactic(auto, unfolding(crate::specs::Locations::location_line))]
pub(crate) fn push_part(
    lines: &mut Vec<u8>,
    text: &[u8],
    subject: &Subject,
    start: Start,
    part: Part<'_>,
) -> Result<(), Memory>
    ensures { OnOk result (lines.new.items ≡ lines.old.items ++ location_line text.now (record {
      subject = subject.now;
      start = start;
      parts = part_of part.entry ∷ [];
    })) }
{
    let ranges = [range_of(text, start, part)];
    push_ranges(lines, subject, &ranges)
}
