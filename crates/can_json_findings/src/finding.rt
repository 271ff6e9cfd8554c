//! The line of a finding.
ghost use Rattle.std.specs.Prelude.{◌≡◌, ◌∷◌, ◌++◌, [], IfOk, OnOk, codes};
ghost use Rattle.json.specs.Json.{string};
ghost use Rattle.json.specs.Print.{print};
ghost use Rattle.json.specs.Tree.{json_tokens};
ghost use Rattle.can_json_texts.specs.Members.{text_members};
ghost use Rattle.can_json_texts.specs.Records.{whole_json};
ghost use Rattle.can_json_texts.specs.Values.{array_of, tokens_of};
ghost use Rattle.std.specs.Prelude.{map};
ghost use Rattle.std.specs.List.{flat_map};
ghost use Rattle.can_diagnostics.specs.Codes.{code_word};
ghost use Rattle.can_json_findings.specs.Findings.{severity, code_members, range_json, at_members, end_members, diagnostic_members};
ghost use Rattle.can_json_findings.specs.Findings.{diagnostic_json, subject_members, finding_line};

use crate::ranges::ranges_of;
use crate::subject::write_subject;
use can_diagnostics::{Code, Diagnostic};
use can_findings::{Finding, remedy};
use can_json_texts::{JsonText, write_string, write_text, write_whole};
use dbc_ranges::Range;
use dbc_values::Memory;
use std::alloc::Global;

fn severity(code: Code) -> &'static str
    ensures { result.now ≡ severity code }
{
    match code {
        Code::Float | Code::Long => "information",
        _ => "warning",
    }
}

#[tactic(auto, using(can_json_texts::proofs::Tokens::members_then))]
fn write_word_and_severity(text: &mut JsonText, code: Code) -> Result<(), Memory>
    ensures { OnOk result (text.new ≡ text.old ++ tokens_of (text_members (codes "word") (code_word code)
        ++ ((codes "severity", string (severity code)) ∷ []))) }
{
    write_text(text, "word", code.word())?;
    write_string(text, "severity", severity(code))
}

#[tactic(auto, using(can_json_texts::proofs::Tokens::members_then))]
fn write_code(text: &mut JsonText, code: Code) -> Result<(), Memory>
    ensures { OnOk result (text.new ≡ text.old ++ tokens_of (code_members code)) }
{
    write_whole(text, "code", u64::from(code.number()))?;
    write_word_and_severity(text, code)
}

#[tactic(auto, using(can_json_texts::proofs::Tokens::members_then))]
fn write_from_and_to(text: &mut JsonText, range: Range) -> Result<(), Memory>
    ensures { OnOk result (text.new ≡ text.old ++ tokens_of ((codes "from", whole_json range.from)
        ∷ (codes "to", whole_json range.to) ∷ [])) }
{
    write_whole(text, "from", range.from as u64)?;
    write_whole(text, "to", range.to as u64)
}

#[tactic(auto, using(can_json_texts::proofs::Tokens::members_then))]
fn write_range_members(text: &mut JsonText, range: Range) -> Result<(), Memory>
    ensures { OnOk result (text.new ≡ text.old ++ tokens_of ((codes "line", whole_json range.line)
        ∷ (codes "from", whole_json range.from) ∷ (codes "to", whole_json range.to) ∷ [])) }
{
    write_whole(text, "line", range.line)?;
    write_from_and_to(text, range)
}

#[tactic(auto, using(can_json_texts::proofs::Tokens::object_written))]
fn write_range(text: &mut JsonText, range: Range) -> Result<(), Memory>
    ensures { OnOk result (text.new ≡ text.old ++ json_tokens (range_json range)) }
{
    text.begin_object()?;
    write_range_members(text, range)?;
    text.end_object()?;
    Ok(())
}

// Ranges one after another.
fn write_each(text: &mut JsonText, ranges: &[Range]) -> Result<(), Memory>
    ensures { OnOk result (text.new ≡ text.old ++ flat_map (λ range. json_tokens (range_json range)) ranges.now) }
{
    for range in ranges {
        write_range(text, *range)?;
    }
    Ok(())
}

#[tactic(auto, using(can_json_texts::proofs::Tokens::array_written))]
fn write_ranges(text: &mut JsonText, ranges: &[Range]) -> Result<(), Memory>
    ensures { OnOk result (text.new ≡ text.old ++ json_tokens (array_of (map range_json ranges.now))) }
{
    text.begin_array()?;
    write_each(text, ranges)?;
    text.end_array()?;
    Ok(())
}

/// Writes the member `at` of an object: the ranges of its parts in a text.
#[tactic(auto, using(can_json_texts::proofs::Tokens::member_written))]
pub(crate) fn write_at(text: &mut JsonText, ranges: &[Range]) -> Result<(), Memory>
    ensures { OnOk result (text.new ≡ text.old ++ tokens_of (at_members ranges.now)) }
{
    text.key("at")?;
    write_ranges(text, ranges)
}

#[tactic(auto, using(can_json_texts::proofs::Tokens::members_then))]
fn write_end(text: &mut JsonText, code: Code, ranges: &[Range]) -> Result<(), Memory>
    ensures { OnOk result (text.new ≡ text.old ++ tokens_of (end_members code ranges.now)) }
{
    write_text(text, "remedy", remedy(code))?;
    write_at(text, ranges)
}

#[tactic(auto, using(can_json_texts::proofs::Tokens::members_then))]
fn write_subject_and_end(
    text: &mut JsonText,
    diagnostic: &Diagnostic,
    ranges: &[Range],
) -> Result<(), Memory>
    ensures { OnOk result (text.new ≡ text.old ++ tokens_of (subject_members diagnostic.now.subject
        ++ end_members diagnostic.now.code ranges.now)) }
{
    write_subject(text, &diagnostic.subject)?;
    write_end(text, diagnostic.code, ranges)
}

#[tactic(auto, using(can_json_texts::proofs::Tokens::members_then))]
fn write_members(
    text: &mut JsonText,
    diagnostic: &Diagnostic,
    ranges: &[Range],
) -> Result<(), Memory>
    ensures { OnOk result (text.new ≡ text.old ++ tokens_of (diagnostic_members diagnostic.now ranges.now)) }
{
    write_code(text, diagnostic.code)?;
    write_subject_and_end(text, diagnostic, ranges)
}

#[tactic(auto, using(can_json_texts::proofs::Tokens::object_written))]
fn write_object(
    text: &mut JsonText,
    diagnostic: &Diagnostic,
    ranges: &[Range],
) -> Result<(), Memory>
    ensures { OnOk result (text.new ≡ text.old ++ json_tokens (diagnostic_json diagnostic.now ranges.now)) }
{
    text.begin_object()?;
    write_members(text, diagnostic, ranges)?;
    text.end_object()?;
    Ok(())
}

/// The text of an object as a line: with an LF.
pub(crate) fn line_of(text: JsonText) -> Result<Vec<u8>, Memory>
    ensures { IfOk result (λ line. line.items ≡ print text ++ codes "\n") }
{
    let mut line = text.into_bytes();
    line.push(b'\n')?;
    Ok(line)
}

/// The line of a finding in the text of a database: an object and an LF.
pub fn finding_line(alloc: Global, text: &[u8], finding: &Finding) -> Result<Vec<u8>, Memory>
    ensures { IfOk result (λ line. line.items ≡ finding_line text.now finding.now) }
{
    let ranges = ranges_of(alloc, text, finding)?;
    let mut object = JsonText::new(alloc);
    write_object(&mut object, &finding.diagnostic, ranges.as_slice())?;
    line_of(object)
}
