//! The parts of the text that findings are about.
ghost use Rattle.std.specs.Prelude.{◌≡◌, ◌≤◌, IfOk};
ghost use Rattle.dbc_ranges.specs.Ranges.{part_of as part_view, range_of};
ghost use Rattle.can_json_findings.specs.Marks.{message_part, signal_part, repetition, target_items, key_items, part_about};
ghost use Rattle.can_json_findings.specs.Marks.{ranges_of};

use can_diagnostics::{Code, Subject};
use can_findings::{Finding, Location};
use dbc_ranges::{DescribedValue, Part, Range, range_of};
use dbc_records::{EntryKey, Target};
use dbc_values::Memory;
use std::alloc::Global;

// The part of a signal, or of its entry, that a code is about.
fn signal_part(code: Code) -> Part<'static>
    ensures { part_view result ≡ signal_part code }
{
    match code {
        Code::NoSwitch | Code::BadMuxRow | Code::SwitchLoop => Part::Multiplexor,
        Code::Float => Part::FloatKind,
        Code::Long => Part::Length,
        Code::Scale => Part::Scale,
        _ => Part::Position,
    }
}

fn message_part(code: Code) -> Part<'static>
    ensures { part_view result ≡ message_part code }
{
    match code {
        Code::SharedName => Part::Name,
        _ => Part::Number,
    }
}

// All equal value descriptions except the first are repetitions.
fn repetition(code: Code) -> usize
    ensures { result ≡ repetition code }
{
    match code {
        Code::RepeatedValue => 1,
        _ => 0,
    }
}

// How many items name this.
fn target_items(target: &Target) -> usize
    ensures value { result ≡ target_items target.now }
    ensures in_range { result ≤ 3 }
{
    match target {
        Target::Whole => 0,
        Target::Node(_) => 2,
        Target::Message(_) => 2,
        Target::Signal(..) => 3,
    }
}

/// How many items the key of an entry has, from its keyword on.
pub(crate) fn key_items(key: &EntryKey) -> usize
    ensures { result ≡ key_items key.now }
{
    match key {
        EntryKey::Table(_) => 2,
        EntryKey::Comment(target) => 1 + target_items(target),
        EntryKey::Definition(None, _) => 2,
        EntryKey::Definition(Some(_), _) => 3,
        EntryKey::Default(_) => 2,
        EntryKey::Attribute(_, target) => 2 + target_items(target),
        EntryKey::Values(..) => 3,
        EntryKey::Float(..) => 3,
        EntryKey::Mux(..) => 3,
    }
}

// The part that a diagnostic is about.
fn part_about(code: Code, subject: &Subject) -> Part<'_>
    ensures { part_view result ≡ part_about code subject.now }
{
    match subject {
        Subject::Message(..) => message_part(code),
        Subject::Sender(..) => Part::Sender,
        Subject::Signal(..) => signal_part(code),
        Subject::Pair(..) => Part::Position,
        Subject::Receiver(_, _, _, node) => Part::Receiver(node.as_bytes()),
        Subject::Value(_, _, _, value) => Part::Value(DescribedValue {
            number: *value,
            index: repetition(code),
        }),
        Subject::Row(key) => Part::Key(key_items(key)),
    }
}

/// The ranges that a finding is about in the text in which it was found: one, or for two signals one each.
pub(crate) fn ranges_of(alloc: Global, text: &[u8], finding: &Finding) -> Result<Vec<Range>, Memory>
    ensures { IfOk result (λ ranges. ranges.items ≡ ranges_of text.now finding.now) }
{
    let part = part_about(finding.diagnostic.code, &finding.diagnostic.subject);
    let mut ranges = Vec::new(alloc);
    match finding.location {
        Location::One(start) => ranges.push(range_of(text, start, part))?,
        Location::Both(first, second) => {
            ranges.push(range_of(text, first, part))?;
            ranges.push(range_of(text, second, part))?;
        }
    }
    Ok(ranges)
}
