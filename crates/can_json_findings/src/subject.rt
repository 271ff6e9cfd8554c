//! What diagnostics are about, as members.
ghost use Rattle.std.specs.Prelude.{◌≡◌, ◌∷◌, ◌++◌, [], OnOk, codes};
ghost use Rattle.std.specs.Fmt.{signed_decimal};
ghost use Rattle.json.specs.Json.{number as number_json};
ghost use Rattle.json.specs.Token.{number as number_token};
ghost use Rattle.can_json_texts.specs.Members.{text_members};
ghost use Rattle.can_json_texts.specs.Values.{tokens_of};
ghost use Rattle.dbc_records.specs.declared.target.Target.TheVariants as targets;
ghost use Rattle.dbc_records.specs.declared.entry_key.EntryKey.TheVariants as keys;
ghost use Rattle.can_json_findings.specs.Findings.{message_members, name_member, signal_members, target_members, object_members};
ghost use Rattle.can_json_findings.specs.Findings.{entry_member, key_members, subject_members};

use can_diagnostics::Subject;
use can_json_texts::{JsonText, write_member, write_string, write_text, write_whole};
use dbc_records::{EntryKey, Object, Target};
use dbc_values::{Memory, Name, Text};
use itoa::Buffer;

#[tactic(auto, using(can_json_texts::proofs::Tokens::members_then))]
fn write_message(text: &mut JsonText, number: u32, name: &Name) -> Result<(), Memory>
    ensures { OnOk result (text.new ≡ text.old ++ tokens_of (message_members number name.now)) }
{
    write_whole(text, "number", u64::from(number))?;
    write_member(text, "message", name)
}

// A message and the name of a part of it.
#[tactic(auto, using(can_json_texts::proofs::Tokens::members_then))]
fn write_part(
    text: &mut JsonText,
    number: u32,
    name: &Name,
    key: &str,
    part: &Name,
) -> Result<(), Memory>
    ensures { OnOk result (text.new ≡ text.old ++ tokens_of (message_members number name.now ++ name_member key.now part.now)) }
{
    write_message(text, number, name)?;
    write_member(text, key, part)
}

// A signal, by the names of its message and its own, and the name of a part of it.
#[tactic(auto, using(can_json_texts::proofs::Tokens::members_then))]
fn write_signal_part(
    text: &mut JsonText,
    number: u32,
    names: (&Name, &Name),
    key: &str,
    part: &Name,
) -> Result<(), Memory>
    ensures { OnOk result (text.new ≡ text.old ++ tokens_of (signal_members number names.entry.0.now names.entry.1.now
        ++ name_member key.now part.now)) }
{
    let (name, signal) = names;
    write_part(text, number, name, "signal", signal)?;
    write_member(text, key, part)
}

// A number with a sign or without.
#[tactic(auto, using(can_json_texts::proofs::Numbers::signed_is_number))]
fn write_number(text: &mut JsonText, value: i128) -> Result<(), Memory>
    ensures { OnOk result (text.new ≡ text.old ++ number_token (signed_decimal value) ∷ []) }
{
    let mut buffer = Buffer::new();
    text.number(buffer.format(value))
}

#[tactic(auto, using(can_json_texts::proofs::Tokens::member_written))]
fn write_value(text: &mut JsonText, value: i128) -> Result<(), Memory>
    ensures { OnOk result (text.new ≡ text.old ++ tokens_of ((codes "value", number_json (signed_decimal value)) ∷ [])) }
{
    text.key("value")?;
    write_number(text, value)
}

#[tactic(auto, using(can_json_texts::proofs::Tokens::members_then))]
fn write_described(
    text: &mut JsonText,
    number: u32,
    name: &Name,
    signal: &Name,
    value: i128,
) -> Result<(), Memory>
    ensures { OnOk result (text.new ≡ text.old ++ tokens_of (signal_members number name.now signal.now
        ++ ((codes "value", number_json (signed_decimal value)) ∷ []))) }
{
    write_part(text, number, name, "signal", signal)?;
    write_value(text, value)
}

#[tactic(auto, using(can_json_texts::proofs::Tokens::members_then))]
fn write_signal(text: &mut JsonText, number: u32, signal: &Name) -> Result<(), Memory>
    ensures { OnOk result (text.new ≡ text.old ++ tokens_of (target_members (targets.Signal number signal.now))) }
{
    write_whole(text, "number", u64::from(number))?;
    write_member(text, "signal", signal)
}

// What an entry describes.
#[tactic(auto, using(can_json_texts::proofs::Tokens::none_written))]
fn write_target(text: &mut JsonText, target: &Target) -> Result<(), Memory>
    ensures { OnOk result (text.new ≡ text.old ++ tokens_of (target_members target.now)) }
{
    match target {
        Target::Whole => Ok(()),
        Target::Node(name) => write_member(text, "node", name),
        Target::Message(number) => write_whole(text, "number", u64::from(*number)),
        Target::Signal(number, signal) => write_signal(text, *number, signal),
    }
}

#[tactic(auto, using(can_json_texts::proofs::Tokens::none_written))]
fn write_object(text: &mut JsonText, object: Option<Object>) -> Result<(), Memory>
    ensures { OnOk result (text.new ≡ text.old ++ tokens_of (object_members object)) }
{
    match object {
        Some(object) => write_member(text, "object", &object),
        None => Ok(()),
    }
}

fn write_entry(text: &mut JsonText, word: &str) -> Result<(), Memory>
    ensures { OnOk result (text.new ≡ text.old ++ tokens_of (entry_member word.now)) }
{
    write_string(text, "entry", word)
}

// The entry that has a text as its key.
#[tactic(auto, using(can_json_texts::proofs::Tokens::members_then))]
fn write_named(text: &mut JsonText, word: &str, name: &Text) -> Result<(), Memory>
    ensures { OnOk result (text.new ≡ text.old ++ tokens_of (entry_member word.now ++ text_members (codes "name") name.now)) }
{
    write_entry(text, word)?;
    write_text(text, "name", name.as_bytes())
}

#[tactic(auto, using(can_json_texts::proofs::Tokens::members_then))]
fn write_table(text: &mut JsonText, name: &Name) -> Result<(), Memory>
    ensures { OnOk result (text.new ≡ text.old ++ tokens_of (entry_member (codes "VAL_TABLE_")
        ++ name_member (codes "name") name.now)) }
{
    write_entry(text, "VAL_TABLE_")?;
    write_member(text, "name", name)
}

// The entry about this.
#[tactic(auto, using(can_json_texts::proofs::Tokens::members_then))]
fn write_comment(text: &mut JsonText, target: &Target) -> Result<(), Memory>
    ensures { OnOk result (text.new ≡ text.old ++ tokens_of (entry_member (codes "CM_") ++ target_members target.now)) }
{
    write_entry(text, "CM_")?;
    write_target(text, target)
}

#[tactic(auto, using(can_json_texts::proofs::Tokens::members_then))]
fn write_object_and_name(
    text: &mut JsonText,
    object: Option<Object>,
    name: &Text,
) -> Result<(), Memory>
    ensures { OnOk result (text.new ≡ text.old ++ tokens_of (object_members object ++ text_members (codes "name") name.now)) }
{
    write_object(text, object)?;
    write_text(text, "name", name.as_bytes())
}

#[tactic(auto, using(can_json_texts::proofs::Tokens::members_then))]
fn write_definition(text: &mut JsonText, object: Option<Object>, name: &Text) -> Result<(), Memory>
    ensures { OnOk result (text.new ≡ text.old ++ tokens_of (entry_member (codes "BA_DEF_") ++ (object_members object
        ++ text_members (codes "name") name.now))) }
{
    write_entry(text, "BA_DEF_")?;
    write_object_and_name(text, object, name)
}

#[tactic(auto, using(can_json_texts::proofs::Tokens::members_then))]
fn write_name_and_target(text: &mut JsonText, name: &Text, target: &Target) -> Result<(), Memory>
    ensures { OnOk result (text.new ≡ text.old ++ tokens_of (text_members (codes "name") name.now
        ++ target_members target.now)) }
{
    write_text(text, "name", name.as_bytes())?;
    write_target(text, target)
}

#[tactic(auto, using(can_json_texts::proofs::Tokens::members_then))]
fn write_attribute(text: &mut JsonText, name: &Text, target: &Target) -> Result<(), Memory>
    ensures { OnOk result (text.new ≡ text.old ++ tokens_of (entry_member (codes "BA_") ++ (text_members (codes "name") name.now
        ++ target_members target.now))) }
{
    write_entry(text, "BA_")?;
    write_name_and_target(text, name, target)
}

// The entry of a signal.
#[tactic(auto, using(can_json_texts::proofs::Tokens::members_then))]
fn write_signal_entry(
    text: &mut JsonText,
    word: &str,
    number: u32,
    signal: &Name,
) -> Result<(), Memory>
    ensures { OnOk result (text.new ≡ text.old ++ tokens_of (entry_member word.now
        ++ target_members (targets.Signal number signal.now))) }
{
    write_entry(text, word)?;
    write_signal(text, number, signal)
}

fn write_values(text: &mut JsonText, number: u32, signal: &Name) -> Result<(), Memory>
    ensures { OnOk result (text.new ≡ text.old ++ tokens_of (key_members (keys.Values number signal.now))) }
{
    write_signal_entry(text, "VAL_", number, signal)
}

fn write_float(text: &mut JsonText, number: u32, signal: &Name) -> Result<(), Memory>
    ensures { OnOk result (text.new ≡ text.old ++ tokens_of (key_members (keys.Float number signal.now))) }
{
    write_signal_entry(text, "SIG_VALTYPE_", number, signal)
}

fn write_mux(text: &mut JsonText, number: u32, signal: &Name) -> Result<(), Memory>
    ensures { OnOk result (text.new ≡ text.old ++ tokens_of (key_members (keys.Mux number signal.now))) }
{
    write_signal_entry(text, "SG_MUL_VAL_", number, signal)
}

fn write_key(text: &mut JsonText, key: &EntryKey) -> Result<(), Memory>
    ensures { OnOk result (text.new ≡ text.old ++ tokens_of (key_members key.now)) }
{
    match key {
        EntryKey::Table(name) => write_table(text, name),
        EntryKey::Comment(target) => write_comment(text, target),
        EntryKey::Definition(object, name) => write_definition(text, *object, name),
        EntryKey::Default(name) => write_named(text, "BA_DEF_DEF_", name),
        EntryKey::Attribute(name, target) => write_attribute(text, name, target),
        EntryKey::Values(number, signal) => write_values(text, *number, signal),
        EntryKey::Float(number, signal) => write_float(text, *number, signal),
        EntryKey::Mux(number, signal) => write_mux(text, *number, signal),
    }
}

/// Writes what a diagnostic, or a location, is about as members: names and numbers, and for an entry its keyword and key.
pub(crate) fn write_subject(text: &mut JsonText, subject: &Subject) -> Result<(), Memory>
    ensures { OnOk result (text.new ≡ text.old ++ tokens_of (subject_members subject.now)) }
{
    match subject {
        Subject::Message(number, name) => write_message(text, *number, name),
        Subject::Sender(number, name, node) => write_part(text, *number, name, "node", node),
        Subject::Signal(number, name, signal) => write_part(text, *number, name, "signal", signal),
        Subject::Pair(number, name, first, second) => {
            write_signal_part(text, *number, (name, first), "other", second)
        }
        Subject::Receiver(number, name, signal, node) => {
            write_signal_part(text, *number, (name, signal), "node", node)
        }
        Subject::Value(number, name, signal, value) => {
            write_described(text, *number, name, signal, *value)
        }
        Subject::Row(key) => write_key(text, key),
    }
}
