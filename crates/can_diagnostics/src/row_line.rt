//! Entries, named by what is printed of them up to and including their keys.
ghost use Rattle.std.specs.Prelude.{◌≡◌, ◌++◌, codes};
ghost use Rattle.byte_devices.specs.Outs.{Sends};
ghost use Rattle.dbc_records.specs.CanonicalText.{word_layout, spaced_name, spaced_text, spaced_word, target_layout, object_word};
ghost use Rattle.dbc_records.specs.CanonicalText.{object_layout, signal_key};
ghost use Rattle.can_diagnostics.specs.Lines.{shown, row_text};

use crate::showing::send_shown;
use byte_devices::{Out, Sink, WriteFault};
use dbc_records::{EntryKey, Object, Target};
use dbc_values::{Name, Text};
use itoa::Buffer;

#[tactic(auto, unfolding(crate::specs::Lines::shown, dbc_records::specs::Layout::layout_text, dbc_records::specs::CanonicalText::word_layout))]
fn send_word<W: Sink>(out: &mut Out<'_, W>, word: &[u8]) -> Result<(), WriteFault>
    ensures { Sends W.written out.old out.new result (shown (word_layout word.now)) }
{
    send_shown(out, &[word])
}

#[tactic(auto, unfolding(crate::specs::Lines::shown, dbc_records::specs::Layout::layout_text, dbc_records::specs::CanonicalText::spaced_word))]
fn send_spaced_word<W: Sink>(out: &mut Out<'_, W>, word: &[u8]) -> Result<(), WriteFault>
    ensures { Sends W.written out.old out.new result (shown (spaced_word word.now)) }
{
    send_shown(out, &[b" ".as_slice(), word])
}

#[tactic(auto, unfolding(crate::specs::Lines::shown, dbc_records::specs::Layout::layout_text, dbc_records::specs::CanonicalText::spaced_name))]
fn send_spaced_name<W: Sink>(out: &mut Out<'_, W>, name: &Name) -> Result<(), WriteFault>
    ensures { Sends W.written out.old out.new result (shown (spaced_name name.now)) }
{
    send_shown(out, &[b" ".as_slice(), name.as_bytes()])
}

#[tactic(auto, unfolding(crate::specs::Lines::shown, dbc_records::specs::Layout::layout_text, dbc_records::specs::CanonicalText::spaced_text))]
fn send_spaced_text<W: Sink>(out: &mut Out<'_, W>, text: &Text) -> Result<(), WriteFault>
    ensures { Sends W.written out.old out.new result (shown (spaced_text text.now)) }
{
    send_shown(out, &[b" \"".as_slice(), text.as_bytes(), b"\""])
}

#[tactic(auto, unfolding(crate::specs::Lines::shown, dbc_records::specs::Layout::layout_text, dbc_records::specs::CanonicalText::signal_key))]
fn send_signal_key<W: Sink>(
    out: &mut Out<'_, W>,
    number: u32,
    signal: &Name,
) -> Result<(), WriteFault>
    ensures { Sends W.written out.old out.new result (shown (signal_key number signal.now)) }
{
    let mut buffer = Buffer::new();
    let pieces: [&[u8]; 4] = [
        b" ",
        buffer.format(number).as_bytes(),
        b" ",
        signal.as_bytes(),
    ];
    send_shown(out, &pieces)
}

#[tactic(auto, unfolding(crate::specs::Lines::shown, crate::specs::Lines::blanked, dbc_records::specs::Layout::layout_text, dbc_records::specs::CanonicalText::target_layout))]
fn send_target<W: Sink>(out: &mut Out<'_, W>, target: &Target) -> Result<(), WriteFault>
    ensures { Sends W.written out.old out.new result (shown (target_layout target.now)) }
{
    let mut buffer = Buffer::new();
    match target {
        Target::Whole => Ok(()),
        Target::Node(name) => send_shown(out, &[b" BU_ ".as_slice(), name.as_bytes()]),
        Target::Message(number) => {
            let pieces: [&[u8]; 2] = [b" BO_ ", buffer.format(*number).as_bytes()];
            send_shown(out, &pieces)
        }
        Target::Signal(number, signal) => {
            let pieces: [&[u8]; 4] = [
                b" SG_ ",
                buffer.format(*number).as_bytes(),
                b" ",
                signal.as_bytes(),
            ];
            send_shown(out, &pieces)
        }
    }
}

fn word_of(object: Object) -> &'static [u8]
    ensures { result.now ≡ object_word object }
{
    match object {
        Object::Node => b"BU_",
        Object::Message => b"BO_",
        Object::Signal => b"SG_",
        Object::EnvironmentVariable => b"EV_",
    }
}

#[tactic(auto, using(crate::proofs::Shown::layouts), unfolding(dbc_records::specs::CanonicalText::object_layout))]
fn send_object<W: Sink>(out: &mut Out<'_, W>, object: Option<Object>) -> Result<(), WriteFault>
    ensures { Sends W.written out.old out.new result (shown (object_layout object)) }
{
    match object {
        Some(object) => send_spaced_word(out, word_of(object)),
        None => Ok(()),
    }
}

#[tactic(auto, using(crate::proofs::Shown::layouts))]
fn send_table<W: Sink>(out: &mut Out<'_, W>, name: &Name) -> Result<(), WriteFault>
    ensures { Sends W.written out.old out.new result (shown (word_layout (codes "VAL_TABLE_") ++ spaced_name name.now)) }
{
    send_word(out, b"VAL_TABLE_")?;
    send_spaced_name(out, name)
}

#[tactic(auto, using(crate::proofs::Shown::layouts))]
fn send_comment<W: Sink>(out: &mut Out<'_, W>, target: &Target) -> Result<(), WriteFault>
    ensures { Sends W.written out.old out.new result (shown (word_layout (codes "CM_") ++ target_layout target.now)) }
{
    send_word(out, b"CM_")?;
    send_target(out, target)
}

#[tactic(auto, using(crate::proofs::Shown::layouts))]
fn send_definition<W: Sink>(
    out: &mut Out<'_, W>,
    object: Option<Object>,
    name: &Text,
) -> Result<(), WriteFault>
    ensures { Sends W.written out.old out.new result
        (shown (word_layout (codes "BA_DEF_") ++ (object_layout object ++ spaced_text name.now))) }
{
    send_word(out, b"BA_DEF_")?;
    send_object(out, object)?;
    send_spaced_text(out, name)
}

#[tactic(auto, using(crate::proofs::Shown::layouts))]
fn send_default<W: Sink>(out: &mut Out<'_, W>, name: &Text) -> Result<(), WriteFault>
    ensures { Sends W.written out.old out.new result (shown (word_layout (codes "BA_DEF_DEF_") ++ spaced_text name.now)) }
{
    send_word(out, b"BA_DEF_DEF_")?;
    send_spaced_text(out, name)
}

#[tactic(auto, using(crate::proofs::Shown::layouts))]
fn send_attribute<W: Sink>(
    out: &mut Out<'_, W>,
    name: &Text,
    target: &Target,
) -> Result<(), WriteFault>
    ensures { Sends W.written out.old out.new result
        (shown (word_layout (codes "BA_") ++ (spaced_text name.now ++ target_layout target.now))) }
{
    send_word(out, b"BA_")?;
    send_spaced_text(out, name)?;
    send_target(out, target)
}

// An entry of a signal.
#[tactic(auto, using(crate::proofs::Shown::layouts))]
fn send_signal_row<W: Sink>(
    out: &mut Out<'_, W>,
    word: &[u8],
    number: u32,
    signal: &Name,
) -> Result<(), WriteFault>
    ensures { Sends W.written out.old out.new result (shown (word_layout word.now ++ signal_key number signal.now)) }
{
    send_word(out, word)?;
    send_signal_key(out, number, signal)
}

/// Holds what is printed of an entry up to and including its key, on one line.
#[tactic(auto, unfolding(crate::specs::Lines::row_text, dbc_records::specs::EntryKeys::key_layout))]
pub(crate) fn send_row<W: Sink>(out: &mut Out<'_, W>, key: &EntryKey) -> Result<(), WriteFault>
    ensures { Sends W.written out.old out.new result (row_text key.now) }
{
    match key {
        EntryKey::Table(name) => send_table(out, name),
        EntryKey::Comment(target) => send_comment(out, target),
        EntryKey::Definition(object, name) => send_definition(out, *object, name),
        EntryKey::Default(name) => send_default(out, name),
        EntryKey::Attribute(name, target) => send_attribute(out, name, target),
        EntryKey::Values(number, signal) => send_signal_row(out, b"VAL_", *number, signal),
        EntryKey::Float(number, signal) => {
            send_signal_row(out, b"SIG_VALTYPE_", *number, signal)
        }
        EntryKey::Mux(number, signal) => send_signal_row(out, b"SG_MUL_VAL_", *number, signal),
    }
}
