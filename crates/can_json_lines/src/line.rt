//! The object of a line.
ghost use Rattle.std.specs.Prelude.{◌≡◌, ◌++◌, OnOk, codes, option_map};
ghost use Rattle.json.specs.Json.{number};
ghost use Rattle.can_json_texts.specs.Members.{Key as PlainKey, keyed, further_members, object_text, text_members};
ghost use Rattle.can_json_lines.specs.Lines.{frame_members, stated_members, rest_members, known_members, line_members};

use crate::finder::PreparedFinder;
use crate::frame::{push_frame, push_stated};
use crate::interface::Ready;
use crate::keys::{Keys, LineKeys};
use crate::signals::JsonTarget;
use crate::words::{Words, words_of};
use can_decode::MessageSearch;
use can_frames::{Frame, body_of, fill_frame};
use dbc_text_buffer::TextBuffer;
use dbc_values::Memory;

// When and on which interface a frame came.
#[tactic(auto, using(crate::proofs::Pushing::pushed_then))]
fn push_came(text: &mut TextBuffer, ready: &mut Ready<'_>, words: &Words<'_>) -> Result<(), Memory>
    ensures { OnOk result (text.new.items ≡ text.old.items ++ (keyed (record { mark = 123; name = codes "time" })
        (number words.now.time.now) ++ further_members (text_members (codes "interface") words.now.interface.now))) }
{
    ready.keys.line.time.push_digits(text, words.time)?;
    ready.push_interface(text, words.interface)?;
    Ok(())
}

// What follows the frame, if anything does.
fn push_rest(text: &mut TextBuffer, keys: &LineKeys, rest: &[u8]) -> Result<(), Memory>
    ensures { OnOk result (text.new.items ≡ text.old.items ++ further_members (rest_members rest.now)) }
{
    match rest {
        [] => Ok(()),
        [..] => keys.rest.push_texts(text, rest),
    }
}

// A frame with its decoded form, and what follows it.
#[tactic(auto, using(crate::proofs::Pushing::pushed_then))]
fn push_after_came(
    text: &mut TextBuffer,
    keys: &Keys,
    frame: &Frame,
    target: Option<&JsonTarget<'_>>,
    rest: &[u8],
) -> Result<(), Memory>
    ensures { OnOk result (text.new.items ≡ text.old.items ++ (further_members (frame_members frame.now)
        ++ (further_members (stated_members frame.now.kind frame.now (option_map (λ target. target.now) target.entry))
        ++ further_members (rest_members rest.now)))) }
{
    push_frame(text, &keys.line, frame)?;
    push_stated(text, keys, frame, target)?;
    push_rest(text, &keys.line, rest)?;
    Ok(())
}

// A line with a frame.
fn push_decoded(
    text: &mut TextBuffer,
    ready: &mut Ready<'_>,
    body: &[u8],
    frame: &Frame,
    target: Option<&JsonTarget<'_>>,
) -> Result<(), Memory>
    ensures { OnOk result (text.new.items ≡ text.old.items ++ object_text (known_members body.now frame.now
        (option_map (λ target. target.now) target.entry))) }
{
    let words = words_of(body);
    push_came(text, ready, &words)?;
    push_after_came(text, ready.keys, frame, target, words.rest)?;
    text.push(b'}')?;
    Ok(())
}

// A line without a frame.
fn push_unread(text: &mut TextBuffer, keys: &LineKeys, body: &[u8]) -> Result<(), Memory>
    ensures { OnOk result (text.new.items ≡ text.old.items ++ object_text (text_members (codes "line") body.now)) }
{
    keys.line.push_texts(text, body)?;
    text.push(b'}')?;
    Ok(())
}

/// Appends the object of a line.
#[tactic(auto, unfolding(crate::specs::Lines::line_members))]
pub(crate) fn push_line<C: MessageSearch>(
    text: &mut TextBuffer,
    ready: &mut Ready<'_>,
    finder: &mut PreparedFinder<'_, C, Keys>,
    line: &[u8],
) -> Result<(), Memory>
    ensures text { OnOk result (text.new.items ≡ text.old.items ++ object_text (line_members finder.old line.now)) }
    ensures same { finder.new ≡ finder.old }
{
    let body = body_of(line);
    let mut frame = Frame::empty();
    if !fill_frame(&mut frame, line) {
        return push_unread(text, &ready.keys.line, body);
    }
    let target = finder.target_of(&frame)?;
    push_decoded(text, ready, body, &frame, target.as_ref())
}
