//! The rows of a line.
ghost use Rattle.std.specs.Prelude.{◌≡◌, ◌∷◌, ◌++◌, [], OnOk, decimal, option_map};
ghost use Rattle.can_json_texts.specs.Texts.{text_of};
ghost use Rattle.can_csv_lines.specs.Rows.{came_fields, message_rows, data_rows, frame_rows, rows_text, csv_line};
ghost use Rattle.can_csv_lines.specs.inner.Prepared.{body_text};

use crate::field::{push_field, push_further_number, push_further_text};
use crate::plan_texts::Columns;
use crate::signals::{CsvTarget, push_signal_rows};
use can_decode::MessageSearch;
use can_frames::{Frame, body_of, fill_frame};
use can_json_lines::{PreparedFinder, words_of};
use dbc_text_buffer::TextBuffer;
use dbc_values::Memory;

// Time, interface and identifier, as the first fields of a row.
fn push_words(
    text: &mut TextBuffer,
    time: &[u8],
    interface: &[u8],
    identifier: u32,
) -> Result<(), Memory>
    ensures { OnOk result (text.new.items ≡ text.old.items ++ body_text (time.now ∷ text_of interface.now ∷ decimal identifier
        ∷ [])) }
{
    push_field(text, time)?;
    push_further_text(text, interface)?;
    push_further_number(text, u64::from(identifier))?;
    Ok(())
}

fn push_came(text: &mut TextBuffer, body: &[u8], frame: &Frame) -> Result<(), Memory>
    ensures { OnOk result (text.new.items ≡ text.old.items ++ body_text (came_fields body.now frame.now)) }
{
    let words = words_of(body);
    push_words(text, words.time, words.interface, frame.identifier)
}

// The rows of a message. The first fields of each are made in `came`, whatever that holds before.
fn push_message(
    text: &mut TextBuffer,
    came: &mut TextBuffer,
    body: &[u8],
    frame: &Frame,
    target: &CsvTarget<'_>,
) -> Result<(), Memory>
    ensures { OnOk result (text.new.items ≡ text.old.items ++ rows_text (message_rows (came_fields body.now frame.now) frame.now
        target.now)) }
{
    if target.refuses(frame.bytes.len()) {
        return Ok(());
    }
    came.clear();
    push_came(came, body, frame)?;
    push_signal_rows(text, came.as_slice(), target, frame.bytes.as_slice())?;
    Ok(())
}

// The rows of a data frame.
fn push_data(
    text: &mut TextBuffer,
    came: &mut TextBuffer,
    body: &[u8],
    frame: &Frame,
    target: Option<&CsvTarget<'_>>,
) -> Result<(), Memory>
    ensures { OnOk result (text.new.items ≡ text.old.items ++ rows_text (data_rows (came_fields body.now frame.now) frame.now
        (option_map (λ target. target.now) target.entry))) }
{
    match target {
        None => Ok(()),
        Some(target) => push_message(text, came, body, frame, target),
    }
}

// The rows of a frame.
fn push_frame(
    text: &mut TextBuffer,
    came: &mut TextBuffer,
    body: &[u8],
    frame: &Frame,
    target: Option<&CsvTarget<'_>>,
) -> Result<(), Memory>
    ensures { OnOk result (text.new.items ≡ text.old.items ++ rows_text (frame_rows (came_fields body.now frame.now) frame.now
        (option_map (λ target. target.now) target.entry))) }
{
    if frame.is_data() {
        push_data(text, came, body, frame, target)
    } else {
        Ok(())
    }
}

/// Appends the rows of a line. The first fields of each are made in `came`, whatever that holds before.
#[tactic(auto, unfolding(crate::specs::Rows::line_rows))]
pub(crate) fn push_line<C: MessageSearch>(
    text: &mut TextBuffer,
    came: &mut TextBuffer,
    finder: &mut PreparedFinder<'_, C, Columns>,
    line: &[u8],
) -> Result<(), Memory>
    ensures text { OnOk result (text.new.items ≡ text.old.items ++ csv_line finder.old line.now) }
    ensures same { finder.new ≡ finder.old }
{
    let mut frame = Frame::empty();
    if !fill_frame(&mut frame, line) {
        return Ok(());
    }
    let target = finder.target_of(&frame)?;
    push_frame(text, came, body_of(line), &frame, target.as_ref())
}
