//! What is prepared.
ghost use Rattle.std.specs.Prelude.{◌≡◌, IfOk};

use can_layout::Row;
use dbc_records::Message;
use dbc_text_buffer::TextBuffer;
use dbc_values::Memory;

/// What is prepared of a message, and of each of its signals. Each is made in a buffer, whatever that holds before.
pub trait Prepare: Drop {
    ghost use Rattle.dbc_records.specs.Records as records;
    ghost use Rattle.can_layout.specs.declared.row.Row as rows;

    /// What is prepared of a message.
    type Head: Drop;

    /// What is prepared of a signal.
    type Signal: Drop;

    // The text of a message.
    ghost head_of: { records.Message → Self.Head };

    // The text of a signal of a message.
    ghost signal_of: { records.Message → rows.Row → Self.Signal };

    /// Prepares what a message has.
    fn head(&self, text: &mut TextBuffer, message: &Message) -> Result<Self::Head, Memory>
        ensures { IfOk result (λ head. head ≡ head_of message.now) };

    /// Prepares what a signal has.
    fn signal(
        &self,
        text: &mut TextBuffer,
        message: &Message,
        row: &Row,
    ) -> Result<Self::Signal, Memory>
        ensures { IfOk result (λ signal. signal ≡ signal_of message.now row.now) };
}
