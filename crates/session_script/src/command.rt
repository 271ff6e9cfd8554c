//! What a line asks for.

use dbc_edits::Edit;

/// What a line of a script asks for.
#[derive(Drop)]
pub enum Command<'a> {
    /// A line of a log comes.
    Log(&'a [u8]),
    /// The database is edited.
    Change(Edit),
    /// The diagnostics are shown.
    ShowDiagnostics,
    /// The diagram of the message at an index is shown.
    ShowLayout(u32),
    /// The decoded lines are shown.
    ShowLines,
    /// The database is printed.
    Print,
}
