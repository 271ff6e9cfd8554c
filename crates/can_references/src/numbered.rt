//! Signals with their message IDs and marks.

/// A signal. The mark takes no extra space: without it four bytes would be unused.
#[derive(Clone, Copy)]
pub(crate) struct Numbered<'a> {
    /// The CAN identifier of the message.
    pub number: u32,
    /// The mark of the name, or 0 if no marks are made.
    pub hash: u32,
    /// The name.
    pub name: &'a [u8],
}
