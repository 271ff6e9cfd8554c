//! The edits of a database.

use crate::change::Change;
use dbc_records::{AttrValue, Head, MuxRow, Signal, TableRow, ValueRow};
use dbc_values::{Name, Text};

/// A change of a database. Indexes of messages, and of signals within a message, count from 0.
///
/// An entry that is set replaces the first entry of its key, drops the others of it, and comes last if there was none.
#[derive(Drop)]
pub enum Edit {
    /// Inserts a message without signals at an index.
    AddMessage(usize, Head),
    /// Removes the message at an index, and the entries of its CAN identifier if no other message has it.
    RemoveMessage(usize),
    /// Changes the first line of the message at an index, except its CAN identifier.
    ChangeMessage(usize, Change),
    /// Gives the message at an index and all entries of its CAN identifier another CAN identifier.
    Renumber(usize, u32),
    /// Inserts a signal at the second index of the message at the first.
    AddSignal(usize, usize, Signal),
    /// Removes the signal of a name from the message at an index, and its entries if no other message of the CAN identifier has
    /// such a signal. Entries that name it as their multiplexor (switch) stay.
    RemoveSignal(usize, Name),
    /// Replaces the signal of the same name in the message at an index.
    ChangeSignal(usize, Signal),
    /// Renames the signal of a name in the message at an index, and in all entries of the message's CAN identifier that name it,
    /// also as their multiplexor. Statements kept verbatim stay.
    RenameSignal(usize, Name, Name),
    /// Sets the `SG_MUL_VAL_` entry of a signal.
    SetMux(MuxRow),
    /// Sets the value descriptions of a signal.
    SetValues(ValueRow),
    /// Removes the `SG_MUL_VAL_` entries of a signal, by CAN identifier and name.
    DropMux(u32, Name),
    /// Removes the `VAL_` entries of a signal, by CAN identifier and name.
    DropValues(u32, Name),
    /// Removes the value tables of a name.
    DropTable(Name),
    /// Sets a value table.
    SetTable(TableRow),
    /// Sets the attribute of a name for the message of a CAN identifier.
    SetAttribute(Text, u32, AttrValue),
    /// Removes the entries of the attribute of a name for the message of a CAN identifier.
    DropAttribute(Text, u32),
}
