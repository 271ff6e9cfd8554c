//! One statement.

use dbc_records::{AttrRow, Head, MuxRow, Signal, TableRow, ValueRow};

/// A statement on its own, as an edit of a database names it.
#[derive(Drop)]
pub enum Statement {
    /// `BO_`: a message without its signals.
    Head(Head),
    /// `SG_`.
    Signal(Signal),
    /// `VAL_TABLE_`.
    Table(TableRow),
    /// `VAL_` of a signal.
    Values(ValueRow),
    /// `SG_MUL_VAL_`.
    Mux(MuxRow),
    /// `BA_` of a message.
    Attribute(AttrRow),
}
