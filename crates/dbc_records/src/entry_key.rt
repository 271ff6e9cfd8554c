//! The keys of entries: what each statement of a database describes.
ghost use Rattle.std.specs.Prelude.{◌≡◌};
ghost use Rattle.dbc_records.specs.EntryKeys.{target_of, entry_key, key_target};

use crate::definition::Object;
use crate::target::Target;
use dbc_values::{Checked, Copied, Memory, Name, Text};

/// The kind of an entry and its key.
#[derive(Drop)]
pub enum EntryKey {
    /// The value table of this name: `VAL_TABLE_`.
    Table(Name),
    /// The comment on this: `CM_`.
    Comment(Target),
    /// The definition of the attribute of this name, for this kind of object: `BA_DEF_`.
    Definition(Option<Object>, Text),
    /// The default of the attribute of this name: `BA_DEF_DEF_`.
    Default(Text),
    /// The value of the attribute of this name at this: `BA_`.
    Attribute(Text, Target),
    /// The value descriptions of the signal of this message ID and name: `VAL_`.
    Values(u32, Name),
    /// The float type of the signal of this message ID and name: `SIG_VALTYPE_`.
    Float(u32, Name),
    /// The multiplexing of the signal of this message ID and name: `SG_MUL_VAL_`.
    Mux(u32, Name),
}

impl Checked for EntryKey {
    ghost use Rattle.dbc_records.specs.EntryKeys.{IsEntryKey};

    ghost IsValid = { IsEntryKey };
}

impl Copied for EntryKey {
    fn copy(&self) -> Result<EntryKey, Memory> {
        match self {
            EntryKey::Table(name) => Ok(EntryKey::Table(name.copy()?)),
            EntryKey::Comment(target) => Ok(EntryKey::Comment(target.copy()?)),
            EntryKey::Definition(object, name) => Ok(EntryKey::Definition(*object, name.copy()?)),
            EntryKey::Default(name) => Ok(EntryKey::Default(name.copy()?)),
            EntryKey::Attribute(name, target) => {
                let name = name.copy()?;
                let target = target.copy()?;
                Ok(EntryKey::Attribute(name, target))
            }
            EntryKey::Values(number, signal) => Ok(EntryKey::Values(*number, signal.copy()?)),
            EntryKey::Float(number, signal) => Ok(EntryKey::Float(*number, signal.copy()?)),
            EntryKey::Mux(number, signal) => Ok(EntryKey::Mux(*number, signal.copy()?)),
        }
    }
}

/// A [`Target`] whose names are borrowed.
#[derive(Clone, Copy, PartialEq, Eq, PartialOrd, Ord)]
pub enum TargetRef<'a> {
    /// The whole database.
    Whole,
    /// The node of this name.
    Node(&'a [u8]),
    /// The message of this CAN identifier.
    Message(u32),
    /// The signal of this message ID and name.
    Signal(u32, &'a [u8]),
}

impl<'a> TargetRef<'a> {
    /// The target, borrowed.
    pub fn of(target: &'a Target) -> TargetRef<'a>
        ensures { target_of result ≡ target.now }
    {
        match target {
            Target::Whole => TargetRef::Whole,
            Target::Node(name) => TargetRef::Node(name.as_bytes()),
            Target::Message(number) => TargetRef::Message(*number),
            Target::Signal(number, name) => TargetRef::Signal(*number, name.as_bytes()),
        }
    }
}

/// An [`EntryKey`] whose names are borrowed. The object of a definition is no part of its key, so comparisons pass over it.
#[derive(Clone, Copy)]
#[derive_where(PartialEq, Eq, PartialOrd, Ord)]
pub enum EntryKeyRef<'a> {
    /// A value table.
    Table(&'a [u8]),
    /// A comment.
    Comment(TargetRef<'a>),
    /// The definition of an attribute.
    Definition(#[derive_where(skip(EqHashOrd))] Option<Object>, &'a [u8]),
    /// The default of an attribute.
    Default(&'a [u8]),
    /// The value of an attribute.
    Attribute(&'a [u8], TargetRef<'a>),
    /// Value descriptions.
    Values(u32, &'a [u8]),
    /// A float type.
    Float(u32, &'a [u8]),
    /// Multiplexing.
    Mux(u32, &'a [u8]),
}

impl<'a> EntryKeyRef<'a> {
    /// What the entry is about: a node, a message or a signal. Value tables, definitions and defaults are about the whole database.
    pub fn target(&self) -> TargetRef<'a>
        ensures { target_of result ≡ key_target (entry_key self.now) }
    {
        match *self {
            EntryKeyRef::Table(_) | EntryKeyRef::Definition(..) | EntryKeyRef::Default(_) =>
                TargetRef::Whole,
            EntryKeyRef::Comment(target) | EntryKeyRef::Attribute(_, target) => target,
            EntryKeyRef::Values(number, signal)
            | EntryKeyRef::Float(number, signal)
            | EntryKeyRef::Mux(number, signal) => TargetRef::Signal(number, signal),
        }
    }
}
