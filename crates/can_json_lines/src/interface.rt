//! The interface of a log, as cached members.
ghost use Rattle.std.specs.Prelude.{◌≡◌, ◌++◌, true, IfOk, OnOk, codes};
ghost use Rattle.can_json_texts.specs.Members.{further_members, text_members};

use crate::keys::{Keys, LineKeys};
use dbc_text_buffer::{ReadyText, TextBuffer};
use dbc_values::Memory;
use std::alloc::Global;
use std::marker::Model;

// An interface, and its members.
#[derive(Drop)]
struct Interface {
    bytes: Vec<u8>,
    members: ReadyText,
}

impl Model for Interface {
    ghost use Rattle.std.specs.Prelude.{◌≡◌, ℕ, List, codes};
    ghost use Rattle.can_json_texts.specs.Members.{further_members, text_members};

    ghost Value = { List ℕ };

    ghost view = { λ a. a.bytes.items };

    ghost invariant = { λ a. a.members ≡ further_members (text_members (codes "interface") a.bytes.items) };
}

impl Interface {
    fn of(alloc: Global, keys: &LineKeys, bytes: &[u8]) -> Result<Interface, Memory>
        ensures { IfOk result (λ interface. interface ≡ bytes.now) }
    {
        let mut text = TextBuffer::new(alloc);
        keys.interface.push_texts(&mut text, bytes)?;
        let members = ReadyText::of(alloc, text.as_slice())?;
        let bytes = Vec::from_slice(alloc, bytes)?;
        Ok(Interface { bytes, members })
    }

    fn is(&self, bytes: &[u8]) -> bool
        ensures { result ≡ true → self.now ≡ bytes.now }
    {
        self.bytes.as_slice() == bytes
    }

    #[inline(always)]
    fn push_to(&self, text: &mut TextBuffer) -> Result<(), Memory>
        ensures { OnOk result (text.new.items ≡ text.old.items ++ further_members (text_members (codes "interface") self.now)) }
    {
        self.members.push_to(text)
    }
}

/// The keys, and the first interface of a log, which most of its lines have.
#[derive(Drop)]
pub(crate) struct Ready<'a> {
    /// The keys.
    pub keys: &'a Keys,
    first: Option<Interface>,
}

impl<'a> Ready<'a> {
    /// The cache of a log of which no line was read.
    pub fn of(keys: &'a Keys) -> Ready<'a> {
        Ready { keys, first: None }
    }

    // Appends the members of an interface, and keeps them.
    #[inline(never)]
    fn push_first(&mut self, text: &mut TextBuffer, interface: &[u8]) -> Result<(), Memory>
        ensures { OnOk result (text.new.items ≡ text.old.items ++ further_members (text_members (codes "interface")
            interface.now)) }
    {
        let known = Interface::of(text.allocator(), &self.keys.line, interface)?;
        known.push_to(text)?;
        self.first = Some(known);
        Ok(())
    }

    /// Appends the members of a line's interface.
    #[inline(always)]
    pub fn push_interface(&mut self, text: &mut TextBuffer, interface: &[u8]) -> Result<(), Memory>
        ensures { OnOk result (text.new.items ≡ text.old.items ++ further_members (text_members (codes "interface")
            interface.now)) }
    {
        match &self.first {
            Some(known) if known.is(interface) => known.push_to(text),
            Some(_) => self.keys.line.interface.push_texts(text, interface),
            None => self.push_first(text, interface),
        }
    }
}
