//! A database with what is prepared of its messages.
ghost use Rattle.std.specs.Prelude.{◌≡◌, ◌<◌, IfOk, Some, length, option_map, slice_get};
ghost use Rattle.can_layout.specs.Plans.{plan_of};
ghost use Rattle.can_json_lines.specs.PreparedTexts.{all_texts};

use crate::finder::PreparedFinder;
use crate::message_texts::MessageTexts;
use crate::prepare::Prepare;
use can_decode::{CachedSearch, Decoding, IndexedMessages, MessageSearch, caching};
use can_layout::Plan;
use dbc_records::Message;
use dbc_text_buffer::TextBuffer;
use dbc_values::Memory;
use std::alloc::Global;
use std::marker::Model;

/// A database with all that decoding its bus needs, and what is prepared of its messages. Contracts see the bus.
#[derive(Drop)]
pub struct Prepared<'a, P: Prepare> {
    decoding: &'a Decoding,
    preparer: P,
    texts: Vec<MessageTexts<P>>,
}

impl<'a, P: Prepare> Model for Prepared<'a, P> {
    ghost use Rattle.std.specs.Prelude.{◌≡◌};
    ghost use Rattle.can_decode.specs.DecodedLines.{Bus};
    ghost use Rattle.can_json_lines.specs.PreparedTexts.{all_texts};

    ghost Value = { Bus };

    ghost view = { λ a. a.decoding.now };

    ghost invariant = { λ a. a.texts.items ≡ all_texts P.head_of P.signal_of a.decoding.now.database };
}

fn message_at(decoding: &Decoding, index: usize) -> &Message
    requires { index < length decoding.now.database.messages }
    ensures { Some result.now ≡ slice_get decoding.now.database.messages index }
{
    &decoding.database().messages.as_slice()[index]
}

fn plan_at(decoding: &Decoding, index: usize) -> &Plan
    requires { index < length decoding.now.database.messages }
    ensures { Some result.now ≡ option_map (plan_of decoding.now.database) (slice_get decoding.now.database.messages index) }
{
    &decoding.plans()[index]
}

// What is prepared of the message at an index.
#[tactic(auto, using(crate::proofs::Indexes::texts_at))]
fn message_texts<P: Prepare>(
    alloc: Global,
    text: &mut TextBuffer,
    preparer: &P,
    decoding: &Decoding,
    index: usize,
) -> Result<MessageTexts<P>, Memory>
    requires { index < length decoding.now.database.messages }
    ensures { IfOk result (λ texts. Some texts ≡ slice_get (all_texts P.head_of P.signal_of decoding.now.database) index) }
{
    MessageTexts::of(
        alloc,
        text,
        preparer,
        message_at(decoding, index),
        plan_at(decoding, index),
    )
}

// What is prepared of all messages, in order.
fn texts_of_all<P: Prepare>(
    alloc: Global,
    preparer: &P,
    decoding: &Decoding,
) -> Result<Vec<MessageTexts<P>>, Memory>
    ensures { IfOk result (λ texts. texts.items ≡ all_texts P.head_of P.signal_of decoding.now.database) }
{
    let count = decoding.database().messages.len();
    let mut text = TextBuffer::new(alloc);
    let mut texts = Vec::with_capacity(alloc, count)?;
    for index in 0..count {
        texts.push(message_texts(alloc, &mut text, preparer, decoding, index)?)?;
    }
    Ok(texts)
}

impl<'a, P: Prepare> Prepared<'a, P> {
    /// The prepared texts of a database, by what prepares its messages.
    pub fn of(alloc: Global, decoding: &'a Decoding, preparer: P) -> Result<Prepared<'a, P>, Memory>
        ensures { IfOk result (λ prepared. prepared ≡ decoding.now) }
    {
        let texts = texts_of_all(alloc, &preparer, decoding)?;
        Ok(Prepared {
            decoding,
            preparer,
            texts,
        })
    }

    /// What prepared the messages.
    pub fn preparer(&self) -> &P {
        &self.preparer
    }

    /// What each CAN identifier goes to.
    pub fn indexed_messages(&self) -> IndexedMessages<'_>
        ensures { result ≡ self.now.database }
    {
        self.decoding.indexed_messages()
    }
}

/// What finds the messages of frames, given what chooses them. The choice for each CAN identifier is cached.
pub fn prepared_finder<'a, C: MessageSearch, P: Prepare>(
    alloc: Global,
    prepared: &'a Prepared<'a, P>,
    search: C,
) -> PreparedFinder<'a, CachedSearch<C>, P>
    requires { C.whole search ≡ prepared.now.database }
    ensures { result ≡ prepared.now }
{
    let finder = caching(alloc, prepared.decoding.finder(search));
    PreparedFinder::of(finder, prepared.texts.as_slice())
}
