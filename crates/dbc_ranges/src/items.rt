//! The items of a statement: its tokens, each sign together with its number.
ghost use Rattle.std.specs.Prelude.{◌≡◌, ◌+◌, ◌∷◌, [], MatchOption, if◌then◌else◌, drop, option_map, slice_get};
ghost use Rattle.dbc_tokens.specs.Views.{left, token_of};
ghost use Rattle.dbc_ranges.specs.Ranges.{is_sign, begins_number, is_signed, items_of, item_of, items_left, after_colon};
ghost use Rattle.dbc_ranges.specs.Ranges.{without_mark, named, value_of, is_value, described_value, begins_with};
ghost use Rattle.dbc_tokens.specs.Places.{tokens_of};

use crate::part::DescribedValue;
use dbc_tokens::{Next, Token, Tokens};
use dbc_values::{Whole, is_digit, same, whole_of};

/// An item: its first token and its last, which for most items is the same.
#[derive(Clone, Copy)]
pub(crate) struct Item<'t> {
    pub(crate) first: Token<'t>,
    pub(crate) last: Token<'t>,
}

impl<'t> Item<'t> {
    // Its value, if it is a whole number.
    fn value(self) -> Option<i128>
        ensures { result ≡ value_of (item_of self.entry) }
    {
        match whole_of(self.last.bytes) {
            Some(Whole::Value(n)) if same(self.first.bytes, b"-") => Some(-i128::from(n)),
            Some(Whole::Value(n)) => Some(i128::from(n)),
            _ => None,
        }
    }

    // Whether it is the raw value of this description.
    fn is(self, wanted: DescribedValue) -> bool
        ensures { result ≡ is_value wanted.number (value_of (item_of self.entry)) }
    {
        match self.value() {
            Some(value) => value == wanted.number,
            None => false,
        }
    }
}

/// The remaining items of a text.
#[derive(Clone, Copy)]
pub(crate) struct Items<'t> {
    pub(crate) tokens: Tokens<'t>,
}

fn is_sign(bytes: &[u8]) -> bool
    ensures { result ≡ is_sign bytes.now }
{
    same(bytes, b"+") || same(bytes, b"-")
}

// Whether a number begins with these bytes.
fn begins_number(bytes: &[u8]) -> bool
    ensures { result ≡ begins_number bytes.now }
{
    match bytes {
        [b, ..] => is_digit(*b) || *b == b'.',
        [] => false,
    }
}

// Whether the first is a sign and the second the number that it belongs to.
fn is_signed(first: Token<'_>, second: Token<'_>) -> bool
    ensures { result ≡ is_signed (token_of first.entry) (token_of second.entry) }
{
    is_sign(first.bytes) && begins_number(second.bytes)
}

impl<'t> Items<'t> {
    // Takes the item that begins with this token.
    fn take_from(&mut self, first: Token<'t>) -> Item<'t>
        ensures { items_of (token_of first.entry ∷ tokens_of (left self.old.tokens)) ≡ item_of result ∷ items_left self.new }
    {
        let (next, after) = self.tokens.advance();
        if let Next::Token(second) = next
            && is_signed(first, second)
        {
            self.tokens = after;
            return Item {
                first,
                last: second,
            };
        }
        Item { first, last: first }
    }

    /// Takes the next item.
    pub(crate) fn take(&mut self) -> Option<Item<'t>>
        ensures { MatchOption result ((items_left self.old ≡ []) × (items_left self.new ≡ [])) (λ item. items_left self.old
            ≡ item_of item ∷ items_left self.new) }
    {
        let (next, after) = self.tokens.advance();
        self.tokens = after;
        match next {
            Next::Token(first) => Some(self.take_from(first)),
            _ => None,
        }
    }

    /// Skips this many items.
    pub(crate) fn skip(&mut self, count: usize)
        ensures { items_left self.new ≡ drop count (items_left self.old) }
    {
        for _ in 0..count {
            self.take();
        }
    }

    /// Takes the item at an index.
    pub(crate) fn nth(&mut self, index: usize) -> Option<Item<'t>>
        ensures value { option_map item_of result ≡ slice_get (items_left self.old) index }
        ensures rest { items_left self.new ≡ drop (index + 1) (items_left self.old) }
    {
        self.skip(index);
        self.take()
    }

    /// Skips all items up to the first colon, and the colon.
    pub(crate) fn skip_colon(&mut self)
        ensures { items_left self.new ≡ after_colon (items_left self.old) }
    {
        'items: while let Some(item) = self.take() {
            if same(item.first.bytes, b":") {
                return;
            }
        }
    }

    /// Skips this mark, if it comes next.
    pub(crate) fn skip_mark(&mut self, mark: &[u8])
        ensures { items_left self.new ≡ without_mark mark.now (items_left self.old) }
    {
        let mut others = *self;
        if let Some(item) = others.take()
            && same(item.first.bytes, mark)
        {
            *self = others;
        }
    }

    /// Whether the first item is this word.
    pub(crate) fn begins_with(mut self, word: &[u8]) -> bool
        ensures { result ≡ begins_with word.now (items_left self.entry) }
    {
        match self.take() {
            Some(item) => same(item.first.bytes, word),
            None => false,
        }
    }

    /// The first item with these bytes.
    pub(crate) fn named(mut self, name: &[u8]) -> Option<Item<'t>>
        ensures { option_map item_of result ≡ named name.now (items_left self.entry) }
    {
        'items: while let Some(item) = self.take() {
            if same(item.first.bytes, name) {
                return Some(item);
            }
        }
        None
    }

    /// The raw value of this value description, among descriptions that are each a number and a text.
    pub(crate) fn described_value(mut self, wanted: DescribedValue) -> Option<Item<'t>>
        ensures { option_map item_of result ≡ described_value wanted.number wanted.index (items_left self.entry) }
    {
        let mut before = wanted.index;
        'items: while let Some(item) = self.take() {
            self.take()?;
            if item.is(wanted) {
                if before == 0 {
                    return Some(item);
                }
                before -= 1;
            }
        }
        None
    }
}
