//! A position in a text: the token that is there, and the tokens after it.
ghost use Rattle.std.specs.Prelude.{◌≡◌, false};
ghost use Rattle.dbc_tokens.specs.inner.Scanner.{cut_of};
ghost use Rattle.dbc_tokens.specs.Views.{left};
ghost use Rattle.dbc_reader.specs.Classes.{has_word, has_mark, has_name, has_symbol, has_string, has_piece, has_number};
ghost use Rattle.dbc_reader.specs.inner.Cursors.{left_at, following};
ghost use Rattle.dbc_reader.specs.inner.Keywords.{keyword_at};
ghost use Rattle.dbc_reader.specs.inner.Readers.{GivesTo, TakesTo, starts, token_at, end_at};
ghost use Rattle.dbc_reader.specs.Starts.{start_at};

use crate::classes;
use crate::keyword::{StatementKeyword, keyword_of};
use crate::start::Start;
use crate::stopped::Stopped;
use dbc_tokens::{Cause, Next, Token, Tokens, tokens};

/// A position among the tokens of a text. Each token is looked up once, when the cursor arrives before it.
#[derive(Clone, Copy)]
pub(crate) struct Cursor<'t> {
    pub next: Next<'t>,
    pub after: Tokens<'t>,
}

impl<'t> Cursor<'t> {
    // How many bytes `items_ahead` looks at, and how many items it counts.
    const MAX_BYTES_AHEAD: usize = 256;

    const MAX_ITEMS_AHEAD: usize = 16;

    /// The beginning of a text.
    #[tactic(auto, unfolding(crate::specs::inner::Cursors::left_at))]
    pub fn new(text: &'t [u8]) -> Cursor<'t>
        ensures { left_at result ≡ cut_of 1 text.entry.now }
    {
        let (next, after) = tokens(text).advance();
        Cursor { next, after }
    }

    /// The token that is here.
    #[tactic(auto, unfolding(crate::specs::inner::Cursors::left_at, crate::specs::inner::Readers::token_at))]
    pub fn token(self) -> Result<Token<'t>, Stopped>
        ensures { TakesTo result (following (left_at self.entry)) (token_at (left_at self.entry)) }
    {
        match self.next {
            Next::Token(token) => Ok(token),
            Next::End(line) => Err(Stopped::at(line, Cause::Statement)),
            Next::Fault(line) => Err(Stopped::at(line, Cause::Token)),
        }
    }

    /// Takes the token that is here.
    pub fn take(&mut self) -> Result<Token<'t>, Stopped>
        ensures { TakesTo result (left_at self.new) (token_at (left_at self.old)) }
    {
        let token = self.token()?;
        self.step();
        Ok(token)
    }

    /// Moves past the token here, or stays if there is none. It isn't inlined, and makes most tokens in place, without a call.
    #[tactic(auto, unfolding(crate::specs::inner::Cursors::left_at))]
    #[inline(never)]
    pub fn step(&mut self)
        ensures { left_at self.new ≡ following (left_at self.old) }
    {
        if let Next::Token(_) = self.next {
            match self.after.take_plain_or_skip() {
                Some(token) => self.next = Next::Token(token),
                None => self.step_to_text(),
            }
        }
    }

    // Moves to what comes next, a string in most cases. It isn't inlined, so that `step` saves no registers for it.
    #[tactic(auto, unfolding(crate::specs::inner::Cursors::left_at))]
    #[inline(never)]
    fn step_to_text(&mut self)
        ensures { left_at self.new ≡ left self.old.after }
    {
        match self.after.take_line_text() {
            Some(token) => self.next = Next::Token(token),
            None => self.step_to_any(),
        }
    }

    // Moves to what comes next, whatever that is.
    #[tactic(auto, unfolding(crate::specs::inner::Cursors::left_at))]
    #[inline(never)]
    fn step_to_any(&mut self)
        ensures { left_at self.new ≡ left self.old.after }
    {
        self.next = self.after.take_next();
    }

    /// The position after the token that is here; this position if there is none.
    #[tactic(auto, unfolding(crate::specs::inner::Cursors::left_at))]
    #[inline(always)]
    pub fn following(self) -> Cursor<'t>
        ensures { left_at result ≡ following (left_at self.entry) }
    {
        match self.next {
            Next::Token(_) => {
                let (next, after) = self.after.advance();
                Cursor { next, after }
            }
            _ => self,
        }
    }

    /// Stays where the text ends, and is a fault elsewhere.
    #[tactic(auto, unfolding(crate::specs::inner::Cursors::left_at, crate::specs::inner::Readers::end_at))]
    pub fn end(&mut self) -> Result<(), Stopped>
        ensures { GivesTo result (left_at self.new) (end_at (left_at self.old)) }
    {
        match self.next {
            Next::Token(token) => Err(Stopped::at(token.line, Cause::Statement)),
            Next::End(line) => {
                *self = Cursor {
                    next: Next::End(line),
                    after: self.after,
                };
                Ok(())
            }
            Next::Fault(line) => Err(Stopped::at(line, Cause::Token)),
        }
    }

    /// How many items the list has whose first item begins here: one more than there are commas in the rest of the line. It counts
    /// no more than about sixteen items. The count is a hint of the memory that they need, and may be wrong.
    pub fn items_ahead(self) -> usize {
        let mut items = 1;
        for byte in self.after.rest().iter().take(Self::MAX_BYTES_AHEAD) {
            if *byte == b'\n' {
                break;
            }
            if *byte == b',' && items < Self::MAX_ITEMS_AHEAD {
                items += 1;
            }
        }
        items
    }

    /// Where the token that is here begins; the end of the text if there is none.
    #[tactic(auto, unfolding(crate::specs::inner::Cursors::left_at, crate::specs::Starts::start_at))]
    pub fn start(self) -> Start
        ensures { result ≡ start_at (left_at self.entry) }
    {
        match self.next {
            Next::Token(token) => Start {
                line: token.line,
                left: token.left,
            },
            Next::End(line) | Next::Fault(line) => Start { line, left: 0 },
        }
    }

    /// Whether this word is here.
    #[tactic(auto, unfolding(crate::specs::inner::Cursors::left_at, crate::specs::inner::Readers::starts))]
    pub fn starts_word(self, word: &[u8]) -> bool
        ensures { result ≡ starts (has_word word.now) (left_at self.entry) }
    {
        match self.next {
            Next::Token(token) => classes::has_word(token, word),
            _ => false,
        }
    }

    /// Whether this mark is here.
    #[tactic(auto, unfolding(crate::specs::inner::Cursors::left_at, crate::specs::inner::Readers::starts))]
    pub fn starts_mark(self, mark: u8) -> bool
        ensures { result ≡ starts (has_mark mark) (left_at self.entry) }
    {
        match self.next {
            Next::Token(token) => classes::has_mark(token, mark),
            _ => false,
        }
    }

    /// The keyword that is here, if there is one.
    #[tactic(auto, unfolding(crate::specs::inner::Cursors::left_at, crate::specs::inner::Keywords::keyword_at))]
    pub fn keyword(self) -> Option<StatementKeyword>
        ensures { result ≡ keyword_at (left_at self.entry) }
    {
        match self.next {
            Next::Token(token) => keyword_of(token.bytes),
            _ => None,
        }
    }

    /// Whether a name is here.
    #[tactic(auto, unfolding(crate::specs::inner::Cursors::left_at, crate::specs::inner::Readers::starts))]
    pub fn starts_name(self) -> bool
        ensures { result ≡ starts has_name (left_at self.entry) }
    {
        match self.next {
            Next::Token(token) => classes::has_name(token),
            _ => false,
        }
    }

    /// Whether a word of the list of symbols is here.
    #[tactic(auto, unfolding(crate::specs::inner::Cursors::left_at, crate::specs::inner::Readers::starts))]
    pub fn starts_symbol(self) -> bool
        ensures { result ≡ starts has_symbol (left_at self.entry) }
    {
        match self.next {
            Next::Token(token) => classes::has_symbol(token),
            _ => false,
        }
    }

    /// Whether a string is here.
    #[tactic(auto, unfolding(crate::specs::inner::Cursors::left_at, crate::specs::inner::Readers::starts))]
    pub fn starts_string(self) -> bool
        ensures { result ≡ starts has_string (left_at self.entry) }
    {
        match self.next {
            Next::Token(token) => classes::has_string(token),
            _ => false,
        }
    }

    /// Whether any token but a semicolon is here.
    #[tactic(auto, unfolding(crate::specs::inner::Cursors::left_at, crate::specs::inner::Readers::starts))]
    pub fn starts_piece(self) -> bool
        ensures { result ≡ starts has_piece (left_at self.entry) }
    {
        match self.next {
            Next::Token(token) => classes::has_piece(token),
            _ => false,
        }
    }

    /// Whether a number that is a decimal is here.
    #[tactic(auto, unfolding(crate::specs::inner::Cursors::left_at, crate::specs::inner::Readers::starts))]
    pub fn starts_number(self) -> bool
        ensures { result ≡ starts (has_number false) (left_at self.entry) }
    {
        match self.next {
            Next::Token(token) => classes::has_number(token),
            _ => false,
        }
    }
}
