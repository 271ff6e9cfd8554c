//! The steps from one token to the next.
ghost use Rattle.std.specs.Prelude.{◌≡◌, ◌≤◌, false, length, is_some, MatchOption};
ghost use Rattle.std.specs.Iterator.{YieldsFirstBy, item_count};
ghost use Rattle.dbc_tokens.specs.Tokens.{◌▸◌, IsToken, line_feeds};
ghost use Rattle.dbc_tokens.specs.inner.Scanner.{cut_of};
ghost use Rattle.dbc_tokens.specs.Views.{left, token_of, cut_from, plain_comes, line_text_comes, blanks_ahead};
ghost use Rattle.dbc_tokens.specs.Views.{item, items, NothingAfter};

use crate::fault::{Cause, ReadFault};
use crate::lengths::{gap_len, leading_blanks, line_text_at, plain_token_at, token_at};
use crate::stream::Tokens;
use crate::token::{Kind, Next, Token};
use memchr::memchr;

fn count_line_feeds(bytes: &[u8]) -> usize
    ensures value { result ≡ line_feeds bytes.now }
    ensures in_range { result ≤ length bytes.now }
{
    bytes.iter().filter(|b| **b == b'\n').count()
}

// How many LF these bytes hold. Most strings hold none, which a search finds faster than counting.
fn line_feeds(bytes: &[u8]) -> usize
    ensures value { result ≡ line_feeds bytes.now }
    ensures in_range { result ≤ length bytes.now }
{
    match memchr(b'\n', bytes) {
        Some(first) => {
            let (_, rest) = bytes.split_at(first);
            count_line_feeds(rest)
        }
        None => 0,
    }
}

// How many LF a gap holds. Most gaps that get here are empty, as the blanks before them were skipped.
#[inline(always)]
fn gap_line_feeds(gap: &[u8]) -> usize
    ensures value { result ≡ line_feeds gap.now }
    ensures in_range { result ≤ length gap.now }
{
    match gap {
        [] => 0,
        _ => line_feeds(gap),
    }
}

// How many LF a token holds. Only strings hold any, so the other tokens aren't scanned again.
fn token_line_feeds(kind: Kind, bytes: &[u8]) -> usize
    requires { IsToken kind bytes.now }
    ensures value { result ≡ line_feeds bytes.now }
    ensures in_range { result ≤ length bytes.now }
{
    match kind {
        Kind::Text => line_feeds(bytes),
        _ => 0,
    }
}

impl<'a> Tokens<'a> {
    pub(crate) fn new(text: &'a [u8]) -> Tokens<'a>
        ensures { left result ≡ cut_of 1 text.now }
    {
        Tokens {
            rest: text,
            line: 1,
        }
    }

    /// The remaining bytes: for a reader that looks further ahead than one token.
    pub fn rest(self) -> &'a [u8]
        ensures { result.now ≡ self.entry.rest.now }
    {
        self.rest
    }

    /// What comes next, and the remaining tokens after it: for a reader that looks at one token at a time.
    #[inline(always)]
    pub fn advance(self) -> (Next<'a>, Tokens<'a>)
        ensures next { left self.entry ≡ cut_from result.0 (left result.1) }
        ensures last { NothingAfter result.0 (left result.1) }
    {
        let mut after = self;
        match after.take_plain_or_skip() {
            Some(token) => (Next::Token(token), after),
            None => {
                let next = after.take_next();
                (next, after)
            }
        }
    }

    /// Takes the token that comes next, if only blanks are before it and it is a word, a mark, or a number that begins with a digit
    /// and has no exponent; takes nothing otherwise. It is a short [`Tokens::take_next`] for most tokens.
    #[inline(always)]
    pub fn take_plain(&mut self) -> Option<Token<'a>>
        ensures token { MatchOption result (self.new ≡ self.old) (λ t. left self.old ≡ token_of t ▸ left self.new) }
        ensures exact { is_some result ≡ plain_comes self.old }
    {
        let before = *self;
        match self.take_plain_or_skip() {
            Some(token) => Some(token),
            None => {
                *self = before;
                None
            }
        }
    }

    /// Takes the token that comes next as [`Tokens::take_plain`] does. If it takes nothing, it skips the blanks before what comes
    /// next, so that no later call scans them again.
    #[inline(always)]
    pub fn take_plain_or_skip(&mut self) -> Option<Token<'a>>
        ensures token { MatchOption result (left self.new ≡ left self.old) (λ t. left self.old ≡ token_of t ▸ left self.new) }
        ensures exact { is_some result ≡ plain_comes self.old }
        ensures skipped { is_some result ≡ false → blanks_ahead self.new ≡ 0 }
    {
        let (blanks, feeds) = leading_blanks(self.rest);
        let (_, ahead) = self.rest.split_at(blanks);
        let line = self.line + feeds as u64;
        match plain_token_at(ahead) {
            Some((kind, len)) => {
                let left = ahead.len();
                let (bytes, rest) = ahead.split_at(len);
                *self = Tokens { rest, line };
                Some(Token {
                    kind,
                    bytes,
                    line,
                    left,
                })
            }
            None => {
                *self = Tokens { rest: ahead, line };
                None
            }
        }
    }

    /// Takes the string that comes next, if only blanks are before it and it ends at its first quote and in the line in which it
    /// begins; takes nothing otherwise. It is a short [`Tokens::take_next`] for most strings.
    #[inline(always)]
    pub fn take_line_text(&mut self) -> Option<Token<'a>>
        ensures token { MatchOption result (self.new ≡ self.old) (λ t. left self.old ≡ token_of t ▸ left self.new) }
        ensures exact { is_some result ≡ line_text_comes self.old }
    {
        let (blanks, lines) = leading_blanks(self.rest);
        let (_, ahead) = self.rest.split_at(blanks);
        let (kind, len) = line_text_at(ahead)?;
        let line = self.line + lines as u64;
        let left = ahead.len();
        let (bytes, rest) = ahead.split_at(len);
        *self = Tokens { rest, line };
        Some(Token {
            kind,
            bytes,
            line,
            left,
        })
    }

    /// Takes what comes next: for a reader that looks at one token at a time.
    #[inline(never)]
    pub fn take_next(&mut self) -> Next<'a>
        ensures next { left self.old ≡ cut_from result (left self.new) }
        ensures last { NothingAfter result (left self.new) }
    {
        let (gap, rest) = self.rest.split_at(gap_len(self.rest));
        let line = self.line + gap_line_feeds(gap) as u64;
        match token_at(rest) {
            Some((kind, len)) => {
                let left = rest.len();
                let (bytes, rest) = rest.split_at(len);
                let after = line + token_line_feeds(kind, bytes) as u64;
                *self = Tokens { rest, line: after };
                Next::Token(Token {
                    kind,
                    bytes,
                    line,
                    left,
                })
            }
            None => {
                *self = Tokens { rest: &[], line };
                if rest.is_empty() {
                    Next::End(line)
                } else {
                    Next::Fault(line)
                }
            }
        }
    }
}

impl<'a> Iterator for Tokens<'a> {
    type Item = Result<Token<'a>, ReadFault>;

    ghost next_gives = { YieldsFirstBy item (λ tokens. items (left tokens)) };

    ghost remaining = { item_count (λ tokens. items (left tokens)) };

    fn next(&mut self) -> Option<Result<Token<'a>, ReadFault>> {
        if let Some(token) = self.take_plain_or_skip() {
            return Some(Ok(token));
        }
        match self.take_next() {
            Next::Token(token) => Some(Ok(token)),
            Next::End(_) => None,
            Next::Fault(line) => Some(Err(ReadFault {
                line,
                cause: Cause::Token,
            })),
        }
    }
}
