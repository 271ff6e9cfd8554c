//! The session's log.
ghost use Rattle.std.specs.Prelude.{◌≡◌, ◌<◌, ◌+◌, ◌%◌, ◌^◌, [], ◌∷◌, ◌++◌, IfOk, OnOk, OnErr, All, Some, drop, filter, length};
ghost use Rattle.std.specs.Prelude.{map, slice_get};
ghost use Rattle.can_decode.specs.DecodedLines.{Bus};
ghost use Rattle.session_log.specs.Touched.{line_touched};
ghost use Rattle.session_log.specs.Logs.{bytes_of, IsNumbered, IsDecoded, Completes};
ghost use Rattle.session_log.specs.Positions.{positions_from};
ghost use Rattle.session_log.specs.inner.Indexes.{is_untouched_at, Covers};

use crate::line::{Line, RedecodedLine, exchange};
use crate::log_hash::LogHash;
use crate::log_index::LogIndex;
use crate::touching::number_touched;
use dbc_values::Memory;
use std::alloc::Global;
use std::collections::VecDeque;
use std::hash::RandomState;
use std::marker::Model;

/// The lines of a session's log in order of arrival, each with the CAN identifier of its frame, and the index of them by these
/// and by PGNs. The index has serial numbers, which don't change when older lines are removed. Contracts see the lines.
#[derive(Drop)]
pub struct Log {
    // the serial number of the first line
    first: usize,
    lines: VecDeque<Line>,
    index: LogIndex,
}

impl Model for Log {
    ghost use Rattle.std.specs.Prelude.{List};
    ghost use Rattle.session_log.specs.declared.line.Line as line;
    ghost use Rattle.session_log.specs.Kept.{IsLog};

    ghost Value = { List line.Line };

    ghost view = { λ a. a.lines.items };

    ghost invariant = { λ a. IsLog a.first a.lines.items a.index };
}

impl Log {
    // The empty log, whose index hashes in this way.
    fn hashed(alloc: Global, hash: LogHash) -> Log
        ensures { result ≡ [] }
    {
        Log {
            first: 0,
            lines: VecDeque::new(alloc),
            index: LogIndex::new(alloc, hash),
        }
    }

    /// The empty log. Its index hashes the same way in each run, so identifiers can be crafted that make it slow.
    pub fn new(alloc: Global) -> Log
        ensures { result ≡ [] }
    {
        Log::hashed(alloc, LogHash::Fixed)
    }

    /// The empty log, whose index hashes with these keys, so that nobody who doesn't know them can craft identifiers that make it
    /// slow. Its answers are the same.
    pub fn keyed(alloc: Global, keys: RandomState) -> Log
        ensures { result ≡ [] }
    {
        Log::hashed(alloc, LogHash::Keyed(keys))
    }

    /// How many lines there are.
    pub fn len(&self) -> usize
        ensures { result ≡ length self.now }
    {
        self.lines.len()
    }

    /// The line at an index.
    pub fn line(&self, position: usize) -> &Line
        requires { position < length self.now }
        ensures line { Some result.now ≡ slice_get self.now position }
        ensures numbered { IsNumbered result.now }
    {
        &self.lines[position]
    }

    /// Appends a line to the others, and adds it to the index. If memory runs out, the lines are as they were.
    pub fn push(&mut self, alloc: Global, line: Line) -> Result<(), Memory>
        requires { IsNumbered line }
        ensures ok { OnOk result (self.new ≡ self.old ++ line ∷ []) }
        ensures err { OnErr result (self.new ≡ self.old) }
    {
        self.lines.reserve(1)?;
        if let Some(number) = line.number {
            let serial = self.first.wrapping_add(self.lines.len());
            self.index.add(alloc, number, serial)?;
        }
        self.lines.push_back_reserved(line);
        Ok(())
    }

    /// Removes the first line.
    pub fn drop_first(&mut self)
        ensures { self.new ≡ drop 1 self.old }
    {
        let Some(line) = self.lines.pop_front() else {
            return;
        };
        if let Some(number) = line.number {
            self.index.drop_first(number);
        }
        self.first = self.first.wrapping_add(1);
    }

    // The indexes of the lines that a CAN identifier touches.
    fn positions_of(&self, alloc: Global, number: u32) -> Result<Vec<usize>, Memory>
        ensures { IfOk result (λ found. found.items ≡ positions_from (line_touched (number ∷ [])) 0 (map bytes_of self.now)) }
    {
        match self.index.serials_of(number) {
            Some(serials) => serials.positions(alloc, self.first),
            None => Ok(Vec::new(alloc)),
        }
    }

    // Whether the line at an index is touched by none of the CAN identifiers.
    fn is_untouched_at(&self, numbers: &[u32], position: usize) -> bool
        ensures { result ≡ is_untouched_at numbers.now (map bytes_of self.now) position }
    {
        if position < self.len() {
            !number_touched(numbers, self.line(position).number)
        } else {
            false
        }
    }

    // Adds the indexes of lines that none of the earlier CAN identifiers touches.
    fn add_positions(
        &self,
        positions: &mut Vec<usize>,
        found: &[usize],
        earlier: &[u32],
    ) -> Result<(), Memory>
        ensures { OnOk result (positions.new.items ≡ positions.old.items ++ filter (is_untouched_at earlier.now (map bytes_of
            self.now))
            found.now) }
    {
        for position in found {
            if self.is_untouched_at(earlier, *position) {
                positions.push(*position)?;
            }
        }
        Ok(())
    }

    /// The indexes of the lines that the CAN identifiers touch, each once. No line is read again.
    pub fn touched(&self, alloc: Global, numbers: &[u32]) -> Result<Vec<usize>, Memory>
        ensures { IfOk result (λ positions. Covers numbers.now (map bytes_of self.now) positions.items) }
    {
        let mut positions = Vec::new(alloc);
        for (at, number) in numbers.iter().enumerate() {
            let found = self.positions_of(alloc, *number)?;
            self.add_positions(&mut positions, found.as_slice(), &numbers[..at])?;
        }
        Ok(positions)
    }

    /// Gives each text to the line at its index. It allocates nothing.
    pub fn exchange(&mut self, redecoded: Vec<RedecodedLine>)
        requires { All (λ text. text.position < length self.old) redecoded.items }
        ensures lines { map bytes_of self.new ≡ map bytes_of self.old }
        ensures decoded { (bus : Bus) → Completes bus self.old redecoded.items → All (IsDecoded bus) self.new }
    {
        exchange(&mut self.lines, redecoded);
    }
}
