//! The bits of a message, drawn as a grid of bytes and bits.
ghost use Rattle.std.specs.Prelude.{◌≡◌, ◌++◌, OnOk, decimal};
ghost use Rattle.can_bits.specs.Grids.{right, grid_text};
ghost use Rattle.can_bits.specs.Cells.{shown, cells_text, cells_line};

use crate::cell::Cell;
use crate::field::Field;
use crate::table::Table;
use dbc_values::Memory;
use itoa::Buffer;

// Shorter words are padded to this many columns on the left.
const COLUMNS: usize = 4;

const BITS_DOWN: [u8; 8] = [7, 6, 5, 4, 3, 2, 1, 0];

/// Appends a word, right-aligned to four columns, or as it is if it is longer.
#[tactic(auto, unfolding(crate::specs::Grids::right))]
pub fn push_right(text: &mut Vec<u8>, word: &[u8]) -> Result<(), Memory>
    ensures { OnOk result (text.new.items ≡ text.old.items ++ right word.now) }
{
    for _column in word.len()..COLUMNS {
        text.push(b' ')?;
    }
    text.extend_from_slice(word)?;
    Ok(())
}

// Appends four bytes, which are a whole column.
#[inline(always)]
fn push_column(text: &mut Vec<u8>, column: [u8; 4]) -> Result<(), Memory>
    ensures { OnOk result (text.new.items ≡ text.old.items ++ column) }
{
    text.extend_from_slice(&column)?;
    Ok(())
}

// A cell with the index of any field.
fn push_index(text: &mut Vec<u8>, index: usize) -> Result<(), Memory>
    ensures { OnOk result (text.new.items ≡ text.old.items ++ right (decimal index)) }
{
    let mut number = Buffer::new();
    push_right(text, number.format(index).as_bytes())
}

// Most cells are free or have one of the first ten fields, and are a column that needs no counting of blanks.
#[tactic(auto, using(crate::proofs::Columns::digit_column), unfolding(crate::specs::Grids::right))]
fn push_cell(text: &mut Vec<u8>, cell: Cell) -> Result<(), Memory>
    ensures { OnOk result (text.new.items ≡ text.old.items ++ right (shown cell)) }
{
    match cell {
        Cell::Free => push_column(text, *b"   ."),
        Cell::One(index) if index < 10 => {
            push_column(text, [b' ', b' ', b' ', b'0' + index as u8])
        }
        Cell::One(index) => push_index(text, index),
        Cell::Several => push_column(text, *b"   *"),
    }
}

fn push_cells(text: &mut Vec<u8>, byte: u16, table: &Table) -> Result<(), Memory>
    ensures { OnOk result (text.new.items ≡ text.old.items ++ cells_text table.now.cells.items byte) }
{
    for bit in BITS_DOWN {
        let position = 8 * usize::from(byte) + usize::from(bit);
        push_cell(text, table.at(position))?;
    }
    Ok(())
}

#[tactic(auto, using(crate::proofs::Pushing::pushed_then), unfolding(crate::specs::Cells::cells_line))]
fn push_byte_line(text: &mut Vec<u8>, byte: u16, table: &Table) -> Result<(), Memory>
    ensures { OnOk result (text.new.items ≡ text.old.items ++ cells_line table.now.cells.items byte) }
{
    let mut number = Buffer::new();
    push_right(text, number.format(byte).as_bytes())?;
    text.extend_from_slice(b":")?;
    push_cells(text, byte, table)?;
    text.extend_from_slice(b"\n")?;
    Ok(())
}

/// Draws a message of `size` bytes with these fields: a line for each byte, its most significant bit on the left. A cell names the
/// one field that has the bit by its index among the fields.
pub fn push_grid(text: &mut Vec<u8>, size: u16, fields: &[Field]) -> Result<(), Memory>
    ensures { OnOk result (text.new.items ≡ text.old.items ++ grid_text size fields.now) }
{
    let table = Table::of(*text.allocator(), size, fields)?;
    for byte in 0..size {
        push_byte_line(text, byte, &table)?;
    }
    Ok(())
}
