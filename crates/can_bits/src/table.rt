//! The bits of a message, with the fields that have them.
ghost use Rattle.std.specs.Prelude.{◌≡◌, ℕ, ◌*◌, ◌<◌, [], vec_len, IfOk};
ghost use Rattle.std.specs.List.{enumerate_from};
ghost use Rattle.can_bits.specs.Bits.{has_position};
ghost use Rattle.can_bits.specs.Cells.{cell_at, marked_if, IsTable};

use crate::cell::Cell;
use crate::field::Field;
use dbc_values::Memory;
use std::alloc::Global;

/// A cell for each bit of a message, in the order of their positions.
#[derive(Drop)]
pub(crate) struct Table {
    size: u16,
    cells: Vec<Cell>,
    ghost covers_bytes: { vec_len cells ≡ 8 * size },
}

impl Table {
    // The table of a message without fields.
    fn new(alloc: Global, size: u16) -> Result<Table, Memory>
        ensures size { IfOk result (λ table. table.size ≡ size) }
        ensures free { IfOk result (λ table. IsTable size [] table.cells.items) }
    {
        let cells = vec![in alloc; Cell::Free; 8 * usize::from(size)]?;
        Ok(Table { size, cells })
    }

    // Only the bits of the field that are in the message are looked at, each once.
    fn mark(&mut self, index: usize, field: Field)
        ensures size { self.new.size ≡ self.old.size }
        ensures each { (position : ℕ) → position < 8 * self.old.size → cell_at self.new.cells.items position
            ≡ marked_if (has_position field position) (cell_at self.old.cells.items position) index }
    {
        let start = field.passed(0);
        let size = self.size;
        let end = (start + u32::from(field.length)).min(8 * u32::from(size));
        for passed in start..end {
            let position = field.numbered(passed) as usize;
            let cell = self.cells[position];
            self.cells[position] = cell.marked(index);
        }
    }

    /// The table of a message of `size` bytes with these fields.
    pub(crate) fn of(alloc: Global, size: u16, fields: &[Field]) -> Result<Table, Memory>
        ensures { IfOk result (λ table. IsTable size (enumerate_from 0 fields.now) table.cells.items) }
    {
        let mut table = Table::new(alloc, size)?;
        for (index, field) in fields.iter().enumerate() {
            table.mark(index, *field);
        }
        Ok(table)
    }

    /// The cell at a position; beyond the message every cell is free.
    pub(crate) fn at(&self, position: usize) -> Cell
        ensures { result ≡ cell_at self.now.cells.items position }
    {
        match self.cells.as_slice().get(position) {
            Some(cell) => *cell,
            None => Cell::Free,
        }
    }
}
