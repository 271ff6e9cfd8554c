//! The entries that give messages their frame format, by message IDs.
ghost use Rattle.std.specs.Prelude.{◌≡◌, ℕ, IfOk, OnOk, Some, None, if◌then◌else◌};
ghost use Rattle.std.specs.List.{find};
ghost use Rattle.std.specs.Option.{option_map, option_or};
ghost use Rattle.can_entries.specs.Groups.{gives_format};
ghost use Rattle.can_entries.specs.Indexes.{format_at};

use crate::format::FRAME_FORMAT;
use dbc_records::{AttrRow, Target};
use dbc_values::{Memory, same};
use std::alloc::Global;
use std::collections::BTreeMap;
use std::marker::Model;

/// Attribute entries, and the first entry of each message that gives its frame format.
#[derive(Drop)]
pub(crate) struct FormatIndex<'a> {
    rows: &'a [AttrRow],
    by_number: BTreeMap<u32, &'a AttrRow>,
}

impl<'a> Model for FormatIndex<'a> {
    ghost use Rattle.std.specs.Prelude.{List};
    ghost use Rattle.dbc_records.specs.Attributes.{AttrRow as Attribute};
    ghost use Rattle.can_entries.specs.Indexes.{IsFormatIndex};

    ghost Value = { List Attribute };

    ghost view = { λ index. index.rows.now };

    ghost invariant = { λ index. IsFormatIndex index.by_number index.rows.now };
}

/// Records an entry for its message, if it gives a frame format and none is recorded.
fn keep_first<'a>(
    by_number: &mut BTreeMap<u32, &'a AttrRow>,
    row: &'a AttrRow,
) -> Result<(), Memory>
    ensures { OnOk result ((number : ℕ) → format_at number by_number.new ≡ option_or (format_at number by_number.old)
        (if gives_format number row.now then Some row.now else None)) }
{
    let Target::Message(number) = &row.target else {
        return Ok(());
    };
    if same(row.name.as_bytes(), FRAME_FORMAT) {
        by_number.entry(*number)?.or_insert(row);
    }
    Ok(())
}

impl<'a> FormatIndex<'a> {
    /// The index of all entries.
    pub fn of(alloc: Global, rows: &'a [AttrRow]) -> Result<FormatIndex<'a>, Memory>
        ensures { IfOk result (λ index. index ≡ rows.now) }
    {
        let mut by_number: BTreeMap<u32, &'a AttrRow> = BTreeMap::new(alloc);
        for row in rows {
            keep_first(&mut by_number, row)?;
        }
        Ok(FormatIndex { rows, by_number })
    }

    /// The first entry that gives a message its frame format.
    pub fn first(&self, number: u32) -> Option<&'a AttrRow>
        ensures { option_map (λ row. row.now) result ≡ find (gives_format number) self.now }
    {
        self.by_number.get(&number).copied()
    }
}
