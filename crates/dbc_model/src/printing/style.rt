//! Lists of items that are printed one after another.
ghost use Rattle.std.specs.List.{flat_map};
ghost use Rattle.byte_devices.specs.Outs.{Sends};
ghost use Rattle.dbc_records.specs.Layout.{layout_text, separated};

use byte_devices::{Out, Sink, WriteFault};
use dbc_values::{Checked, List};

/// How an item of a list is printed.
pub(crate) trait Style<T: Checked> {
    ghost use Rattle.dbc_records.specs.Layout.{Layout};

    // The item's layout.
    ghost layout: { T → Layout };

    /// Holds the item's text.
    fn send_item<W: Sink>(out: &mut Out<'_, W>, item: &T) -> Result<(), WriteFault>
        ensures { Sends W.written out.old out.new result (layout_text (layout item.now)) };
}

// Holds the texts of the items, one after another.
fn send_texts<S: Style<T>, T: Checked, W: Sink>(
    out: &mut Out<'_, W>,
    items: &[T],
) -> Result<(), WriteFault>
    ensures { Sends W.written out.old out.new result (flat_map (λ item. layout_text (S.layout item)) items.now) }
{
    for item in items {
        S::send_item(out, item)?;
    }
    Ok(())
}

/// Holds the items, one after another.
#[tactic(auto, using(crate::proofs::Layouts::text_of_items))]
pub(crate) fn send_items<S: Style<T>, T: Checked, W: Sink>(
    out: &mut Out<'_, W>,
    items: &[T],
) -> Result<(), WriteFault>
    ensures { Sends W.written out.old out.new result (layout_text (flat_map S.layout items.now)) }
{
    send_texts::<S, T, W>(out, items)
}

/// Holds the items of a list, one after another.
pub(crate) fn send_list<S: Style<T>, T: Checked, W: Sink>(
    out: &mut Out<'_, W>,
    items: &List<T>,
) -> Result<(), WriteFault>
    ensures { Sends W.written out.old out.new result (layout_text (flat_map S.layout items.now)) }
{
    send_items::<S, T, W>(out, items.as_slice())
}

/// Holds the items, the first in one style and those after it in another.
pub(crate) fn send_separated<F: Style<T>, S: Style<T>, T: Checked, W: Sink>(
    out: &mut Out<'_, W>,
    items: &[T],
) -> Result<(), WriteFault>
    ensures { Sends W.written out.old out.new result (layout_text (separated F.layout S.layout items.now)) }
{
    match items {
        [] => Ok(()),
        [first, further @ ..] => {
            F::send_item(out, first)?;
            send_items::<S, T, W>(out, further)
        }
    }
}
