//! The layout of a message, from which both its plan and its diagram are made.
ghost use Rattle.std.specs.Prelude.{◌≡◌, IfOk, map};
ghost use Rattle.can_entries.specs.Rows.{rows_of};
ghost use Rattle.can_entries.specs.Switches.{mux_parents_of};
ghost use Rattle.can_layout.specs.Layouts.{layout_of};

use crate::refusal::{Cause, scale_of};
use crate::sharing::{PlanRows, Sharing};
use can_entries::{Lookup, MessageRows, MuxParent, mux_parents_of};
use dbc_records::{Message, Signal};
use dbc_values::{List, Memory, Scale};
use std::alloc::Global;
use std::marker::Model;
use std::rc::Rc;

/// A signal with its scale, or with what keeps it from being decoded.
#[derive(Drop)]
pub(crate) struct SignalLayout<'a> {
    /// The signal.
    pub signal: &'a Signal,
    /// Its scale, or the first cause that refuses it.
    pub scale: Result<Scale, Cause>,
}

impl<'a> Model for SignalLayout<'a> {
    ghost use Rattle.std.specs.Prelude.{◌≡◌, IfOk};
    ghost use Rattle.dbc_values.specs.Scales.{scale_of};
    ghost use Rattle.can_layout.specs.Layouts as layouts;

    ghost Value = { layouts.SignalLayout };

    ghost view = { λ a. record { signal = a.signal.now; cause = layouts.cause_in a.scale } };

    ghost invariant = { λ a. IfOk a.scale (λ scale. scale ≡ scale_of a.signal.now.factor a.signal.now.offset
        a.signal.now.length) };
}

impl<'a> SignalLayout<'a> {
    // The layout of a signal in a message of that many bytes.
    fn of<L: Lookup>(rows: &MessageRows<'_, L>, size: u16, signal: &'a Signal) -> SignalLayout<'a>
        ensures { result ≡ layout_of rows.now size signal.now }
    {
        SignalLayout {
            signal,
            scale: scale_of(rows, size, signal),
        }
    }

    /// The signal.
    pub(crate) fn signal(&self) -> &'a Signal
        ensures { result.now ≡ self.now.signal }
    {
        self.signal
    }

    /// What keeps the signal from being decoded.
    pub(crate) fn cause(&self) -> Option<Cause>
        ensures { result ≡ self.now.cause }
    {
        match self.scale {
            Ok(_) => None,
            Err(cause) => Some(cause),
        }
    }
}

// The layouts of signals, in order.
fn signals_of<'a, L: Lookup>(
    alloc: Global,
    rows: &MessageRows<'_, L>,
    size: u16,
    signals: &'a [Signal],
) -> Result<Vec<SignalLayout<'a>>, Memory>
    ensures { IfOk result (λ all. all.items ≡ map (layout_of rows.now size) signals.now) }
{
    let mut all = Vec::with_capacity(alloc, signals.len())?;
    for signal in signals {
        all.push(SignalLayout::of(rows, size, signal))?;
    }
    Ok(all)
}

/// The layout of a message, by the entries of its CAN identifier: the multiplexing parent of each of its signals, and the scale by
/// which each is read.
#[derive(Drop)]
pub(crate) struct Layout<'a, L: Lookup> {
    rows: PlanRows<'a, L>,
    message: &'a Message,
    mux_parents: Rc<List<MuxParent>>,
    signals: Vec<SignalLayout<'a>>,
}

impl<'a, L: Lookup> Model for Layout<'a, L> {
    ghost use Rattle.can_layout.specs.Layouts as layouts;

    ghost Value = { layouts.Layout };

    ghost view = { λ a. record { rows = a.rows; message = a.message.now } };

    ghost invariant = { λ a. layouts.IsLayout (record { rows = a.rows; message = a.message.now }) a.mux_parents.value
        a.signals.items };
}

impl<'a, L: Lookup> Layout<'a, L> {
    /// The layout of a message.
    pub(crate) fn of(
        alloc: Global,
        sharing: &'a Sharing<'a, L>,
        message: &'a Message,
    ) -> Result<Layout<'a, L>, Memory>
        ensures { IfOk result (λ layout. layout ≡ record {
          rows = rows_of message.now.head.number sharing.now;
          message = message.now;
        }) }
    {
        let rows = PlanRows::of(sharing, message.head.number);
        let signals = message.signals.as_slice();
        let mux_parents = mux_parents_of(alloc, &rows.rows(), signals)?;
        let mux_parents = Rc::new(alloc, mux_parents)?;
        let signals = signals_of(alloc, &rows.rows(), message.head.size, signals)?;
        Ok(Layout {
            rows,
            message,
            mux_parents,
            signals,
        })
    }

    /// The message.
    pub(crate) fn message(&self) -> &'a Message
        ensures { result.now ≡ self.now.message }
    {
        self.message
    }

    /// The entries of its CAN identifier.
    pub(crate) fn rows(&self) -> &PlanRows<'a, L>
        ensures { result.now ≡ self.now.rows }
    {
        &self.rows
    }

    /// The multiplexing parent of each of its signals.
    pub(crate) fn mux_parents(&self) -> &[MuxParent]
        ensures { result.now ≡ mux_parents_of self.now.rows self.now.message.signals }
    {
        self.mux_parents.as_ref().as_slice()
    }

    /// The same, shared.
    pub(crate) fn shared_mux_parents(&self) -> Result<Rc<List<MuxParent>>, Memory>
        ensures { IfOk result (λ mux_parents. mux_parents.value ≡ mux_parents_of self.now.rows self.now.message.signals) }
    {
        let mux_parents = self.mux_parents.clone()?;
        Ok(mux_parents)
    }

    /// Its signals with their scales.
    pub(crate) fn signals(&self) -> &[SignalLayout<'a>]
        ensures { result.now ≡ map (layout_of self.now.rows self.now.message.head.size) self.now.message.signals }
    {
        self.signals.as_slice()
    }
}
