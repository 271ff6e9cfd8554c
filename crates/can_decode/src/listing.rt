//! The signals of a message that are shown, one after another.
ghost use Rattle.std.specs.Prelude.{◌≡◌, ℕ, List, ◌<◌, ◌≤◌, ◌++◌, true, false, length, slice_get, IfOk, OnOk, Some, if◌then◌else◌};
ghost use Rattle.std.specs.Option.{option_map_or};
ghost use Rattle.can_layout.specs.Plans.{Plan as PlainPlan, is_present};
ghost use Rattle.can_layout.specs.declared.row.Row.{Row as PlainRow};
ghost use Rattle.can_decode.specs.DecodedLines.{is_shown, shown_rows, listed, IsListedTo};

use can_layout::{Plan, Presence};
use dbc_text_buffer::TextBuffer;
use dbc_values::Memory;
use std::ops::Range;

/// What is written of the signals of a message.
pub trait SignalText: Drop {
    // The plan of the message.
    ghost plan_of: { Self → PlainPlan };

    // What is written of a signal in data, if it is the first that is shown.
    ghost first: { Self → List ℕ → PlainRow → List ℕ };

    // What is written of any later one.
    ghost further: { Self → List ℕ → PlainRow → List ℕ };

    /// The plan of the message.
    fn plan(&self) -> &Plan
        ensures { result.now ≡ plan_of self.now };

    /// Appends what is written of the signal at an index. `some` is true if one is shown before it.
    fn push(
        &self,
        text: &mut TextBuffer,
        some: bool,
        index: usize,
        bytes: &[u8],
    ) -> Result<(), Memory>
        requires { index < length (plan_of self.now).rows }
        ensures { OnOk result ((row : PlainRow) → Some row ≡ slice_get (plan_of self.now).rows index
            → text.new.items ≡ text.old.items ++ (if some then further self.now bytes.now row else first self.now bytes.now row)) };
}

// Whether the signal at an index is shown, where `there` is true if it is present.
#[inline(always)]
fn is_shown<T: SignalText>(signals: &T, there: bool, index: usize, bytes: &[u8]) -> bool
    requires index { index < length (T.plan_of signals.now).rows }
    requires there { there ≡ is_present bytes.now (T.plan_of signals.now).rows (slice_get (T.plan_of signals.now).rows index) }
    ensures { result ≡ option_map_or (is_shown bytes.now (T.plan_of signals.now)) (slice_get (T.plan_of signals.now).rows index)
        false }
{
    let plan = signals.plan();
    let row = plan.row(index);
    there && (bytes.len() >= usize::from(plan.size()) || row.is_whole(bytes))
}

// The signals of a run that are shown, after others if `some` is true. All of the run are present. It returns whether
// some signal was shown.
#[inline(always)]
fn push_run<T: SignalText>(
    text: &mut TextBuffer,
    signals: &T,
    run: Range<usize>,
    some: bool,
    bytes: &[u8],
) -> Result<bool, Memory>
    requires order { run.start ≤ run.end }
    requires within { run.end ≤ length (T.plan_of signals.now).rows }
    requires there { (index : ℕ) → run.start ≤ index → index < run.end
        → true ≡ is_present bytes.now (T.plan_of signals.now).rows (slice_get (T.plan_of signals.now).rows index) }
    ensures { IfOk result (λ any. (before : List ℕ) → IsListedTo (T.first signals.now) (T.further signals.now) before bytes.now
        (T.plan_of signals.now) run.start text.old.items some
        → IsListedTo (T.first signals.now) (T.further signals.now) before bytes.now (T.plan_of signals.now) run.end text.new.items
        any) }
{
    let mut any = some;
    for signal in run.start..run.end {
        if is_shown(signals, true, signal, bytes) {
            signals.push(text, any, signal, bytes)?;
            any = true;
        }
    }
    Ok(any)
}

// The signals that are shown, if some have a multiplexor. Runs of signals that are not present are skipped.
#[inline(never)]
fn push_runs<T: SignalText>(text: &mut TextBuffer, signals: &T, bytes: &[u8]) -> Result<(), Memory>
    ensures { OnOk result (text.new.items ≡ text.old.items ++ listed (T.first signals.now bytes.now)
        (T.further signals.now bytes.now)
        (shown_rows bytes.now (T.plan_of signals.now) (T.plan_of signals.now).rows)) }
{
    let plan = signals.plan();
    let mut presence = Presence::for_runs(text.allocator(), plan, bytes)?;
    let mut some = false;
    let mut signal = 0;
    while signal < plan.signals() {
        let (there, end) = presence.run_from(signal);
        if there {
            some = push_run(text, signals, signal..end, some, bytes)?;
        }
        signal = end;
    }
    Ok(())
}

/// Appends what is written of the signals that are shown, in order. It is faster as a separate function, with all
/// registers for its loop.
#[inline(never)]
pub fn push_signals<T: SignalText>(
    text: &mut TextBuffer,
    signals: &T,
    bytes: &[u8],
) -> Result<(), Memory>
    ensures { OnOk result (text.new.items ≡ text.old.items ++ listed (T.first signals.now bytes.now)
        (T.further signals.now bytes.now)
        (shown_rows bytes.now (T.plan_of signals.now) (T.plan_of signals.now).rows)) }
{
    let plan = signals.plan();
    if !plan.is_plain() {
        return push_runs(text, signals, bytes);
    }
    push_run(text, signals, 0..plan.signals(), false, bytes)?;
    Ok(())
}
