//! A signal's bits, kept as what each byte adds to its raw value.
ghost use Rattle.std.specs.Prelude.{◌≡◌, ℕ, ◌+◌, ◌-◌, ◌*◌, ◌/◌, ◌%◌, ◌^◌, ◌<◌, ◌≤◌, List, All, length, unsigned_abs};
ghost use Rattle.std.specs.List.{sum_by};
ghost use Rattle.dbc_records.specs.Records.{is_signed};
ghost use Rattle.can_bits.specs.Bits.{bits_of, bits_from, unsigned_raw, raw_value};
ghost use Rattle.can_bits.specs.Steps.{part_of, IsStep, IsRun};

use crate::field::Field;
use crate::step::Step;
use crate::window::Window;
use dbc_records::{ByteOrder, ValueType};
use smallvec::SmallVec;
use std::alloc::Global;
use std::marker::Model;

/// The bits of a signal of at most 64 bits, by the bytes that hold them. They are in nine bytes at most.
#[derive(Drop)]
pub struct Steps {
    window: Option<Window>,
    field: Field,
    steps: SmallVec<Step, 9>,
}

impl Model for Steps {
    ghost use Rattle.std.specs.Prelude.{List, IfSome};
    ghost use Rattle.can_bits.specs.Bits.{Bit, bits_of};
    ghost use Rattle.can_bits.specs.Steps.{AreSteps};
    ghost use Rattle.can_bits.specs.Windows.{IsWindow};

    ghost Value = { List Bit };

    ghost view = { λ a. bits_of a.field };

    ghost invariant = { λ a. AreSteps a.field a.steps.items × IfSome a.window (λ window. IsWindow a.field window) };
}

// The step for the bits from an index on that are in the same byte as its bit, and how many bits those are.
fn run_at(field: Field, index: u16) -> (Step, u16)
    requires inside { index < field.length }
    requires short { field.length ≤ 64 }
    ensures run { IsRun field index result.0 result.1 }
{
    let left = (field.length - index) as u8;
    let passed = field.passed(index);
    let byte = (passed / 8) as u16;
    let after = (passed % 8) as u8;
    let run = left.min(8 - after);
    match field.order {
        ByteOrder::Intel => (Step::of_run(byte, after, run, index as u8), u16::from(run)),
        ByteOrder::Motorola => {
            let low = 8 - after - run;
            (Step::of_run(byte, low, run, left - run), u16::from(run))
        }
    }
}

impl Steps {
    /// The bits of a field. This allocates nothing, since nine steps are always enough.
    pub fn of(alloc: Global, field: Field) -> Steps
        requires { field.length ≤ 64 }
        ensures { result ≡ bits_of field }
    {
        let mut steps = SmallVec::new(alloc);
        let mut index = 0;
        while index < field.length {
            let (step, run) = run_at(field, index);
            steps.push_reserved(step);
            index += run;
        }
        let window = Window::of(field);
        Steps {
            field,
            window,
            steps,
        }
    }

    /// The steps, in the order of the bytes.
    pub(crate) fn as_slice(&self) -> &[Step] {
        self.steps.as_slice()
    }

    /// The raw value in data, read without sign. Bits after the end of the data are read as 0.
    pub fn raw(&self, bytes: &[u8]) -> u64
        ensures { result ≡ unsigned_raw bytes.now self.now }
    {
        match (self.window, bytes.first_chunk::<8>()) {
            (Some(window), Some(first)) => window.bits_in(first),
            _ => self.raw_by_steps(bytes),
        }
    }

    // The raw value, byte by byte.
    fn raw_by_steps(&self, bytes: &[u8]) -> u64
        ensures { result ≡ unsigned_raw bytes.now self.now }
    {
        let mut raw = 0;
        for step in self.steps.as_slice() {
            raw += step.part(bytes);
        }
        raw
    }

    /// The raw value in data: in two's complement for a signed signal, in as many bits as the signal has.
    pub fn raw_value(&self, value_type: ValueType, bytes: &[u8]) -> i128
        ensures value { result ≡ raw_value bytes.now (is_signed value_type) self.now }
        ensures in_range { unsigned_abs result ≤ 2 ^ length self.now }
    {
        let raw = self.raw(bytes);
        let length = self.field.length;
        let signed = value_type.is_signed();
        if !signed || length == 0 {
            return i128::from(raw);
        }
        let half = 1u64 << (length - 1);
        if raw >= half {
            i128::from(raw) - 2 * i128::from(half)
        } else {
            i128::from(raw)
        }
    }
}
