//! Laws of the definitions. The functions do nothing: what they ensure is the law.
ghost use Rattle.std.specs.Prelude.{◌≡◌, ◌↔◌, Some, ℕ, ℤ, pos, negsuc, codes, Bool};
ghost use Rattle.dbc_values.specs.Decimals.{Decimal, IsDecimalOf, decimal_of};
ghost use Rattle.dbc_values.specs.Numbers.{mantissa_of, exponent_of, IsWhole, whole_value};
ghost use Rattle.dbc_values.specs.declared.number.Whole.{Whole};

/// A number is at most one decimal: the one that [`Decimal::of_number`](crate::Decimal::of_number) makes.
pub fn one_decimal()
    ensures { (negative : Bool) (m : ℕ) (e : ℤ) (d : Decimal) → IsDecimalOf negative m e d ↔ (decimal_of negative m e ≡ Some d) }
{}

/// A number is exactly one whole number, or too large, or not whole.
pub fn one_whole()
    ensures { (m : ℕ) (e : ℤ) (whole : Whole) → IsWhole m e whole ↔ (whole_value m e ≡ whole) }
{}

/// What some number texts mean, computed by the definitions: 1250 · 10^-5, 5 · 10^-1, 7 · 10^2 and 10 · 10^-12.
#[tactic(auto, unfolding(crate::specs::Numbers::mantissa_of, crate::specs::Numbers::exponent_of))]
pub fn worked_numbers()
    ensures fraction { (mantissa_of (codes "12.50e-3") ≡ 1250) × (exponent_of (codes "12.50e-3") ≡ negsuc 4) }
    ensures point_first { (mantissa_of (codes ".5") ≡ 5) × (exponent_of (codes ".5") ≡ negsuc 0) }
    ensures point_last { (mantissa_of (codes "007.E+02") ≡ 7) × (exponent_of (codes "007.E+02") ≡ pos 2) }
    ensures small { (mantissa_of (codes "1.0E-11") ≡ 10) × (exponent_of (codes "1.0E-11") ≡ negsuc 11) }
{}
