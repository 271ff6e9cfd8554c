//! Numbers: which bytes are one, and what its digits and its exponent mean, exactly.
ghost use Rattle.std.specs.Prelude.{◌≡◌, ℕ, ℤ, pos, ◌+ℤ◌, ◌-ℤ◌, unsigned_abs, ◌+◌, ◌*◌, ◌^◌, ◌<◌, ◌≤◌, false, take, drop, length};
ghost use Rattle.std.specs.Prelude.{nat_lt, Some, None, IfSome, MatchOption, IsTrue, min, if◌then◌else◌};
ghost use Rattle.std.specs.List.{list_any, list_all, position_or_len, prefix_len};
ghost use Rattle.std.specs.Str.Parse.{digits_value, digits_value_after, signed_digits_value, without_leading_sign};
ghost use Rattle.dbc_values.specs.Lexical.{is_digit, is_sign, is_point, is_exponent_mark, is_mantissa, is_digits, is_signed_digits};
ghost use Rattle.dbc_values.specs.Lexical.{is_number};
ghost use Rattle.dbc_values.specs.Numbers.{mantissa_of, exponent_of, IsWhole, SpellsWhole, whole_of_number, at_most_36_digits};
ghost use Rattle.dbc_values.specs.Numbers.{HasDigits, OccursFor, IsReduced, IsDigitsThen};

/// What a number is as a whole number.
#[derive(Clone, Copy, Debug, PartialEq, Eq)]
pub enum Whole {
    /// It is not whole, like `1.5`.
    Fraction,
    /// It is whole and over `u64::MAX`.
    TooLarge,
    /// It is this number, like 8 for `80E-1`.
    Value(u64),
}

/// A number as `digits · 10^exponent`, where the digits end in no zero. They are `None` if there are more than 36. An exponent
/// beyond 1,000, either way, may be replaced by another one beyond 1,000.
#[derive(Clone, Copy)]
pub(crate) struct Reduced {
    pub digits: Option<u128>,
    pub exponent: i128,
}

/// A whole number as some digits and the zeros at its end. The digits are `None` if there are more than 36.
#[derive(Clone, Copy)]
struct Digits {
    front: Option<u128>,
    zeros: u128,
}

/// One more than the greatest number of 36 digits.
const DIGITS_LIMIT: u128 = 1_000_000_000_000_000_000_000_000_000_000_000_000;

/// One more than the greatest number of 18 digits: ten times such a number plus a digit fits in one word.
const WORD_LIMIT: u128 = 1_000_000_000_000_000_000;

/// One more than the greatest number of 38 digits.
pub(crate) const LIMIT: u128 = 100_000_000_000_000_000_000_000_000_000_000_000_000;

/// Greater than any length of a text, so that no count of digits makes up for an exponent as large as this.
const SATURATED: u128 = 1_000_000_000_000_000_000_000_000_000_000;

fn is_sign(b: u8) -> bool
    ensures { result ≡ is_sign b }
{
    b == b'+' || b == b'-'
}

fn is_exponent_mark(b: u8) -> bool
    ensures { result ≡ is_exponent_mark b }
{
    b == b'E' || b == b'e'
}

/// Whether all bytes are digits.
pub fn are_digits(bytes: &[u8]) -> bool
    ensures { result ≡ list_all is_digit bytes.now }
{
    bytes.iter().all(|b| b.is_ascii_digit())
}

/// How many digits are at the front.
pub fn digits_len(bytes: &[u8]) -> usize
    ensures value { result ≡ prefix_len is_digit bytes.now }
    ensures in_range { result ≤ length bytes.now }
{
    bytes.iter().take_while(|b| b.is_ascii_digit()).count()
}

fn has_digit(bytes: &[u8]) -> bool
    ensures { result ≡ list_any is_digit bytes.now }
{
    bytes.iter().any(|b| b.is_ascii_digit())
}

fn has_exponent_mark(bytes: &[u8]) -> bool
    ensures { result ≡ list_any is_exponent_mark bytes.now }
{
    bytes.iter().any(|b| is_exponent_mark(*b))
}

/// The position of the `E`, or the length if there is none.
fn exponent_index(bytes: &[u8]) -> usize
    ensures value { result ≡ position_or_len is_exponent_mark bytes.now }
    ensures in_range { result ≤ length bytes.now }
{
    bytes.iter().take_while(|b| !is_exponent_mark(**b)).count()
}

/// The position of the point, or the length if there is none.
fn point_index(bytes: &[u8]) -> usize
    ensures value { result ≡ position_or_len is_point bytes.now }
    ensures in_range { result ≤ length bytes.now }
{
    bytes.iter().take_while(|b| **b != b'.').count()
}

/// What is before the byte at the position, and what is after it.
fn split_around(bytes: &[u8], index: usize) -> (&[u8], &[u8])
    requires { index ≤ length bytes.now }
    ensures front { result.0.now ≡ take index bytes.now }
    ensures back { result.1.now ≡ drop (index + 1) bytes.now }
{
    let (front, back) = bytes.split_at(index);
    match back {
        [] => (front, back),
        [_, rest @ ..] => (front, rest),
    }
}

fn is_mantissa(bytes: &[u8]) -> bool
    ensures { result ≡ is_mantissa bytes.now }
{
    let (before_point, after_point) = split_around(bytes, point_index(bytes));
    are_digits(before_point) && are_digits(after_point) && has_digit(bytes)
}

fn is_signed_digits(bytes: &[u8]) -> bool
    ensures { result ≡ is_signed_digits bytes.now }
{
    match bytes {
        [] => false,
        [first, digits @ ..] if is_sign(*first) => !digits.is_empty() && are_digits(digits),
        digits => are_digits(digits),
    }
}

/// Whether the bytes are a number without a sign, like `12`, `.5` or `1.e-3`.
#[tactic(auto, unfolding(crate::specs::Lexical::is_number))]
pub fn is_number(bytes: &[u8]) -> bool
    ensures { result ≡ is_number bytes.now }
{
    let (mantissa, exponent) = split_around(bytes, exponent_index(bytes));
    is_mantissa(mantissa) && (!has_exponent_mark(bytes) || is_signed_digits(exponent))
}

/// The number followed by that many zeros, if the result has at most 38 digits.
pub(crate) fn with_zeros(number: u128, zeros: u128) -> Option<u128>
    ensures { result ≡ (if nat_lt (number * 10 ^ zeros) (10 ^ 38) then Some (number * 10 ^ zeros) else None) }
{
    if number == 0 {
        return Some(0);
    }
    if zeros == 0 {
        return if number < LIMIT { Some(number) } else { None };
    }
    if zeros > 38 {
        return None;
    }
    let product = number.checked_mul(10u128.pow(zeros as u32))?;
    if product < LIMIT { Some(product) } else { None }
}

/// The number followed by that many zeros, as far as it can be determined.
fn whole_with_zeros(number: u128, zeros: u128) -> Whole
    ensures { result ≡ (if nat_lt (number * 10 ^ zeros) (2 ^ 64) then Whole.Value (number * 10 ^ zeros) else Whole.TooLarge) }
{
    match with_zeros(number, zeros) {
        Some(product) if product <= u128::from(u64::MAX) => Whole::Value(product as u64),
        _ => Whole::TooLarge,
    }
}

/// The digits, zeros and one more digit, if together they are at most 36 digits.
fn appended(digits: u128, zeros: u128, digit: u8) -> Option<u128>
    requires { digit < 10 }
    ensures { result ≡ at_most_36_digits (digits * 10 ^ zeros + digit) }
{
    if zeros == 1 && digits < WORD_LIMIT {
        return Some(u128::from(digits as u64 * 10 + u64::from(digit)));
    }
    let sum = with_zeros(digits, zeros)? + u128::from(digit);
    if sum < DIGITS_LIMIT { Some(sum) } else { None }
}

impl Digits {
    const NONE: Digits = Digits {
        front: Some(0),
        zeros: 0,
    };

    /// With one more digit appended.
    fn then(self, digit: u8) -> Digits
        requires digit { digit < 10 }
        requires few { self.zeros < 2 ^ 100 }
        ensures value { (m : ℕ) → HasDigits m self.front self.zeros → HasDigits (m * 10 + digit) result.front result.zeros }
        ensures few { result.zeros ≤ self.zeros + 1 }
    {
        let zeros = self.zeros + 1;
        if digit == 0 {
            return Digits {
                front: self.front,
                zeros,
            };
        }
        let front = match self.front {
            Some(front) => appended(front, zeros, digit),
            None => None,
        };
        Digits { front, zeros: 0 }
    }

    /// With these digits appended.
    fn then_all(self, digits: &[u8]) -> Digits
        requires digits { IsTrue (list_all is_digit digits.now) }
        requires few { self.zeros < 2 ^ 99 }
        ensures value { (m : ℕ) → HasDigits m self.front self.zeros → HasDigits (digits_value_after 10 m digits.now) result.front
            result.zeros }
        ensures few { result.zeros ≤ self.zeros + 2 ^ 64 }
    {
        let mut all = self;
        for digit in digits {
            all = all.then(*digit - b'0');
        }
        all
    }
}

/// The number that the digits at the front write after those of another number, and what comes after them; `None` if the number
/// doesn't fit in one word.
#[inline(always)]
fn leading_digits(start: u64, bytes: &[u8]) -> Option<(u64, &[u8])>
    ensures { IfSome result (λ r. IsDigitsThen start bytes.now r.0 r.1.now) }
{
    let mut value = start;
    let mut rest = bytes;
    'digits: while let [first, others @ ..] = rest {
        if !first.is_ascii_digit() {
            break;
        }
        if value >= WORD_LIMIT as u64 {
            return None;
        }
        value = value * 10 + u64::from(*first - b'0');
        rest = others;
    }
    Some((value, rest))
}

/// The number that digits with at most one point among them write without the point, and how many are after it; `None` for other
/// bytes, and if the number doesn't fit in one word.
fn plain_decimal(number: &[u8]) -> Option<(u64, usize)>
    ensures form { IfSome result (λ _. IsTrue (is_number number.now)) }
    ensures digits { IfSome result (λ r. mantissa_of number.now ≡ r.0) }
    ensures power { IfSome result (λ r. exponent_of number.now ≡ pos 0 -ℤ pos r.1) }
{
    let (whole, rest) = leading_digits(0, number)?;
    match rest {
        [] if !number.is_empty() => Some((whole, 0)),
        [first, fraction @ ..] if *first == b'.' && number.len() > 1 => {
            let (value, rest) = leading_digits(whole, fraction)?;
            if rest.is_empty() {
                Some((value, fraction.len()))
            } else {
                None
            }
        }
        _ => None,
    }
}

/// A number of one word, and the zeros at its end.
fn word_digits(value: u64) -> Digits
    ensures value { HasDigits value result.front result.zeros }
    ensures few { result.zeros < 2 ^ 64 }
{
    let mut front = value;
    let mut zeros: u64 = 0;
    while front != 0 && front % 10 == 0 {
        front /= 10;
        zeros += 1;
    }
    Digits {
        front: Some(u128::from(front)),
        zeros: u128::from(zeros),
    }
}

/// The digits around a point.
fn mantissa_digits(before_point: &[u8], after_point: &[u8]) -> Digits
    requires before { IsTrue (list_all is_digit before_point.now) }
    requires after { IsTrue (list_all is_digit after_point.now) }
    ensures value { HasDigits (digits_value_after 10 (digits_value_after 10 0 before_point.now) after_point.now) result.front
        result.zeros }
    ensures few { result.zeros ≤ 2 ^ 65 }
{
    Digits::NONE.then_all(before_point).then_all(after_point)
}

/// The value of the digits, or [`SATURATED`] if it is greater.
fn value_up_to_saturated(digits: &[u8]) -> u128
    requires { IsTrue (list_all is_digit digits.now) }
    ensures { result ≡ min (digits_value 10 digits.now) (10 ^ 30) }
{
    let mut value = 0;
    for digit in digits {
        value = (value * 10 + u128::from(*digit - b'0')).min(SATURATED);
    }
    value
}

/// The number that digits, perhaps after a sign, write.
fn signed_up_to_far(text: &[u8]) -> i128
    requires { IsTrue (list_all is_digit (without_leading_sign text.now)) }
    ensures value { OccursFor (10 ^ 30) (signed_digits_value 10 text.now) result }
    ensures in_range { unsigned_abs result ≤ 10 ^ 30 }
{
    match text {
        [b'-', digits @ ..] => -(value_up_to_saturated(digits) as i128),
        [b'+', digits @ ..] => value_up_to_saturated(digits) as i128,
        digits => value_up_to_saturated(digits) as i128,
    }
}

/// The exponent of digits of which some are after the point, once the zeros at their end are removed.
fn reduced_exponent(written: i128, after_point: usize, zeros: u128) -> i128
    requires written { unsigned_abs written ≤ 10 ^ 30 }
    requires zeros { zeros ≤ 2 ^ 66 }
    ensures { (e : ℤ) → OccursFor (10 ^ 30) e written → OccursFor 1000 ((e -ℤ pos after_point) +ℤ pos zeros) result }
{
    written - after_point as i128 + zeros as i128
}

impl Reduced {
    /// A number of one word with this many digits after the point.
    fn of_word(value: u64, after_point: usize) -> Reduced
        ensures { IsReduced value (pos 0 -ℤ pos after_point) result.digits result.exponent }
    {
        let digits = word_digits(value);
        Reduced {
            digits: digits.front,
            exponent: reduced_exponent(0, after_point, digits.zeros),
        }
    }

    /// A number of one word with this many digits after the point and a written exponent; `None` if that is no exponent.
    fn of_word_and_exponent(value: u64, after_point: usize, exponent: &[u8]) -> Option<Reduced>
        ensures { MatchOption result (is_signed_digits exponent.now ≡ false) (λ r. IsTrue (is_signed_digits exponent.now)
            × IsReduced value (signed_digits_value 10 exponent.now -ℤ pos after_point) r.digits r.exponent) }
    {
        if !is_signed_digits(exponent) {
            return None;
        }
        let digits = word_digits(value);
        let written = signed_up_to_far(exponent);
        Some(Reduced {
            digits: digits.front,
            exponent: reduced_exponent(written, after_point, digits.zeros),
        })
    }

    /// The number that the bytes write, or `None` if they are no number.
    pub fn read(number: &[u8]) -> Option<Reduced>
        ensures { MatchOption result (is_number number.now ≡ false) (λ r. IsTrue (is_number number.now)
            × IsReduced (mantissa_of number.now) (exponent_of number.now) r.digits r.exponent) }
    {
        if let Some((value, after_point)) = plain_decimal(number) {
            return Some(Reduced::of_word(value, after_point));
        }
        Reduced::read_any(number)
    }

    /// The number that the bytes write, if [`plain_decimal`] doesn't read them: most such numbers have an exponent.
    #[inline(never)]
    fn read_any(number: &[u8]) -> Option<Reduced>
        ensures { MatchOption result (is_number number.now ≡ false) (λ r. IsTrue (is_number number.now)
            × IsReduced (mantissa_of number.now) (exponent_of number.now) r.digits r.exponent) }
    {
        let index = exponent_index(number);
        let (mantissa, exponent) = split_around(number, index);
        if index < number.len() {
            if let Some((value, after_point)) = plain_decimal(mantissa) {
                return Reduced::of_word_and_exponent(value, after_point, exponent);
            }
        }
        if !is_number(number) {
            return None;
        }
        let (before_point, after_point) = split_around(mantissa, point_index(mantissa));
        let digits = mantissa_digits(before_point, after_point);
        let written = signed_up_to_far(exponent);
        Some(Reduced {
            digits: digits.front,
            exponent: reduced_exponent(written, after_point.len(), digits.zeros),
        })
    }

    fn whole(self) -> Whole
        ensures { (m : ℕ) (e : ℤ) → IsReduced m e self.digits self.exponent → IsWhole m e result }
    {
        let Some(digits) = self.digits else {
            return if self.exponent < 0 {
                Whole::Fraction
            } else {
                Whole::TooLarge
            };
        };
        if digits == 0 {
            return Whole::Value(0);
        }
        if self.exponent < 0 {
            return Whole::Fraction;
        }
        whole_with_zeros(digits, self.exponent as u128)
    }
}

/// The whole number that digits alone write, if it fits in one word, as most whole numbers do.
fn plain_whole(number: &[u8]) -> Option<u64>
    ensures spells { IfSome result (λ value. SpellsWhole number.now (Whole.Value value)) }
    ensures digits { IfSome result (λ value. mantissa_of number.now ≡ value) }
    ensures power { IfSome result (λ value. exponent_of number.now ≡ pos 0) }
{
    let (value, rest) = leading_digits(0, number)?;
    if number.is_empty() || !rest.is_empty() {
        return None;
    }
    Some(value)
}

/// The whole number that a number without a sign is by value, or `None` if the bytes are no number.
pub fn whole_of(number: &[u8]) -> Option<Whole>
    ensures spells { MatchOption result (is_number number.now ≡ false) (SpellsWhole number.now) }
    ensures value { result ≡ whole_of_number number.now }
{
    match plain_whole(number) {
        Some(value) => Some(Whole::Value(value)),
        None => Some(Reduced::read(number)?.whole()),
    }
}
