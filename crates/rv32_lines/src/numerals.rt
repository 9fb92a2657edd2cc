//! Numbers at the head of a text.

ghost use Rattle.std.specs.Prelude.{◌≡◌, ℕ, ◌-◌, ◌+◌, ◌<◌, ◌++◌, List, true};
ghost use Rattle.std.specs.Prelude.{IfSome, MatchOption, Some};
ghost use Rattle.std.specs.List.{list_all};
ghost use Rattle.std.specs.Char.{digit_value};
ghost use Rattle.std.specs.Str.Parse.{digits_value};
ghost use Rattle.rv32_lines.specs.Reading.{radix, is_digit, capped, EndsDigits, IsNumeralThen};
ghost use Rattle.rv32_lines.specs.Reading.{has_no_zero};
ghost use Rattle.rv32_lines.specs.Statements.{IsNumber, is_hexadecimal_digit};

/// The most digits of a number where zeros may lead.
const MOST_DIGITS: usize = 8;

/// What the digits of a number stand for.
#[derive(Clone, Copy)]
pub(crate) enum Base {
    Decimal,
    Hexadecimal,
}

impl Base {
    ghost use Rattle.std.specs.Prelude.{◌≡◌};
    ghost use Rattle.rv32_lines.specs.Reading.{radix, is_digit};

    /// How many digits there are.
    fn radix(self) -> u32
        ensures { result ≡ radix self }
    {
        match self {
            Base::Decimal => 10,
            Base::Hexadecimal => 16,
        }
    }

    /// Whether a byte is a digit, in lower case.
    fn has(self, byte: u8) -> bool
        ensures { result ≡ is_digit self byte }
    {
        let is_letter = match self {
            Base::Decimal => false,
            Base::Hexadecimal => b'a' <= byte && byte <= b'f',
        };
        (b'0' <= byte && byte <= b'9') || is_letter
    }
}

/// The value of a hexadecimal digit.
pub(crate) fn digit_value(digit: u8) -> u32
    requires { is_hexadecimal_digit digit ≡ true }
    ensures value { result ≡ digit_value digit }
    ensures small { result < 16 }
{
    if digit <= b'9' {
        u32::from(digit - b'0')
    } else {
        u32::from(digit - b'a') + 10
    }
}

/// Whether all bytes are digits of a base.
pub(crate) fn are_digits(text: &[u8], base: Base) -> bool
    ensures { result ≡ list_all (is_digit base) text.now }
{
    text.iter().all(|byte| base.has(*byte))
}

/// The digits at the head of a text, and what stands after them.
#[tactic(auto, using(crate::proofs::Cutting::all_more, crate::proofs::Cutting::ends_at, crate::proofs::Cutting::ends_last))]
fn split_digits(text: &[u8], base: Base) -> (&[u8], &[u8])
    ensures parts { text.now ≡ result.0.now ++ result.1.now }
    ensures digits { list_all (is_digit base) result.0.now ≡ true }
    ensures ends { EndsDigits base result.1.now }
{
    let mut end = 0;
    while end < text.len() && base.has(text[end]) {
        end += 1;
    }
    text.split_at(end)
}

/// The number that digits make, or the highest `u32` where it is higher.
#[tactic(auto, using(crate::proofs::Cutting::capped_more, crate::proofs::Cutting::all_at))]
pub(crate) fn value_of(digits: &[u8], base: Base) -> u32
    requires { list_all (is_digit base) digits.now ≡ true }
    ensures { result ≡ capped (digits_value (radix base) digits.now) }
{
    let mut value: u32 = 0;
    for digit in digits {
        value = value
            .saturating_mul(base.radix())
            .saturating_add(digit_value(*digit));
    }
    value
}

/// Whether digits are those of a number, without leading zeros.
fn has_no_zero(digits: &[u8]) -> bool
    ensures { result ≡ has_no_zero digits.now }
{
    match digits {
        [] => false,
        [_] => true,
        [first, ..] => *first != b'0',
    }
}

/// The number at the head of a text, without leading zeros, and what stands after its digits.
pub(crate) fn numeral_then(text: &[u8], base: Base) -> Option<(u32, &[u8])>
    ensures some { IfSome result (λ p. (n : ℕ) × (p.0 ≡ capped n)
        × IsNumeralThen base text.now n p.1.now) }
    ensures only { (n : ℕ) (rest : List ℕ) → IsNumeralThen base text.now n rest
        → MatchOption result ⊥ (λ p. (p.0 ≡ capped n) × (p.1.now ≡ rest)) }
{
    let (digits, rest) = split_digits(text, base);
    if !has_no_zero(digits) {
        return None;
    }
    Some((value_of(digits, base), rest))
}

/// The number of 1 to 8 digits, where zeros may lead.
pub(crate) fn number_of(digits: &[u8], base: Base) -> Option<u32>
    ensures some { IfSome result (IsNumber (radix base) (is_digit base) digits.now) }
    ensures only { (n : ℕ) → IsNumber (radix base) (is_digit base) digits.now n
        → result ≡ Some n }
{
    if digits.is_empty() || digits.len() > MOST_DIGITS || !are_digits(digits, base) {
        return None;
    }
    Some(value_of(digits, base))
}
