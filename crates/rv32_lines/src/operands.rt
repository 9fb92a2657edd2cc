//! The operands of instructions, read. Numbers are the highest of their type where they are higher.

ghost use Rattle.std.specs.Prelude.{◌≡◌, ℕ, ℤ, negsuc, suc, ◌++◌, List, codes, IsSome, IfSome};
ghost use Rattle.std.specs.Prelude.{MatchOption, Some};
ghost use Rattle.rv32_lines.specs.Reading.{capped, clipped, IsRegisterThen};
ghost use Rattle.rv32_lines.specs.Reading.{IsSignedThen, IsNumeralThen, radix, IsReadTarget};
ghost use Rattle.rv32_lines.specs.Reading.{IsTargetText};
ghost use Rattle.rv32_lines.specs.Statements.{IsTarget};
ghost use Rattle.rv32_lines.specs.declared.numerals.Base.TheVariants.{Decimal};
ghost use Rattle.rv32_lines.specs.Texts.{Target as Targets, Address, numeral, register, base};
ghost use Rattle.rv32_lines.specs.Texts.{signed_numeral, indexed, upper_digits, target_text};

use crate::heads::behind;
use crate::names::is_name;
use crate::numerals::{Base, are_digits, numeral_then, value_of};

/// Between two operands.
const COMMA: &[u8] = b", ";

/// The fewest digits of a target.
const TARGET_DIGITS: usize = 8;

/// The target of a jump.
#[derive(Clone, Copy)]
pub enum Target<'a> {
    Address { address: u32 },
    /// More digits than an address has.
    Long,
    Name { name: &'a [u8] },
}

/// A register and a distance from the address in it.
#[derive(Clone, Copy)]
pub(crate) struct Indexed {
    pub imm: i64,
    pub base: u32,
}

/// `xR`
fn register_then(text: &[u8]) -> Option<(u32, &[u8])>
    ensures some { IfSome result (λ p. (r : ℕ) × (p.0 ≡ capped r)
        × IsRegisterThen text.now r p.1.now) }
    ensures only { (r : ℕ) (rest : List ℕ) → IsRegisterThen text.now r rest
        → MatchOption result ⊥ (λ p. (p.0 ≡ capped r) × (p.1.now ≡ rest)) }
{
    let digits = behind(text, b"x")?;
    numeral_then(digits, Base::Decimal)
}

/// `xR`, and nothing after it.
fn register(text: &[u8]) -> Option<u32>
    ensures some { IfSome result (λ n. (r : ℕ) × (n ≡ capped r) × (text.now ≡ register r)) }
    ensures only { (r : ℕ) → text.now ≡ register r → result ≡ Some (capped r) }
{
    let (number, rest) = register_then(text)?;
    if rest.is_empty() { Some(number) } else { None }
}

/// `xR, `
fn register_comma(text: &[u8]) -> Option<(u32, &[u8])>
    ensures some { IfSome result (λ p. (r : ℕ) × (p.0 ≡ capped r)
        × (text.now ≡ register r ++ (codes ", " ++ p.1.now))) }
    ensures only { (r : ℕ) (rest : List ℕ) → text.now ≡ register r ++ (codes ", " ++ rest)
        → MatchOption result ⊥ (λ p. (p.0 ≡ capped r) × (p.1.now ≡ rest)) }
{
    let (number, rest) = register_then(text)?;
    let next = behind(rest, b", ")?;
    Some((number, next))
}

/// `(xR)`
fn base(text: &[u8]) -> Option<u32>
    ensures some { IfSome result (λ n. (r : ℕ) × (n ≡ capped r) × (text.now ≡ base r)) }
    ensures only { (r : ℕ) → text.now ≡ base r → result ≡ Some (capped r) }
{
    let inside = behind(text, b"(")?;
    let (number, rest) = register_then(inside)?;
    if rest == b")".as_slice() {
        Some(number)
    } else {
        None
    }
}

/// A number below zero after its sign, and what stands after it.
fn negative_then(digits: &[u8]) -> Option<(i64, &[u8])>
    ensures some { IfSome result (λ p. (n : ℕ) × (p.0 ≡ clipped (negsuc n))
        × IsNumeralThen Decimal digits.now (suc n) p.1.now) }
    ensures only { (n : ℕ) (rest : List ℕ) → IsNumeralThen Decimal digits.now (suc n) rest
        → MatchOption result ⊥ (λ p. (p.0 ≡ clipped (negsuc n)) × (p.1.now ≡ rest)) }
{
    let (number, rest) = numeral_then(digits, Base::Decimal)?;
    if number == 0 {
        return None;
    }
    Some((-i64::from(number), rest))
}

/// A signed number, and what stands after it.
fn signed_then(text: &[u8]) -> Option<(i64, &[u8])>
    ensures some { IfSome result (λ p. (z : ℤ) × (p.0 ≡ clipped z)
        × IsSignedThen text.now z p.1.now) }
    ensures only { (z : ℤ) (rest : List ℕ) → IsSignedThen text.now z rest
        → MatchOption result ⊥ (λ p. (p.0 ≡ clipped z) × (p.1.now ≡ rest)) }
{
    if let Some(digits) = behind(text, b"-") {
        return negative_then(digits);
    }
    let (number, rest) = numeral_then(text, Base::Decimal)?;
    Some((i64::from(number), rest))
}

/// A signed number, and nothing after it.
fn signed(text: &[u8]) -> Option<i64>
    ensures some { IfSome result (λ i. (z : ℤ) × (i ≡ clipped z)
        × (text.now ≡ signed_numeral z)) }
    ensures only { (z : ℤ) → text.now ≡ signed_numeral z → result ≡ Some (clipped z) }
{
    let (number, rest) = signed_then(text)?;
    if rest.is_empty() { Some(number) } else { None }
}

/// A number, and nothing after it.
fn numeral(text: &[u8], base: Base) -> Option<u32>
    ensures some { IfSome result (λ i. (n : ℕ) × (i ≡ capped n)
        × (text.now ≡ numeral (radix base) n)) }
    ensures only { (n : ℕ) → text.now ≡ numeral (radix base) n → result ≡ Some (capped n) }
{
    let (number, rest) = numeral_then(text, base)?;
    if rest.is_empty() { Some(number) } else { None }
}

/// `0xH`, without leading zeros.
fn upper(text: &[u8]) -> Option<u32>
    ensures some { IfSome result (λ i. (n : ℕ) × (i ≡ capped n) × (text.now ≡ upper_digits n)) }
    ensures only { (n : ℕ) → text.now ≡ upper_digits n → result ≡ Some (capped n) }
{
    let digits = behind(text, b"0x")?;
    numeral(digits, Base::Hexadecimal)
}

/// `I(xR)`
fn indexed_by(text: &[u8]) -> Option<Indexed>
    ensures some { IfSome result (λ i. (z : ℤ) × (r : ℕ) × (i.imm ≡ clipped z)
        × (i.base ≡ capped r) × (text.now ≡ indexed z r)) }
    ensures only { (z : ℤ) (r : ℕ) → text.now ≡ indexed z r
        → MatchOption result ⊥ (λ i. (i.imm ≡ clipped z) × (i.base ≡ capped r)) }
{
    let (imm, rest) = signed_then(text)?;
    let base = base(rest)?;
    Some(Indexed { imm, base })
}

/// The target of digits after `0x`: eight or more.
fn address_of(digits: &[u8]) -> Option<Target<'_>>
    ensures some { IfSome result (λ t. IsReadTarget t (Address digits.now)
        × IsTarget (Address digits.now)) }
    ensures only { IsTarget (Address digits.now) → IsSome result }
{
    if digits.len() < TARGET_DIGITS || !are_digits(digits, Base::Hexadecimal) {
        return None;
    }
    if digits.len() > TARGET_DIGITS {
        return Some(Target::Long);
    }
    let address = value_of(digits, Base::Hexadecimal);
    Some(Target::Address { address })
}

/// A target: `0x` and eight digits or more, or a name.
fn target_of(text: &[u8]) -> Option<Target<'_>>
    ensures some { IfSome result (λ t. (to : Targets) × IsReadTarget t to
        × IsTargetText text.now to) }
    ensures only { (to : Targets) → IsTargetText text.now to
        → MatchOption result ⊥ (λ t. IsReadTarget t to) }
{
    if let Some(digits) = behind(text, b"0x") {
        return address_of(digits);
    }
    if is_name(text) {
        Some(Target::Name { name: text })
    } else {
        None
    }
}

/// `xD, 0xH`
pub(crate) fn register_upper(text: &[u8]) -> Option<(u32, u32)>
    ensures some { IfSome result (λ p. (rd n : ℕ) × (p.0 ≡ capped rd) × (p.1 ≡ capped n)
        × (text.now ≡ register rd ++ (codes ", " ++ upper_digits n))) }
    ensures only { (rd n : ℕ)
        → text.now ≡ register rd ++ (codes ", " ++ upper_digits n)
        → MatchOption result ⊥ (λ p. (p.0 ≡ capped rd) × (p.1 ≡ capped n)) }
{
    let (rd, rest) = register_comma(text)?;
    Some((rd, upper(rest)?))
}

/// `xD, ` and a target.
pub(crate) fn register_target(text: &[u8]) -> Option<(u32, Target<'_>)>
    ensures some { IfSome result (λ p. (rd : ℕ) × (to : Targets) × (p.0 ≡ capped rd)
        × IsReadTarget p.1 to × IsTarget to
        × (text.now ≡ register rd ++ (codes ", " ++ target_text to))) }
    ensures only { (rd : ℕ) (to : Targets) → IsTarget to
        → text.now ≡ register rd ++ (codes ", " ++ target_text to)
        → MatchOption result ⊥ (λ p. (p.0 ≡ capped rd) × IsReadTarget p.1 to) }
{
    let (rd, rest) = register_comma(text)?;
    Some((rd, target_of(rest)?))
}

/// `xD, I(xA)`
pub(crate) fn register_indexed(text: &[u8]) -> Option<(u32, Indexed)>
    ensures some { IfSome result (λ p. (rd r : ℕ) × (z : ℤ) × (p.0 ≡ capped rd)
        × (p.1.imm ≡ clipped z) × (p.1.base ≡ capped r)
        × (text.now ≡ register rd ++ (codes ", " ++ indexed z r))) }
    ensures only { (rd r : ℕ) (z : ℤ)
        → text.now ≡ register rd ++ (codes ", " ++ indexed z r)
        → MatchOption result ⊥ (λ p. (p.0 ≡ capped rd) × (p.1.imm ≡ clipped z)
        × (p.1.base ≡ capped r)) }
{
    let (rd, rest) = register_comma(text)?;
    Some((rd, indexed_by(rest)?))
}

/// `xA, xB, ` and a target.
pub(crate) fn registers_target(text: &[u8]) -> Option<(u32, u32, Target<'_>)>
    ensures some { IfSome result (λ p. (r n : ℕ) × (to : Targets) × (p.0 ≡ capped r)
        × (p.1 ≡ capped n)
        × IsReadTarget p.2 to × IsTarget to
        × (text.now ≡ register r ++ (codes ", " ++ register n ++ (codes ", " ++ target_text to)))) }
    ensures only { (r n : ℕ) (to : Targets) → IsTarget to
        → text.now ≡ register r ++ (codes ", " ++ register n ++ (codes ", " ++ target_text to))
        → MatchOption result ⊥ (λ p. (p.0 ≡ capped r) × (p.1 ≡ capped n) × IsReadTarget p.2 to) }
{
    let (first, rest) = register_comma(text)?;
    let (second, last) = register_comma(rest)?;
    Some((first, second, target_of(last)?))
}

/// `xD, xA, I`
pub(crate) fn registers_immediate(text: &[u8]) -> Option<(u32, u32, i64)>
    ensures some { IfSome result (λ p. (rd r : ℕ) × (z : ℤ) × (p.0 ≡ capped rd)
        × (p.1 ≡ capped r) × (p.2 ≡ clipped z)
        × (text.now ≡ register rd ++ (codes ", " ++ register r
        ++ (codes ", " ++ signed_numeral z)))) }
    ensures only { (rd r : ℕ) (z : ℤ)
        → text.now ≡ register rd ++ (codes ", " ++ register r ++ (codes ", " ++ signed_numeral z))
        → MatchOption result ⊥ (λ p. (p.0 ≡ capped rd) × (p.1 ≡ capped r) × (p.2 ≡ clipped z)) }
{
    let (first, rest) = register_comma(text)?;
    let (second, last) = register_comma(rest)?;
    Some((first, second, signed(last)?))
}

/// `xD, xA, xB`
pub(crate) fn three_registers(text: &[u8]) -> Option<(u32, u32, u32)>
    ensures some { IfSome result (λ p. (rd r n : ℕ) × (p.0 ≡ capped rd) × (p.1 ≡ capped r)
        × (p.2 ≡ capped n)
        × (text.now ≡ register rd ++ (codes ", " ++ register r ++ (codes ", " ++ register n)))) }
    ensures only { (rd r n : ℕ)
        → text.now ≡ register rd ++ (codes ", " ++ register r ++ (codes ", " ++ register n))
        → MatchOption result ⊥ (λ p. (p.0 ≡ capped rd) × (p.1 ≡ capped r) × (p.2 ≡ capped n)) }
{
    let (first, rest) = register_comma(text)?;
    let (second, last) = register_comma(rest)?;
    Some((first, second, register(last)?))
}

/// `xD, (xA)`
pub(crate) fn register_base(text: &[u8]) -> Option<(u32, u32)>
    ensures some { IfSome result (λ p. (rd r : ℕ) × (p.0 ≡ capped rd) × (p.1 ≡ capped r)
        × (text.now ≡ register rd ++ (codes ", " ++ base r))) }
    ensures only { (rd r : ℕ)
        → text.now ≡ register rd ++ (codes ", " ++ base r)
        → MatchOption result ⊥ (λ p. (p.0 ≡ capped rd) × (p.1 ≡ capped r)) }
{
    let (rd, rest) = register_comma(text)?;
    Some((rd, base(rest)?))
}

/// `xD, xB, (xA)`
pub(crate) fn registers_base(text: &[u8]) -> Option<(u32, u32, u32)>
    ensures some { IfSome result (λ p. (rd r n : ℕ) × (p.0 ≡ capped rd) × (p.1 ≡ capped r)
        × (p.2 ≡ capped n)
        × (text.now ≡ register rd ++ (codes ", " ++ register r ++ (codes ", " ++ base n)))) }
    ensures only { (rd r n : ℕ)
        → text.now ≡ register rd ++ (codes ", " ++ register r ++ (codes ", " ++ base n))
        → MatchOption result ⊥ (λ p. (p.0 ≡ capped rd) × (p.1 ≡ capped r) × (p.2 ≡ capped n)) }
{
    let (first, rest) = register_comma(text)?;
    let (second, last) = register_comma(rest)?;
    Some((first, second, base(last)?))
}
