//! The operands of instructions, put at the end of a text.

ghost use Rattle.std.specs.Prelude.{◌≡◌, ◌-◌, ◌++◌, ◌<◌, ◌≤◌, ◌^◌, OnOk, OnErr, drop, false};
ghost use Rattle.std.specs.Fmt.{decimal, signed_decimal, digits};
ghost use Rattle.rv32_text.specs.Growth.{Extends};
ghost use Rattle.rv32_text.specs.Listing.{register, base, indexed, upper_digits, nibble};
ghost use Rattle.rv32_text.specs.Listing.{word_digits, target_address, target};

use itoa::Buffer;
use rv32_decode::{Amount, Imm12, Reg, Upper};
use std::alloc::AllocError;

/// `xR`
pub fn push_register(out: &mut Vec<u8>, r: Reg) -> Result<(), AllocError>
    ensures ok { OnOk result (out.new.items ≡ out.old.items ++ register r) }
    ensures err { OnErr result (Extends out.old.items out.new.items) }
{
    let mut buffer = Buffer::new();
    out.extend_from_slice(b"x")?;
    out.extend_from_slice(buffer.format(r.number()).as_bytes())?;
    Ok(())
}

/// `(xR)`
pub fn push_base(out: &mut Vec<u8>, r: Reg) -> Result<(), AllocError>
    ensures ok { OnOk result (out.new.items ≡ out.old.items ++ base r) }
    ensures err { OnErr result (Extends out.old.items out.new.items) }
{
    out.extend_from_slice(b"(")?;
    push_register(out, r)?;
    out.extend_from_slice(b")")?;
    Ok(())
}

/// The number in decimal, with `-` where it is negative.
pub(crate) fn push_immediate(out: &mut Vec<u8>, imm: Imm12) -> Result<(), AllocError>
    ensures ok { OnOk result (out.new.items ≡ out.old.items ++ signed_decimal imm) }
    ensures err { OnErr result (Extends out.old.items out.new.items) }
{
    let mut buffer = Buffer::new();
    out.extend_from_slice(buffer.format(imm.value()).as_bytes())?;
    Ok(())
}

/// The amount of a shift in decimal.
pub(crate) fn push_amount(out: &mut Vec<u8>, amount: Amount) -> Result<(), AllocError>
    ensures ok { OnOk result (out.new.items ≡ out.old.items ++ decimal amount) }
    ensures err { OnErr result (Extends out.old.items out.new.items) }
{
    let mut buffer = Buffer::new();
    out.extend_from_slice(buffer.format(amount.value()).as_bytes())?;
    Ok(())
}

/// An immediate and a register in brackets.
pub fn push_indexed(out: &mut Vec<u8>, imm: Imm12, r: Reg) -> Result<(), AllocError>
    ensures ok { OnOk result (out.new.items ≡ out.old.items ++ indexed imm r) }
    ensures err { OnErr result (Extends out.old.items out.new.items) }
{
    push_immediate(out, imm)?;
    push_base(out, r)?;
    Ok(())
}

/// The address that a distance leads to, modulo 2^32.
pub(crate) fn push_target(out: &mut Vec<u8>, address: u32, offset: i32) -> Result<(), AllocError>
    ensures ok { OnOk result (out.new.items ≡ out.old.items ++ target address offset) }
    ensures err { OnErr result (Extends out.old.items out.new.items) }
{
    out.extend_from_slice(b"0x")?;
    push_word(out, target_address(address, offset))?;
    Ok(())
}

/// The address that a distance leads to, modulo 2^32.
fn target_address(address: u32, offset: i32) -> u32
    ensures { result ≡ target_address address offset }
{
    address.wrapping_add(offset.cast_unsigned())
}

/// The upper 20 bits in hexadecimal, with no leading zeros.
pub(crate) fn push_upper(out: &mut Vec<u8>, upper: Upper) -> Result<(), AllocError>
    ensures ok { OnOk result (out.new.items ≡ out.old.items ++ upper_digits upper) }
    ensures err { OnErr result (Extends out.old.items out.new.items) }
{
    let digits = word_digits(upper.value());
    let zeros = 8 - digit_count(upper.value());
    out.extend_from_slice(b"0x")?;
    out.extend_from_slice(&digits[zeros..])?;
    Ok(())
}

/// How many hexadecimal digits the number has, with no leading zeros.
#[tactic(auto, using(crate::proofs::Hexadecimal::digit_counts))]
fn digit_count(n: u32) -> usize
    requires { n < 2 ^ 20 }
    ensures count { result ≤ 8 }
    ensures digits { drop (8 - result) (word_digits n) ≡ digits 16 false n }
{
    match n {
        0..=0xf => 1,
        0x10..=0xff => 2,
        0x100..=0xfff => 3,
        0x1000..=0xffff => 4,
        _ => 5,
    }
}

/// A word in eight hexadecimal digits. Where memory runs out, nothing is appended.
pub fn push_word(out: &mut Vec<u8>, word: u32) -> Result<(), AllocError>
    ensures ok { OnOk result (out.new.items ≡ out.old.items ++ word_digits word) }
    ensures err { OnErr result (out.new.items ≡ out.old.items) }
{
    out.extend_from_slice(&word_digits(word))?;
    Ok(())
}

#[tactic(auto, unfolding(crate::specs::Listing::word_digits))]
/// A word in eight hexadecimal digits.
fn word_digits(word: u32) -> [u8; 8]
    ensures { result ≡ word_digits word }
{
    [
        nibble(word, 28),
        nibble(word, 24),
        nibble(word, 20),
        nibble(word, 16),
        nibble(word, 12),
        nibble(word, 8),
        nibble(word, 4),
        nibble(word, 0),
    ]
}

/// The hexadecimal digit of the four bits from a place on.
fn nibble(word: u32, low: u32) -> u8
    requires { low < 32 }
    ensures { result ≡ nibble word low }
{
    let digit = ((word >> low) & 0xf) as u8;
    if digit < 10 {
        b'0' + digit
    } else {
        b'a' + (digit - 10)
    }
}
