//! Numbers and bytes in hexadecimal digits.

ghost use Rattle.std.specs.Prelude.{◌≡◌, ◌<◌, ◌++◌, [], false, IfSome, IfOk, OnOk, option_map};
ghost use Rattle.std.specs.Fmt.{digit_glyph};
ghost use Rattle.gdb_remote.specs.Hexadecimal.{byte_digits, bytes_digits, word_digits, digit_value};
ghost use Rattle.gdb_remote.specs.Hexadecimal.{pair_value, number_of, bytes_of};

use std::alloc::{AllocError, Global};

/// A number has at most 64 bits: no digit may follow one from here on.
const LAST_DIGIT: u64 = 1 << 60;

/// The digit of a number below 16, in lower case.
fn digit(value: u8) -> u8
    requires { value < 16 }
    ensures { result ≡ digit_glyph false value }
{
    if value < 10 {
        b'0' + value
    } else {
        b'a' + (value - 10)
    }
}

/// Appends a byte in two digits.
pub(crate) fn push_byte(out: &mut Vec<u8>, byte: u8) -> Result<(), AllocError>
    ensures { OnOk result (out.new.items ≡ out.old.items ++ byte_digits byte) }
{
    out.push(digit(byte / 16))?;
    out.push(digit(byte % 16))?;
    Ok(())
}

/// Appends bytes in two digits each.
pub fn push_bytes(out: &mut Vec<u8>, bytes: &[u8]) -> Result<(), AllocError>
    ensures { OnOk result (out.new.items ≡ out.old.items ++ bytes_digits bytes.now) }
{
    for byte in bytes {
        push_byte(out, *byte)?;
    }
    Ok(())
}

/// Appends a word in eight digits.
pub fn push_word(out: &mut Vec<u8>, word: u32) -> Result<(), AllocError>
    ensures { OnOk result (out.new.items ≡ out.old.items ++ word_digits word) }
{
    push_bytes(out, &word.to_be_bytes())
}

/// The value of a digit, in either case.
pub(crate) fn value_of(digit: u8) -> Option<u8>
    ensures value { result ≡ digit_value digit }
    ensures small { IfSome result (λ v. v < 16) }
{
    match digit {
        b'0'..=b'9' => Some(digit - b'0'),
        b'a'..=b'f' => Some(digit - b'a' + 10),
        b'A'..=b'F' => Some(digit - b'A' + 10),
        _ => None,
    }
}

/// The byte that two digits write.
pub(crate) fn byte_of(high: u8, low: u8) -> Option<u8>
    ensures { result ≡ pair_value high low }
{
    let high = value_of(high)?;
    let low = value_of(low)?;
    Some(16 * high + low)
}

/// The number that a text writes, if it has at most 64 bits.
pub(crate) fn number_of(text: &[u8]) -> Option<u64>
    ensures { result ≡ number_of text.now }
{
    if text.is_empty() {
        return None;
    }
    let mut number = 0u64;
    for digit in text {
        if number >= LAST_DIGIT {
            return None;
        }
        number = 16 * number + u64::from(value_of(*digit)?);
    }
    Some(number)
}

/// The bytes that a text writes, two digits each.
#[tactic(auto, using(crate::proofs::Hexadecimals::bytes_of_pair))]
pub fn bytes_of(alloc: Global, text: &[u8]) -> Result<Option<Vec<u8>>, AllocError>
    ensures { IfOk result (λ o. option_map (λ v. v.items) o ≡ bytes_of text.now) }
{
    let mut bytes = Vec::new(alloc);
    let mut rest = text;
    while rest.len() >= 2 {
        let Some(byte) = byte_of(rest[0], rest[1]) else {
            return Ok(None);
        };
        bytes.push(byte)?;
        rest = rest.split_at(2).1;
    }
    Ok(if rest.is_empty() { Some(bytes) } else { None })
}
