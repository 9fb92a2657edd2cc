//! Bytes as their digits.

ghost use Rattle.std.specs.Prelude.{◌≡◌, ℕ, ◌<◌, ◌++◌, List, true, All, OnOk};
ghost use Rattle.std.specs.List.{list_all, flat_map};
ghost use Rattle.rv32_lines.specs.Statements.{is_hexadecimal_digit, byte_digits};

use crate::numerals::digit_value;
use std::alloc::AllocError;

/// Appends the bytes of digits, two digits each.
pub fn append_bytes(out: &mut Vec<u8>, digits: &[u8]) -> Result<(), AllocError>
    requires { list_all is_hexadecimal_digit digits.now ≡ true }
    ensures { (bytes : List ℕ) → digits.now ≡ flat_map byte_digits bytes
        → All (λ b. b < 256) bytes → OnOk result (out.new.items ≡ out.old.items ++ bytes) }
{
    let mut place = 0;
    while place + 1 < digits.len() {
        let high = digit_value(digits[place]);
        let low = digit_value(digits[place + 1]);
        out.push((16 * high + low) as u8)?;
        place += 2;
    }
    Ok(())
}
