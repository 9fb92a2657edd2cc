//! The names of code.

ghost use Rattle.std.specs.Prelude.{◌≡◌, ◌++◌, ◌<◌, false, OnOk};
ghost use Rattle.std.specs.Fmt.{digits, digit_glyph};
ghost use Rattle.elf_symbols.specs.Symbols.{symbol_at};
ghost use Rattle.block_view.specs.Text as model;

use elf_symbols::{Symbols, push_shown};
use std::alloc::AllocError;

/// Appends the function that has the byte at an address, if there is one, and how far after its
/// first byte the address is.
pub(crate) fn push_function(
    out: &mut Vec<u8>,
    symbols: &Symbols,
    address: u32,
) -> Result<(), AllocError>
    ensures { OnOk result (out.new.items
        ≡ out.old.items ++ model.function_text address (symbol_at symbols.now address)) }
{
    if let Some(symbol) = symbols.symbol_at(address) {
        out.extend_from_slice(b" ")?;
        push_shown(out, symbol.name)?;
        out.extend_from_slice(b"+0x")?;
        push_hexadecimal(out, address - symbol.value)?;
    }
    Ok(())
}

/// Appends a number in hexadecimal, without leading zeros.
fn push_hexadecimal(out: &mut Vec<u8>, n: u32) -> Result<(), AllocError>
    ensures { OnOk result (out.new.items ≡ out.old.items ++ digits 16 false n) }
{
    if n >= 16 {
        push_hexadecimal(out, n / 16)?;
    }
    out.push(digit((n % 16) as u8))?;
    Ok(())
}

/// A hexadecimal digit.
fn digit(n: u8) -> u8
    requires { n < 16 }
    ensures { result ≡ digit_glyph false n }
{
    if n < 10 { b'0' + n } else { b'a' + (n - 10) }
}
