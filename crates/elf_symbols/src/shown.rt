//! The names of functions, as they are shown.

ghost use Rattle.std.specs.Prelude.{◌≡◌, ◌++◌, map, OnOk};
ghost use Rattle.elf_symbols.specs.Shown as model;

use std::alloc::AllocError;

/// Appends a name, each byte that isn't a visible character of ASCII as `?`.
pub fn push_shown(out: &mut Vec<u8>, name: &[u8]) -> Result<(), AllocError>
    ensures { OnOk result (out.new.items ≡ out.old.items ++ map model.shown_byte name.now) }
{
    for byte in name {
        out.push(shown_byte(*byte))?;
    }
    Ok(())
}

/// A byte of a name as it is shown.
fn shown_byte(byte: u8) -> u8
    ensures { result ≡ model.shown_byte byte }
{
    if byte.is_ascii_graphic() { byte } else { b'?' }
}
