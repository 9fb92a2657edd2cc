//! Numbers and addresses in texts.

ghost use Rattle.std.specs.Prelude.{◌≡◌, ◌++◌, OnOk};
ghost use Rattle.std.specs.Fmt.{decimal};
ghost use Rattle.text_output.specs.Text as model;

use itoa::Buffer;
use rv32_text::push_word;
use std::alloc::AllocError;

/// Appends a name and a number.
pub fn push_count(text: &mut Vec<u8>, name: &[u8], count: u64) -> Result<(), AllocError>
    ensures { OnOk result (text.new.items ≡ text.old.items ++ (name.now ++ decimal count)) }
{
    text.extend_from_slice(name)?;
    push_number(text, count)?;
    Ok(())
}

/// Appends a number.
pub fn push_number(text: &mut Vec<u8>, n: u64) -> Result<(), AllocError>
    ensures { OnOk result (text.new.items ≡ text.old.items ++ decimal n) }
{
    let mut buffer = Buffer::new();
    text.extend_from_slice(buffer.format(n).as_bytes())?;
    Ok(())
}

/// Appends an address: eight hexadecimal digits after `0x`.
pub fn push_address(text: &mut Vec<u8>, address: u32) -> Result<(), AllocError>
    ensures { OnOk result (text.new.items ≡ text.old.items ++ model.hex8 address) }
{
    text.extend_from_slice(b"0x")?;
    push_word(text, address)?;
    Ok(())
}
