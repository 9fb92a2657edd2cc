//! Numbers in texts.

ghost use Rattle.std.specs.Prelude.{◌≡◌, ◌++◌, OnOk};
ghost use Rattle.std.specs.Fmt.{decimal};
ghost use Rattle.speedup_page.specs.Rows as model;

use itoa::Buffer;
use std::alloc::AllocError;

/// Appends a number.
pub(crate) fn push_number(out: &mut Vec<u8>, n: u128) -> Result<(), AllocError>
    ensures { OnOk result (out.new.items ≡ out.old.items ++ decimal n) }
{
    let mut buffer = Buffer::new();
    out.extend_from_slice(buffer.format(n).as_bytes())
}

/// Appends a text, and a number after it.
#[tactic(auto, unfolding(crate::specs::Rows::numbered))]
pub(crate) fn push_numbered(out: &mut Vec<u8>, text: &[u8], n: u128) -> Result<(), AllocError>
    ensures { OnOk result (out.new.items ≡ out.old.items ++ model.numbered text.now n) }
{
    out.extend_from_slice(text)?;
    push_number(out, n)
}

/// Appends hundredths as a number with two decimals.
#[tactic(auto, unfolding(crate::specs::Rows::hundredths_text))]
pub(crate) fn push_hundredths(out: &mut Vec<u8>, n: u128) -> Result<(), AllocError>
    ensures { OnOk result (out.new.items ≡ out.old.items ++ model.hundredths_text n) }
{
    push_number(out, n / 100)?;
    push_numbered(out, b".", n / 10 % 10)?;
    push_number(out, n % 10)
}
