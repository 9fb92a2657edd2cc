#![tactic(auto)]
//! The text of RV32IMA instructions, as lines of a listing.

ghost use Rattle.std.specs.Prelude.{◌≡◌, ◌++◌, OnOk, OnErr};
ghost use Rattle.rv32_text.specs.Growth.{Extends};
ghost use Rattle.rv32_text.specs.Listing.{line_of, text_of_word, word_digits};

mod forms;
mod law;
mod mnemonics;
mod operands;
mod text;

pub use law::text_law;
pub use operands::{push_base, push_indexed, push_register, push_word};
use rv32_decode::decode;
use std::alloc::AllocError;
use text::push_text;

/// Appends the line of a word at an address: the address, the word and its text, with a line feed.
/// Where memory runs out, nothing is appended.
pub fn line_of(address: u32, word: u32, out: &mut Vec<u8>) -> Result<(), AllocError>
    ensures ok { OnOk result (out.new.items ≡ out.old.items ++ line_of address word) }
    ensures err { OnErr result (out.new.items ≡ out.old.items) }
{
    let start = out.len();
    let outcome = push_line(out, address, word);
    if outcome.is_err() {
        out.truncate(start);
    }
    outcome
}

/// Appends the line of a word, or a part of it where memory runs out.
fn push_line(out: &mut Vec<u8>, address: u32, word: u32) -> Result<(), AllocError>
    ensures ok { OnOk result (out.new.items ≡ out.old.items ++ line_of address word) }
    ensures err { OnErr result (Extends out.old.items out.new.items) }
{
    push_field(out, address, b": ")?;
    push_field(out, word, b" ")?;
    push_word_text(out, address, word)?;
    out.extend_from_slice(b"\n")?;
    Ok(())
}

/// A word in eight digits, and what parts it from the next field.
fn push_field(out: &mut Vec<u8>, word: u32, separator: &[u8]) -> Result<(), AllocError>
    ensures ok { OnOk result (out.new.items ≡ out.old.items ++ word_digits word ++ separator.now) }
    ensures err { OnErr result (Extends out.old.items out.new.items) }
{
    push_word(out, word)?;
    out.extend_from_slice(separator)?;
    Ok(())
}

/// Appends the text of what a word at an address decodes to, or a part of it where memory runs out.
pub fn push_word_text(out: &mut Vec<u8>, address: u32, word: u32) -> Result<(), AllocError>
    ensures ok { OnOk result (out.new.items ≡ out.old.items ++ text_of_word address word) }
    ensures err { OnErr result (Extends out.old.items out.new.items) }
{
    match decode(word) {
        Some(i) => push_text(out, address, i)?,
        None => out.extend_from_slice(b"unknown")?,
    }
    Ok(())
}
