//! Words of rewritten code as texts.

ghost use Rattle.std.specs.Prelude.{◌≡◌, ◌++◌, OnOk, codes};
ghost use Rattle.rv32_text.specs.Listing.{indexed, with_two, base, register, word_digits};
ghost use Rattle.jump_map.specs.Image.{address_of_word};
ghost use Rattle.code_view.specs.Names as model;
ghost use Rattle.code_view.specs.Words.{read_text, rewritten_text};

use crate::names::{batch_name, width_letter};
use jump_map::IMAGE_BASE;
use runtime_words::{RtWord, WordNumber, read_word};
use rv32_decode::{Imm12, Reg, Width};
use rv32_text::{push_base, push_indexed, push_register, push_word, push_word_text};
use std::alloc::AllocError;

/// Appends the text of a word of rewritten code at an address.
pub(crate) fn push_rewritten(out: &mut Vec<u8>, at: u32, word: u32) -> Result<(), AllocError>
    ensures { OnOk result (out.new.items ≡ out.old.items ++ rewritten_text at word) }
{
    match read_word(word) {
        Some(what) => push_read(out, at, word, what)?,
        None => out.extend_from_slice(b"unknown")?,
    }
    Ok(())
}

/// Appends the text of a word that reads as this.
fn push_read(out: &mut Vec<u8>, at: u32, word: u32, what: RtWord) -> Result<(), AllocError>
    ensures { OnOk result (out.new.items ≡ out.old.items ++ read_text at word what) }
{
    match what {
        RtWord::Native(_) => push_word_text(out, at, word)?,
        RtWord::MissR { width, rs1, imm } => push_miss(out, b"miss.r.", width, imm, rs1)?,
        RtWord::MissW { width, rs1, imm } => push_miss(out, b"miss.w.", width, imm, rs1)?,
        RtWord::Poll => out.extend_from_slice(b"poll")?,
        RtWord::Call => out.extend_from_slice(b"call")?,
        RtWord::Xjalr { rd, rs1, imm } => push_xjalr(out, rd, imm, rs1)?,
        RtWord::Batch { stores, rs1, rs2 } => push_batch(out, stores, rs1, rs2)?,
        RtWord::Prepare { rs1 } => push_prepare(out, rs1)?,
        RtWord::Far(number) => push_far(out, number)?,
        RtWord::TrapFetch => out.extend_from_slice(b"trap.fetch")?,
        RtWord::TrapOff => out.extend_from_slice(b"trap.off")?,
        RtWord::TrapIllegal => out.extend_from_slice(b"trap.illegal")?,
        RtWord::TrapEbreak => out.extend_from_slice(b"trap.ebreak")?,
    }
    Ok(())
}

/// `miss.r.w I(xA)`
fn push_miss(
    out: &mut Vec<u8>,
    name: &[u8],
    width: Width,
    imm: Imm12,
    rs1: Reg,
) -> Result<(), AllocError>
    ensures { OnOk result (out.new.items ≡ out.old.items
        ++ (name.now ++ (model.width_letter width ++ (codes " " ++ indexed imm rs1)))) }
{
    out.extend_from_slice(name)?;
    out.extend_from_slice(width_letter(width))?;
    out.extend_from_slice(b" ")?;
    push_indexed(out, imm, rs1)?;
    Ok(())
}

/// `xjalr xD, I(xA)`
fn push_xjalr(out: &mut Vec<u8>, rd: Reg, imm: Imm12, rs1: Reg) -> Result<(), AllocError>
    ensures { OnOk result (out.new.items ≡ out.old.items
        ++ with_two (codes "xjalr") (register rd) (indexed imm rs1)) }
{
    out.extend_from_slice(b"xjalr ")?;
    push_register(out, rd)?;
    out.extend_from_slice(b", ")?;
    push_indexed(out, imm, rs1)?;
    Ok(())
}

/// `batch.w (xA), (xB)`
fn push_batch(out: &mut Vec<u8>, stores: bool, rs1: Reg, rs2: Reg) -> Result<(), AllocError>
    ensures { OnOk result (out.new.items ≡ out.old.items
        ++ with_two (model.batch_name stores) (base rs1) (base rs2)) }
{
    out.extend_from_slice(batch_name(stores))?;
    out.extend_from_slice(b" ")?;
    push_base(out, rs1)?;
    out.extend_from_slice(b", ")?;
    push_base(out, rs2)?;
    Ok(())
}

/// `sc.prepare (xA)`
fn push_prepare(out: &mut Vec<u8>, rs1: Reg) -> Result<(), AllocError>
    ensures { OnOk result (out.new.items ≡ out.old.items ++ (codes "sc.prepare " ++ base rs1)) }
{
    out.extend_from_slice(b"sc.prepare ")?;
    push_base(out, rs1)?;
    Ok(())
}

/// `far 0xTTTTTTTT`
fn push_far(out: &mut Vec<u8>, number: WordNumber) -> Result<(), AllocError>
    ensures { OnOk result (out.new.items
        ≡ out.old.items ++ (codes "far 0x" ++ word_digits (address_of_word number))) }
{
    out.extend_from_slice(b"far 0x")?;
    push_word(out, IMAGE_BASE + 4 * number.value())?;
    Ok(())
}
