//! The description of the registers, by which the debugger knows them.

ghost use Rattle.std.specs.Fmt.{decimal};
ghost use Rattle.std.specs.Prelude.{◌≡◌, ◌++◌, IfOk, OnOk};
ghost use Rattle.gdb_session.specs.Sessions.{description, piece, register_line};
ghost use Rattle.gdb_session.specs.Sessions.{register_lines_below};

use crate::target::PC;
use crate::telling::push_named;
use std::alloc::{AllocError, Global};

/// The description of the registers.
#[tactic(auto, unfolding(crate::specs::Sessions::description))]
fn description(alloc: Global) -> Result<Vec<u8>, AllocError>
    ensures { IfOk result (λ text. text.items ≡ description) }
{
    let mut text = Vec::new(alloc);
    text.extend_from_slice(
        b"<?xml version='1.0'?><target><architecture>riscv:rv32</architecture>",
    )?;
    text.extend_from_slice(b"<feature name='org.gnu.gdb.riscv.cpu'>")?;
    push_register_lines(&mut text, PC)?;
    text.extend_from_slice(b"<reg name='pc' bitsize='32' type='code_ptr'/></feature></target>")?;
    Ok(text)
}

/// Appends the lines of the registers below a number.
#[tactic(auto, using(crate::proofs::Steps::lines_more))]
fn push_register_lines(text: &mut Vec<u8>, end: u32) -> Result<(), AllocError>
    ensures { OnOk result (text.new.items ≡ text.old.items ++ register_lines_below end) }
{
    for number in 0..end {
        push_register_line(text, number)?;
    }
    Ok(())
}

/// Appends the line of a register.
fn push_register_line(text: &mut Vec<u8>, number: u32) -> Result<(), AllocError>
    ensures { OnOk result (text.new.items ≡ text.old.items ++ register_line number) }
{
    push_enclosed(text, b"<reg name='x", number, b"' bitsize='32'/>")
}

/// Appends a number in decimal digits between two texts.
fn push_enclosed(
    text: &mut Vec<u8>,
    before: &[u8],
    number: u32,
    behind: &[u8],
) -> Result<(), AllocError>
    ensures { OnOk result
        (text.new.items ≡ text.old.items ++ (before.now ++ (decimal number ++ behind.now))) }
{
    push_named(text, before, number)?;
    text.extend_from_slice(behind)?;
    Ok(())
}

/// Appends a piece of the description.
pub(crate) fn push_description(
    alloc: Global,
    out: &mut Vec<u8>,
    offset: u64,
    length: u64,
) -> Result<(), AllocError>
    ensures { OnOk result (out.new.items ≡ out.old.items ++ piece offset length description) }
{
    let text = description(alloc)?;
    push_piece(out, &text, offset, length)
}

/// Appends a piece of a text: after an `m` where more follows, and else after an `l`.
#[tactic(auto, using(crate::proofs::Steps::piece_end))]
fn push_piece(out: &mut Vec<u8>, text: &[u8], offset: u64, length: u64) -> Result<(), AllocError>
    ensures { OnOk result (out.new.items ≡ out.old.items ++ piece offset length text.now) }
{
    if offset >= text.len() as u64 {
        return out.extend_from_slice(b"l");
    }
    let (_, rest) = text.split_at(offset as usize);
    if length < rest.len() as u64 {
        out.extend_from_slice(b"m")?;
        return out.extend_from_slice(rest.split_at(length as usize).0);
    }
    out.extend_from_slice(b"l")?;
    out.extend_from_slice(rest)
}
