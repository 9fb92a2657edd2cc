//! The text of an instruction.

ghost use Rattle.std.specs.Prelude.{◌≡◌, ◌++◌, OnOk, OnErr};
ghost use Rattle.rv32_text.specs.Growth.{Extends};
ghost use Rattle.rv32_text.specs.Listing.{text_of};

use crate::forms::{
    put_atomic, put_branch, put_immediate, put_indexed, put_jump, put_register, put_reserving,
    put_shift, put_upper,
};
use crate::mnemonics::{
    amo_name, branch_name, imm_name, load_name, op_name, order_suffix, shift_name, store_name,
};
use rv32_decode::Instr;
use std::alloc::AllocError;

/// The text of an instruction at an address.
pub(crate) fn push_text(out: &mut Vec<u8>, address: u32, i: Instr) -> Result<(), AllocError>
    ensures ok { OnOk result (out.new.items ≡ out.old.items ++ text_of address i) }
    ensures err { OnErr result (Extends out.old.items out.new.items) }
{
    match i {
        Instr::Lui { rd, upper } => put_upper(out, b"lui", rd, upper)?,
        Instr::Auipc { rd, upper } => put_upper(out, b"auipc", rd, upper)?,
        Instr::Jal { rd, offset } => put_jump(out, b"jal", rd, address, offset.value())?,
        Instr::Jalr { rd, rs1, imm } => put_indexed(out, b"jalr", rd, imm, rs1)?,
        Instr::Branch {
            cond,
            rs1,
            rs2,
            offset,
        } => put_branch(out, branch_name(cond), rs1, rs2, address, offset.value())?,
        Instr::Load { kind, rd, rs1, imm } => put_indexed(out, load_name(kind), rd, imm, rs1)?,
        Instr::Store {
            width,
            rs1,
            rs2,
            imm,
        } => put_indexed(out, store_name(width), rs2, imm, rs1)?,
        Instr::OpImm { op, rd, rs1, imm } => put_immediate(out, imm_name(op), rd, rs1, imm)?,
        Instr::ShiftImm {
            op,
            rd,
            rs1,
            amount,
        } => put_shift(out, shift_name(op), rd, rs1, amount)?,
        Instr::Op { op, rd, rs1, rs2 } => put_register(out, op_name(op), rd, rs1, rs2)?,
        Instr::Fence { .. } => out.extend_from_slice(b"fence")?,
        Instr::Ecall => out.extend_from_slice(b"ecall")?,
        Instr::Ebreak => out.extend_from_slice(b"ebreak")?,
        Instr::Lr { rd, rs1, aq, rl } => put_reserving(
            out,
            b"lr.w",
            order_suffix(aq, rl),
            rd,
            rs1,
        )?,
        Instr::Sc {
            rd,
            rs1,
            rs2,
            aq,
            rl,
        } => put_atomic(out, b"sc.w", order_suffix(aq, rl), rd, rs2, rs1)?,
        Instr::Amo {
            op,
            rd,
            rs1,
            rs2,
            aq,
            rl,
        } => put_atomic(out, amo_name(op), order_suffix(aq, rl), rd, rs2, rs1)?,
        Instr::Illegal { .. } => out.extend_from_slice(b"illegal")?,
    }
    Ok(())
}
