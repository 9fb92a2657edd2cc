//! A micro-op, and how it is made of an instruction.

ghost use Rattle.std.specs.Prelude.{◌≡◌, ◌%◌, ◌↔◌, ◌==◌, ℕ, not, IsTrue};
ghost use Rattle.std.specs.Prelude.{MatchOption};
ghost use Rattle.rv32_decode.specs.Fields.{unsigned};
ghost use Rattle.micro_op.specs.Micro.{IsMicroOf, IsEntryOf, Meets, meaning_of, index_address};
ghost use Rattle.micro_op.specs.Micro.{is_slow};
ghost use Rattle.rv32_step.specs.rv32_ops.Operations.{taken};
ghost use Rattle.rv32_step.specs.Registers.{reg};
ghost use Rattle.rv32_step.specs.Demands.{branch_demand};
ghost use Rattle.rv32_step.specs.declared.Demand.TheVariants.{Jumps};

use crate::MicroKind;
use crate::kinds::{
    branch_kind, immediate_kind, kind_of_load, operation_kind, shift_kind, store_kind,
};
use rv32_decode::{Cond, Imm12, Instr, Reg};

/// An instruction with its address worked in. What isn't an operand of its kind is 0.
#[derive(Clone, Copy, PartialEq, Eq)]
pub struct MicroOp {
    pub kind: MicroKind,
    pub rd: Reg,
    pub rs1: Reg,
    pub rs2: Reg,
    /// The immediate as a word, or the index of the word where a direct jump or branch goes.
    pub imm: u32,
}

impl MicroOp {
    /// The path that serves every word serves this one.
    pub const SLOW: MicroOp = MicroOp {
        kind: MicroKind::Slow,
        rd: Reg::ZERO,
        rs1: Reg::ZERO,
        rs2: Reg::ZERO,
        imm: 0,
    };

    /// The micro-op of an instruction at an address. Words are counted from a base on.
    pub fn of(i: Instr, address: u32, base: u32) -> MicroOp
        requires { base % 4 ≡ 0 }
        ensures meaning { IsMicroOf base address i result }
        ensures slow { (result.kind ≡ MicroKind.Slow) ↔ IsTrue (is_slow i address) }
    {
        match i {
            Instr::Lui { rd, upper } => MicroOp::constant(rd, upper.value() << 12),
            Instr::Auipc { rd, upper } => {
                MicroOp::constant(rd, address.wrapping_add(upper.value() << 12))
            }
            Instr::Jal { rd, offset } => {
                MicroOp::jump(rd, address.wrapping_add(offset.word()), base)
            }
            Instr::Branch {
                cond,
                rs1,
                rs2,
                offset,
            } => MicroOp::branch(cond, rs1, rs2, address.wrapping_add(offset.word()), base),
            Instr::Jalr { rd, rs1, imm } => {
                MicroOp::with_immediate(MicroKind::JumpBy, rd, rs1, imm.word())
            }
            Instr::Load { kind, rd, rs1, imm } => {
                MicroOp::with_immediate(kind_of_load(kind), rd, rs1, imm.word())
            }
            Instr::OpImm { op, rd, rs1, imm } => {
                MicroOp::with_immediate(immediate_kind(op), rd, rs1, imm.word())
            }
            Instr::ShiftImm {
                op,
                rd,
                rs1,
                amount,
            } => MicroOp::with_immediate(shift_kind(op), rd, rs1, u32::from(amount.value())),
            Instr::Store {
                width,
                rs1,
                rs2,
                imm,
            } => MicroOp::with_rs2(store_kind(width), Reg::ZERO, rs1, rs2, imm.word()),
            Instr::Op { op, rd, rs1, rs2 } => {
                MicroOp::with_rs2(operation_kind(op), rd, rs1, rs2, 0)
            }
            Instr::Fence { .. } => {
                MicroOp::with_immediate(MicroKind::Nothing, Reg::ZERO, Reg::ZERO, 0)
            }
            Instr::Ecall
            | Instr::Ebreak
            | Instr::Illegal { .. }
            | Instr::Lr { .. }
            | Instr::Sc { .. }
            | Instr::Amo { .. } => MicroOp::SLOW,
        }
    }

    /// The micro-op of an indirect jump of rewritten code. One that keeps a link is slow, since the
    /// link is the place's.
    pub fn entry(rd: Reg, rs1: Reg, imm: Imm12) -> MicroOp
        ensures meaning { (base : ℕ) → IsEntryOf base rd rs1 (unsigned 32 imm) result }
        ensures slow { (result.kind ≡ MicroKind.Slow) ↔ (rd ≡ 0 → ⊥) }
    {
        if rd.number() == 0 {
            MicroOp::with_immediate(MicroKind::EnterBy, rd, rs1, imm.word())
        } else {
            MicroOp::SLOW
        }
    }

    /// JAL to a target.
    fn jump(rd: Reg, target: u32, base: u32) -> MicroOp
        requires { base % 4 ≡ 0 }
        ensures meaning { (registers : ℕ → ℕ) →
            Meets (meaning_of base result registers) (Jumps rd target) }
        ensures slow { (result.kind ≡ MicroKind.Slow) ↔ IsTrue (not (target % 4 == 0)) }
    {
        match index_of(target, base) {
            Some(index) => MicroOp::with_immediate(MicroKind::Jump, rd, Reg::ZERO, index),
            None => MicroOp::SLOW,
        }
    }

    /// A branch to a target.
    fn branch(cond: Cond, rs1: Reg, rs2: Reg, target: u32, base: u32) -> MicroOp
        requires { base % 4 ≡ 0 }
        ensures meaning { (registers : ℕ → ℕ) → Meets (meaning_of base result registers)
            (branch_demand (taken cond (reg registers rs1) (reg registers rs2)) target) }
        ensures slow { (result.kind ≡ MicroKind.Slow) ↔ IsTrue (not (target % 4 == 0)) }
    {
        match index_of(target, base) {
            Some(index) => MicroOp::with_rs2(branch_kind(cond), Reg::ZERO, rs1, rs2, index),
            None => MicroOp::SLOW,
        }
    }

    fn constant(rd: Reg, value: u32) -> MicroOp
        ensures { result ≡ record {
          kind = MicroKind.Constant;
          rd = rd;
          rs1 = 0;
          rs2 = 0;
          imm = value;
        } }
    {
        MicroOp {
            kind: MicroKind::Constant,
            rd,
            rs1: Reg::ZERO,
            rs2: Reg::ZERO,
            imm: value,
        }
    }

    fn with_immediate(kind: MicroKind, rd: Reg, rs1: Reg, imm: u32) -> MicroOp
        ensures { result ≡ record { kind = kind; rd = rd; rs1 = rs1; rs2 = 0; imm = imm } }
    {
        MicroOp {
            kind,
            rd,
            rs1,
            rs2: Reg::ZERO,
            imm,
        }
    }

    fn with_rs2(kind: MicroKind, rd: Reg, rs1: Reg, rs2: Reg, imm: u32) -> MicroOp
        ensures { result ≡ record { kind = kind; rd = rd; rs1 = rs1; rs2 = rs2; imm = imm } }
    {
        MicroOp {
            kind,
            rd,
            rs1,
            rs2,
            imm,
        }
    }
}

/// The index of the word at an address, from a base on; `None` exactly where that isn't a multiple
/// of four.
fn index_of(address: u32, base: u32) -> Option<u32>
    requires { base % 4 ≡ 0 }
    ensures { MatchOption result (address % 4 ≡ 0 → ⊥)
        (λ k. (address % 4 ≡ 0) × (index_address base k ≡ address)) }
{
    if address % 4 == 0 {
        Some(address.wrapping_sub(base) / 4)
    } else {
        None
    }
}
