//! What an instruction asks for.

ghost use Rattle.std.specs.Prelude.{◌≡◌, ◌*◌, ◌<◌};
ghost use Rattle.rv32_step.specs.Registers.{registers_of};
ghost use Rattle.rv32_step.specs.Demands as model;

use crate::{Demand, Registers};
use rv32_decode::{ImmOp, Instr, Op, ShiftOp};
use rv32_ops::{alu, taken};
use rv32_program::Exit;

/// What an instruction at an address asks for, with these registers.
pub fn demand_of(i: Instr, registers: &Registers, pc: u32) -> Demand
    ensures value { result ≡ model.demand_of i (registers_of registers.now) pc }
{
    match i {
        Instr::Lui { rd, upper } => Demand::Sets(rd, upper.value() << 12),
        Instr::Auipc { rd, upper } => Demand::Sets(rd, pc.wrapping_add(upper.value() << 12)),
        Instr::Jal { rd, offset } => Demand::Jumps(rd, pc.wrapping_add(offset.word())),
        Instr::Jalr { rd, rs1, imm } => Demand::Jumps(
            rd,
            registers.get(rs1).wrapping_add(imm.word()) / 2 * 2,
        ),
        Instr::Branch {
            cond,
            rs1,
            rs2,
            offset,
        } => branch_demand(
            taken(cond, registers.get(rs1), registers.get(rs2)),
            pc.wrapping_add(offset.word()),
        ),
        Instr::Load { kind, rd, rs1, imm } => Demand::Loads(
            kind,
            rd,
            registers.get(rs1).wrapping_add(imm.word()),
        ),
        Instr::Store {
            width,
            rs1,
            rs2,
            imm,
        } => Demand::Stores(
            width,
            registers.get(rs1).wrapping_add(imm.word()),
            registers.get(rs2),
        ),
        Instr::OpImm { op, rd, rs1, imm } => Demand::Sets(
            rd,
            alu(operation_of(op), registers.get(rs1), imm.word()),
        ),
        Instr::ShiftImm {
            op,
            rd,
            rs1,
            amount,
        } => Demand::Sets(
            rd,
            alu(shift_of(op), registers.get(rs1), u32::from(amount.value())),
        ),
        Instr::Op { op, rd, rs1, rs2 } => Demand::Sets(
            rd,
            alu(op, registers.get(rs1), registers.get(rs2)),
        ),
        Instr::Fence { .. } => Demand::Continues,
        Instr::Ecall => Demand::Calls,
        Instr::Ebreak => Demand::Traps(Exit::Ebreak(pc)),
        Instr::Illegal { .. } => Demand::Traps(Exit::Illegal(pc)),
        Instr::Lr { rd, rs1, .. } => Demand::Reserves(rd, registers.get(rs1)),
        Instr::Sc { rd, rs1, rs2, .. } => {
            Demand::StoresIf(rd, registers.get(rs1), registers.get(rs2))
        }
        Instr::Amo {
            op,
            rd,
            rs1,
            rs2,
            ..
        } => Demand::Updates(op, rd, registers.get(rs1), registers.get(rs2)),
    }
}

/// A branch goes to its target where it is taken.
fn branch_demand(taken: bool, target: u32) -> Demand
    ensures { result ≡ model.branch_demand taken target }
{
    if taken {
        Demand::Branches(target)
    } else {
        Demand::Continues
    }
}

/// The operation of OP that an operation of OP-IMM makes with its immediate.
fn operation_of(op: ImmOp) -> Op
    ensures { result ≡ model.operation_of op }
{
    match op {
        ImmOp::Add => Op::Add,
        ImmOp::Slt => Op::Slt,
        ImmOp::Sltu => Op::Sltu,
        ImmOp::Xor => Op::Xor,
        ImmOp::Or => Op::Or,
        ImmOp::And => Op::And,
    }
}

/// The operation of OP that a shift of OP-IMM makes with its amount.
fn shift_of(op: ShiftOp) -> Op
    ensures { result ≡ model.shift_of op }
{
    match op {
        ShiftOp::Sll => Op::Sll,
        ShiftOp::Srl => Op::Srl,
        ShiftOp::Sra => Op::Sra,
    }
}
