//! Instructions by their assembler names. Registers are given by their numbers, and offsets in
//! bytes.

ghost use Rattle.std.specs.Prelude.{◌≡◌, ◌^◌, ◌%◌, ◌<◌, pos, negsuc, ◌≤ℤ◌};
ghost use Rattle.rv32_decode.specs.Fields.{unsigned};
ghost use Rattle.rv32_decode.specs.declared.Cond.{Cond};
ghost use Rattle.workload.specs.Assembler as model;

use rv32_decode::{
    AmoOp, Amount, BranchOffset, Cond, Imm12, ImmOp, Instr, JumpOffset, LoadKind, Op, Reg, ShiftOp,
    Upper, Width,
};

/// The upper 20 bits of a register, over zeros.
pub fn lui(rd: u8, upper: u32) -> Instr
    requires rd { rd < 32 }
    requires upper { upper < 2 ^ 20 }
    ensures { result ≡ model.lui rd upper }
{
    Instr::Lui {
        rd: Reg::new(rd),
        upper: Upper::new(upper),
    }
}

/// The sum of a register and a number.
pub fn addi(rd: u8, rs: u8, number: i32) -> Instr
    requires rd { rd < 32 }
    requires rs { rs < 32 }
    requires low { negsuc 2047 ≤ℤ number }
    requires high { number ≤ℤ pos 2047 }
    ensures { result ≡ model.addi rd rs number }
{
    Instr::OpImm {
        op: ImmOp::Add,
        rd: Reg::new(rd),
        rs1: Reg::new(rs),
        imm: Imm12::new(number),
    }
}

/// The sum of two registers.
pub fn add(rd: u8, one: u8, other: u8) -> Instr
    requires rd { rd < 32 }
    requires one { one < 32 }
    requires other { other < 32 }
    ensures { result ≡ model.add rd one other }
{
    Instr::Op {
        op: Op::Add,
        rd: Reg::new(rd),
        rs1: Reg::new(one),
        rs2: Reg::new(other),
    }
}

/// A register, shifted to the left.
pub fn slli(rd: u8, rs: u8, amount: u8) -> Instr
    requires rd { rd < 32 }
    requires rs { rs < 32 }
    requires amount { amount < 32 }
    ensures { result ≡ model.slli rd rs amount }
{
    Instr::ShiftImm {
        op: ShiftOp::Sll,
        rd: Reg::new(rd),
        rs1: Reg::new(rs),
        amount: Amount::new(amount),
    }
}

/// A register, shifted to the right, with zeros from the left.
pub fn srli(rd: u8, rs: u8, amount: u8) -> Instr
    requires rd { rd < 32 }
    requires rs { rs < 32 }
    requires amount { amount < 32 }
    ensures { result ≡ model.srli rd rs amount }
{
    Instr::ShiftImm {
        op: ShiftOp::Srl,
        rd: Reg::new(rd),
        rs1: Reg::new(rs),
        amount: Amount::new(amount),
    }
}

/// The word `offset` bytes from the base.
pub fn lw(rd: u8, offset: i32, base: u8) -> Instr
    requires rd { rd < 32 }
    requires base { base < 32 }
    requires low { negsuc 2047 ≤ℤ offset }
    requires high { offset ≤ℤ pos 2047 }
    ensures { result ≡ model.lw rd offset base }
{
    Instr::Load {
        kind: LoadKind::Word,
        rd: Reg::new(rd),
        rs1: Reg::new(base),
        imm: Imm12::new(offset),
    }
}

/// The word `offset` bytes from the base becomes a register's.
pub fn sw(rs: u8, offset: i32, base: u8) -> Instr
    requires rs { rs < 32 }
    requires base { base < 32 }
    requires low { negsuc 2047 ≤ℤ offset }
    requires high { offset ≤ℤ pos 2047 }
    ensures { result ≡ model.sw rs offset base }
{
    store(Width::Word, rs, offset, base)
}

/// The byte `offset` bytes from the base becomes a register's lowest.
pub fn sb(rs: u8, offset: i32, base: u8) -> Instr
    requires rs { rs < 32 }
    requires base { base < 32 }
    requires low { negsuc 2047 ≤ℤ offset }
    requires high { offset ≤ℤ pos 2047 }
    ensures { result ≡ model.sb rs offset base }
{
    store(Width::Byte, rs, offset, base)
}

fn store(width: Width, rs: u8, offset: i32, base: u8) -> Instr
    requires rs { rs < 32 }
    requires base { base < 32 }
    requires low { negsuc 2047 ≤ℤ offset }
    requires high { offset ≤ℤ pos 2047 }
    ensures { result ≡ model.store width rs offset base }
{
    Instr::Store {
        width,
        rs1: Reg::new(base),
        rs2: Reg::new(rs),
        imm: Imm12::new(offset),
    }
}

/// The word at the base becomes its sum with a register.
pub fn amoadd(rs: u8, base: u8) -> Instr
    requires rs { rs < 32 }
    requires base { base < 32 }
    ensures { result ≡ model.amoadd rs base }
{
    Instr::Amo {
        op: AmoOp::Add,
        rd: Reg::ZERO,
        rs1: Reg::new(base),
        rs2: Reg::new(rs),
        aq: false,
        rl: false,
    }
}

/// Goes on `offset` bytes away where two registers are equal.
pub fn beq(one: u8, other: u8, offset: i32) -> Instr
    requires one { one < 32 }
    requires other { other < 32 }
    requires low { negsuc 4095 ≤ℤ offset }
    requires high { offset ≤ℤ pos 4094 }
    requires even { unsigned 32 offset % 2 ≡ 0 }
    ensures { result ≡ model.beq one other offset }
{
    branch(Cond::Eq, one, other, offset)
}

/// Goes on `offset` bytes away where two registers differ.
pub fn bne(one: u8, other: u8, offset: i32) -> Instr
    requires one { one < 32 }
    requires other { other < 32 }
    requires low { negsuc 4095 ≤ℤ offset }
    requires high { offset ≤ℤ pos 4094 }
    requires even { unsigned 32 offset % 2 ≡ 0 }
    ensures { result ≡ model.bne one other offset }
{
    branch(Cond::Ne, one, other, offset)
}

/// Goes on `offset` bytes away where one register is below the other, as signed numbers.
pub fn blt(one: u8, other: u8, offset: i32) -> Instr
    requires one { one < 32 }
    requires other { other < 32 }
    requires low { negsuc 4095 ≤ℤ offset }
    requires high { offset ≤ℤ pos 4094 }
    requires even { unsigned 32 offset % 2 ≡ 0 }
    ensures { result ≡ model.blt one other offset }
{
    branch(Cond::Lt, one, other, offset)
}

fn branch(cond: Cond, one: u8, other: u8, offset: i32) -> Instr
    requires one { one < 32 }
    requires other { other < 32 }
    requires low { negsuc 4095 ≤ℤ offset }
    requires high { offset ≤ℤ pos 4094 }
    requires even { unsigned 32 offset % 2 ≡ 0 }
    ensures { result ≡ model.branch cond one other offset }
{
    Instr::Branch {
        cond,
        rs1: Reg::new(one),
        rs2: Reg::new(other),
        offset: BranchOffset::new(offset),
    }
}

/// Goes on `offset` bytes away.
pub fn jump(offset: i32) -> Instr
    requires low { negsuc 1048575 ≤ℤ offset }
    requires high { offset ≤ℤ pos 1048574 }
    requires even { unsigned 32 offset % 2 ≡ 0 }
    ensures { result ≡ model.jump offset }
{
    Instr::Jal {
        rd: Reg::ZERO,
        offset: JumpOffset::new(offset),
    }
}
