#![tactic(auto)]
//! Words and instructions of RV32IMA: RV32I, and the extensions M and A.
//!
//! A table of rows (`specs/Rows.antt`) says which words are instructions, and which: each row has a
//! mask, a match and the fields that it reads. [`decode`] and [`encode`] follow the table both
//! ways, and at most one row fits a word ([`rows_law`]). The ranges of an instruction's parts are
//! in their types.
//!
//! An instruction that is used more than once is passed as a copy of what a reference leads to, as
//! `uses(*i)`.

mod decoding;
mod encoding;
mod opcodes;
mod parts;
mod register_set;
mod register_use;
mod widths;

pub use decoding::{decode, ranges_law, rows_law, words_law};
pub use encoding::encode;
pub use parts::{Amount, BranchOffset, FenceBits, Imm12, JumpOffset, Reg, Upper};
pub use register_set::RegSet;
pub use register_use::{defs, uses};

/// The condition of a branch.
#[derive(Clone, Copy, Debug, PartialEq, Eq)]
pub enum Cond {
    Eq,
    Ne,
    Lt,
    Ge,
    Ltu,
    Geu,
}

/// The width of a load, and whether it extends by the sign or by zeros.
#[derive(Clone, Copy, Debug, PartialEq, Eq)]
pub enum LoadKind {
    Byte,
    Half,
    Word,
    ByteU,
    HalfU,
}

/// The width of a store.
#[derive(Clone, Copy, Debug, PartialEq, Eq)]
pub enum Width {
    Byte,
    Half,
    Word,
}

/// An operation of OP on two registers.
#[derive(Clone, Copy, Debug, PartialEq, Eq)]
pub enum Op {
    Add,
    Sub,
    Sll,
    Slt,
    Sltu,
    Xor,
    Srl,
    Sra,
    Or,
    And,
    Mul,
    Mulh,
    Mulhsu,
    Mulhu,
    Div,
    Divu,
    Rem,
    Remu,
}

/// An operation of OP-IMM that has a 12-bit immediate.
#[derive(Clone, Copy, PartialEq, Eq)]
pub enum ImmOp {
    Add,
    Slt,
    Sltu,
    Xor,
    Or,
    And,
}

/// A shift of OP-IMM.
#[derive(Clone, Copy, PartialEq, Eq)]
pub enum ShiftOp {
    Sll,
    Srl,
    Sra,
}

/// An atomic memory operation.
#[derive(Clone, Copy, Debug, PartialEq, Eq)]
pub enum AmoOp {
    Swap,
    Add,
    Xor,
    And,
    Or,
    Min,
    Max,
    Minu,
    Maxu,
}

/// A word that is accepted as an illegal instruction.
#[derive(Clone, Copy, PartialEq, Eq)]
pub enum IllegalWord {
    /// 00000000
    Zeros,
    /// ffffffff
    Ones,
    /// c0001073, a CSRRW to the read-only counter `cycle`
    CycleWrite,
}

/// An instruction of RV32IMA. `aq` and `rl` are bits 26 and 25 of an atomic instruction.
#[derive(Clone, Copy, PartialEq, Eq)]
pub enum Instr {
    Lui {
        rd: Reg,
        upper: Upper,
    },
    Auipc {
        rd: Reg,
        upper: Upper,
    },
    Jal {
        rd: Reg,
        offset: JumpOffset,
    },
    Jalr {
        rd: Reg,
        rs1: Reg,
        imm: Imm12,
    },
    Branch {
        cond: Cond,
        rs1: Reg,
        rs2: Reg,
        offset: BranchOffset,
    },
    Load {
        kind: LoadKind,
        rd: Reg,
        rs1: Reg,
        imm: Imm12,
    },
    Store {
        width: Width,
        rs1: Reg,
        rs2: Reg,
        imm: Imm12,
    },
    OpImm {
        op: ImmOp,
        rd: Reg,
        rs1: Reg,
        imm: Imm12,
    },
    /// SLLI, SRLI or SRAI.
    ShiftImm {
        op: ShiftOp,
        rd: Reg,
        rs1: Reg,
        amount: Amount,
    },
    Op {
        op: Op,
        rd: Reg,
        rs1: Reg,
        rs2: Reg,
    },
    /// FENCE, whose fields may hold anything.
    Fence {
        rd: Reg,
        rs1: Reg,
        bits: FenceBits,
    },
    Ecall,
    Ebreak,
    /// LR.W
    Lr {
        rd: Reg,
        rs1: Reg,
        aq: bool,
        rl: bool,
    },
    /// SC.W
    Sc {
        rd: Reg,
        rs1: Reg,
        rs2: Reg,
        aq: bool,
        rl: bool,
    },
    /// A read-modify-write of a word.
    Amo {
        op: AmoOp,
        rd: Reg,
        rs1: Reg,
        rs2: Reg,
        aq: bool,
        rl: bool,
    },
    /// A word that is accepted, and traps as an illegal instruction.
    Illegal {
        word: IllegalWord,
    },
}
