#![tactic(auto)]
//! Micro-ops: instructions decoded flat, for machines that execute them many times.
//!
//! A micro-op has one kind, which its machine matches on once, and the operands of that kind.
//! Direct targets are indices of words, and LUI and AUIPC are constants.
//!
//! It hands on [`rv32_step`], whose instructions it decodes flat.

mod kinds;
mod micro_op;

pub use micro_op::MicroOp;
pub use rv32_step;

/// What a micro-op does.
#[derive(Clone, Copy, PartialEq, Eq)]
pub enum MicroKind {
    /// The path that serves every word serves this one.
    Slow,
    /// FENCE.
    Nothing,
    /// rd gets the immediate: LUI and AUIPC.
    Constant,
    /// JAL: rd gets the address of the next word, and the word with the immediate's index follows.
    Jump,
    /// JALR.
    JumpBy,
    /// An indirect jump of rewritten code that keeps no link.
    EnterBy,
    BranchEq,
    BranchNe,
    BranchLt,
    BranchGe,
    BranchLtu,
    BranchGeu,
    LoadByte,
    LoadHalf,
    LoadWord,
    LoadByteU,
    LoadHalfU,
    StoreByte,
    StoreHalf,
    StoreWord,
    AddImm,
    SltImm,
    SltuImm,
    XorImm,
    OrImm,
    AndImm,
    SllImm,
    SrlImm,
    SraImm,
    Add,
    Sub,
    Sll,
    Slt,
    Sltu,
    Xor,
    Srl,
    Sra,
    Or,
    And,
    Mul,
    Mulh,
    Mulhsu,
    Mulhu,
    Div,
    Divu,
    Rem,
    Remu,
}
