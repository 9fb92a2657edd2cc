//! Strides: what is executed at once from a word of an image on.
//!
//! That is one word, or a whole sequence that begins with the word, or a pair: an operation and
//! what stands after it. Each word has a kind of stride, so a machine may begin anywhere. The
//! operands stay with the micro-ops of the words.

ghost use Rattle.std.specs.Prelude.{ℕ, List};
ghost use Rattle.micro_op.specs.declared.micro_op.MicroOp.{MicroOp};
ghost use Rattle.jump_map.specs.Strides.{IsPlain, IsWhole};

use micro_op::{MicroKind, MicroOp};
use rv32_decode::Reg;

/// What is executed at once from a word on.
#[derive(Clone, Copy, PartialEq, Eq)]
pub enum StrideKind {
    /// The path that serves every word serves this one.
    Slow,
    /// A poll, or a FENCE.
    Nothing,
    Constant,
    /// A jump that keeps no link.
    Jump,
    /// One that keeps it.
    Link,
    EnterBy,
    BranchEq,
    BranchNe,
    BranchLt,
    BranchGe,
    BranchLtu,
    BranchGeu,
    LoadByte,
    LoadHalf,
    LoadWord,
    LoadByteU,
    LoadHalfU,
    StoreByte,
    StoreHalf,
    StoreWord,
    AddImm,
    SltImm,
    SltuImm,
    XorImm,
    OrImm,
    AndImm,
    SllImm,
    SrlImm,
    SraImm,
    Add,
    Sub,
    Sll,
    Slt,
    Sltu,
    Xor,
    Srl,
    Sra,
    Or,
    And,
    Mul,
    Mulh,
    Mulhsu,
    Mulhu,
    Div,
    Divu,
    Rem,
    Remu,
    /// A branch past the jump after it, and that jump.
    OverEq,
    OverNe,
    OverLt,
    OverGe,
    OverLtu,
    OverGeu,
    /// A poll, a branch past the jump after it, and that jump.
    PollOverEq,
    PollOverNe,
    PollOverLt,
    PollOverGe,
    PollOverLtu,
    PollOverGeu,
    /// A poll and a jump.
    PollJump,
    /// A poll and an indirect jump.
    PollEnter,
    /// The two words that put a number into a register.
    Number,
    /// The two words that put a number into a register, and a jump.
    Call,
    /// A load whose line's state is tested, with no scratch register spilled.
    ReadByte0,
    ReadHalf0,
    ReadWord0,
    ReadByteU0,
    ReadHalfU0,
    /// A load whose line's state is tested, with one scratch register spilled, the second.
    ReadByte1,
    ReadHalf1,
    ReadWord1,
    ReadByteU1,
    ReadHalfU1,
    /// A load whose line's state is tested, with both scratch registers spilled.
    ReadByte2,
    ReadHalf2,
    ReadWord2,
    ReadByteU2,
    ReadHalfU2,
    /// A store whose line's state is tested, with 0 to 2 registers spilled.
    WriteByte0,
    WriteHalf0,
    WriteWord0,
    WriteByte1,
    WriteHalf1,
    WriteWord1,
    WriteByte2,
    WriteHalf2,
    WriteWord2,
    /// A load that looks at its value, with 0 to 2 registers spilled.
    Flag0,
    Flag1,
    /// The head of a batch that only loads, with 0 to 2 registers spilled, and the reloads after
    /// it.
    ReadHead0,
    ReadHead1,
    ReadHead2,
    ReadHead3,
    /// The head of a batch that stores.
    WriteHead0,
    WriteHead1,
    WriteHead2,
    WriteHead3,
    /// Two operations; the second is a sum.
    AddImmThenAddImm,
    AddImmThenAdd,
    AddThenAddImm,
    AddThenAdd,
    SllImmThenAddImm,
    SllImmThenAdd,
    MulThenAddImm,
    MulThenAdd,
    /// A sum with a number, and a branch past the jump after it, with that jump.
    AddImmThenOverEq,
    AddImmThenOverNe,
    AddImmThenOverLt,
    AddImmThenOverGe,
    AddImmThenOverLtu,
    AddImmThenOverGeu,
    /// A sum with a number, a poll, and such a branch and jump.
    AddImmThenPollOverEq,
    AddImmThenPollOverNe,
    AddImmThenPollOverLt,
    AddImmThenPollOverGe,
    AddImmThenPollOverLtu,
    AddImmThenPollOverGeu,
    /// A sum of two registers, and a branch past the jump after it, with that jump.
    AddThenOverEq,
    AddThenOverNe,
    AddThenOverLt,
    AddThenOverGe,
    AddThenOverLtu,
    AddThenOverGeu,
    /// A sum of two registers, a poll, and such a branch and jump.
    AddThenPollOverEq,
    AddThenPollOverNe,
    AddThenPollOverLt,
    AddThenPollOverGe,
    AddThenPollOverLtu,
    AddThenPollOverGeu,
}

impl StrideKind {
    /// The stride of a word alone.
    #[inline(always)]
    pub fn plain(op: &MicroOp) -> StrideKind
        ensures plain { IsPlain result op.now }
        ensures alone { (micros : List MicroOp) (k : ℕ) → IsWhole result micros k }
    {
        match op.kind {
            MicroKind::Slow | MicroKind::JumpBy => StrideKind::Slow,
            MicroKind::Nothing => StrideKind::Nothing,
            MicroKind::Constant => StrideKind::Constant,
            MicroKind::Jump if op.rd == Reg::ZERO => StrideKind::Jump,
            MicroKind::Jump => StrideKind::Link,
            MicroKind::EnterBy => StrideKind::EnterBy,
            MicroKind::BranchEq => StrideKind::BranchEq,
            MicroKind::BranchNe => StrideKind::BranchNe,
            MicroKind::BranchLt => StrideKind::BranchLt,
            MicroKind::BranchGe => StrideKind::BranchGe,
            MicroKind::BranchLtu => StrideKind::BranchLtu,
            MicroKind::BranchGeu => StrideKind::BranchGeu,
            MicroKind::LoadByte => StrideKind::LoadByte,
            MicroKind::LoadHalf => StrideKind::LoadHalf,
            MicroKind::LoadWord => StrideKind::LoadWord,
            MicroKind::LoadByteU => StrideKind::LoadByteU,
            MicroKind::LoadHalfU => StrideKind::LoadHalfU,
            MicroKind::StoreByte => StrideKind::StoreByte,
            MicroKind::StoreHalf => StrideKind::StoreHalf,
            MicroKind::StoreWord => StrideKind::StoreWord,
            MicroKind::AddImm => StrideKind::AddImm,
            MicroKind::SltImm => StrideKind::SltImm,
            MicroKind::SltuImm => StrideKind::SltuImm,
            MicroKind::XorImm => StrideKind::XorImm,
            MicroKind::OrImm => StrideKind::OrImm,
            MicroKind::AndImm => StrideKind::AndImm,
            MicroKind::SllImm => StrideKind::SllImm,
            MicroKind::SrlImm => StrideKind::SrlImm,
            MicroKind::SraImm => StrideKind::SraImm,
            MicroKind::Add => StrideKind::Add,
            MicroKind::Sub => StrideKind::Sub,
            MicroKind::Sll => StrideKind::Sll,
            MicroKind::Slt => StrideKind::Slt,
            MicroKind::Sltu => StrideKind::Sltu,
            MicroKind::Xor => StrideKind::Xor,
            MicroKind::Srl => StrideKind::Srl,
            MicroKind::Sra => StrideKind::Sra,
            MicroKind::Or => StrideKind::Or,
            MicroKind::And => StrideKind::And,
            MicroKind::Mul => StrideKind::Mul,
            MicroKind::Mulh => StrideKind::Mulh,
            MicroKind::Mulhsu => StrideKind::Mulhsu,
            MicroKind::Mulhu => StrideKind::Mulhu,
            MicroKind::Div => StrideKind::Div,
            MicroKind::Divu => StrideKind::Divu,
            MicroKind::Rem => StrideKind::Rem,
            MicroKind::Remu => StrideKind::Remu,
        }
    }
}
