//! The kind of micro-op of each operation.

ghost use Rattle.std.specs.Prelude.{◌≡◌};
ghost use Rattle.micro_op.specs.Kinds as model;

use crate::MicroKind;
use rv32_decode::{Cond, ImmOp, LoadKind, Op, ShiftOp, Width};

pub(crate) fn branch_kind(cond: Cond) -> MicroKind
    ensures { result ≡ model.branch_kind cond }
{
    match cond {
        Cond::Eq => MicroKind::BranchEq,
        Cond::Ne => MicroKind::BranchNe,
        Cond::Lt => MicroKind::BranchLt,
        Cond::Ge => MicroKind::BranchGe,
        Cond::Ltu => MicroKind::BranchLtu,
        Cond::Geu => MicroKind::BranchGeu,
    }
}

pub(crate) fn kind_of_load(kind: LoadKind) -> MicroKind
    ensures { result ≡ model.kind_of_load kind }
{
    match kind {
        LoadKind::Byte => MicroKind::LoadByte,
        LoadKind::Half => MicroKind::LoadHalf,
        LoadKind::Word => MicroKind::LoadWord,
        LoadKind::ByteU => MicroKind::LoadByteU,
        LoadKind::HalfU => MicroKind::LoadHalfU,
    }
}

pub(crate) fn store_kind(width: Width) -> MicroKind
    ensures { result ≡ model.store_kind width }
{
    match width {
        Width::Byte => MicroKind::StoreByte,
        Width::Half => MicroKind::StoreHalf,
        Width::Word => MicroKind::StoreWord,
    }
}

pub(crate) fn immediate_kind(op: ImmOp) -> MicroKind
    ensures { result ≡ model.immediate_kind op }
{
    match op {
        ImmOp::Add => MicroKind::AddImm,
        ImmOp::Slt => MicroKind::SltImm,
        ImmOp::Sltu => MicroKind::SltuImm,
        ImmOp::Xor => MicroKind::XorImm,
        ImmOp::Or => MicroKind::OrImm,
        ImmOp::And => MicroKind::AndImm,
    }
}

pub(crate) fn shift_kind(op: ShiftOp) -> MicroKind
    ensures { result ≡ model.shift_kind op }
{
    match op {
        ShiftOp::Sll => MicroKind::SllImm,
        ShiftOp::Srl => MicroKind::SrlImm,
        ShiftOp::Sra => MicroKind::SraImm,
    }
}

pub(crate) fn operation_kind(op: Op) -> MicroKind
    ensures { result ≡ model.operation_kind op }
{
    match op {
        Op::Add => MicroKind::Add,
        Op::Sub => MicroKind::Sub,
        Op::Sll => MicroKind::Sll,
        Op::Slt => MicroKind::Slt,
        Op::Sltu => MicroKind::Sltu,
        Op::Xor => MicroKind::Xor,
        Op::Srl => MicroKind::Srl,
        Op::Sra => MicroKind::Sra,
        Op::Or => MicroKind::Or,
        Op::And => MicroKind::And,
        Op::Mul => MicroKind::Mul,
        Op::Mulh => MicroKind::Mulh,
        Op::Mulhsu => MicroKind::Mulhsu,
        Op::Mulhu => MicroKind::Mulhu,
        Op::Div => MicroKind::Div,
        Op::Divu => MicroKind::Divu,
        Op::Rem => MicroKind::Rem,
        Op::Remu => MicroKind::Remu,
    }
}
