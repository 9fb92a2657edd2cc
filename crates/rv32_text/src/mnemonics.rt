//! The mnemonics, in lower case.

ghost use Rattle.std.specs.Prelude.{◌≡◌};
ghost use Rattle.rv32_text.specs.Listing.{branch_name, load_name, store_name, imm_name, shift_name};
ghost use Rattle.rv32_text.specs.Listing.{op_name, amo_name, order_suffix};

use rv32_decode::{AmoOp, Cond, ImmOp, LoadKind, Op, ShiftOp, Width};

pub(crate) fn branch_name(c: Cond) -> &'static [u8]
    ensures { result.now ≡ branch_name c }
{
    match c {
        Cond::Eq => b"beq",
        Cond::Ne => b"bne",
        Cond::Lt => b"blt",
        Cond::Ge => b"bge",
        Cond::Ltu => b"bltu",
        Cond::Geu => b"bgeu",
    }
}

pub(crate) fn load_name(kind: LoadKind) -> &'static [u8]
    ensures { result.now ≡ load_name kind }
{
    match kind {
        LoadKind::Byte => b"lb",
        LoadKind::Half => b"lh",
        LoadKind::Word => b"lw",
        LoadKind::ByteU => b"lbu",
        LoadKind::HalfU => b"lhu",
    }
}

pub(crate) fn store_name(width: Width) -> &'static [u8]
    ensures { result.now ≡ store_name width }
{
    match width {
        Width::Byte => b"sb",
        Width::Half => b"sh",
        Width::Word => b"sw",
    }
}

pub(crate) fn imm_name(op: ImmOp) -> &'static [u8]
    ensures { result.now ≡ imm_name op }
{
    match op {
        ImmOp::Add => b"addi",
        ImmOp::Slt => b"slti",
        ImmOp::Sltu => b"sltiu",
        ImmOp::Xor => b"xori",
        ImmOp::Or => b"ori",
        ImmOp::And => b"andi",
    }
}

pub(crate) fn shift_name(op: ShiftOp) -> &'static [u8]
    ensures { result.now ≡ shift_name op }
{
    match op {
        ShiftOp::Sll => b"slli",
        ShiftOp::Srl => b"srli",
        ShiftOp::Sra => b"srai",
    }
}

pub(crate) fn op_name(op: Op) -> &'static [u8]
    ensures { result.now ≡ op_name op }
{
    match op {
        Op::Add => b"add",
        Op::Sub => b"sub",
        Op::Sll => b"sll",
        Op::Slt => b"slt",
        Op::Sltu => b"sltu",
        Op::Xor => b"xor",
        Op::Srl => b"srl",
        Op::Sra => b"sra",
        Op::Or => b"or",
        Op::And => b"and",
        Op::Mul => b"mul",
        Op::Mulh => b"mulh",
        Op::Mulhsu => b"mulhsu",
        Op::Mulhu => b"mulhu",
        Op::Div => b"div",
        Op::Divu => b"divu",
        Op::Rem => b"rem",
        Op::Remu => b"remu",
    }
}

pub(crate) fn amo_name(op: AmoOp) -> &'static [u8]
    ensures { result.now ≡ amo_name op }
{
    match op {
        AmoOp::Swap => b"amoswap.w",
        AmoOp::Add => b"amoadd.w",
        AmoOp::Xor => b"amoxor.w",
        AmoOp::And => b"amoand.w",
        AmoOp::Or => b"amoor.w",
        AmoOp::Min => b"amomin.w",
        AmoOp::Max => b"amomax.w",
        AmoOp::Minu => b"amominu.w",
        AmoOp::Maxu => b"amomaxu.w",
    }
}

/// What the acquire and release bits add to a mnemonic.
pub(crate) fn order_suffix(aq: bool, rl: bool) -> &'static [u8]
    ensures { result.now ≡ order_suffix aq rl }
{
    match (aq, rl) {
        (false, false) => b"",
        (true, false) => b".aq",
        (false, true) => b".rl",
        (true, true) => b".aqrl",
    }
}
