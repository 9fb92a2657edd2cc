//! The mnemonics of instructions, read.

ghost use Rattle.std.specs.Prelude.{◌≡◌, ◌++◌, Bool, List, ℕ, codes, IfSome, Some};
ghost use Rattle.rv32_decode.specs.declared.AmoOp.{AmoOp as AmoOps};
ghost use Rattle.rv32_decode.specs.declared.Cond.{Cond as Conds};
ghost use Rattle.rv32_decode.specs.declared.ImmOp.{ImmOp as ImmOps};
ghost use Rattle.rv32_decode.specs.declared.LoadKind.{LoadKind as LoadKinds};
ghost use Rattle.rv32_decode.specs.declared.Op.{Op as Ops};
ghost use Rattle.rv32_decode.specs.declared.ShiftOp.{ShiftOp as ShiftOps};
ghost use Rattle.rv32_decode.specs.declared.Width.{Width as Widths};
ghost use Rattle.rv32_text.specs.Listing.{branch_name, load_name, store_name, imm_name, shift_name};
ghost use Rattle.rv32_text.specs.Listing.{op_name, amo_name, order_suffix};
ghost use Rattle.rv32_lines.specs.Reading.{mnemonic_text, IsSingle, IsOperation, IsAtomic};
ghost use Rattle.rv32_lines.specs.declared.mnemonics.Mnemonic.{Mnemonic as Mnemonics};
ghost use Rattle.rv32_lines.specs.declared.mnemonics.Mnemonic.TheVariants as MnemonicOf;

use crate::heads::before;
use rv32_decode::{AmoOp, Cond, ImmOp, LoadKind, Op, ShiftOp, Width};

/// What a mnemonic names, with its acquire and release bits.
#[derive(Clone, Copy)]
pub(crate) enum Mnemonic {
    Lui,
    Auipc,
    Jal,
    Jalr,
    Branch { cond: Cond },
    Load { kind: LoadKind },
    Store { width: Width },
    OpImm { op: ImmOp },
    ShiftImm { op: ShiftOp },
    Op { op: Op },
    Fence,
    Ecall,
    Ebreak,
    Lr { aq: bool, rl: bool },
    Sc { aq: bool, rl: bool },
    Amo { op: AmoOp, aq: bool, rl: bool },
    Illegal,
}

/// What a mnemonic names.
#[tactic(auto, using(crate::proofs::KindOf::found_told))]
pub(crate) fn mnemonic_of(name: &[u8]) -> Option<Mnemonic>
    ensures some { IfSome result (λ m. name.now ≡ mnemonic_text m) }
    ensures only { (m : Mnemonics) → name.now ≡ mnemonic_text m → result ≡ Some m }
{
    if let Some(mnemonic) = single_of(name) {
        return Some(mnemonic);
    }
    operation_of(name)
}

/// What the mnemonic of one instruction names.
fn single_of(name: &[u8]) -> Option<Mnemonic>
    ensures some { IfSome result (λ m. name.now ≡ mnemonic_text m) }
    ensures only { (m : Mnemonics) → IsSingle m → name.now ≡ mnemonic_text m
        → result ≡ Some m }
{
    match name {
        b"lui" => Some(Mnemonic::Lui),
        b"auipc" => Some(Mnemonic::Auipc),
        b"jal" => Some(Mnemonic::Jal),
        b"jalr" => Some(Mnemonic::Jalr),
        b"fence" => Some(Mnemonic::Fence),
        b"ecall" => Some(Mnemonic::Ecall),
        b"ebreak" => Some(Mnemonic::Ebreak),
        b"illegal" => Some(Mnemonic::Illegal),
        _ => None,
    }
}

/// What the mnemonic of a branch, a load, a store, an operation or an atomic names.
#[tactic(auto, using(crate::proofs::KindOf::found_told))]
fn operation_of(name: &[u8]) -> Option<Mnemonic>
    ensures some { IfSome result (λ m. name.now ≡ mnemonic_text m) }
    ensures only { (m : Mnemonics) → IsOperation m → name.now ≡ mnemonic_text m → result ≡ Some m }
{
    if let Some(cond) = branch_of(name) {
        return Some(Mnemonic::Branch { cond });
    }
    if let Some(kind) = load_of(name) {
        return Some(Mnemonic::Load { kind });
    }
    if let Some(width) = store_of(name) {
        return Some(Mnemonic::Store { width });
    }
    if let Some(op) = imm_of(name) {
        return Some(Mnemonic::OpImm { op });
    }
    if let Some(op) = shift_of(name) {
        return Some(Mnemonic::ShiftImm { op });
    }
    if let Some(op) = op_of(name) {
        return Some(Mnemonic::Op { op });
    }
    atomic_of(name)
}

/// The condition of a branch.
fn branch_of(name: &[u8]) -> Option<Cond>
    ensures some { IfSome result (λ o. name.now ≡ branch_name o) }
    ensures only { (o : Conds) → name.now ≡ branch_name o → result ≡ Some o }
{
    match name {
        b"beq" => Some(Cond::Eq),
        b"bne" => Some(Cond::Ne),
        b"blt" => Some(Cond::Lt),
        b"bge" => Some(Cond::Ge),
        b"bltu" => Some(Cond::Ltu),
        b"bgeu" => Some(Cond::Geu),
        _ => None,
    }
}

/// The kind of a load.
fn load_of(name: &[u8]) -> Option<LoadKind>
    ensures some { IfSome result (λ o. name.now ≡ load_name o) }
    ensures only { (o : LoadKinds) → name.now ≡ load_name o → result ≡ Some o }
{
    match name {
        b"lb" => Some(LoadKind::Byte),
        b"lh" => Some(LoadKind::Half),
        b"lw" => Some(LoadKind::Word),
        b"lbu" => Some(LoadKind::ByteU),
        b"lhu" => Some(LoadKind::HalfU),
        _ => None,
    }
}

/// The width of a store.
fn store_of(name: &[u8]) -> Option<Width>
    ensures some { IfSome result (λ o. name.now ≡ store_name o) }
    ensures only { (o : Widths) → name.now ≡ store_name o → result ≡ Some o }
{
    match name {
        b"sb" => Some(Width::Byte),
        b"sh" => Some(Width::Half),
        b"sw" => Some(Width::Word),
        _ => None,
    }
}

/// The operation on a register and an immediate.
fn imm_of(name: &[u8]) -> Option<ImmOp>
    ensures some { IfSome result (λ o. name.now ≡ imm_name o) }
    ensures only { (o : ImmOps) → name.now ≡ imm_name o → result ≡ Some o }
{
    match name {
        b"addi" => Some(ImmOp::Add),
        b"slti" => Some(ImmOp::Slt),
        b"sltiu" => Some(ImmOp::Sltu),
        b"xori" => Some(ImmOp::Xor),
        b"ori" => Some(ImmOp::Or),
        b"andi" => Some(ImmOp::And),
        _ => None,
    }
}

/// The shift by an immediate.
fn shift_of(name: &[u8]) -> Option<ShiftOp>
    ensures some { IfSome result (λ o. name.now ≡ shift_name o) }
    ensures only { (o : ShiftOps) → name.now ≡ shift_name o → result ≡ Some o }
{
    match name {
        b"slli" => Some(ShiftOp::Sll),
        b"srli" => Some(ShiftOp::Srl),
        b"srai" => Some(ShiftOp::Sra),
        _ => None,
    }
}

/// The operation on two registers.
fn op_of(name: &[u8]) -> Option<Op>
    ensures some { IfSome result (λ o. name.now ≡ op_name o) }
    ensures only { (o : Ops) → name.now ≡ op_name o → result ≡ Some o }
{
    match name {
        b"add" => Some(Op::Add),
        b"sub" => Some(Op::Sub),
        b"sll" => Some(Op::Sll),
        b"slt" => Some(Op::Slt),
        b"sltu" => Some(Op::Sltu),
        b"xor" => Some(Op::Xor),
        b"srl" => Some(Op::Srl),
        b"sra" => Some(Op::Sra),
        b"or" => Some(Op::Or),
        b"and" => Some(Op::And),
        b"mul" => Some(Op::Mul),
        b"mulh" => Some(Op::Mulh),
        b"mulhsu" => Some(Op::Mulhsu),
        b"mulhu" => Some(Op::Mulhu),
        b"div" => Some(Op::Div),
        b"divu" => Some(Op::Divu),
        b"rem" => Some(Op::Rem),
        b"remu" => Some(Op::Remu),
        _ => None,
    }
}

/// What the mnemonic of an atomic names, with its order.
#[tactic(auto, using(crate::proofs::KindOf::found_told))]
fn atomic_of(name: &[u8]) -> Option<Mnemonic>
    ensures some { IfSome result (λ m. name.now ≡ mnemonic_text m) }
    ensures only { (m : Mnemonics) → IsAtomic m → name.now ≡ mnemonic_text m → result ≡ Some m }
{
    let (bare, aq, rl) = split_order(name);
    if let Some(mnemonic) = reserving_of(bare, aq, rl) {
        return Some(mnemonic);
    }
    let op = amo_of(bare)?;
    Some(Mnemonic::Amo { op, aq, rl })
}

/// LR and SC, with these bits.
fn reserving_of(bare: &[u8], aq: bool, rl: bool) -> Option<Mnemonic>
    ensures some { IfSome result (λ m. bare.now ++ order_suffix aq rl ≡ mnemonic_text m) }
    ensures lr { bare.now ≡ codes "lr.w" → result ≡ Some (MnemonicOf.Lr aq rl) }
    ensures sc { bare.now ≡ codes "sc.w" → result ≡ Some (MnemonicOf.Sc aq rl) }
{
    match bare {
        b"lr.w" => Some(Mnemonic::Lr { aq, rl }),
        b"sc.w" => Some(Mnemonic::Sc { aq, rl }),
        _ => None,
    }
}

/// The mnemonic of an atomic without its order, and its acquire and release bits.
fn split_order(name: &[u8]) -> (&[u8], bool, bool)
    ensures parts { name.now ≡ result.0.now ++ order_suffix result.1 result.2 }
    ensures only { (front : List ℕ) (aq rl : Bool)
        → name.now ≡ (front ++ codes ".w") ++ order_suffix aq rl
        → (result.0.now ≡ front ++ codes ".w") × (result.1 ≡ aq) × (result.2 ≡ rl) }
{
    if let Some(bare) = before(name, b".aqrl") {
        return (bare, true, true);
    }
    if let Some(bare) = before(name, b".aq") {
        return (bare, true, false);
    }
    if let Some(bare) = before(name, b".rl") {
        return (bare, false, true);
    }
    (name, false, false)
}

/// The read-modify-write.
fn amo_of(bare: &[u8]) -> Option<AmoOp>
    ensures some { IfSome result (λ o. bare.now ≡ amo_name o) }
    ensures only { (o : AmoOps) → bare.now ≡ amo_name o → result ≡ Some o }
{
    match bare {
        b"amoswap.w" => Some(AmoOp::Swap),
        b"amoadd.w" => Some(AmoOp::Add),
        b"amoxor.w" => Some(AmoOp::Xor),
        b"amoand.w" => Some(AmoOp::And),
        b"amoor.w" => Some(AmoOp::Or),
        b"amomin.w" => Some(AmoOp::Min),
        b"amomax.w" => Some(AmoOp::Max),
        b"amominu.w" => Some(AmoOp::Minu),
        b"amomaxu.w" => Some(AmoOp::Maxu),
        _ => None,
    }
}
