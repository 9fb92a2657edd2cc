//! What words do, by their micro-ops, and words of a region in a row.

ghost use Rattle.std.specs.Prelude.{◌≡◌, ◌+◌, ◌*◌, ◌/◌, ◌<◌, ℕ, true, Some, length, slice_get};
ghost use Rattle.rv32_step.specs.Registers.{registers_of};
ghost use Rattle.micro_op.specs.Micro as micro;
ghost use Rattle.micro_op.specs.Micro.{Demands, meaning_of, sum_address, index_address};
ghost use Rattle.one_memory.specs.Machine.{AreOps, Meets, MemoryParts};
ghost use Rattle.one_memory.specs.Going.{place_of, Goes, HasGone};

use crate::going::Going;
use crate::memory::Memory;
use crate::processor::{OriginalState, StepTarget, address_of, put_at, read};
use micro_op::{MicroKind, MicroOp};
use rv32_decode::{Cond, LoadKind, Op, Reg, Width};
use rv32_ops::{alu, extend, taken};
use rv32_step::{Demand, Registers};

/// Executes words of a region from a place on, while their micro-ops serve them, as far as there
/// are words left. Gives the place where it stops.
#[inline(never)]
pub fn run_region(
    p: u8,
    ops: &[MicroOp],
    from: Going,
    body: &mut OriginalState,
    memory: &mut Memory<'_>,
) -> Going
    requires ops { AreOps memory.old.program from.extent.first ops.now }
    requires count { from.extent.count ≡ length ops.now }
    ensures { HasGone p (record {
      ops = ops.now;
      memory = memory.old;
      body = body.old;
      going = from;
    }) memory.new body.new result }
{
    let mut going = from;
    while going.goes() {
        let op = op_at(ops, &going);
        match op.kind {
            MicroKind::Slow | MicroKind::EnterBy => return going,
            MicroKind::Nothing => nothing(op, &mut going),
            MicroKind::Constant => constant(op, &mut going, body),
            MicroKind::Jump => jump_by_index(op, &mut going, body),
            MicroKind::JumpBy => {
                if !jump_by_register(op, &mut going, body) {
                    return going;
                }
            }
            MicroKind::BranchEq => branch(Cond::Eq, op, &mut going, body),
            MicroKind::BranchNe => branch(Cond::Ne, op, &mut going, body),
            MicroKind::BranchLt => branch(Cond::Lt, op, &mut going, body),
            MicroKind::BranchGe => branch(Cond::Ge, op, &mut going, body),
            MicroKind::BranchLtu => branch(Cond::Ltu, op, &mut going, body),
            MicroKind::BranchGeu => branch(Cond::Geu, op, &mut going, body),
            MicroKind::LoadByte => {
                if !load_by(LoadKind::Byte, op, &mut going, body, memory) {
                    return going;
                }
            }
            MicroKind::LoadHalf => {
                if !load_by(LoadKind::Half, op, &mut going, body, memory) {
                    return going;
                }
            }
            MicroKind::LoadWord => {
                if !load_by(LoadKind::Word, op, &mut going, body, memory) {
                    return going;
                }
            }
            MicroKind::LoadByteU => {
                if !load_by(LoadKind::ByteU, op, &mut going, body, memory) {
                    return going;
                }
            }
            MicroKind::LoadHalfU => {
                if !load_by(LoadKind::HalfU, op, &mut going, body, memory) {
                    return going;
                }
            }
            MicroKind::StoreByte => {
                if !store_by(Width::Byte, op, p, &mut going, body, memory) {
                    return going;
                }
            }
            MicroKind::StoreHalf => {
                if !store_by(Width::Half, op, p, &mut going, body, memory) {
                    return going;
                }
            }
            MicroKind::StoreWord => {
                if !store_by(Width::Word, op, p, &mut going, body, memory) {
                    return going;
                }
            }
            MicroKind::AddImm => by_immediate(Op::Add, op, &mut going, body),
            MicroKind::SltImm => by_immediate(Op::Slt, op, &mut going, body),
            MicroKind::SltuImm => by_immediate(Op::Sltu, op, &mut going, body),
            MicroKind::XorImm => by_immediate(Op::Xor, op, &mut going, body),
            MicroKind::OrImm => by_immediate(Op::Or, op, &mut going, body),
            MicroKind::AndImm => by_immediate(Op::And, op, &mut going, body),
            MicroKind::SllImm => by_immediate(Op::Sll, op, &mut going, body),
            MicroKind::SrlImm => by_immediate(Op::Srl, op, &mut going, body),
            MicroKind::SraImm => by_immediate(Op::Sra, op, &mut going, body),
            MicroKind::Add => by_registers(Op::Add, op, &mut going, body),
            MicroKind::Sub => by_registers(Op::Sub, op, &mut going, body),
            MicroKind::Sll => by_registers(Op::Sll, op, &mut going, body),
            MicroKind::Slt => by_registers(Op::Slt, op, &mut going, body),
            MicroKind::Sltu => by_registers(Op::Sltu, op, &mut going, body),
            MicroKind::Xor => by_registers(Op::Xor, op, &mut going, body),
            MicroKind::Srl => by_registers(Op::Srl, op, &mut going, body),
            MicroKind::Sra => by_registers(Op::Sra, op, &mut going, body),
            MicroKind::Or => by_registers(Op::Or, op, &mut going, body),
            MicroKind::And => by_registers(Op::And, op, &mut going, body),
            MicroKind::Mul => by_registers(Op::Mul, op, &mut going, body),
            MicroKind::Mulh => by_registers(Op::Mulh, op, &mut going, body),
            MicroKind::Mulhsu => by_registers(Op::Mulhsu, op, &mut going, body),
            MicroKind::Mulhu => by_registers(Op::Mulhu, op, &mut going, body),
            MicroKind::Div => by_registers(Op::Div, op, &mut going, body),
            MicroKind::Divu => by_registers(Op::Divu, op, &mut going, body),
            MicroKind::Rem => by_registers(Op::Rem, op, &mut going, body),
            MicroKind::Remu => by_registers(Op::Remu, op, &mut going, body),
        }
    }
    going
}

/// The micro-op of the next word.
#[inline(always)]
fn op_at<'o>(ops: &'o [MicroOp], going: &Going) -> &'o MicroOp
    requires { going.now.at < length ops.now }
    ensures { slice_get ops.now going.now.at ≡ Some result.now }
{
    &ops[going.at()]
}

/// The address that rs1 and the immediate make.
#[inline(always)]
fn sum_of(op: &MicroOp, registers: &Registers) -> u32
    ensures { result ≡ sum_address op.now (registers_of registers.now) }
{
    registers.get(op.rs1).wrapping_add(op.imm)
}

/// FENCE.
#[inline(always)]
fn nothing(op: &MicroOp, going: &mut Going)
    requires room { 0 < going.old.left }
    requires means { (registers : ℕ → ℕ) → meaning_of 0 op.now registers
        ≡ Demands Demand.Continues }
    ensures goes { (p : ℕ) (m : MemoryParts) (b : OriginalState) →
        Goes p op.now m b going.old m b going.new }
    ensures left { going.new.left + 1 ≡ going.old.left }
{
    going.on();
}

/// LUI and AUIPC.
#[inline(always)]
fn constant(op: &MicroOp, going: &mut Going, body: &mut OriginalState)
    requires room { 0 < going.old.left }
    requires means { meaning_of 0 op.now (registers_of body.old.registers)
        ≡ Demands (Demand.Sets op.now.rd op.now.imm) }
    ensures goes { (p : ℕ) (m : MemoryParts) →
        Goes p op.now m body.old going.old m body.new going.new }
    ensures left { going.new.left + 1 ≡ going.old.left }
{
    body.registers.set(op.rd, op.imm);
    going.on();
}

/// An operation on rs1 and the immediate.
#[inline(always)]
fn by_immediate(o: Op, op: &MicroOp, going: &mut Going, body: &mut OriginalState)
    requires room { 0 < going.old.left }
    requires means { meaning_of 0 op.now (registers_of body.old.registers)
        ≡ micro.by_immediate o op.now (registers_of body.old.registers) }
    ensures goes { (p : ℕ) (m : MemoryParts) →
        Goes p op.now m body.old going.old m body.new going.new }
    ensures left { going.new.left + 1 ≡ going.old.left }
{
    let value = alu(o, body.registers.get(op.rs1), op.imm);
    body.registers.set(op.rd, value);
    going.on();
}

/// An operation on rs1 and rs2.
#[inline(always)]
fn by_registers(o: Op, op: &MicroOp, going: &mut Going, body: &mut OriginalState)
    requires room { 0 < going.old.left }
    requires means { meaning_of 0 op.now (registers_of body.old.registers)
        ≡ micro.by_registers o op.now (registers_of body.old.registers) }
    ensures goes { (p : ℕ) (m : MemoryParts) →
        Goes p op.now m body.old going.old m body.new going.new }
    ensures left { going.new.left + 1 ≡ going.old.left }
{
    let value = alu(o, body.registers.get(op.rs1), body.registers.get(op.rs2));
    body.registers.set(op.rd, value);
    going.on();
}

/// JAL.
#[inline(always)]
fn jump_by_index(op: &MicroOp, going: &mut Going, body: &mut OriginalState)
    requires room { 0 < going.old.left }
    requires means { meaning_of 0 op.now (registers_of body.old.registers)
        ≡ Demands (Demand.Jumps op.now.rd (index_address 0 op.now.imm)) }
    ensures goes { (p : ℕ) (m : MemoryParts) →
        Goes p op.now m body.old going.old m body.new going.new }
    ensures left { going.new.left + 1 ≡ going.old.left }
{
    jump_to(op.rd, op.imm, going, body);
}

/// JALR, where a word begins at its target.
#[inline(always)]
fn jump_by_register(op: &MicroOp, going: &mut Going, body: &mut OriginalState) -> bool
    requires room { 0 < going.old.left }
    requires means { meaning_of 0 op.now (registers_of body.old.registers)
        ≡ Demands (Demand.Jumps op.now.rd
        (sum_address op.now (registers_of body.old.registers) / 2 * 2)) }
    ensures goes { (p : ℕ) (m : MemoryParts) →
        Goes p op.now m body.old going.old m body.new going.new }
    ensures left { result ≡ true → going.new.left + 1 ≡ going.old.left }
{
    let target = sum_of(op, &body.registers) / 2 * 2;
    if target % 4 != 0 {
        return false;
    }
    jump_to(op.rd, target / 4, going, body);
    true
}

/// Goes to the word with an index, with the address of the next word in a register.
#[inline(always)]
fn jump_to(r: Reg, index: u32, going: &mut Going, body: &mut OriginalState)
    requires room { 0 < going.old.left }
    ensures meets { (p : ℕ) (m : MemoryParts) → Meets p (Demand.Jumps r (index_address 0 index))
        (place_of going.old) m body.old m body.new (StepTarget.To (place_of going.new)) }
    ensures extent { going.new.extent ≡ going.old.extent }
    ensures left { going.new.left + 1 ≡ going.old.left }
{
    body.registers
        .set(r, address_of(going.index().wrapping_add(1)));
    going.to(index);
}

/// A branch on a condition of rs1 and rs2.
#[inline(always)]
fn branch(c: Cond, op: &MicroOp, going: &mut Going, body: &OriginalState)
    requires room { 0 < going.old.left }
    requires means { meaning_of 0 op.now (registers_of body.now.registers)
        ≡ micro.branches c 0 op.now (registers_of body.now.registers) }
    ensures goes { (p : ℕ) (m : MemoryParts) →
        Goes p op.now m body.now going.old m body.now going.new }
    ensures left { going.new.left + 1 ≡ going.old.left }
{
    if taken(c, body.registers.get(op.rs1), body.registers.get(op.rs2)) {
        going.to(op.imm);
    } else {
        going.on();
    }
}

/// A load, where the access may be made.
#[inline(always)]
fn load_by(
    kind: LoadKind,
    op: &MicroOp,
    going: &mut Going,
    body: &mut OriginalState,
    memory: &Memory<'_>,
) -> bool
    requires room { 0 < going.old.left }
    requires means { meaning_of 0 op.now (registers_of body.old.registers)
        ≡ micro.loads kind op.now (registers_of body.old.registers) }
    ensures goes { (p : ℕ) →
        Goes p op.now memory.now body.old going.old memory.now body.new going.new }
    ensures left { result ≡ true → going.new.left + 1 ≡ going.old.left }
{
    let address = sum_of(op, &body.registers);
    let width = kind.width();
    if !width.is_aligned(address) {
        return false;
    }
    match read(width, address, body, memory) {
        Some(number) => {
            body.registers.set(op.rd, extend(kind, number));
            going.on();
            true
        }
        None => false,
    }
}

/// A store, where the access may be made.
#[inline(always)]
fn store_by(
    width: Width,
    op: &MicroOp,
    p: u8,
    going: &mut Going,
    body: &mut OriginalState,
    memory: &mut Memory<'_>,
) -> bool
    requires room { 0 < going.old.left }
    requires means { meaning_of 0 op.now (registers_of body.old.registers)
        ≡ micro.stores width op.now (registers_of body.old.registers) }
    ensures goes { Goes p op.now memory.old body.old going.old memory.new body.new going.new }
    ensures left { result ≡ true → going.new.left + 1 ≡ going.old.left }
{
    let address = sum_of(op, &body.registers);
    if !width.is_aligned(address) {
        return false;
    }
    let value = body.registers.get(op.rs2);
    if !put_at(width, address, value, p, body, memory) {
        return false;
    }
    going.on();
    true
}
