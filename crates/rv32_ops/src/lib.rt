#![tactic(auto)]
//! What the instructions of RV32IMA compute from words: operations, branches, atomic operations and
//! loads.

ghost use Rattle.std.specs.Prelude.{◌≡◌, ◌%◌, ◌^◌};
ghost use Rattle.rv32_ops.specs.Operations as manual;

use rv32_decode::{AmoOp, Cond, LoadKind, Op};

/// The result of an operation on two registers' words, or on a register's word and an immediate's.
///
/// Sums, differences and low products wrap, and a shift takes its amount from the low five bits of
/// `b`. A division by zero gives a quotient with all bits set, and the dividend as remainder.
#[tactic(auto, unfolding(crate::specs::Operations::alu))]
pub fn alu(op: Op, a: u32, b: u32) -> u32
    ensures { result ≡ manual.alu op a b }
{
    match op {
        Op::Add => a.wrapping_add(b),
        Op::Sub => a.wrapping_sub(b),
        Op::Sll => a << (b & 31),
        Op::Slt => u32::from(a.cast_signed() < b.cast_signed()),
        Op::Sltu => u32::from(a < b),
        Op::Xor => a ^ b,
        Op::Srl => a >> (b & 31),
        Op::Sra => (a.cast_signed() >> (b & 31)).cast_unsigned(),
        Op::Or => a | b,
        Op::And => a & b,
        Op::Mul => a.wrapping_mul(b),
        Op::Mulh => high_half(i64::from(a.cast_signed()) * i64::from(b.cast_signed())),
        Op::Mulhsu => high_half(i64::from(a.cast_signed()) * i64::from(b)),
        Op::Mulhu => ((u64::from(a) * u64::from(b)) >> 32) as u32,
        Op::Div => signed_quotient(a, b),
        Op::Divu => a.checked_div(b).unwrap_or(u32::MAX),
        Op::Rem => signed_remainder(a, b),
        Op::Remu => a.checked_rem(b).unwrap_or(a),
    }
}

/// The high 32 bits of a product of 64 bits.
fn high_half(product: i64) -> u32
    ensures { result ≡ manual.high_half product }
{
    (product.cast_unsigned() >> 32) as u32
}

/// The quotient of signed numbers. -2^31 / -1 is 2^31, whose word is that of -2^31.
fn signed_quotient(a: u32, b: u32) -> u32
    ensures { result ≡ manual.signed_quotient a b }
{
    if b == 0 {
        u32::MAX
    } else {
        a.cast_signed()
            .wrapping_div(b.cast_signed())
            .cast_unsigned()
    }
}

/// The remainder of signed numbers, which has the dividend's sign.
fn signed_remainder(a: u32, b: u32) -> u32
    ensures { result ≡ manual.signed_remainder a b }
{
    if b == 0 {
        a
    } else {
        a.cast_signed()
            .wrapping_rem(b.cast_signed())
            .cast_unsigned()
    }
}

/// Whether a branch on two registers' words is taken.
#[tactic(auto, unfolding(crate::specs::Operations::taken))]
pub fn taken(c: Cond, a: u32, b: u32) -> bool
    ensures { result ≡ manual.taken c a b }
{
    match c {
        Cond::Eq => a == b,
        Cond::Ne => a != b,
        Cond::Lt => a.cast_signed() < b.cast_signed(),
        Cond::Ge => a.cast_signed() >= b.cast_signed(),
        Cond::Ltu => a < b,
        Cond::Geu => a >= b,
    }
}

/// The word that an atomic memory operation stores, from the old word in memory and the register's
/// word `b`.
#[tactic(auto, unfolding(crate::specs::Operations::amo))]
pub fn amo(op: AmoOp, old: u32, b: u32) -> u32
    ensures { result ≡ manual.amo op old b }
{
    match op {
        AmoOp::Swap => b,
        AmoOp::Add => old.wrapping_add(b),
        AmoOp::Xor => old ^ b,
        AmoOp::And => old & b,
        AmoOp::Or => old | b,
        AmoOp::Min => old.cast_signed().min(b.cast_signed()).cast_unsigned(),
        AmoOp::Max => old.cast_signed().max(b.cast_signed()).cast_unsigned(),
        AmoOp::Minu => old.min(b),
        AmoOp::Maxu => old.max(b),
    }
}

/// The word that a load puts into its register.
///
/// `raw` has what was read in its low bits; a load of a byte or a halfword leaves its other bits
/// out.
#[tactic(auto, unfolding(crate::specs::Operations::extend))]
pub fn extend(load: LoadKind, raw: u32) -> u32
    ensures { result ≡ manual.extend load raw }
{
    match load {
        LoadKind::Byte => i32::from(low_byte(raw).cast_signed()).cast_unsigned(),
        LoadKind::Half => i32::from(low_half(raw).cast_signed()).cast_unsigned(),
        LoadKind::Word => raw,
        LoadKind::ByteU => u32::from(low_byte(raw)),
        LoadKind::HalfU => u32::from(low_half(raw)),
    }
}

fn low_byte(word: u32) -> u8
    ensures { result ≡ word % 2 ^ 8 }
{
    (word & 0xff) as u8
}

fn low_half(word: u32) -> u16
    ensures { result ≡ word % 2 ^ 16 }
{
    (word & 0xffff) as u16
}
