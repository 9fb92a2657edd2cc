//! What instructions compute, at the ends of their ranges.

use rv32_decode::{AmoOp, Cond, LoadKind, Op};
use rv32_ops::{alu, amo, extend, taken};
use std::test::Fail;

/// Operations, their operands, and what they give.
static OPERATIONS: [(Op, u32, u32, u32); 18] = [
    (Op::Add, 0xffff_ffff, 1, 0),
    (Op::Add, 0x7fff_ffff, 1, 0x8000_0000),
    (Op::Sub, 0, 1, 0xffff_ffff),
    (Op::Sub, 0, 0x8000_0000, 0x8000_0000),
    (Op::Sll, 1, 31, 0x8000_0000),
    (Op::Sll, 3, 0xffff_ffe0, 3),
    (Op::Slt, 0x8000_0000, 0x7fff_ffff, 1),
    (Op::Slt, 0, 0xffff_ffff, 0),
    (Op::Sltu, 0x8000_0000, 0x7fff_ffff, 0),
    (Op::Sltu, 0, 0xffff_ffff, 1),
    (Op::Xor, 0xffff_0000, 0xffff_ffff, 0x0000_ffff),
    (Op::Srl, 0x8000_0000, 31, 1),
    (Op::Srl, 0xffff_ffff, 33, 0x7fff_ffff),
    (Op::Sra, 0x8000_0000, 31, 0xffff_ffff),
    (Op::Sra, 0x8000_0000, 32, 0x8000_0000),
    (Op::Sra, 0x7fff_ffff, 30, 1),
    (Op::Or, 0x8000_0000, 1, 0x8000_0001),
    (Op::And, 0xffff_ffff, 0x8000_0001, 0x8000_0001),
];

/// Fails the test where an operation gives another number.
fn try_operation(op: Op, a: u32, b: u32, want: u32) -> Result<(), Fail> {
    if alu(op, a, b) == want {
        return Ok(());
    }
    Err(Fail::new(format_args!("{op:?} of {a} and {b}")))
}

#[test]
fn operations() -> Result<(), Fail> {
    for &(op, a, b, want) in &OPERATIONS {
        try_operation(op, a, b, want)?;
    }
    Ok(())
}

/// Two factors at the ends of the ranges, and their product as 64 bits by operation: the low half,
/// and the high half of two signed numbers, of a signed and an unsigned one, and of two unsigned
/// ones.
static PRODUCTS: [(u32, u32, u32, u32, u32, u32); 10] = [
    (0, 0x8000_0000, 0, 0, 0, 0),
    (1, 0xffff_ffff, 0xffff_ffff, 0xffff_ffff, 0, 0),
    (0xffff_ffff, 1, 0xffff_ffff, 0xffff_ffff, 0xffff_ffff, 0),
    (0xffff_ffff, 0xffff_ffff, 1, 0, 0xffff_ffff, 0xffff_fffe),
    (
        0x7fff_ffff,
        0x7fff_ffff,
        1,
        0x3fff_ffff,
        0x3fff_ffff,
        0x3fff_ffff,
    ),
    (
        0x8000_0000,
        0x8000_0000,
        0,
        0x4000_0000,
        0xc000_0000,
        0x4000_0000,
    ),
    (
        0x8000_0000,
        0xffff_ffff,
        0x8000_0000,
        0,
        0x8000_0000,
        0x7fff_ffff,
    ),
    (
        0xffff_ffff,
        0x8000_0000,
        0x8000_0000,
        0,
        0xffff_ffff,
        0x7fff_ffff,
    ),
    (
        0x8000_0000,
        0x7fff_ffff,
        0x8000_0000,
        0xc000_0000,
        0xc000_0000,
        0x3fff_ffff,
    ),
    (
        0x7fff_ffff,
        0x8000_0000,
        0x8000_0000,
        0xc000_0000,
        0x3fff_ffff,
        0x3fff_ffff,
    ),
];

#[test]
fn products() -> Result<(), Fail> {
    for &(a, b, mul, mulh, mulhsu, mulhu) in &PRODUCTS {
        try_operation(Op::Mul, a, b, mul)?;
        try_operation(Op::Mulh, a, b, mulh)?;
        try_operation(Op::Mulhsu, a, b, mulhsu)?;
        try_operation(Op::Mulhu, a, b, mulhu)?;
    }
    Ok(())
}

/// Two numbers, their quotient and their remainder as signed numbers, then as unsigned ones. The
/// rows of division by zero and of overflow are those of the manual's table of both ("Division
/// Operations"); it says as well that quotients are rounded towards zero, and that a remainder has
/// the dividend's sign.
static QUOTIENTS: [(u32, u32, u32, u32, u32, u32); 13] = [
    (0, 0, 0xffff_ffff, 0, 0xffff_ffff, 0),
    (7, 0, 0xffff_ffff, 7, 0xffff_ffff, 7),
    (
        0xffff_ffff,
        0,
        0xffff_ffff,
        0xffff_ffff,
        0xffff_ffff,
        0xffff_ffff,
    ),
    (
        0x8000_0000,
        0,
        0xffff_ffff,
        0x8000_0000,
        0xffff_ffff,
        0x8000_0000,
    ),
    (0x8000_0000, 0xffff_ffff, 0x8000_0000, 0, 0, 0x8000_0000),
    (0x8000_0000, 1, 0x8000_0000, 0, 0x8000_0000, 0),
    (0x8000_0000, 0x8000_0000, 1, 0, 1, 0),
    (0x7fff_ffff, 0xffff_ffff, 0x8000_0001, 0, 0, 0x7fff_ffff),
    (0x7fff_ffff, 0x8000_0000, 0, 0x7fff_ffff, 0, 0x7fff_ffff),
    (7, 2, 3, 1, 3, 1),
    (7, 0xffff_fffe, 0xffff_fffd, 1, 0, 7),
    (0xffff_fff9, 2, 0xffff_fffd, 0xffff_ffff, 0x7fff_fffc, 1),
    (0xffff_fff9, 0xffff_fffe, 3, 0xffff_ffff, 0, 0xffff_fff9),
];

#[test]
fn quotients() -> Result<(), Fail> {
    for &(a, b, div, rem, divu, remu) in &QUOTIENTS {
        try_operation(Op::Div, a, b, div)?;
        try_operation(Op::Rem, a, b, rem)?;
        try_operation(Op::Divu, a, b, divu)?;
        try_operation(Op::Remu, a, b, remu)?;
    }
    Ok(())
}

/// Conditions, two numbers, and whether the branch is taken.
static BRANCHES: [(Cond, u32, u32, bool); 7] = [
    (Cond::Eq, 0x8000_0000, 0, false),
    (Cond::Ne, 0x8000_0000, 0, true),
    (Cond::Lt, 0xffff_ffff, 0, true),
    (Cond::Ge, 0x8000_0000, 0x8000_0000, true),
    (Cond::Ge, 0x8000_0000, 0x7fff_ffff, false),
    (Cond::Ltu, 0xffff_ffff, 0, false),
    (Cond::Geu, 0x8000_0000, 0x7fff_ffff, true),
];

#[test]
fn branches() -> Result<(), Fail> {
    for &(cond, a, b, want) in &BRANCHES {
        if taken(cond, a, b) != want {
            return Err(Fail::new(format_args!("{cond:?} of {a} and {b}")));
        }
    }
    Ok(())
}

/// Atomic operations, the old word, an operand, and the new word.
static ATOMIC_OPERATIONS: [(AmoOp, u32, u32, u32); 9] = [
    (AmoOp::Swap, 1, 0x8000_0000, 0x8000_0000),
    (AmoOp::Add, 0xffff_ffff, 2, 1),
    (AmoOp::Xor, 0xffff_ffff, 0x8000_0000, 0x7fff_ffff),
    (AmoOp::And, 0xffff_ffff, 0x8000_0000, 0x8000_0000),
    (AmoOp::Or, 0x7fff_ffff, 0x8000_0000, 0xffff_ffff),
    (AmoOp::Min, 0x7fff_ffff, 0x8000_0000, 0x8000_0000),
    (AmoOp::Max, 0xffff_ffff, 0, 0),
    (AmoOp::Minu, 0x7fff_ffff, 0x8000_0000, 0x7fff_ffff),
    (AmoOp::Maxu, 0xffff_ffff, 0, 0xffff_ffff),
];

#[test]
fn atomic_operations() -> Result<(), Fail> {
    for &(op, old, b, want) in &ATOMIC_OPERATIONS {
        if amo(op, old, b) != want {
            return Err(Fail::new(format_args!("{op:?} of {old} and {b}")));
        }
    }
    Ok(())
}

/// Loads, the bytes that they read, and the number that they give.
static LOADS: [(LoadKind, u32, u32); 7] = [
    (LoadKind::Byte, 0x1234_5680, 0xffff_ff80),
    (LoadKind::Byte, 0xffff_ff7f, 0x7f),
    (LoadKind::Half, 0x1234_8000, 0xffff_8000),
    (LoadKind::Half, 0xffff_7fff, 0x7fff),
    (LoadKind::Word, 0x8000_0000, 0x8000_0000),
    (LoadKind::ByteU, 0xffff_ffff, 0xff),
    (LoadKind::HalfU, 0xffff_ffff, 0xffff),
];

#[test]
fn loads() -> Result<(), Fail> {
    for &(load, raw, want) in &LOADS {
        if extend(load, raw) != want {
            return Err(Fail::new(format_args!("{load:?} of {raw}")));
        }
    }
    Ok(())
}
