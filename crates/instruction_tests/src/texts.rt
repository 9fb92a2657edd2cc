//! Words and their texts, from what GNU objdump 2.40 says of the same words.

use rv32_text::line_of;
use std::alloc::Global;
use std::test::Fail;

/// An address, a word and its text. The numbers are those of `objdump -M no-aliases,numeric`; the
/// spelling is this crate's. Of the last five words objdump does not say so: three are illegal
/// here, and two have no row.
static TEXTS: [(u32, u32, &str); 80] = [
    (0x00010000, 0x00000037, "lui x0, 0x0"),
    (0x00010000, 0x000205b7, "lui x11, 0x20"),
    (0x00010000, 0xffffffb7, "lui x31, 0xfffff"),
    (0x00010000, 0x0000a0b7, "lui x1, 0xa"),
    (0x00010000, 0x001bc4b7, "lui x9, 0x1bc"),
    (0x00010000, 0x0d0ef537, "lui x10, 0xd0ef"),
    (0x00010000, 0x80000117, "auipc x2, 0x80000"),
    (0x00010000, 0x7ffff0ef, "jal x1, 0x0010fffe"),
    (0x00010000, 0x8000006f, "jal x0, 0xfff10000"),
    (0xfffffffc, 0x008002ef, "jal x5, 0x00000004"),
    (0x00000004, 0xff9fffef, "jal x31, 0xfffffffc"),
    (0x00010000, 0x800280e7, "jalr x1, -2048(x5)"),
    (0x00010000, 0x7fff8067, "jalr x0, 2047(x31)"),
    (0x00010000, 0x7ea00fe3, "beq x0, x10, 0x00010ffe"),
    (0x00010000, 0x80b09063, "bne x1, x11, 0x0000f000"),
    (0x00010000, 0x00c14063, "blt x2, x12, 0x00010000"),
    (0x00010000, 0xfed1dfe3, "bge x3, x13, 0x0000fffe"),
    (0x00010000, 0x00e260e3, "bltu x4, x14, 0x00010800"),
    (0x00010000, 0x80f2f0e3, "bgeu x5, x15, 0x0000f800"),
    (0xfffffffc, 0x00110263, "beq x2, x1, 0x00000000"),
    (0x00010000, 0x00028a03, "lb x20, 0(x5)"),
    (0x00010000, 0xfff31a83, "lh x21, -1(x6)"),
    (0x00010000, 0x0013ab03, "lw x22, 1(x7)"),
    (0x00010000, 0x7ff44b83, "lbu x23, 2047(x8)"),
    (0x00010000, 0x8004dc03, "lhu x24, -2048(x9)"),
    (0x00010000, 0x807e0023, "sb x7, -2048(x28)"),
    (0x00010000, 0x7e8e9fa3, "sh x8, 2047(x29)"),
    (0x00010000, 0xfe9f2b23, "sw x9, -10(x30)"),
    (0x00010000, 0x80008613, "addi x12, x1, -2048"),
    (0x00010000, 0x7ff12693, "slti x13, x2, 2047"),
    (0x00010000, 0xfff1b713, "sltiu x14, x3, -1"),
    (0x00010000, 0x00024793, "xori x15, x4, 0"),
    (0x00010000, 0x0642e813, "ori x16, x5, 100"),
    (0x00010000, 0xc1937893, "andi x17, x6, -999"),
    (0x00010000, 0x00009113, "slli x2, x1, 0"),
    (0x00010000, 0x01f1d213, "srli x4, x3, 31"),
    (0x00010000, 0x40a2d313, "srai x6, x5, 10"),
    (0x00010000, 0x00348b33, "add x22, x9, x3"),
    (0x00010000, 0x40450bb3, "sub x23, x10, x4"),
    (0x00010000, 0x00559c33, "sll x24, x11, x5"),
    (0x00010000, 0x00662cb3, "slt x25, x12, x6"),
    (0x00010000, 0x0076bd33, "sltu x26, x13, x7"),
    (0x00010000, 0x00874db3, "xor x27, x14, x8"),
    (0x00010000, 0x0097de33, "srl x28, x15, x9"),
    (0x00010000, 0x40a85eb3, "sra x29, x16, x10"),
    (0x00010000, 0x00b8ef33, "or x30, x17, x11"),
    (0x00010000, 0x00c97fb3, "and x31, x18, x12"),
    (0x00000000, 0x026283b3, "mul x7, x5, x6"),
    (0x00010000, 0x02a49433, "mulh x8, x9, x10"),
    (0x00010000, 0x03df2fb3, "mulhsu x31, x30, x29"),
    (0x00010000, 0x023130b3, "mulhu x1, x2, x3"),
    (0x00010000, 0x02bfc533, "div x10, x31, x11"),
    (0x00010000, 0x0205d533, "divu x10, x11, x0"),
    (0x00010000, 0x0262ee33, "rem x28, x5, x6"),
    (0x00010000, 0x03f8f033, "remu x0, x17, x31"),
    (0x00010000, 0x0ff0000f, "fence"),
    (0x00010000, 0x00000073, "ecall"),
    (0x00010000, 0x00100073, "ebreak"),
    (0x00010000, 0x1003252f, "lr.w x10, (x6)"),
    (0x00010000, 0x1203a5af, "lr.w.rl x11, (x7)"),
    (0x00010000, 0x1404262f, "lr.w.aq x12, (x8)"),
    (0x00010000, 0x1604a6af, "lr.w.aqrl x13, (x9)"),
    (0x00010000, 0x1823252f, "sc.w x10, x2, (x6)"),
    (0x00010000, 0x1a33a5af, "sc.w.rl x11, x3, (x7)"),
    (0x00010000, 0x1c44262f, "sc.w.aq x12, x4, (x8)"),
    (0x00010000, 0x1e54a6af, "sc.w.aqrl x13, x5, (x9)"),
    (0x00010000, 0x0815aaaf, "amoswap.w x21, x1, (x11)"),
    (0x00010000, 0x02262b2f, "amoadd.w.rl x22, x2, (x12)"),
    (0x00010000, 0x2436abaf, "amoxor.w.aq x23, x3, (x13)"),
    (0x00010000, 0x66472c2f, "amoand.w.aqrl x24, x4, (x14)"),
    (0x00010000, 0x4057acaf, "amoor.w x25, x5, (x15)"),
    (0x00010000, 0x82682d2f, "amomin.w.rl x26, x6, (x16)"),
    (0x00010000, 0xa478adaf, "amomax.w.aq x27, x7, (x17)"),
    (0x00010000, 0xc6892e2f, "amominu.w.aqrl x28, x8, (x18)"),
    (0x00010000, 0xe099aeaf, "amomaxu.w x29, x9, (x19)"),
    (0x00010000, 0x00000000, "illegal"),
    (0x00010000, 0xffffffff, "illegal"),
    (0x00010000, 0xc0001073, "illegal"),
    (0x00010000, 0xc00022f3, "unknown"),
    (0xabcdef04, 0x04108133, "unknown"),
];

/// Fails the test where a word at an address has another line.
fn try_line(alloc: Global, address: u32, word: u32, text: &str) -> Result<(), Fail> {
    let mut line = Vec::new(alloc);
    line_of(address, word, &mut line)?;
    let expected = format!(in alloc; "{address:08x}: {word:08x} {text}\n")?;
    if line.as_slice() == expected.as_bytes() {
        return Ok(());
    }
    Err(Fail::new(format_args!("{word:08x}")))
}

#[test]
fn lines_are_those_of_objdump(rt: HostRuntime) -> Result<(), Fail> {
    for &(address, word, text) in &TEXTS {
        try_line(rt.alloc(), address, word, text)?;
    }
    Ok(())
}
