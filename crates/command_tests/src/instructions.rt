//! Each instruction in a program of seven words, whose exit code tells what it computed, on one
//! memory and rewritten. Above each stands its assembly without the last two instructions, which
//! are `addi x17, x0, 93; ecall`; a branch's target is a distance.

use crate::cases::try_codes;
use std::test::Fail;

#[test]
fn executes_each_instruction(rt: HostRuntime) -> Result<(), Fail> {
    try_codes(&rt, &PROGRAMS)
}

/// Programs, and how each ends.
static PROGRAMS: [(&str, &str); 36] = [
    // add wraps
    (
        "lui x5, 0x80000; addi x5, x5, -1; addi x6, x0, 1; add x7, x5, x6; srli x10, x7, 24;
         addi x17, x0, 93; ecall",
        "exit 128",
    ),
    // sub borrows
    (
        "lui x5, 0x0; addi x5, x5, 0; addi x6, x0, 1; sub x7, x5, x6; srli x10, x7, 24;
         addi x17, x0, 93; ecall",
        "exit 255",
    ),
    // sll by 31
    (
        "lui x5, 0x0; addi x5, x5, 1; addi x6, x0, 31; sll x7, x5, x6; srli x10, x7, 24;
         addi x17, x0, 93; ecall",
        "exit 128",
    ),
    // sll takes five bits
    (
        "lui x5, 0x0; addi x5, x5, 3; addi x6, x0, 32; sll x7, x5, x6; srli x10, x7, 0;
         addi x17, x0, 93; ecall",
        "exit 3",
    ),
    // slt signed
    (
        "lui x5, 0x80000; addi x5, x5, 0; addi x6, x0, 1; slt x7, x5, x6; srli x10, x7, 0;
         addi x17, x0, 93; ecall",
        "exit 1",
    ),
    // sltu unsigned
    (
        "lui x5, 0x80000; addi x5, x5, 0; addi x6, x0, 1; sltu x7, x5, x6; srli x10, x7, 0;
         addi x17, x0, 93; ecall",
        "exit 0",
    ),
    (
        "lui x5, 0x0; addi x5, x5, 90; addi x6, x0, -1; xor x7, x5, x6; srli x10, x7, 0;
         addi x17, x0, 93; ecall",
        "exit 165",
    ),
    // srl by 31
    (
        "lui x5, 0x80000; addi x5, x5, 0; addi x6, x0, 31; srl x7, x5, x6; srli x10, x7, 0;
         addi x17, x0, 93; ecall",
        "exit 1",
    ),
    // sra by 31
    (
        "lui x5, 0x80000; addi x5, x5, 0; addi x6, x0, 31; sra x7, x5, x6; srli x10, x7, 0;
         addi x17, x0, 93; ecall",
        "exit 255",
    ),
    (
        "lui x5, 0x0; addi x5, x5, 80; addi x6, x0, 10; or x7, x5, x6; srli x10, x7, 0;
         addi x17, x0, 93; ecall",
        "exit 90",
    ),
    (
        "lui x5, 0x0; addi x5, x5, 90; addi x6, x0, 60; and x7, x5, x6; srli x10, x7, 0;
         addi x17, x0, 93; ecall",
        "exit 24",
    ),
    // addi lowest
    (
        "lui x5, 0x0; addi x5, x5, 0; addi x6, x0, 0; addi x7, x5, -2048; srli x10, x7, 8;
         addi x17, x0, 93; ecall",
        "exit 248",
    ),
    (
        "lui x5, 0x0; addi x5, x5, -1; addi x6, x0, 0; slti x7, x5, 0; srli x10, x7, 0;
         addi x17, x0, 93; ecall",
        "exit 1",
    ),
    // sltiu sign extends
    (
        "lui x5, 0x0; addi x5, x5, 5; addi x6, x0, 0; sltiu x7, x5, -1; srli x10, x7, 0;
         addi x17, x0, 93; ecall",
        "exit 1",
    ),
    (
        "lui x5, 0x0; addi x5, x5, 90; addi x6, x0, 0; xori x7, x5, -1; srli x10, x7, 0;
         addi x17, x0, 93; ecall",
        "exit 165",
    ),
    (
        "lui x5, 0x0; addi x5, x5, 80; addi x6, x0, 0; ori x7, x5, 10; srli x10, x7, 0;
         addi x17, x0, 93; ecall",
        "exit 90",
    ),
    (
        "lui x5, 0x0; addi x5, x5, 90; addi x6, x0, 0; andi x7, x5, 60; srli x10, x7, 0;
         addi x17, x0, 93; ecall",
        "exit 24",
    ),
    // slli by 31
    (
        "lui x5, 0x0; addi x5, x5, 1; addi x6, x0, 0; slli x7, x5, 31; srli x10, x7, 24;
         addi x17, x0, 93; ecall",
        "exit 128",
    ),
    // srli by 31
    (
        "lui x5, 0x80000; addi x5, x5, 0; addi x6, x0, 0; srli x7, x5, 31; srli x10, x7, 0;
         addi x17, x0, 93; ecall",
        "exit 1",
    ),
    // srai by 31
    (
        "lui x5, 0x80000; addi x5, x5, 0; addi x6, x0, 0; srai x7, x5, 31; srli x10, x7, 0;
         addi x17, x0, 93; ecall",
        "exit 255",
    ),
    (
        "lui x5, 0x0; addi x5, x5, 5; addi x6, x0, 5; beq x5, x6, there; addi x10, x0, 7; there:;
         addi x17, x0, 93; ecall",
        "exit 0",
    ),
    (
        "lui x5, 0x0; addi x5, x5, 5; addi x6, x0, 5; bne x5, x6, there; addi x10, x0, 7; there:;
         addi x17, x0, 93; ecall",
        "exit 7",
    ),
    // blt signed
    (
        "lui x5, 0x80000; addi x5, x5, 0; addi x6, x0, 1; blt x5, x6, there; addi x10, x0, 7;
         there:; addi x17, x0, 93; ecall",
        "exit 0",
    ),
    // bge signed
    (
        "lui x5, 0x80000; addi x5, x5, 0; addi x6, x0, 1; bge x5, x6, there; addi x10, x0, 7;
         there:; addi x17, x0, 93; ecall",
        "exit 7",
    ),
    // bltu unsigned
    (
        "lui x5, 0x80000; addi x5, x5, 0; addi x6, x0, 1; bltu x5, x6, there; addi x10, x0, 7;
         there:; addi x17, x0, 93; ecall",
        "exit 7",
    ),
    // bgeu unsigned
    (
        "lui x5, 0x80000; addi x5, x5, 0; addi x6, x0, 1; bgeu x5, x6, there; addi x10, x0, 7;
         there:; addi x17, x0, 93; ecall",
        "exit 0",
    ),
    // lb extends the sign
    (
        "lui x5, 0x20; addi x6, x0, -128; sb x6, 3(x5); lb x7, 3(x5); srli x10, x7, 24;
         addi x17, x0, 93; ecall",
        "exit 255",
    ),
    // lbu does not
    (
        "lui x5, 0x20; addi x6, x0, -128; sb x6, 3(x5); lbu x7, 3(x5); srli x10, x7, 4;
         addi x17, x0, 93; ecall",
        "exit 8",
    ),
    // lh extends the sign
    (
        "lui x5, 0x20; addi x6, x0, -2048; sh x6, 2(x5); lh x7, 2(x5); srli x10, x7, 24;
         addi x17, x0, 93; ecall",
        "exit 255",
    ),
    // lhu does not
    (
        "lui x5, 0x20; addi x6, x0, -2048; sh x6, 2(x5); lhu x7, 2(x5); srli x10, x7, 12;
         addi x17, x0, 93; ecall",
        "exit 15",
    ),
    (
        "lui x5, 0x20; addi x6, x0, -2; sw x6, 60(x5); lw x7, 60(x5); srli x10, x7, 0;
         addi x17, x0, 93; ecall",
        "exit 254",
    ),
    // sb one byte alone
    (
        "lui x5, 0x20; addi x6, x0, -1; sb x6, 0(x5); lw x7, 0(x5); srli x10, x7, 4;
         addi x17, x0, 93; ecall",
        "exit 15",
    ),
    // jal links
    (
        "addi x0, x0, 0; addi x0, x0, 0; jal x10, there; addi x10, x0, 1; there:; addi x0, x0, 0;
         addi x17, x0, 93; ecall",
        "exit 12",
    ),
    // jalr clears the low bit
    (
        "auipc x5, 0x0; addi x0, x0, 0; jalr x10, 17(x5); addi x10, x0, 1; addi x0, x0, 0;
         addi x17, x0, 93; ecall",
        "exit 12",
    ),
    (
        "auipc x5, 0x1; addi x0, x0, 0; addi x0, x0, 0; addi x0, x0, 0; srli x10, x5, 12;
         addi x17, x0, 93; ecall",
        "exit 17",
    ),
    (
        "fence; addi x0, x0, 0; addi x0, x0, 0; addi x0, x0, 0; addi x10, x0, 9;
         addi x17, x0, 93; ecall",
        "exit 9",
    ),
];
