//! Multiplication and division in programs, whose exit code tells what they computed, on one memory
//! and rewritten. Above each stands its assembly without the last two instructions, which are
//! `addi x17, x0, 93; ecall`.

use crate::cases::try_programs;
use std::test::Fail;

#[test]
fn multiplies_and_divides(rt: HostRuntime) -> Result<(), Fail> {
    try_programs(&rt, &PROGRAMS)
}

/// Programs, the words of their data, and how each ends.
static PROGRAMS: [(&str, &str, &str); 13] = [
    // -2^31 / -1 is -2^31, with remainder 0
    (
        "lui x5, 0x80000; addi x6, x0, -1; div x7, x5, x6; rem x28, x5, x6; srli x7, x7, 28;
         add x10, x7, x28; addi x17, x0, 93; ecall",
        "",
        "exit 8",
    ),
    // divu by zero
    (
        "addi x11, x0, 1; divu x10, x11, x0; addi x17, x0, 93; ecall",
        "",
        "exit 255",
    ),
    (
        "lui x5, 0x80000; mulhsu x7, x5, x5; srli x10, x7, 24; addi x17, x0, 93; ecall",
        "",
        "exit 192",
    ),
    (
        "addi x5, x0, -7; addi x6, x0, 2; mul x10, x5, x6; addi x17, x0, 93; ecall",
        "",
        "exit 242",
    ),
    (
        "addi x5, x0, -7; addi x6, x0, 2; mulh x10, x5, x6; addi x17, x0, 93; ecall",
        "",
        "exit 255",
    ),
    (
        "addi x5, x0, -7; addi x6, x0, 2; mulhu x7, x5, x6; srli x10, x7, 0; addi x17, x0, 93;
         ecall",
        "",
        "exit 1",
    ),
    // div rounds towards zero
    (
        "addi x5, x0, -7; addi x6, x0, 2; div x10, x5, x6; addi x17, x0, 93; ecall",
        "",
        "exit 253",
    ),
    // rem has the sign of the dividend
    (
        "addi x5, x0, -7; addi x6, x0, 2; rem x10, x5, x6; addi x17, x0, 93; ecall",
        "",
        "exit 255",
    ),
    (
        "addi x5, x0, -7; addi x6, x0, 2; divu x7, x5, x6; srli x10, x7, 24; addi x17, x0, 93;
         ecall",
        "",
        "exit 127",
    ),
    (
        "addi x5, x0, -7; addi x6, x0, 2; remu x7, x5, x6; srli x10, x7, 0; addi x17, x0, 93;
         ecall",
        "",
        "exit 1",
    ),
    // div by zero
    (
        "addi x5, x0, -7; div x10, x5, x0; addi x17, x0, 93; ecall",
        "",
        "exit 255",
    ),
    // rem by zero
    (
        "addi x5, x0, -7; rem x10, x5, x0; addi x17, x0, 93; ecall",
        "",
        "exit 249",
    ),
    // mul between accesses of one run
    (
        "lui x5, 0x20; lw x6, 0(x5); lw x7, 4(x5); mul x28, x6, x7; sw x28, 8(x5); lw x10, 8(x5);
         addi x17, x0, 93; ecall",
        ".word 0x00000006; .word 0x00000007",
        "exit 42",
    ),
];
