//! Small programs whose whole answers are known.

use crate::cases::{Case, Input, try_cases, try_programs};
use std::test::Fail;
use test_calls::calls::NODE;
use test_calls::samples::HI;

/// A program that loads the flag word, whose line may be read.
pub const FALSE_LOAD: &str = "lui x5, 0x20; lw x6, 0(x5); addi x10, x6, 0; addi x17, x0, 93; ecall";

/// The line of a node that counted a false miss.
pub const FALSE_MISS: &str =
    "node 0 read 0 exclusive 0 upgrade 0 false 1 invalidations 0 fallbacks 0 messages 0\n";

static CASES: [Case; 9] = [
    Case {
        input: Input::Program(HI, b"hi\n", 3),
        text: "",
        calls: &["run IN", "sim IN --order 3"],
        status: 0,
        out: &["output 3\nhi\n\nprocessor 0 exit 0\n", NODE],
        err: "",
    },
    Case {
        input: Input::Program(HI, b"hi\n", 3),
        text: "",
        calls: &["run IN --brief", "one IN"],
        status: 0,
        out: &["output 3\nhi\n\nprocessor 0 exit 0\n"],
        err: "",
    },
    Case {
        input: Input::Program(HI, b"hi\n", 3),
        text: "",
        calls: &["sim IN --brief --budget 1"],
        status: 1,
        out: &["output 0\n\nprocessor 0 stopped 1\n"],
        err: "",
    },
    Case {
        input: Input::Program(HI, b"hi\n", 3),
        text: "",
        calls: &["run IN --budget 1"],
        status: 1,
        out: &["output 0\n\nprocessor 0 stopped 1\n", NODE],
        err: "",
    },
    Case {
        input: Input::Program(HI, b"hi\n", 3),
        text: "",
        calls: &["list IN"],
        status: 0,
        out: &[
            "00010000: 000205b7 lui x11, 0x20
00010004: 00100513 addi x10, x0, 1
00010008: 00300613 addi x12, x0, 3
0001000c: 04000893 addi x17, x0, 64
00010010: 00000073 ecall
00010014: 00000513 addi x10, x0, 0
00010018: 05d00893 addi x17, x0, 93
0001001c: 00000073 ecall
",
        ],
        err: "",
    },
    Case {
        input: Input::Program(HI, b"hi\n", 3),
        text: "",
        calls: &["one IN --nodes 3 --order 7"],
        status: 0,
        out: &[
            "output 9
hhii
h
i

processor 0 exit 0
processor 1 exit 0
processor 2 exit 0
",
        ],
        err: "",
    },
    Case {
        input: Input::Program(HI, b"hi\n", 3),
        text: "",
        calls: &["one IN --nodes 2 --budget 6"],
        status: 1,
        out: &["output 4\nhihi\nprocessor 0 stopped 6\nprocessor 1 stopped 6\n"],
        err: "",
    },
    Case {
        input: Input::Program(FALSE_LOAD, b"\x03\xff\xff\xff", 64),
        text: "",
        calls: &["one IN"],
        status: 1,
        out: &["output 0\n\nprocessor 0 exit 3\n"],
        err: "",
    },
    Case {
        input: Input::Program(FALSE_LOAD, b"\x03\xff\xff\xff", 64),
        text: "",
        calls: &["run IN", "sim IN"],
        status: 1,
        out: &["output 0\n\nprocessor 0 exit 3\n", FALSE_MISS],
        err: "",
    },
];

#[test]
fn answers_for_a_program_that_writes(rt: HostRuntime) -> Result<(), Fail> {
    try_cases(&rt, &CASES)
}

/// Programs that print nothing, their data, and how each ends.
static ENDINGS: [(&str, &str, &str); 13] = [
    ("ebreak", "", "ebreak 0x00010000"),
    ("lui x5, 0x80000; lw x6, 0(x5)", "", "access 0x00010004"),
    ("lw x6, -4(x0)", "", "access 0x00010000"),
    ("lui x5, 0x30; lw x6, 0(x5)", "", "access 0x00010004"),
    ("lui x5, 0x20; lw x6, 1(x5)", "", "misaligned 0x00010004"),
    ("lui x5, 0x30; sw x0, 1(x5)", "", "misaligned 0x00010004"),
    // the loop polls
    (
        "addi x5, x0, 3; again:; addi x5, x5, -1; bne x5, x0, again; addi x10, x0, 1;
         addi x17, x0, 93; ecall",
        "",
        "exit 1",
    ),
    // no register is dead at the load
    (
        "addi x17, x0, 93; lui x10, 0x20; lw x10, 0(x10); ecall",
        ".word 0x00000005",
        "exit 5",
    ),
    // the jump lands between two loads
    (
        "lui x5, 0x20; addi x6, x0, 1; lui x28, 0x10; jalr x1, 20(x28); lw x6, 0(x5);
         lw x7, 4(x5); add x10, x6, x7; addi x17, x0, 93; ecall",
        ".word 0x00000005; .word 0x00000006",
        "exit 7",
    ),
    // a word that is no instruction
    ("illegal", "", "illegal 0x00010000"),
    ("addi x0, x0, 0", "", "fetch 0x00010004"),
    // a jump to where rewritten words stand
    ("lui x5, 0xa0000; jalr x1, 4(x5)", "", "fetch 0xa0000004"),
    // the write of bytes that stand where a node keeps its states is refused
    (
        "addi x10, x0, 1; lui x11, 0x80000; addi x12, x0, 4; addi x17, x0, 64; ecall;
         sub x10, x0, x10; addi x17, x0, 93; ecall",
        "",
        "exit 14",
    ),
];

#[test]
fn ends_without_output(rt: HostRuntime) -> Result<(), Fail> {
    try_programs(&rt, &ENDINGS)
}
