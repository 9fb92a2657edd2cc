//! LR, SC and the AMOs on one memory and rewritten, and processors that share a counter.

use crate::cases::{Case, Input, try_cases, try_codes, try_program};
use std::alloc::{AllocError, Global};
use std::sync::Wait;
use std::test::Fail;
use std::thread::Threads;
use test_calls::calls::NODE;
use test_calls::files::text_of;

/// Programs whose data's memory has 64 bytes of zeros, and how each ends.
static RESERVATIONS: [(&str, &str); 15] = [
    // the first SC stores and leaves no reservation
    (
        "lui x5, 0x20; lr.w x6, (x5); sc.w x7, x6, (x5); sc.w x10, x6, (x5); slli x7, x7, 4;
         add x10, x10, x7; addi x17, x0, 93; ecall",
        "exit 1",
    ),
    // the processor's own store leaves its reservation
    (
        "lui x5, 0x20; lr.w x6, (x5); sw x0, 4(x5); sc.w x10, x6, (x5); addi x17, x0, 93; ecall",
        "exit 0",
    ),
    // an SC to another address of the block fails, and ends the reservation
    (
        "lui x5, 0x20; addi x6, x5, 4; lr.w x7, (x5); sc.w x10, x0, (x6); sc.w x11, x0, (x5);
         slli x11, x11, 1; add x10, x10, x11; addi x17, x0, 93; ecall",
        "exit 3",
    ),
    // the later LR alone counts
    (
        "lui x5, 0x20; addi x6, x5, 4; lr.w x7, (x5); lr.w x7, (x6); sc.w x10, x0, (x5);
         addi x17, x0, 93; ecall",
        "exit 1",
    ),
    // an SC that fails stores nothing
    (
        "lui x5, 0x20; sc.w x10, x5, (x5); lw x6, 0(x5); add x10, x10, x6; addi x17, x0, 93;
         ecall",
        "exit 1",
    ),
    // in the processor's own window
    (
        "addi x5, x2, -16; lr.w x6, (x5); addi x6, x6, 5; sc.w x7, x6, (x5); lw x10, 0(x5);
         add x10, x10, x7; addi x17, x0, 93; ecall",
        "exit 5",
    ),
    // of a code word
    (
        "lui x5, 0x10; lr.w x6, (x5); srli x10, x6, 4; andi x10, x10, 255; addi x17, x0, 93;
         ecall",
        "exit 43",
    ),
    ("lui x5, 0x10; sc.w x6, x0, (x5)", "access 0x00010004"),
    ("lui x5, 0x10; amoadd.w x6, x0, (x5)", "access 0x00010004"),
    ("lui x5, 0x30; lr.w x6, (x5)", "access 0x00010004"),
    ("lui x5, 0x30; sc.w x6, x0, (x5)", "access 0x00010004"),
    ("lui x5, 0x30; amoadd.w x6, x0, (x5)", "access 0x00010004"),
    (
        "lui x5, 0x20; addi x5, x5, 1; lr.w x6, (x5)",
        "misaligned 0x00010008",
    ),
    (
        "lui x5, 0x20; addi x5, x5, 2; sc.w x6, x0, (x5)",
        "misaligned 0x00010008",
    ),
    // not mapped either
    (
        "lui x5, 0x30; addi x5, x5, 2; amoadd.w x6, x0, (x5)",
        "misaligned 0x00010008",
    ),
];

#[test]
fn reserves_and_stores_where_reserved(rt: HostRuntime) -> Result<(), Fail> {
    try_codes(&rt, &RESERVATIONS)
}

/// What stands before an AMO.
const BEFORE: &str = "lui x11, 0x20; lw x6, 8(x11)";

/// Exits with 0 where the AMO gave 0x80000001 and left the word at 12(x11), else with 1.
const BEHIND: &str = "lw x8, 0(x11)
lw x9, 12(x11)
xor x8, x8, x9
lui x9, 0x80000
addi x9, x9, 1
xor x7, x7, x9
or x8, x8, x7
sltu x10, x0, x8
addi x17, x0, 93
ecall
";

/// An AMO on the word 0x80000001, the register's value, and the word that it leaves.
static UPDATES: [(&str, &str, &str); 10] = [
    ("amoswap.w x7, x6, (x11)", "00000003", "00000003"),
    ("amoadd.w x7, x6, (x11)", "80000003", "00000004"),
    ("amoxor.w x7, x6, (x11)", "00000003", "80000002"),
    ("amoand.w x7, x6, (x11)", "00000003", "00000001"),
    ("amoor.w x7, x6, (x11)", "00000002", "80000003"),
    // the word is negative
    ("amomin.w x7, x6, (x11)", "00000003", "80000001"),
    ("amomax.w x7, x6, (x11)", "00000003", "00000003"),
    ("amominu.w x7, x6, (x11)", "00000003", "00000003"),
    ("amomaxu.w x7, x6, (x11)", "00000003", "80000001"),
    // with itself
    ("amominu.w x7, x6, (x11)", "80000001", "80000001"),
];

/// The words of the data: the word, one between, the register's value, and the word that is left.
fn data_of(alloc: Global, operand: &str, new: &str) -> Result<String, AllocError> {
    let words = [
        ".word 0x80000001; .word 0x00000000; .word 0x",
        operand,
        "; .word 0x",
        new,
    ];
    text_of(alloc, &words)
}

/// Fails the test where an AMO leaves another word, or gives another one.
fn try_update(
    rt: &(impl Threads + Wait + Sync + AllocGlobal),
    amo: &str,
    data: &str,
) -> Result<(), Fail> {
    let code = text_of(rt.alloc(), &[BEFORE, "; ", amo, "; ", BEHIND])?;
    try_program(rt, &code, data, "exit 0")
}

#[test]
fn updates_a_word_and_gives_the_old_one(rt: HostRuntime) -> Result<(), Fail> {
    for &(amo, operand, new) in &UPDATES {
        let data = data_of(rt.alloc(), operand, new)?;
        try_update(&rt, amo, &data)?;
    }
    Ok(())
}

/// Each processor adds 1 to a word a thousand times, by LR and SC, and says by an AMO on another
/// line that it is done; processor 0 waits for all, and exits with a sixteenth of the sum.
pub const COUNTER: &str = "lui x5, 0x20
addi x6, x0, 1000
again:
lr.w x7, (x5)
addi x7, x7, 1
sc.w x28, x7, (x5)
bne x28, x0, again
addi x6, x6, -1
bne x6, x0, again
addi x29, x5, 64
addi x30, x0, 1
amoadd.w x0, x30, (x29)
bne x10, x0, other
wait:
lw x31, 0(x29)
bne x31, x11, wait
lw x6, 0(x5)
srli x10, x6, 4
addi x17, x0, 93
ecall
other:
addi x10, x0, 0
addi x17, x0, 93
ecall
";

/// What two processors that count print.
pub const COUNTED: &str = "output 0\n\nprocessor 0 exit 125\nprocessor 1 exit 0\n";

/// Two processors that count, and one.
static CASES: [Case; 2] = [
    Case {
        input: Input::Program(COUNTER, b"", 128),
        text: "",
        calls: &[
            "one IN --nodes 2",
            "one IN --nodes 2 --order 1",
            "one IN --nodes 2 --order 77",
            "sim IN --nodes 2 --brief",
            "sim IN --nodes 2 --brief --order 1",
            "sim IN --nodes 2 --brief --order 7",
        ],
        status: 1,
        out: &[COUNTED],
        err: "",
    },
    Case {
        input: Input::Program(COUNTER, b"", 128),
        text: "",
        calls: &["run IN"],
        status: 1,
        out: &["output 0\n\nprocessor 0 exit 62\n", NODE],
        err: "",
    },
];

#[test]
fn counts_by_two_processors(rt: HostRuntime) -> Result<(), Fail> {
    try_cases(&rt, &CASES)
}
