//! `run` on two nodes in threads of their own, its record, and what a gate is told.

use crate::calls::call;
use crate::cases::{Case, Input, try_cases};
use crate::watch::CountingGate;
use std::str::from_utf8;
use std::sync::Wait;
use std::test::Fail;
use std::thread::Threads;
use test_calls::calls::{Expected, sure};
use test_calls::files::executable;
use test_calls::samples::{BLOCKS, READ, READS, STAYED, STAYS, STORES, USAGE, WAITED, WAITS};

/// Each of two processors adds 1 to a word a thousand times, by LR and SC, and says by an AMO on
/// another line that it is done; processor 0 waits for both, and writes the word.
pub const COUNTS: &str = "lui x5, 0x20
addi x6, x0, 1000
again:
lr.w x7, (x5)
addi x7, x7, 1
sc.w x28, x7, (x5)
bne x28, x0, again
addi x6, x6, -1
bne x6, x0, again
addi x29, x5, 64
addi x30, x0, 1
amoadd.w x0, x30, (x29)
bne x10, x0, other
wait:
lw x31, 0(x29)
bne x31, x11, wait
addi x10, x0, 1
addi x12, x0, 4
addi x11, x5, 0
addi x17, x0, 64
ecall
other:
addi x10, x0, 0
addi x17, x0, 93
ecall
";

/// What it ends with: the word is 2000.
pub const COUNTED: &[u8] = b"output 4\n\xd0\x07\x00\x00\nprocessor 0 exit 0\nprocessor 1 exit 0\n";

/// The lines of the record of the bytes that are stored, between those of the budget and of the
/// takes. The rewritten code has a word for each instruction, for word 0 and for the end after the
/// code; 1 more for a branch forward, 2 more for one backward and for a jump, and 7 more for a
/// store.
const RECORDED: &str = "batch 1
code 32
block 0x00020000 0x00001000 4096 0
block 0x00021000 0x00000080 128 *
node 0
";

/// The lines of its record before those of the takes, which depend on the order of events.
const HEAD: &str = "shasta-record 2\nnodes 2\nbudget 100000000\nbatch 1\ncode 15\nnode 0\n";

/// Runs the program that reads on two nodes, with this gate, and fails the test where its text
/// isn't that of every order, or the head of its record is another.
fn try_run(
    rt: &(impl Threads + Wait + Sync + AllocGlobal),
    file: &[u8],
    gate: &CountingGate,
) -> Result<(), Fail> {
    let line = "run IN --nodes 2 --record R";
    let called = call(rt, sure(&[("IN", file)]), line, "R", gate)?;
    let answer = Expected {
        status: 0,
        out: &[READ],
        err: "",
    };
    called.expect(rt.alloc(), line, &answer)?;
    let text = from_utf8(&called.written)?;
    if text.starts_with(HEAD) && text.ends_with("end\n") && text.contains("end\nnode 1\ntake ") {
        return Ok(());
    }
    Err(Fail::new(format_args!("{text}")))
}

#[test]
fn makes_events_in_threads(rt: HostRuntime) -> Result<(), Fail> {
    let file = executable(rt.alloc(), READS, b"\x07\x00\x00\x00", 64)?;
    let mut runs_through: u64 = 0;
    for _run in 0..100 {
        let gate = CountingGate::new(false);
        try_run(&rt, &file, &gate)?;
        if gate.made() >= 14 {
            runs_through = runs_through.saturating_add(1);
        }
    }
    if runs_through > 0 {
        return Ok(());
    }
    Err(Fail::from("no run in which node 1 made its events"))
}

/// Calls the program with these words on two processors that count, and fails the test where it
/// answers otherwise.
pub fn try_counting(
    rt: &(impl Threads + Wait + Sync + AllocGlobal),
    file: &[u8],
    words: &str,
    gate: &CountingGate,
) -> Result<(), Fail> {
    call(rt, sure(&[("IN", file)]), words, "", gate)?.expect_bytes(words, COUNTED)
}

/// Fails the test where one of two nodes came by the gate less than ten times.
fn try_passed(gate: &CountingGate) -> Result<(), Fail> {
    let [home, other] = gate.calls();
    if home >= 10 && other >= 10 {
        return Ok(());
    }
    Err(Fail::new(format_args!("{home} {other}")))
}

/// The words that run two nodes in threads.
pub const RUN: &str = "run IN --nodes 2 --record R --brief";

/// Two nodes count in any order; each node of a run comes by the gate before its events, and no
/// other machine does.
#[test]
fn passes_the_gate_before_each_event(rt: HostRuntime) -> Result<(), Fail> {
    let file = executable(rt.alloc(), COUNTS, b"", 128)?;
    for words in ["one IN --nodes 2", "sim IN --nodes 2 --brief"] {
        let gate = CountingGate::new(false);
        try_counting(&rt, &file, words, &gate)?;
        if gate.calls() != [0, 0] {
            return Err(Fail::new(format_args!("{words}")));
        }
    }
    let gate = CountingGate::new(false);
    try_counting(&rt, &file, RUN, &gate)?;
    try_passed(&gate)
}

/// Two nodes count where node 0 is held back until node 1 has made an event.
#[test]
fn counts_behind_a_gate_that_holds(rt: HostRuntime) -> Result<(), Fail> {
    let file = executable(rt.alloc(), COUNTS, b"", 128)?;
    let gate = CountingGate::new(true);
    try_counting(&rt, &file, RUN, &gate)?;
    if gate.is_late() {
        return Err(Fail::from("node 1 made no event"));
    }
    try_passed(&gate)
}

/// The text of `sim`, words that lack the record of two nodes, a node that takes messages at its
/// polls, and a processor that is stopped at its budget.
static CASES: [Case; 4] = [
    Case {
        input: Input::Program(READS, b"\x07\x00\x00\x00", 64),
        text: "",
        calls: &["sim IN --nodes 2", "run IN --nodes 2 --record R"],
        status: 0,
        out: &[READ],
        err: "",
    },
    Case {
        input: Input::Program(READS, b"\x07\x00\x00\x00", 64),
        text: "",
        calls: &[
            "run IN --nodes 2",
            "run IN --nodes=16 --brief",
            "run IN --nodes 2 --record=",
            "run IN --nodes 17 --record R",
            "sim IN --nodes 2 --record R",
        ],
        status: 2,
        out: &[],
        err: USAGE,
    },
    Case {
        input: Input::Program(WAITS, b"", 64),
        text: "",
        calls: &["run IN --nodes 2 --record R --brief"],
        status: 0,
        out: &[WAITED],
        err: "",
    },
    Case {
        input: Input::Program(STAYS, b"", 64),
        text: "",
        calls: &["run IN --nodes 2 --record R --budget 1000"],
        status: 1,
        out: &[STAYED],
        err: "",
    },
];

#[test]
fn runs_with_a_record(rt: HostRuntime) -> Result<(), Fail> {
    try_cases(&rt, &CASES)
}

/// Whether a text is that of 200 bytes, each an `A` or a `B`, and of two processors.
fn is_mixed(text: &str) -> bool {
    let Some(rest) = text.strip_prefix("output 200\n") else {
        return false;
    };
    let Some(bytes) = rest.strip_suffix("\nprocessor 0 exit 0\nprocessor 1 exit 0\n") else {
        return false;
    };
    bytes.len() == 200 && bytes.bytes().all(|byte| byte == b'A' || byte == b'B')
}

#[test]
fn writes_bytes_that_another_stores(rt: HostRuntime) -> Result<(), Fail> {
    let alloc = rt.alloc();
    let data = vec![in alloc; b'A'; 8192]?;
    let file = executable(alloc, STORES, &data, 8192)?;
    let held = [("IN", file.as_slice()), ("BLOCKS", BLOCKS.as_bytes())];
    let line = "run IN --nodes 2 --record R --layout BLOCKS --brief";
    let called = call(&rt, sure(&held), line, "R", &CountingGate::new(false))?;
    if called.status == 0
        && is_mixed(from_utf8(&called.out)?)
        && from_utf8(&called.written)?.contains(RECORDED)
    {
        return Ok(());
    }
    Err(Fail::from("other bytes, or another record"))
}
