//! Runs with a layout: what it changes, and why it is refused.

use crate::atomics::{COUNTED, COUNTER};
use crate::cases::{Case, Input, try_case, try_cases};
use std::sync::Wait;
use std::test::Fail;
use std::thread::Threads;
use test_calls::calls::NODE;

/// EBREAK alone, with one line of shared memory at 0x20000.
const STOP: &str = "ebreak";

/// What `one` prints of it.
const STOPPED: &str = "output 0\n\nprocessor 0 ebreak 0x00010000\n";

/// Processor 0 reserves the first line, and lets processor 1 store to the second one before it
/// stores.
const NEIGHBOURS: &str = "lui x5, 0x20
bne x10, x0, other
lr.w x6, (x5)
addi x7, x0, 1
sw x7, 256(x5)
wait:
lw x8, 260(x5)
beq x8, x0, wait
sc.w x10, x7, (x5)
addi x17, x0, 93
ecall
other:
lw x8, 256(x5)
beq x8, x0, other
sw x8, 64(x5)
sw x8, 260(x5)
addi x10, x0, 0
addi x17, x0, 93
ecall
";

/// A layout of the program that stops, and why it is refused.
static REFUSED: [(&str, &str); 5] = [
    (
        "# shared data\n0x20000 0x40 65 *\n",
        "shasta: layout refused 31 at line 2\n",
    ),
    (
        "0x20020 0x40 64 *\n",
        "shasta: layout refused 32 at line 1\n",
    ),
    // the code isn't shared
    ("0x10000 0x40 64 0", "shasta: layout refused 33 at line 1\n"),
    (
        "0x20000 0x40 64 0\n0x20000 0x40 64 0\n",
        "shasta: layout refused 34 at line 2\n",
    ),
    // there is one node
    (
        "0x20000 0x40 64 1\n",
        "shasta: layout refused 35 at line 1\n",
    ),
];

/// What two processors print that both stop, that both exit, and where the first stored nothing.
const BOTH_STOPPED: &str =
    "output 0\n\nprocessor 0 ebreak 0x00010000\nprocessor 1 ebreak 0x00010000\n";

const BOTH_EXITED: &str = "output 0\n\nprocessor 0 exit 0\nprocessor 1 exit 0\n";

const ONE_FAILED: &str = "output 0\n\nprocessor 0 exit 1\nprocessor 1 exit 0\n";

/// A program of two processors, the size of its memory, a layout, and how it ends.
type TwoRow = (&'static str, u32, &'static str, u8, &'static [&'static str]);

static ON_TWO: [TwoRow; 6] = [
    // the second node may be a home
    (STOP, 64, "0x20000 0x40 64 1", 1, &[BOTH_STOPPED]),
    // where both lines are one block, the store ends the reservation
    (NEIGHBOURS, 320, "", 0, &[BOTH_EXITED]),
    (NEIGHBOURS, 320, "0x20000 0x80 128 *", 1, &[ONE_FAILED]),
    // two processors count whatever the blocks
    (COUNTER, 128, "", 1, &[COUNTED]),
    (COUNTER, 128, "0x20000 0x80 128 1", 1, &[COUNTED]),
    (COUNTER, 128, "0x20040 0x40 64 0", 1, &[COUNTED]),
];

/// Layouts of no line and of one, what is told before a layout, and a home that is no node.
static CASES: [Case; 7] = [
    Case {
        input: Input::Program(STOP, b"", 64),
        text: "",
        calls: &["one --layout=-x IN"],
        status: 1,
        out: &[STOPPED],
        err: "",
    },
    Case {
        input: Input::Program(STOP, b"", 64),
        text: "",
        calls: &["run --layout=-x IN", "sim --layout=-x IN"],
        status: 1,
        out: &[STOPPED, NODE],
        err: "",
    },
    Case {
        input: Input::Program(STOP, b"", 64),
        text: "0x20000 0x40 64 *\n",
        calls: &["one --layout=-x IN"],
        status: 1,
        out: &[STOPPED],
        err: "",
    },
    Case {
        input: Input::Program(STOP, b"", 64),
        text: "0x20000 0x40 64 *\n",
        calls: &["run --layout=-x IN", "sim --layout=-x IN"],
        status: 1,
        out: &[STOPPED, NODE],
        err: "",
    },
    // the executable is judged first
    Case {
        input: Input::Bytes(b""),
        text: "?",
        calls: &[
            "one --layout=-x IN",
            "run --layout=-x IN",
            "sim --layout=-x IN",
        ],
        status: 4,
        out: &[],
        err: "shasta: executable refused 1 Short\n",
    },
    // all files are read before one is judged
    Case {
        input: Input::Bytes(b""),
        text: "",
        calls: &[
            "run IN --layout a",
            "one IN --layout a",
            "sim IN --layout a",
        ],
        status: 3,
        out: &[],
        err: "shasta: cannot read a\n",
    },
    // of two nodes there is no third
    Case {
        input: Input::Program(STOP, b"", 64),
        text: "0x20000 0x40 64 2",
        calls: &[
            "one IN --layout L --nodes 2",
            "sim IN --layout L --nodes 2 --brief",
        ],
        status: 6,
        out: &[],
        err: "shasta: layout refused 35 at line 1\n",
    },
];

/// Makes the calls of the program that stops, with a layout that is refused.
fn try_refused(
    rt: &(impl Threads + Wait + Sync + AllocGlobal),
    text: &'static str,
    err: &'static str,
) -> Result<(), Fail> {
    let case = Case {
        input: Input::Program(STOP, b"", 64),
        text,
        calls: &[
            "one --layout=-x IN",
            "run --layout=-x IN",
            "sim --layout=-x IN",
        ],
        status: 6,
        out: &[],
        err,
    };
    try_case(rt, &case)
}

/// Makes the calls with each layout that is refused.
fn try_each_refused(rt: &(impl Threads + Wait + Sync + AllocGlobal)) -> Result<(), Fail> {
    for &(text, err) in &REFUSED {
        try_refused(rt, text, err)?;
    }
    Ok(())
}

/// Makes the calls of a program of two processors.
fn try_two(rt: &(impl Threads + Wait + Sync + AllocGlobal), row: &TwoRow) -> Result<(), Fail> {
    let (code, size, text, status, out) = *row;
    let case = Case {
        input: Input::Program(code, b"", size),
        text,
        calls: &[
            "one IN --layout L --nodes 2",
            "sim IN --layout L --nodes 2 --brief",
        ],
        status,
        out,
        err: "",
    };
    try_case(rt, &case)
}

#[test]
fn judges_the_layout(rt: HostRuntime) -> Result<(), Fail> {
    try_cases(&rt, &CASES)?;
    try_each_refused(&rt)?;
    for row in &ON_TWO {
        try_two(&rt, row)?;
    }
    Ok(())
}
