//! Nodes in threads by gates that are open, and nodes that wait: for messages that none tells them
//! of, and for ever.

use crate::cases::{Case, Input, try_cases};
use crate::threads::{COUNTS, RUN, try_counting};
use crate::watch::CountingGate;
use std::test::Fail;
use test_calls::files::executable;

/// Each processor reads a word of shared memory until another stores to it, which none does.
const SPINS: &str = "lui x5, 0x20
again:
lw x6, 0(x5)
beq x6, x0, again
addi x10, x0, 0
addi x17, x0, 93
ecall
";

/// What each ends with, of ten thousand words.
const ALONE: &str = "output 0\n\nprocessor 0 stopped 10000\n";

const SECOND: &str = "processor 1 stopped 10000\n";

const OTHERS: &str = "processor 2 stopped 10000
processor 3 stopped 10000
processor 4 stopped 10000
processor 5 stopped 10000
processor 6 stopped 10000
processor 7 stopped 10000
processor 8 stopped 10000
processor 9 stopped 10000
processor 10 stopped 10000
processor 11 stopped 10000
processor 12 stopped 10000
processor 13 stopped 10000
processor 14 stopped 10000
processor 15 stopped 10000
";

static CASES: [Case; 3] = [
    Case {
        input: Input::Program(SPINS, b"", 64),
        text: "",
        calls: &["run IN --budget 10000 --brief"],
        status: 1,
        out: &[ALONE],
        err: "",
    },
    Case {
        input: Input::Program(SPINS, b"", 64),
        text: "",
        calls: &["run IN --nodes 2 --record R --budget 10000 --brief"],
        status: 1,
        out: &[ALONE, SECOND],
        err: "",
    },
    Case {
        input: Input::Program(SPINS, b"", 64),
        text: "",
        calls: &["run IN --nodes 16 --record R --budget 10000 --brief"],
        status: 1,
        out: &[ALONE, SECOND, OTHERS],
        err: "",
    },
];

/// Nodes that wait for what none sends are stopped by their budgets.
#[test]
fn spins_for_ever(rt: HostRuntime) -> Result<(), Fail> {
    try_cases(&rt, &CASES)
}

/// Two nodes count, by an open gate.
#[test]
fn counts_by_stretches(rt: HostRuntime) -> Result<(), Fail> {
    let file = executable(rt.alloc(), COUNTS, b"", 128)?;
    for _run in 0..20 {
        try_counting(&rt, &file, RUN, &CountingGate::open())?;
    }
    Ok(())
}

/// No node is told that something was sent to it: each finds it all the same, later.
#[test]
fn counts_untold(rt: HostRuntime) -> Result<(), Fail> {
    let file = executable(rt.alloc(), COUNTS, b"", 128)?;
    for open in [false, true] {
        try_counting(&rt, &file, RUN, &CountingGate::silent(open))?;
    }
    Ok(())
}
