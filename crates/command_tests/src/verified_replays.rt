//! Runs by a file of rewritten code by another plan than the program's own, and their replays.

use crate::calls::{call, try_held};
use crate::watch::CountingGate;
use std::sync::Wait;
use std::test::Fail;
use std::thread::Threads;
use test_calls::calls::{Expected, NODE, expect_text, sure};
use test_calls::files::executable;

/// Two loads by one register, which share a check by the program's own plan.
const LOADS: &str = "lui x5, 0x20
lw x6, 0(x5)
lw x7, 4(x5)
addi x10, x0, 0
addi x17, x0, 93
ecall
";

/// The end of its run, without counts.
const EXITED: &str = "output 0\n\nprocessor 0 exit 0\n";

/// The record of its run by a plan without batches: there are 20 words, and it executes 14 of them.
const RECORD: &str = "shasta-record 2
nodes 1
budget 100000000
batch 1
code 20
node 0
take 0 0 14
end
";

/// Calls the program on these files, and gives what OUT then holds. Fails the test where the call
/// answers otherwise than it should where all went well.
fn written<'a>(
    rt: &(impl Threads + Wait + Sync + AllocGlobal),
    held: &'a [(&'a str, &'a [u8])],
    line: &str,
    out: &[&str],
) -> Result<Vec<u8>, Fail> {
    let called = call(rt, sure(held), line, "OUT", &CountingGate::new(false))?;
    let answer = Expected {
        status: 0,
        out,
        err: "",
    };
    called.expect(rt.alloc(), line, &answer)?;
    Ok(called.written)
}

/// What is replayed, whole and without the counts.
const WHOLE: Expected<'static> = Expected {
    status: 0,
    out: &[EXITED, NODE],
    err: "",
};

const BRIEF: Expected<'static> = Expected {
    status: 0,
    out: &[EXITED],
    err: "",
};

#[test]
fn replays_a_verified_file(rt: HostRuntime) -> Result<(), Fail> {
    let input = executable(rt.alloc(), LOADS, b"", 64)?;
    let held = [("IN", input.as_slice())];
    let file = written(&rt, &held, "rewrite IN OUT --no-batch", &[])?;
    let held = [("IN", input.as_slice()), ("FILE", file.as_slice())];
    let line = "run IN --verify FILE --record OUT";
    let record = written(&rt, &held, line, &[EXITED, NODE])?;
    expect_text(&record, RECORD)?;
    let held = [
        ("IN", input.as_slice()),
        ("FILE", file.as_slice()),
        ("R", record.as_slice()),
    ];
    try_held(&rt, &held, &["replay IN R --verify FILE"], &WHOLE)?;
    try_held(&rt, &held, &["replay --verify=FILE IN R --brief"], &BRIEF)
}

/// A call, its status, and what is told, where FILE has the plan without batches and R the record
/// of the run by it. The file of the plan is read after the executable and before the record, and
/// judged after both texts.
static REFUSED: [(&str, u8, &str); 7] = [
    // the program's own plan has another number of words
    ("replay IN R", 7, "shasta: record refused 47 at line 5\n"),
    (
        "replay IN R --verify IN",
        4,
        "shasta: code refused 50 NoPlan\n",
    ),
    (
        "replay IN R --verify R",
        4,
        "shasta: code refused 2 NotElf\n",
    ),
    (
        "replay IN IN --verify IN",
        7,
        "shasta: record refused 40 at line 1\n",
    ),
    (
        "replay R IN --verify R",
        4,
        "shasta: executable refused 2 NotElf\n",
    ),
    ("replay IN b --verify a", 3, "shasta: cannot read a\n"),
    ("replay b R --verify a", 3, "shasta: cannot read b\n"),
];

/// Makes each call that is refused, and fails the test where it answers otherwise.
fn try_each_refused(
    rt: &(impl Threads + Wait + Sync + AllocGlobal),
    held: &[(&str, &[u8])],
) -> Result<(), Fail> {
    for &(line, status, err) in &REFUSED {
        let answer = Expected {
            status,
            out: &[],
            err,
        };
        try_held(rt, held, &[line], &answer)?;
    }
    Ok(())
}

#[test]
fn refuses_a_replay_by_a_file(rt: HostRuntime) -> Result<(), Fail> {
    let input = executable(rt.alloc(), LOADS, b"", 64)?;
    let held = [("IN", input.as_slice())];
    let file = written(&rt, &held, "rewrite IN OUT --no-batch", &[])?;
    let held = [
        ("IN", input.as_slice()),
        ("FILE", file.as_slice()),
        ("R", RECORD.as_bytes()),
    ];
    try_each_refused(&rt, &held)
}
