//! `time`, of two nodes that run the program whose trace `trace` puts.

use crate::calls::{Row, USAGE, show, try_views};
use crate::trace::ROW;
use std::str::from_utf8;
use std::test::Fail;
use test_calls::calls::sure;
use test_calls::files::executable;

/// Node 0 executes lui, bne, jal, addi, addi and call, from 0 to 6, and ends: it sends a Bye to
/// itself, which is there at 6, and one to node 1, which is there at 106. It takes its own at 6, to
/// 26.
///
/// Node 1 executes lui, bne, addi, blt, lw, addi, bne and miss.r, from 0 to 8, and waits to read:
/// its Read is at the home, node 0, at 108. It takes node 0's Bye at 106, to 126, and has waited
/// 98.
///
/// Node 0 takes the Read at 108, to 128, and sends a FwdRead to itself; takes that, to 148, and
/// sends the Data, which brings one line and is there at 258.
///
/// Node 1 takes the Data at 258, to 278, and has waited 132 more; its Done is at node 0 at 378. It
/// executes lw, addi, addi and call, from 278 to 282, and ends: its Byes are there at 282, which it
/// takes, to 302, and at 382.
///
/// Of the original node 0 makes five steps: lui, beq, for which bne and jal stand, addi, addi and
/// ecall. Node 1 makes six: lui, beq, lw, addi, addi and ecall. Its other six words are those of
/// the check of lw: the first lw reads the flag word, so the second one commits, after miss.r.
///
/// Node 0 takes the Done at 378, to 398, and then the Bye, to 418. So node 0 took five messages and
/// was idle from 26 to 108 and from 148 to 378, which is 312; node 1 took three, and is idle from
/// 302 to 418.
static SHARED: [Row; 1] = [(
    "time IN --nodes 2 --latency 100 --line 10 --handling 20",
    0,
    &[
        "output 0\n\nprocessor 0 exit 0\nprocessor 1 exit 0\n",
        "node 0 read 0 exclusive 0 upgrade 0 false 0 invalidations 0 fallbacks 0 messages 2\n",
        "node 1 read 1 exclusive 0 upgrade 0 false 0 invalidations 0 fallbacks 0 messages 2\n",
        "node 0 time 418 words 6 waits-to-read 0 waits-to-write 0 handling 100 idle 312\n",
        "node 1 time 418 words 12 waits-to-read 230 waits-to-write 0 handling 60 idle 116\n",
        "steps 11\ntime 418\n",
    ],
    "",
)];

/// One node sends a Bye to itself alone, which is there at once.
static ALONE: [Row; 1] = [(
    "time IN --handling 20",
    0,
    &[
        "output 0\n\nprocessor 0 exit 0\n",
        "node 0 read 0 exclusive 0 upgrade 0 false 0 invalidations 0 fallbacks 0 messages 0\n",
        "node 0 time 26 words 6 waits-to-read 0 waits-to-write 0 handling 20 idle 0\n",
        "steps 5\ntime 26\n",
    ],
    "",
)];

static REFUSED: [Row; 7] = [
    ("time IN --latency 1000001", 2, &[], USAGE),
    ("time IN --verify IN --no-batch", 2, &[], USAGE),
    ("time A", 3, &[], "shasta: cannot read A\n"),
    ("time IN --layout A", 3, &[], "shasta: cannot read A\n"),
    ("time T", 4, &[], "shasta: executable refused 1 Short\n"),
    (
        "time IN --verify T",
        4,
        &[],
        "shasta: code refused 1 Short\n",
    ),
    (
        "time IN --layout T",
        6,
        &[],
        "shasta: layout refused 30 at line 1\n",
    ),
];

#[test]
fn shows_where_time_goes(rt: HostRuntime) -> Result<(), Fail> {
    let alloc = rt.alloc();
    let program = executable(alloc, ROW, &[7, 0, 0, 0], 64)?;
    let files = [("IN", program.as_slice()), ("T", b"text")];
    try_views(alloc, &files, &SHARED)?;
    try_views(alloc, &files, &ALONE)?;
    try_views(alloc, &files, &REFUSED)
}

/// Where messages take no time, a poll takes one that has arrived at the clock.
#[test]
fn messages_may_cost_nothing(rt: HostRuntime) -> Result<(), Fail> {
    let alloc = rt.alloc();
    let program = executable(alloc, ROW, &[7, 0, 0, 0], 64)?;
    let line = "time IN --nodes 2 --latency 0 --line 0 --handling 0";
    let called = show(alloc, sure(&[("IN", &program)]), line)?;
    let text = from_utf8(&called.out)?;
    if called.status == 0 && text.ends_with("\ntime 12\n") {
        return Ok(());
    }
    Err(Fail::new(format_args!("{text}")))
}
