//! `trace`, of the run of two nodes that docs/PROTOCOL.md follows message by message.

use crate::calls::{Row, try_views};
use std::test::Fail;
use test_calls::files::{executable, rewritten_file};

/// A processor other than 0 loads a shared word; each exits with code 0.
pub(crate) const ROW: &str = "lui x5, 0x20; beq x10, x0, end; lw x6, 0(x5); end:; addi x10, x0, 0;
    addi x17, x0, 93; ecall";

/// The record of a run of it by two nodes.
pub(crate) const RECORD: &str = "shasta-record 1
nodes 2
budget 100000000
batch 1
node 0
take 7 0 6
take 9 1 0
take 10 0 0
take 12 1 0
take 16 1 0
end
node 1
take 9 0 8
take 11 0 0
take 16 1 4
end
";

/// The first line of a trace.
const HEAD: &str = "stamp node: what it did\n";

/// The lines of its events up to stamp 8.
const FIRST: &str = "5 node 1: 00010008 lw x6, 0(x5); reads 0x00020000 of block 0
6 node 0: 00010014 ecall; commits; ends
7 node 0: takes Bye from 0
8 node 1: 00010008 lw x6, 0(x5); wants 0x00020000 of block 0 to read, which is invalid; \
    sends Read of block 0 to 0
";

/// That of stamp 9 of the home.
const BEGUN: &str = "9 node 0: takes Read of block 0 from 1; begins; exclusive to exclusive; \
    sends FwdRead of block 0 for 1 to 0\n";

/// And that of the other node.
const TOLD: &str = "9 node 1: takes Bye from 0\n";

/// Those of the rest that are about the block.
const SERVED: &str =
    "10 node 0: takes FwdRead of block 0 for 1 from 0; shares; exclusive to shared; \
    sends Data of block 0 acks 0 to 1
11 node 1: takes Data of block 0 acks 0 from 0; completes; pending to shared; \
    sends Done of block 0 to 0; goes on
12 node 0: takes Done of block 0 from 1; done; shared to shared
12 node 1: 00010008 lw x6, 0(x5); reads 0x00020000 of block 0; commits
";

/// And the others.
const LAST: &str = "15 node 1: 00010014 ecall; commits; ends
16 node 0: takes Bye from 1
16 node 1: takes Bye from 1
";

/// B is the record with one entry changed, whose message isn't there yet; V is the file that
/// `rewrite` makes.
static CALLS: [Row; 8] = [
    (
        "trace IN R",
        0,
        &[HEAD, FIRST, BEGUN, TOLD, SERVED, LAST],
        "",
    ),
    (
        "trace IN R --verify V",
        0,
        &[HEAD, FIRST, BEGUN, TOLD, SERVED, LAST],
        "",
    ),
    (
        "trace IN R --verify IN",
        4,
        &[],
        "shasta: code refused 50 NoPlan\n",
    ),
    ("trace --from 9 IN --to=9 R --node 1", 0, &[HEAD, TOLD], ""),
    (
        "trace IN R --block 0x2003f --from 9",
        0,
        &[HEAD, BEGUN, SERVED],
        "",
    ),
    ("trace IN R --block 0x30000", 0, &[HEAD], ""),
    (
        "trace IN B",
        7,
        &[],
        "shasta: record refused 44 at node 0 entry 2\n",
    ),
    (
        "trace IN IN",
        7,
        &[],
        "shasta: record refused 40 at line 1\n",
    ),
];

#[test]
fn shows_a_run(rt: HostRuntime) -> Result<(), Fail> {
    let alloc = rt.alloc();
    let program = executable(alloc, ROW, &[7, 0, 0, 0], 64)?;
    let broken = RECORD.replace(alloc, "take 9 1 0", "take 8 1 0")?;
    let verified = rewritten_file(alloc, &program)?;
    let files = [
        ("IN", program.as_slice()),
        ("V", verified.as_slice()),
        ("R", RECORD.as_bytes()),
        ("B", broken.as_bytes()),
    ];
    try_views(alloc, &files, &CALLS)
}
