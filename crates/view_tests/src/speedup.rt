//! `speedup`, of the program whose run on two nodes `time` works out.

use crate::calls::{BEFORE, Row, USAGE, try_unwritten, written};
use crate::trace::ROW;
use std::alloc::Global;
use std::str::from_utf8;
use std::test::Fail;
use test_calls::files::executable;

/// A page of one node and of two, and what it says. The original makes five steps on one processor:
/// lui, beq, addi, addi and ecall. One node takes 26, and 500 / 26 is 19. Two take 418, and spend
/// 836 together: 18 on words, 230 on waits to read, 160 on handling, and 428 idle. Of 600 pixels 12
/// are for words, and the waits to read end at 177, rounded down. The second node makes six steps,
/// lw too. So 11 of the 18 words are of the original, which end at 7 pixels, rounded down.
static SHOWN: (&str, [&str; 7]) = (
    "speedup IN OUT --nodes 2 --latency 100 --line 10 --handling 20",
    [
        "--nodes 2 --budget 100000000 --latency 100 --line 10 --handling 20</code>",
        "the original makes 5 steps",
        "<tr><th>1</th><td>26</td><td>0.19</td><td>6<small>23%</small></td>\
            <td>5<small>83%</small></td>",
        "<tr><th>2</th><td>418</td><td>0.01</td><td>18<small>2%</small></td>\
            <td>11<small>61%</small></td><td>230<small>27%</small></td><td>0<small>0%</small></td>\
            <td>160<small>19%</small></td><td>428<small>51%</small></td></tr>",
        "<rect class='steps' x='88' width='7' y='30' height='18'/>",
        "<rect class='checks' x='95' width='5' y='30' height='18'/>",
        "<rect class='reads' x='100' width='165' y='30' height='18'/>",
    ],
);

/// A page of runs that the budget stops.
static STOPPED: (&str, [&str; 2]) = (
    "speedup IN OUT --nodes=1 --budget 3",
    [
        "The original doesn't end on one processor within the budget.",
        "<td>stopped</td>",
    ],
);

/// A page of runs that end by a trap: X stores into a line of the program.
static TRAPPED: (&str, [&str; 2]) = (
    "speedup X OUT --nodes=1",
    [
        "On one processor the original ends by a trap: access.",
        "<td>access</td>",
    ],
);

/// Calls that write none; L names node 1 as a home, which one node hasn't.
static UNWRITTEN: [Row; 6] = [
    ("speedup IN", 2, &[], USAGE),
    ("speedup IN OUT --nodes 17", 2, &[], USAGE),
    ("speedup IN OUT --verify IN --no-batch", 2, &[], USAGE),
    ("speedup A OUT", 3, &[], "shasta: cannot read A\n"),
    (
        "speedup T OUT",
        4,
        &[],
        "shasta: executable refused 1 Short\n",
    ),
    (
        "speedup IN OUT --nodes 2 --layout L",
        6,
        &[],
        "shasta: layout refused 35 at line 1\n",
    ),
];

/// Fails the test where a call doesn't write a page that has all of these parts.
fn try_page(
    alloc: Global,
    files: &[(&str, &[u8])],
    line: &'static str,
    parts: &[&str],
) -> Result<(), Fail> {
    let page = written(alloc, files, &(line, 0, &[], ""))?;
    let text = from_utf8(&page)?;
    for part in parts {
        if !text.contains(*part) {
            return Err(Fail::new(format_args!("{line}: {part}")));
        }
    }
    Ok(())
}

#[test]
fn writes_speedups_or_leaves_the_file(rt: HostRuntime) -> Result<(), Fail> {
    let alloc = rt.alloc();
    let program = executable(alloc, ROW, &[7, 0, 0, 0], 64)?;
    let faulty = executable(alloc, "lui x5, 0x10; sw x5, 0(x5)", &[], 64)?;
    let files = [
        ("IN", program.as_slice()),
        ("X", faulty.as_slice()),
        ("T", b"text"),
        ("L", b"0x20000 0x40 64 1\n"),
        ("OUT", BEFORE.as_bytes()),
    ];
    try_page(alloc, &files, SHOWN.0, &SHOWN.1)?;
    try_page(alloc, &files, STOPPED.0, &STOPPED.1)?;
    try_page(alloc, &files, TRAPPED.0, &TRAPPED.1)?;
    try_unwritten(alloc, &files, &UNWRITTEN)
}
