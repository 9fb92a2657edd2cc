//! `sim` on nodes of several processors: what is printed under each order.

use crate::calls::call;
use crate::threads::{COUNTED, COUNTS};
use crate::watch::CountingGate;
use std::str::from_utf8;
use std::sync::Wait;
use std::test::Fail;
use std::thread::Threads;
use test_calls::calls::{Called, Expected, NODE, sure};
use test_calls::files::executable;
use test_calls::samples::READS;

/// What four processors on two nodes end with where those but the first read a word of node 0: the
/// line of node 1, up to what it counts by chance.
const READ: &str = "output 0

processor 0 exit 0
processor 1 exit 0
processor 2 exit 0
processor 3 exit 0
node 0 read 0 exclusive 0 upgrade 0 false 0 invalidations 0 fallbacks 0 messages 2
node 1 read 1 exclusive 0 upgrade 0 false ";

/// What stands after that: node 1 asks node 0 once, for both of its processors.
const BEHIND: &str = " invalidations 0 fallbacks 0 messages 2\n";

/// Calls the program on an executable with these words.
fn called_on(
    rt: &(impl Threads + Wait + Sync + AllocGlobal),
    file: &[u8],
    line: &str,
) -> Result<Called, Fail> {
    call(
        rt,
        sure(&[("IN", file)]),
        line,
        "",
        &CountingGate::new(false),
    )
}

/// The words by which two processors of one node count.
static COUNTING: [&str; 4] = [
    "sim IN --nodes 1 --per-node 2",
    "sim --per-node=2 IN --order 1",
    "sim IN --per-node 2 --order 77",
    "sim IN --per-node 2 --order 4294967295 --no-batch",
];

/// Two processors of one node add to a word, and no message is sent.
#[test]
fn counts_on_one_node(rt: HostRuntime) -> Result<(), Fail> {
    let file = executable(rt.alloc(), COUNTS, b"", 128)?;
    let mut wanted = COUNTED.to_vec(rt.alloc())?;
    wanted.extend_from_slice(NODE.as_bytes())?;
    for line in &COUNTING {
        called_on(&rt, &file, line)?.expect_bytes(line, &wanted)?;
    }
    Ok(())
}

/// The words by which two processors of node 1 read.
static READING: [&str; 6] = [
    "sim IN --nodes 2 --per-node 2",
    "sim --per-node=2 IN --nodes=2 --order 1",
    "sim IN --nodes 2 --per-node 2 --order 2",
    "sim IN --nodes 2 --per-node 2 --order 3",
    "sim IN --nodes 2 --per-node 2 --order 77",
    "sim IN --nodes 2 --per-node 2 --order 4294967295",
];

/// Calls the program with these words, and fails the test where it answers otherwise.
fn try_reading(
    rt: &(impl Threads + Wait + Sync + AllocGlobal),
    file: &[u8],
    line: &str,
) -> Result<(), Fail> {
    let called = called_on(rt, file, line)?;
    let late = from_utf8(&called.out)?.contains("false 1");
    let answer = Expected {
        status: 0,
        out: &[READ, if late { "1" } else { "0" }, BEHIND],
        err: "",
    };
    called.expect(rt.alloc(), line, &answer)
}

/// Where one processor of node 1 waits for the block, the other waits with it, or finds the word
/// there before the node has counted it.
#[test]
fn reads_by_two_processors_of_a_node(rt: HostRuntime) -> Result<(), Fail> {
    let file = executable(rt.alloc(), READS, b"\x07\x00\x00\x00", 64)?;
    for line in &READING {
        try_reading(&rt, &file, line)?;
    }
    Ok(())
}
