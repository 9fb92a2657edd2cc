//! `cost`, whose numbers are worked out by hand.

use crate::blocks::named;
use crate::calls::{Row, USAGE, try_views};
use crate::trace::RECORD;
use std::test::Fail;
use test_calls::files::{executable, rewritten_file};
use test_calls::samples::HI;

/// What stands in the columns: the words of the original and those of its checks, and the others.
const HEAD_OF_CHECKS: &str = "  instrs   words per 100     own    flag   state   store";

const HEAD_OF_OTHERS: &str = "   batch    poll    jump   spill  function\n";

/// Of the eight instructions each has one word, which is its own. Word 0, where a processor goes
/// whose pc is no place, and the word after the code have no instruction. So there are 10 words,
/// which is 125 for 100 instructions. The program names no function.
const HI_COSTS: [&str; 6] = [
    HEAD_OF_CHECKS,
    HEAD_OF_OTHERS,
    "       8      10     125       8       0       0       0       0       0       2       0",
    "  in no function\n",
    "       8      10     125       8       0       0       0       0       0       2       0",
    "  all code\n",
];

/// Of two loads by one register: lui, lw, lw, addi, addi and ecall.
const PAIR: &str = "lui x5, 0x20; lw x6, 0(x5); lw x7, 4(x5); addi x10, x0, 0; addi x17, x0, 93;
    ecall";

/// Each load has seven words without batches: five check its value, and two stand for itself; one
/// of the two commits. With lui, addi, addi and ecall that is 18, and with the two words that have
/// no instruction 20.
const APART: [&str; 6] = [
    HEAD_OF_CHECKS,
    HEAD_OF_OTHERS,
    "       6      20     333       8      10       0       0       0       0       2       0",
    "  in no function\n",
    "       6      20     333       8      10       0       0       0       0       2       0",
    "  all code\n",
];

/// The program of `trace`, lui, beq, lw, addi, addi and ecall. The function `read` has the branch,
/// which takes another word to lead away, and the load, which has seven words, as above: 9 in all.
/// `main` has the others, a word each. So `read` adds 7 words, the two words without an instruction
/// are 2, and `main` adds none.
const NAMED: [&str; 10] = [
    HEAD_OF_CHECKS,
    HEAD_OF_OTHERS,
    "       2       9     450       3       5       0       0       0       0       1       0",
    "  read\n",
    "       0       2       -       0       0       0       0       0       0       2       0",
    "  in no function\n",
    "       4       4     100       4       0       0       0       0       0       0       0",
    "  main\n",
    "       6      15     250       7       5       0       0       0       0       3       0",
    "  all code\n",
];

/// Where IN holds the first program, V the file that `rewrite` makes of it, and T no executable.
static HI_CALLS: [Row; 9] = [
    ("cost IN", 0, &HI_COSTS, ""),
    ("cost --verify V IN", 0, &HI_COSTS, ""),
    ("cost", 2, &[], USAGE),
    ("cost IN IN IN", 2, &[], USAGE),
    ("cost IN --nodes 2", 2, &[], USAGE),
    ("cost IN --verify V --no-batch", 2, &[], USAGE),
    ("cost A", 3, &[], "shasta: cannot read A\n"),
    ("cost T", 4, &[], "shasta: executable refused 1 Short\n"),
    (
        "cost IN --verify T",
        4,
        &[],
        "shasta: code refused 1 Short\n",
    ),
];

static PAIR_CALLS: [Row; 1] = [("cost --no-batch IN", 0, &APART, "")];

static NAMED_CALLS: [Row; 1] = [("cost IN", 0, &NAMED, "")];

/// Of a run, the steps of the original stand in the first column.
const HEAD_OF_RUN: &str = "   steps   words per 100     own    flag   state   store";

/// Of the run of `trace` by two nodes, whose stamps count the words of a node, but for the messages
/// that it takes. Node 0 executes six words: lui, the branch, the word that leads away from it,
/// addi, addi and ecall; all of them but the one that leads away commit a step. Node 1 doesn't
/// branch away: it executes lui, the branch, the seven words of the load, whose last commits, addi,
/// addi and ecall. So `read`, which has the branch and the load, has 2 words of node 0 and 8 of
/// node 1, for 1 and 2 steps: 4 are the original's own, 5 check the load and one leads away. `main`
/// has 4 words and 4 steps of each. In all these are 18 words for 11 steps: node 0's journal tells
/// of 6 words, and node 1's of 8 and 4.
const RUN: [&str; 9] = [
    HEAD_OF_RUN,
    HEAD_OF_OTHERS,
    "       3      10     333       4       5       0       0       0       0       1       0",
    "  read\n",
    "       8       8     100       8       0       0       0       0       0       0       0",
    "  main\n",
    "      11      18     163      12       5       0       0       0       0       1       0",
    "  all code\n",
    NODES,
];

/// What the nodes count, as `run` tells it.
const NODES: &str =
    "node 0 read 0 exclusive 0 upgrade 0 false 0 invalidations 0 fallbacks 0 messages 2
node 1 read 1 exclusive 0 upgrade 0 false 0 invalidations 0 fallbacks 0 messages 2
";

/// R is the record of the run, and B the record with one entry changed, whose message isn't there
/// yet.
static RUN_CALLS: [Row; 8] = [
    ("cost IN R", 0, &RUN, ""),
    ("cost --verify V IN R", 0, &RUN, ""),
    ("cost IN R R", 2, &[], USAGE),
    ("cost IN R --no-batch", 2, &[], USAGE),
    ("cost IN A", 3, &[], "shasta: cannot read A\n"),
    (
        "cost IN R --verify IN",
        4,
        &[],
        "shasta: code refused 50 NoPlan\n",
    ),
    (
        "cost IN IN",
        7,
        &[],
        "shasta: record refused 40 at line 1\n",
    ),
    (
        "cost IN B",
        7,
        &[],
        "shasta: record refused 44 at node 0 entry 2\n",
    ),
];

#[test]
fn counts_what_checks_cost(rt: HostRuntime) -> Result<(), Fail> {
    let alloc = rt.alloc();
    let file = executable(alloc, HI, b"", 64)?;
    let verified = rewritten_file(alloc, &file)?;
    let files = [("IN", file.as_slice()), ("V", &verified), ("T", b"text")];
    try_views(alloc, &files, &HI_CALLS)
}

#[test]
fn counts_it_without_batches(rt: HostRuntime) -> Result<(), Fail> {
    let alloc = rt.alloc();
    let file = executable(alloc, PAIR, b"", 64)?;
    try_views(alloc, &[("IN", &file)], &PAIR_CALLS)
}

#[test]
fn counts_it_by_function(rt: HostRuntime) -> Result<(), Fail> {
    let alloc = rt.alloc();
    try_views(alloc, &[("IN", &named(alloc)?)], &NAMED_CALLS)
}

#[test]
fn counts_a_run(rt: HostRuntime) -> Result<(), Fail> {
    let alloc = rt.alloc();
    let file = named(alloc)?;
    let broken = RECORD.replace(alloc, "take 9 1 0", "take 8 1 0")?;
    let verified = rewritten_file(alloc, &file)?;
    let files = [
        ("IN", file.as_slice()),
        ("V", verified.as_slice()),
        ("R", RECORD.as_bytes()),
        ("B", broken.as_bytes()),
    ];
    try_views(alloc, &files, &RUN_CALLS)
}
