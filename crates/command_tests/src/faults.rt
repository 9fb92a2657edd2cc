//! What is told where a command does no work.

use crate::calls::try_held;
use crate::cases::{Case, Input, try_cases};
use std::test::Fail;
use test_calls::calls::Expected;
use test_calls::samples::USAGE;

/// Each command that reads an executable, where its words, its file or its name are at fault.
static CASES: [Case; 5] = [
    // words that ask for no command
    Case {
        input: Input::Bytes(b""),
        text: "",
        calls: &[
            "",
            "run",
            "run IN --nodes 17",
            "run IN --nodes 2",
            "list IN IN",
            "run IN --layout -x",
            "run IN --layout=",
            "run IN --code -x",
            "run IN --code=",
            "run IN --brief=x",
            "run IN --brief --brief",
            "one IN --brief",
            "sim IN --nodes 17",
            "sim IN --loss 4294967296",
            "sim IN --loss -1",
            "sim IN --loss",
            "sim IN --loss=",
            "sim IN --loss 5 --loss=5",
            "run IN --loss 5",
            "one IN --loss 5",
            "sim IN --per-node 1",
            "sim IN --per-node 5",
            "sim IN --per-node",
            "sim IN --per-node=",
            "sim IN --per-node 2 --per-node=2",
            "sim IN --per-node 2 --loss 0",
            "sim IN --nodes 5 --per-node 4",
            "sim IN --nodes 6 --per-node 3",
            "sim IN --nodes 9 --per-node 2",
            "run IN --per-node 2",
            "one IN --per-node 2",
            "one IN --nodes 17",
            "one IN --code a",
            "list IN --layout a",
        ],
        status: 2,
        out: &[],
        err: USAGE,
    },
    // csrrs x5, cycle, x0
    Case {
        input: Input::Program(".word 0xc00022f3", b"", 64),
        text: "",
        calls: &["list IN", "run IN", "one IN"],
        status: 4,
        out: &[],
        err: "shasta: executable refused 18 Unsupported 0x00010000 word 0xc00022f3\n",
    },
    // lr.w x6, (x5) with 1 for its second register
    Case {
        input: Input::Program(".word 0x1012a32f", b"", 64),
        text: "",
        calls: &["list IN", "run IN", "one IN"],
        status: 4,
        out: &[],
        err: "shasta: executable refused 18 Unsupported 0x00010000 word 0x1012a32f\n",
    },
    Case {
        input: Input::Bytes(b"text"),
        text: "",
        calls: &["list IN", "run IN", "one IN"],
        status: 4,
        out: &[],
        err: "shasta: executable refused 1 Short\n",
    },
    Case {
        input: Input::Bytes(b""),
        text: "",
        calls: &["list a", "run a", "one a"],
        status: 3,
        out: &[],
        err: "shasta: cannot read a\n",
    },
];

#[test]
fn tells_what_is_wrong(rt: HostRuntime) -> Result<(), Fail> {
    try_cases(&rt, &CASES)
}

#[test]
fn tells_that_a_file_is_too_long(rt: HostRuntime) -> Result<(), Fail> {
    let mut long = Vec::new(rt.alloc());
    long.resize(33_554_433, 0)?;
    let answer = Expected {
        status: 3,
        out: &[],
        err: "shasta: IN is longer than 33554432 bytes\n",
    };
    try_held(
        &rt,
        &[("IN", &long)],
        &["list IN", "run IN", "one IN"],
        &answer,
    )
}
