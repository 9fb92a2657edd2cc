//! `sim` on two nodes over links that lose packets: what is printed is as over links that don't.

use crate::cases::{Case, Input, try_cases};
use std::test::Fail;
use test_calls::samples::{READ, READS, STAYED, STAYS, WAITED, WAITS};

static CASES: [Case; 3] = [
    // four messages under every order and every loss
    Case {
        input: Input::Program(READS, b"\x07\x00\x00\x00", 64),
        text: "",
        calls: &[
            "sim IN --nodes 2",
            "sim IN --nodes 2 --loss 5",
            "sim --loss=0 IN --nodes 2",
            "sim IN --nodes 2 --loss 4294967295",
            "sim IN --nodes 2 --order 77 --loss 5",
        ],
        status: 0,
        out: &[READ],
        err: "",
    },
    Case {
        input: Input::Program(WAITS, b"", 64),
        text: "",
        calls: &[
            "sim IN --nodes 2 --brief --loss 1",
            "sim IN --nodes 2 --brief --loss 2 --order 5",
        ],
        status: 0,
        out: &[WAITED],
        err: "",
    },
    Case {
        input: Input::Program(STAYS, b"", 64),
        text: "",
        calls: &[
            "sim IN --nodes 2 --budget 1000 --loss 1",
            "sim IN --nodes 2 --budget 1000 --loss 9 --order 3",
        ],
        status: 1,
        out: &[STAYED],
        err: "",
    },
];

#[test]
fn runs_over_lossy_links(rt: HostRuntime) -> Result<(), Fail> {
    try_cases(&rt, &CASES)
}
