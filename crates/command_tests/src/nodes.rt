//! `sim` on two nodes: how their processors end, and what they count.

use crate::cases::{Case, Input, try_cases};
use std::test::Fail;
use test_calls::samples::{READ, READS, STAYED, STAYS, WAITED, WAITS};

/// Programs whose data is zeros.
static CASES: [Case; 5] = [
    Case {
        input: Input::Program(READS, b"", 64),
        text: "",
        calls: &[
            "sim IN --nodes 2",
            "sim --order 1 IN --nodes=2",
            "sim IN --nodes 2 --order 77",
            "sim IN --nodes 2 --order 4294967295",
        ],
        status: 0,
        out: &[READ],
        err: "",
    },
    Case {
        input: Input::Program(WAITS, b"", 64),
        text: "",
        calls: &[
            "sim IN --nodes 2 --brief",
            "sim --brief --nodes 2 --order 1 IN",
            "sim --brief --nodes 2 --order 5 IN",
        ],
        status: 0,
        out: &[WAITED],
        err: "",
    },
    Case {
        input: Input::Program(STAYS, b"", 64),
        text: "",
        calls: &[
            "sim IN --nodes 2 --budget 1000",
            "sim IN --nodes 2 --budget 1000 --order 9",
        ],
        status: 1,
        out: &[STAYED],
        err: "",
    },
    Case {
        input: Input::Program(READS, b"", 64),
        text: "",
        calls: &["one IN --nodes 2"],
        status: 0,
        out: &[WAITED],
        err: "",
    },
    Case {
        input: Input::Program(WAITS, b"", 64),
        text: "",
        calls: &["one IN --nodes 2"],
        status: 0,
        out: &[WAITED],
        err: "",
    },
];

#[test]
fn runs_two_nodes(rt: HostRuntime) -> Result<(), Fail> {
    try_cases(&rt, &CASES)
}
