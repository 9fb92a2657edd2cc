//! Runs of accesses after one check, and the same programs without batches.

use crate::cases::{Case, Input, try_cases};
use std::test::Fail;
use test_calls::calls::NODE;

/// A jump into the middle of a run of two.
const JUMPS_INTO: &str = "lui x5, 0x20
addi x6, x0, 1
lui x28, 0x10
jalr x1, 20(x28)
lw x6, 0(x5)
lw x7, 4(x5)
add x10, x6, x7
addi x17, x0, 93
ecall
";

/// Its data: the words 5 and 6.
const FIVE_SIX: &[u8] = b"\x05\x00\x00\x00\x06\x00\x00\x00";

/// What it ends with: it loads the second word alone.
const SEVEN: &str = "output 0\n\nprocessor 0 exit 7\n";

/// A run whose second line isn't mapped.
const LEAVES: &str = "lui x5, 0x20; addi x5, x5, 60; lw x6, 0(x5); lw x7, 4(x5)";

/// What it ends with: the second load's access.
const LEFT: &str = "output 0\n\nprocessor 0 access 0x0001000c\n";

/// A run that would store to the words in which sequences keep registers.
const REACHES: &str = "addi x5, x0, 0; sw x5, -12(x5); sw x5, -8(x5)";

/// What it ends with: the first store's access.
const REACHED: &str = "output 0\n\nprocessor 0 access 0x00010004\n";

/// The line of a node that fell back once.
const FALLBACK: &str =
    "node 0 read 0 exclusive 0 upgrade 0 false 0 invalidations 0 fallbacks 1 messages 0\n";

/// Processor 1 reads two words in two lines by one run.
const READS_BOTH: &str = "lui x5, 0x20
beq x10, x0, end
lw x6, 60(x5)
lw x7, 64(x5)
end:
addi x10, x0, 0
addi x17, x0, 93
ecall
";

/// What it ends with: both lines are asked for in one wait.
const READ_BOTH: &str = "output 0

processor 0 exit 0
processor 1 exit 0
node 0 read 0 exclusive 0 upgrade 0 false 0 invalidations 0 fallbacks 0 messages 4
node 1 read 2 exclusive 0 upgrade 0 false 0 invalidations 0 fallbacks 0 messages 4
";

static CASES: [Case; 6] = [
    Case {
        input: Input::Program(JUMPS_INTO, FIVE_SIX, 64),
        text: "",
        calls: &["run IN", "run IN --no-batch", "sim --no-batch IN", "sim IN"],
        status: 1,
        out: &[SEVEN, NODE],
        err: "",
    },
    Case {
        input: Input::Program(LEAVES, b"", 64),
        text: "",
        calls: &["run IN", "sim IN --order 3"],
        status: 1,
        out: &[LEFT, FALLBACK],
        err: "",
    },
    Case {
        input: Input::Program(LEAVES, b"", 64),
        text: "",
        calls: &["run IN --no-batch", "sim IN --no-batch"],
        status: 1,
        out: &[LEFT, NODE],
        err: "",
    },
    Case {
        input: Input::Program(REACHES, b"", 64),
        text: "",
        calls: &["run IN", "sim IN"],
        status: 1,
        out: &[REACHED, FALLBACK],
        err: "",
    },
    Case {
        input: Input::Program(REACHES, b"", 64),
        text: "",
        calls: &["run IN --no-batch"],
        status: 1,
        out: &[REACHED, NODE],
        err: "",
    },
    Case {
        input: Input::Program(READS_BOTH, b"", 128),
        text: "",
        calls: &[
            "sim IN --nodes 2",
            "sim IN --nodes 2 --order 5",
            "sim IN --nodes 2 --no-batch",
            "run IN --nodes 2 --record R",
        ],
        status: 0,
        out: &[READ_BOTH],
        err: "",
    },
];

#[test]
fn answers_with_batches_and_without(rt: HostRuntime) -> Result<(), Fail> {
    try_cases(&rt, &CASES)
}
