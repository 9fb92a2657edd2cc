//! Files of rewritten code: what `rewrite` writes, runs by them, and why one is refused.

use crate::calls::{rewritten, try_held};
use crate::cases::{Case, Input, try_cases};
use std::alloc::{AllocError, Global};
use std::sync::Wait;
use std::test::Fail;
use std::thread::Threads;
use test_calls::calls::{Expected, NODE};
use test_calls::files::executable;
use test_calls::samples::HI;

/// The rewritten file stands above the addresses that a program may have, so it is no input.
#[test]
fn writes_an_executable(rt: HostRuntime) -> Result<(), Fail> {
    let file = executable(rt.alloc(), "ebreak", b"", 64)?;
    let code = rewritten(&rt, &file)?;
    let answer = Expected {
        status: 4,
        out: &[],
        err: "shasta: executable refused 12 TooHigh segment 2\n",
    };
    try_held(&rt, &[("OUT", &code)], &["list OUT"], &answer)
}

/// Calls `run` and `sim` on an executable with a file of code and the layout of a text, and fails
/// the test where one answers otherwise.
fn try_code(
    rt: &(impl Threads + Wait + Sync + AllocGlobal),
    file: &[u8],
    code: &[u8],
    text: &str,
    answer: &Expected<'_>,
) -> Result<(), Fail> {
    let held = [("IN", file), ("OUT", code), ("L", text.as_bytes())];
    let calls = [
        "run --layout L IN --code OUT",
        "sim --layout L IN --code OUT",
    ];
    try_held(rt, &held, &calls, answer)
}

/// The place of a byte of the rewritten file, the bits of it that are changed, and what is told of
/// it. The code begins at 0x3000 in the file, after both segments of the original; the plan after
/// its ten words, at 0x3028; the map after eight bytes for each of nine places, at 0x3070. The
/// types of the three program headers are at 52, 84 and 116; after each are an offset, two
/// addresses and two sizes.
static CHANGES: [(usize, u8, &str); 14] = [
    (0x3027, 0x80, "shasta: code refused 21 PlanRefused Code\n"),
    (0x2000, 0x80, "shasta: code refused 21 PlanRefused Code\n"),
    (0x3028, 0x80, "shasta: code refused 21 PlanRefused Plan\n"),
    (0x306f, 0x80, "shasta: code refused 21 PlanRefused Plan\n"),
    (0x3070, 0x80, "shasta: code refused 21 PlanRefused Map\n"),
    (0x3074, 0x80, "shasta: code refused 21 PlanRefused Map\n"),
    (0x30b7, 0x80, "shasta: code refused 21 PlanRefused Map\n"),
    (0, 0x80, "shasta: code refused 2 NotElf\n"),
    (52, 3, "shasta: code refused 9 Dynamic header 0\n"),
    (116, 3, "shasta: code refused 9 Dynamic header 2\n"),
    (
        59,
        0x80,
        "shasta: code refused 10 SegmentOutside header 0\n",
    ),
    (
        123,
        0x80,
        "shasta: code refused 10 SegmentOutside header 2\n",
    ),
    (72, 0x20, "shasta: code refused 11 SegmentSizes header 0\n"),
    (136, 0x20, "shasta: code refused 11 SegmentSizes header 2\n"),
];

/// A file where bits of the byte at a place are changed.
fn changed(alloc: Global, code: &[u8], place: usize, bits: u8) -> Result<Vec<u8>, AllocError> {
    let mut file = code.to_vec(alloc)?;
    if let Some(byte) = file.get_mut(place) {
        *byte ^= bits;
    }
    Ok(file)
}

/// Fails the test where a file of code isn't refused with these words.
fn try_refused(
    rt: &(impl Threads + Wait + Sync + AllocGlobal),
    file: &[u8],
    code: &[u8],
    err: &str,
) -> Result<(), Fail> {
    let answer = Expected {
        status: 4,
        out: &[],
        err,
    };
    try_code(rt, file, code, "?", &answer)
}

#[test]
fn tells_why_a_file_of_code_is_refused(rt: HostRuntime) -> Result<(), Fail> {
    let file = executable(rt.alloc(), HI, b"hi\n", 3)?;
    let code = rewritten(&rt, &file)?;
    for &(place, bits, err) in &CHANGES {
        try_refused(&rt, &file, &changed(rt.alloc(), &code, place, bits)?, err)?;
    }
    Ok(())
}

/// What is told where the executable is faulty, whatever else is.
const NO_EXECUTABLE: &str = "shasta: executable refused 1 Short\n";

/// What is told where the file of code has no bytes, and where it is the executable.
const NO_CODE: &str = "shasta: code refused 1 Short\n";

const OTHER_CODE: &str = "shasta: code refused 21 PlanRefused Plan\n";

/// The answer where the layout alone is faulty.
const NO_LAYOUT: Expected<'static> = Expected {
    status: 6,
    out: &[],
    err: "shasta: layout refused 30 at line 1\n",
};

/// What the program prints where nothing is faulty.
const PRINTED: Expected<'static> = Expected {
    status: 0,
    out: &["output 3\nhi\n\nprocessor 0 exit 0\n", NODE],
    err: "",
};

#[test]
fn judges_what_it_reads_in_order(rt: HostRuntime) -> Result<(), Fail> {
    let file = executable(rt.alloc(), HI, b"hi\n", 3)?;
    let code = rewritten(&rt, &file)?;
    try_refused(&rt, b"", b"", NO_EXECUTABLE)?;
    try_refused(&rt, &file, b"", NO_CODE)?;
    try_refused(&rt, &file, &file, OTHER_CODE)?;
    try_code(&rt, &file, &code, "?", &NO_LAYOUT)?;
    try_code(&rt, &file, &code, "", &PRINTED)
}

/// Of files that can't be read the first is told, before any is judged: the executable, its code,
/// the layout, and the record.
static READS: [Case; 3] = [
    Case {
        input: Input::Bytes(b""),
        text: "",
        calls: &[
            "run a --layout b",
            "run a --layout c --code b",
            "sim a --code b",
            "one a --layout b",
            "replay a b",
        ],
        status: 3,
        out: &[],
        err: "shasta: cannot read a\n",
    },
    Case {
        input: Input::Bytes(b""),
        text: "",
        calls: &[
            "run IN --layout a --code b",
            "sim IN --layout a --code b",
            "replay IN b",
        ],
        status: 3,
        out: &[],
        err: "shasta: cannot read b\n",
    },
    Case {
        input: Input::Bytes(b""),
        text: "",
        calls: &["run IN --code IN --layout a"],
        status: 3,
        out: &[],
        err: "shasta: cannot read a\n",
    },
];

#[test]
fn reads_the_files_in_order(rt: HostRuntime) -> Result<(), Fail> {
    try_cases(&rt, &READS)
}
