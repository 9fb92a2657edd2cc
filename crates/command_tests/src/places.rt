//! Refusals of executables and of layouts at the first and the last place that they may name, and
//! of two faulty lines the first.

use crate::calls::try_held;
use crate::refusals::{RefusalRow, WHOLE, file_of, try_rules};
use std::sync::Wait;
use std::test::Fail;
use std::thread::Threads;
use test_calls::calls::Expected;
use test_calls::files::{executable, text_of};
use test_calls::samples::HI;

/// Rules that the file of a program which writes breaks: 8195 bytes, with two program headers, 32
/// bytes of code at 0x1000 and three of data at 0x2000.
static SMALL: [RefusalRow; 15] = [
    RefusalRow {
        len: 0,
        bytes: &[],
        line: "1 Short",
    },
    RefusalRow {
        len: 51,
        bytes: &[],
        line: "1 Short",
    },
    RefusalRow {
        len: 52,
        bytes: &[],
        line: "7 ProgramTable",
    },
    RefusalRow {
        len: 115,
        bytes: &[],
        line: "7 ProgramTable",
    },
    RefusalRow {
        len: 116,
        bytes: &[],
        line: "10 SegmentOutside header 0",
    },
    RefusalRow {
        len: 4127,
        bytes: &[],
        line: "10 SegmentOutside header 0",
    },
    RefusalRow {
        len: 4128,
        bytes: &[],
        line: "10 SegmentOutside header 1",
    },
    RefusalRow {
        len: 8194,
        bytes: &[],
        line: "10 SegmentOutside header 1",
    },
    // e_phoff 0xfffffff0
    RefusalRow {
        len: WHOLE,
        bytes: &[(28, 0xf0), (29, 0xff), (30, 0xff), (31, 0xff)],
        line: "7 ProgramTable",
    },
    // the second p_memsz 2
    RefusalRow {
        len: WHOLE,
        bytes: &[(104, 0x2)],
        line: "11 SegmentSizes header 1",
    },
    // the second p_vaddr 0x7fff0000
    RefusalRow {
        len: WHOLE,
        bytes: &[(94, 0xff), (95, 0x7f)],
        line: "12 TooHigh segment 1",
    },
    // the second p_vaddr 0x00010020: no byte is in both, but a line is
    RefusalRow {
        len: WHOLE,
        bytes: &[(92, 0x20), (94, 0x1)],
        line: "13 Overlap segments 0 1",
    },
    // the first p_flags 7
    RefusalRow {
        len: WHOLE,
        bytes: &[(76, 0x7)],
        line: "14 WritableCode segment 0",
    },
    // the second p_memsz 0x01000001
    RefusalRow {
        len: WHOLE,
        bytes: &[(104, 0x1), (107, 0x1)],
        line: "16 TooMuch shared",
    },
    // e_entry 0x00010002
    RefusalRow {
        len: WHOLE,
        bytes: &[(24, 0x2)],
        line: "17 EntryNotCode 0x00010002",
    },
];

/// Rules that a file with 999 program headers breaks, at the first place and at the last. The last
/// headers begin at 0x7cd4 and 0x7cf4.
static PLACES: [RefusalRow; 20] = [
    RefusalRow {
        len: WHOLE,
        bytes: &[(44, 0xe7), (45, 0x3), (52, 0x3)],
        line: "9 Dynamic header 0",
    },
    RefusalRow {
        len: WHOLE,
        bytes: &[(44, 0xe7), (45, 0x3), (0x7cf4, 0x2)],
        line: "9 Dynamic header 998",
    },
    RefusalRow {
        len: WHOLE,
        bytes: &[(44, 0xe7), (45, 0x3), (59, 0xff)],
        line: "10 SegmentOutside header 0",
    },
    // p_offset 0xff000000, of no bytes
    RefusalRow {
        len: WHOLE,
        bytes: &[(44, 0xe7), (45, 0x3), (0x7cfb, 0xff)],
        line: "10 SegmentOutside header 998",
    },
    RefusalRow {
        len: WHOLE,
        bytes: &[(44, 0xe7), (45, 0x3), (72, 0x8)],
        line: "11 SegmentSizes header 0",
    },
    // p_filesz 1 and p_memsz 0
    RefusalRow {
        len: WHOLE,
        bytes: &[(44, 0xe7), (45, 0x3), (0x7d04, 0x1)],
        line: "11 SegmentSizes header 998",
    },
    RefusalRow {
        len: WHOLE,
        bytes: &[(44, 0xe7), (45, 0x3), (62, 0xff), (63, 0x7f)],
        line: "12 TooHigh segment 0",
    },
    RefusalRow {
        len: WHOLE,
        bytes: &[
            (44, 0xe7),
            (45, 0x3),
            (0x7cfe, 0xff),
            (0x7cff, 0x7f),
            (0x7d08, 0x1),
        ],
        line: "12 TooHigh segment 998",
    },
    RefusalRow {
        len: WHOLE,
        bytes: &[(44, 0xe7), (45, 0x3), (62, 0x40)],
        line: "13 Overlap segments 0 1",
    },
    RefusalRow {
        len: WHOLE,
        bytes: &[(44, 0xe7), (45, 0x3), (0x7cfe, 0x1), (0x7d08, 0x1)],
        line: "13 Overlap segments 0 998",
    },
    RefusalRow {
        len: WHOLE,
        bytes: &[
            (44, 0xe7),
            (45, 0x3),
            (0x7cde, 0x8),
            (0x7ce8, 0x1),
            (0x7cfe, 0x8),
            (0x7d08, 0x1),
        ],
        line: "13 Overlap segments 997 998",
    },
    RefusalRow {
        len: WHOLE,
        bytes: &[(44, 0xe7), (45, 0x3), (76, 0x7)],
        line: "14 WritableCode segment 0",
    },
    RefusalRow {
        len: WHOLE,
        bytes: &[(44, 0xe7), (45, 0x3), (0x7d08, 0x1), (0x7d0c, 0x7)],
        line: "14 WritableCode segment 998",
    },
    // p_vaddr 0x10000000 and p_memsz 0x01000001
    RefusalRow {
        len: WHOLE,
        bytes: &[
            (44, 0xe7),
            (45, 0x3),
            (0x7cff, 0x10),
            (0x7d08, 0x1),
            (0x7d0b, 0x1),
        ],
        line: "16 TooMuch read-only",
    },
    RefusalRow {
        len: WHOLE,
        bytes: &[(44, 0xe7), (45, 0x3), (26, 0x0)],
        line: "17 EntryNotCode 0x00000000",
    },
    RefusalRow {
        len: WHOLE,
        bytes: &[
            (44, 0xe7),
            (45, 0x3),
            (24, 0xff),
            (25, 0xff),
            (26, 0xff),
            (27, 0xff),
        ],
        line: "17 EntryNotCode 0xffffffff",
    },
    // csrrs x5, cycle, x0
    RefusalRow {
        len: WHOLE,
        bytes: &[
            (44, 0xe7),
            (45, 0x3),
            (0x8000, 0xf3),
            (0x8001, 0x22),
            (0x8002, 0x0),
            (0x8003, 0xc0),
        ],
        line: "18 Unsupported 0x00010000 word 0xc00022f3",
    },
    RefusalRow {
        len: WHOLE,
        bytes: &[
            (44, 0xe7),
            (45, 0x3),
            (0x8008, 0xf3),
            (0x8009, 0x22),
            (0x800a, 0x0),
            (0x800b, 0xc0),
        ],
        line: "18 Unsupported 0x00010008 word 0xc00022f3",
    },
    // two section headers at 0x7e00, of which the second is of ten bytes of code
    RefusalRow {
        len: WHOLE,
        bytes: &[(44, 0xe7), (45, 0x3), (33, 0x7e), (46, 0x28), (48, 0x2)],
        line: "19 CodeAlign section 0",
    },
    // six, of which the second is of no bytes and the last of ten bytes of code
    RefusalRow {
        len: WHOLE,
        bytes: &[
            (44, 0xe7),
            (45, 0x3),
            (33, 0x7e),
            (46, 0x28),
            (48, 0x6),
            (0x7e3c, 0x0),
            (0x7ecc, 0x1),
            (0x7ed0, 0x6),
            (0x7ed6, 0x1),
            (0x7ed9, 0x80),
            (0x7edc, 0xa),
        ],
        line: "19 CodeAlign section 4",
    },
];

/// The size of a file that holds 65,535 program headers; the last begins at 0x1ffff4.
const MOST: usize = 2097172;

/// Rules that the last of 65,535 program headers breaks.
static LAST: [RefusalRow; 3] = [
    RefusalRow {
        len: WHOLE,
        bytes: &[(44, 0xff), (45, 0xff), (0x1ffff4, 0x3)],
        line: "9 Dynamic header 65534",
    },
    RefusalRow {
        len: WHOLE,
        bytes: &[(44, 0xff), (45, 0xff), (0x1ffff4, 0x1), (0x1ffffb, 0xff)],
        line: "10 SegmentOutside header 65534",
    },
    RefusalRow {
        len: WHOLE,
        bytes: &[(44, 0xff), (45, 0xff), (0x1ffff4, 0x1), (0x200004, 0x1)],
        line: "11 SegmentSizes header 65534",
    },
];

#[test]
fn names_the_first_and_the_last_place(rt: HostRuntime) -> Result<(), Fail> {
    let alloc = rt.alloc();
    let mut file = executable(alloc, HI, b"hi\n", 3)?;
    try_rules(&rt, &file, &SMALL)?;
    try_rules(&rt, &file_of(alloc, 0)?, &PLACES)?;
    file.resize(MOST, 0)?;
    try_rules(&rt, &file, &LAST)
}

/// A line of a layout that names the first of three shared lines.
const NAMED: &str = "0x20000 0x40 64 0\n";

/// Lines that break a rule after that one, and its number.
static FAULTY: [(&str, &str); 6] = [
    ("0x20040 0x40 64", "30"),
    ("0x20040 0x40 96 0", "31"),
    ("0x20040 0xffffffff 64 0", "32"),
    ("0x20080 0x80 64 0", "33"),
    ("0x20000 0x40 64 0", "34"),
    ("0x20040 0x40 64 99", "35"),
];

/// Layouts of one shared line: one that breaks a rule, at its first place, and lines that break
/// two.
static LAYOUTS: [(&str, &str); 11] = [
    ("?", "30 at line 1"),
    ("0x20000 0x40 96 0", "31 at line 1"),
    ("0x20000 0xffffffff 64 0", "32 at line 1"),
    ("0x20000 0x80 64 0", "33 at line 1"),
    ("0x20000 0x40 64 99", "35 at line 1"),
    ("0x20000 0x40 64 0\n0x20000 0x40 64 0", "34 at line 2"),
    ("0x20020 0x40 96 0", "31 at line 1"),
    ("0x20000 0x40 96 99", "31 at line 1"),
    ("0x10020 0x40 64 99", "32 at line 1"),
    ("0x20000 0x80 64 99", "33 at line 1"),
    ("0x20000 0x40 64 0\n0x20000 0x40 64 99", "34 at line 2"),
];

/// Fails the test where the program isn't refused for this layout, by this rule and line.
fn try_layout(
    rt: &(impl Threads + Wait + Sync + AllocGlobal),
    file: &[u8],
    text: &str,
    refusal: &str,
) -> Result<(), Fail> {
    let err = text_of(rt.alloc(), &["shasta: layout refused ", refusal, "\n"])?;
    let answer = Expected {
        status: 6,
        out: &[],
        err: &err,
    };
    let calls = ["one IN --layout L", "run IN --layout L"];
    try_held(rt, &[("IN", file), ("L", text.as_bytes())], &calls, &answer)
}

/// Fails the test where the program isn't refused for each layout of one shared line.
fn try_layouts(rt: &(impl Threads + Wait + Sync + AllocGlobal), file: &[u8]) -> Result<(), Fail> {
    for &(text, refusal) in &LAYOUTS {
        try_layout(rt, file, text, refusal)?;
    }
    Ok(())
}

/// Fails the test where the program isn't refused for a line that stands last, after lines that
/// name nothing.
fn try_last(
    rt: &(impl Threads + Wait + Sync + AllocGlobal),
    file: &[u8],
    line: &str,
    rule: &str,
) -> Result<(), Fail> {
    let text = text_of(rt.alloc(), &[NAMED, "#\n\n  \n", line])?;
    let refusal = text_of(rt.alloc(), &[rule, " at line 5"])?;
    try_layout(rt, file, &text, &refusal)
}

/// Fails the test where the program isn't refused for a line before each other one.
fn try_first(
    rt: &(impl Threads + Wait + Sync + AllocGlobal),
    file: &[u8],
    line: &str,
    rule: &str,
) -> Result<(), Fail> {
    let refusal = text_of(rt.alloc(), &[rule, " at line 2"])?;
    for (other, _) in &FAULTY {
        let text = text_of(rt.alloc(), &[NAMED, line, "\n", other])?;
        try_layout(rt, file, &text, &refusal)?;
    }
    Ok(())
}

#[test]
fn names_the_first_faulty_line(rt: HostRuntime) -> Result<(), Fail> {
    let small = executable(rt.alloc(), HI, b"hi\n", 3)?;
    try_layouts(&rt, &small)?;
    let file = executable(rt.alloc(), HI, b"hi\n", 192)?;
    for &(line, rule) in &FAULTY {
        try_last(&rt, &file, line, rule)?;
        try_first(&rt, &file, line, rule)?;
    }
    Ok(())
}
