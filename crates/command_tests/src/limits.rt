//! Refusals at the last place that a file may name: the last line of the longest layout, and the
//! greatest number of segments.

use crate::calls::try_held;
use crate::refusals::try_refused;
use std::alloc::Global;
use std::sync::Wait;
use std::test::Fail;
use std::thread::Threads;
use test_calls::calls::Expected;
use test_calls::files::{executable, push_code, push_words, text_of};
use test_calls::samples::HI;

/// The bytes of the longest file that is read.
const LONGEST: usize = 33_554_432;

/// The beginning and the last line of a layout, and what is told of it where empty lines between
/// both make it as long as a file that is read may be.
static LAST_LINES: [(&str, &str, &str); 6] = [
    ("", "?", "30 at line 33554432"),
    ("", "0x0 0x0 1 0", "31 at line 33554422"),
    ("", "0x0 0x0 64 0", "32 at line 33554421"),
    ("", "0x0 0x40 64 0", "33 at line 33554420"),
    (
        "0x20000 0x40 64 0\n",
        "0x20000 0x40 64 0",
        "34 at line 33554399",
    ),
    ("", "0x20000 0x40 64 1", "35 at line 33554416"),
];

/// A text of `len` bytes, with empty lines between its beginning and its last line.
fn text_of_length(alloc: Global, len: usize, begin: &str, last: &str) -> Result<Vec<u8>, Fail> {
    let mut text = Vec::new(alloc);
    text.extend_from_slice(begin.as_bytes())?;
    text.resize(len.saturating_sub(last.len()), b'\n')?;
    text.extend_from_slice(last.as_bytes())?;
    Ok(text)
}

/// Fails the test where the program isn't refused for this layout, by this rule and line.
fn try_layout(
    rt: &(impl Threads + Wait + Sync + AllocGlobal),
    file: &[u8],
    text: &[u8],
    refusal: &str,
) -> Result<(), Fail> {
    let err = text_of(rt.alloc(), &["shasta: layout refused ", refusal, "\n"])?;
    let answer = Expected {
        status: 6,
        out: &[],
        err: &err,
    };
    try_held(
        rt,
        &[("IN", file), ("L", text)],
        &["one IN --layout L"],
        &answer,
    )
}

#[test]
fn names_the_last_line(rt: HostRuntime) -> Result<(), Fail> {
    let file = executable(rt.alloc(), HI, b"hi\n", 3)?;
    for &(begin, last, refusal) in &LAST_LINES {
        let text = text_of_length(rt.alloc(), LONGEST, begin, last)?;
        try_layout(&rt, &file, &text, refusal)?;
    }
    Ok(())
}

/// The last line isn't judged where the text is longer.
#[test]
fn reads_no_longer_layout(rt: HostRuntime) -> Result<(), Fail> {
    let alloc = rt.alloc();
    let file = executable(alloc, HI, b"hi\n", 3)?;
    let text = text_of_length(alloc, LONGEST + 1, "", "?")?;
    let answer = Expected {
        status: 3,
        out: &[],
        err: "shasta: L is longer than 33554432 bytes\n",
    };
    let held = [("IN", file.as_slice()), ("L", text.as_slice())];
    try_held(&rt, &held, &["one IN --layout L"], &answer)
}

/// The file header of an executable with 65,535 program headers and no section header; the program
/// header of the code, whose three words stand after all of them; and that of an empty segment.
const FILE_HEADER: &str = "464c457f 00010101 00000000 00000000 00f30002 00000001 00010000 00000034
    00000000 00000000 00200034 0000ffff 00000000";

const CODE_HEADER: &str = "00000001 00200014 00010000 00010000 0000000c 0000000c 00000005 00001000";

const EMPTY_HEADER: &str =
    "00000001 00000000 00000000 00000000 00000000 00000000 00000000 00000000";

const EXITS: &str = "addi x10, x0, 0; addi x17, x0, 93; ecall";

/// Appends the program headers of 65,534 empty segments.
fn push_empty_headers(alloc: Global, file: &mut Vec<u8>) -> Result<(), Fail> {
    let mut empty = Vec::new(alloc);
    push_words(&mut empty, EMPTY_HEADER)?;
    for _ in 1..65535 {
        file.extend_from_slice(&empty)?;
    }
    Ok(())
}

#[test]
fn counts_the_most_segments(rt: HostRuntime) -> Result<(), Fail> {
    let mut file = Vec::new(rt.alloc());
    push_words(&mut file, FILE_HEADER)?;
    push_words(&mut file, CODE_HEADER)?;
    push_empty_headers(rt.alloc(), &mut file)?;
    push_code(rt.alloc(), &mut file, EXITS)?;
    try_refused(&rt, &file, "list IN", "22 TooManySegments 65535 segments")
}
