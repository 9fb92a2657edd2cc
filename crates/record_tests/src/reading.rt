//! Texts of records, read: each line in turn in place of a line of the record of two nodes.

use run_record::{RecordRefused, read_record, write_record};
use std::alloc::{AllocError, Global};
use std::test::Fail;

/// The lines of the record of a run of two nodes, where one reads what the other has, in the first
/// version.
pub(crate) const LINES: [&str; 16] = [
    "shasta-record 1\n",
    "nodes 2\n",
    "budget 100000000\n",
    "batch 1\n",
    "node 0\n",
    "take 7 0 6\n",
    "take 9 1 0\n",
    "take 10 0 0\n",
    "take 12 1 0\n",
    "take 16 1 0\n",
    "end\n",
    "node 1\n",
    "take 9 0 8\n",
    "take 11 0 0\n",
    "take 16 1 4\n",
    "end\n",
];

/// Which line is replaced, counted from 0, and by what; the number of the rule that the text then
/// breaks first, and the line that breaks it, counted from 1. Number 0 is for a text that breaks
/// none.
static CASES: [(usize, &str, u8, usize); 28] = [
    (0, "shasta-record 9\n", 43, 1),
    (1, "nodes 17\n", 42, 2),
    (5, "take 5 0 6\n", 41, 6),
    (5, "take 7 2 6\n", 42, 6),
    (5, "take 6 2 6\n", 41, 6),
    (5, "take 07 0 6\n", 40, 6),
    (5, "take 7  0 6\n", 40, 6),
    (5, "take 7 0 6 \n", 40, 6),
    (5, "take 7 0 6\r\n", 40, 6),
    (5, "take +7 0 6\n", 40, 6),
    (5, "take 9223372036854775808 0 6\n", 40, 6),
    (5, "take 9223372036854775807 0 6\n", 41, 7),
    (5, "", 0, 0),
    (0, "", 40, 1),
    (4, "node 1\n", 42, 5),
    (4, "block 0x00100000 0x0000a000 4096 0\nnode 1\n", 42, 6),
    (4, "block 0x00100000 0x0000a000 99999 99\nnode 0\n", 0, 0),
    (4, "block 0x00100000 0x0000a000 100000 *\nnode 0\n", 40, 5),
    (4, "block 0x00100000 0x0000A000 4096 *\nnode 0\n", 40, 5),
    (4, "block 0x00100000 0x0000a000 4096 100\nnode 0\n", 40, 5),
    (10, "node 1\n", 40, 11),
    (15, "end\nnode 2\n", 40, 17),
    (15, "end\n\n", 40, 17),
    (15, "end", 40, 16),
    (15, "", 40, 16),
    (2, "budget 0\n", 40, 3),
    (2, "budget 4294967297\n", 40, 3),
    (3, "batch 2\n", 40, 4),
];

/// The same record in the second version, which names the number of rewritten words and the gaps of
/// takes: the first, of least stamp 7, has none, and the last of node 0, of least stamp 13, has 3.
pub(crate) const NAMED: [&str; 17] = [
    "shasta-record 2\n",
    "nodes 2\n",
    "budget 100000000\n",
    "batch 1\n",
    "code 15\n",
    "node 0\n",
    "take 0 0 6\n",
    "take 1 1 0\n",
    "take 0 0 0\n",
    "take 1 1 0\n",
    "take 3 1 0\n",
    "end\n",
    "node 1\n",
    "take 0 0 8\n",
    "take 1 0 0\n",
    "take 0 1 4\n",
    "end\n",
];

/// Likewise for these lines. No stamp is as high as 2^63, 9223372036854775808.
static NAMED_CASES: [(usize, &str, u8, usize); 16] = [
    (0, "shasta-record 1\n", 40, 5),
    (0, "shasta-record 3\n", 43, 1),
    (4, "", 40, 5),
    (4, "code 0\n", 40, 5),
    (4, "code 015\n", 40, 5),
    (4, "code 4194304\n", 40, 5),
    (4, "code 4194303\n", 0, 0),
    (4, "code 15\ncode 15\n", 40, 6),
    (6, "take 00 0 6\n", 40, 7),
    (6, "take 0 2 6\n", 42, 7),
    (6, "take 9223372036854775801 2 6\n", 41, 7),
    (6, "take 9223372036854775807 0 9223372036854775807\n", 41, 7),
    (6, "take 9223372036854775808 0 6\n", 40, 7),
    (10, "take 9223372036854775794 1 0\n", 0, 0),
    (10, "take 9223372036854775795 1 0\n", 41, 11),
    (10, "take 3 1 9223372036854775792\n", 41, 11),
];

/// Texts of the sixth line of the first record; each breaks another rule; and likewise of its
/// fourteenth.
static SIXTH: [(&str, u8); 3] = [
    ("take 07 0 6\n", 40),
    ("take 5 0 6\n", 41),
    ("take 7 2 6\n", 42),
];

static FOURTEENTH: [&str; 3] = ["take 011 0 0\n", "take 9 0 0\n", "take 11 2 0\n"];

/// The text of these lines, one of them replaced.
fn text_of(
    alloc: Global,
    lines: &[&str],
    replaced: usize,
    text: &str,
) -> Result<Vec<u8>, AllocError> {
    let mut whole = Vec::new(alloc);
    for (place, line) in lines.iter().enumerate() {
        whole.extend_from_slice(if place == replaced { text } else { line }.as_bytes())?;
    }
    Ok(whole)
}

/// The rule and the line that refuse a text, 0 and 0 where nothing does; None where memory ran out,
/// or a record that was read isn't written as the same text.
fn judged(alloc: Global, text: &[u8]) -> Option<(u8, usize)> {
    match read_record(alloc, text) {
        Ok(record) => {
            let mut again = Vec::new(alloc);
            write_record(&record, &mut again).ok()?;
            (again.as_slice() == text).then_some((0, 0))
        }
        Err(RecordRefused::Broken { rule, line }) => Some((rule.number(), line)),
        Err(RecordRefused::OutOfMemory) => None,
    }
}

/// Fails the test where the text of these lines, one of them replaced, is judged otherwise.
fn try_text(
    alloc: Global,
    lines: &[&str],
    replaced: usize,
    text: &str,
    wanted: (u8, usize),
) -> Result<(), Fail> {
    let whole = text_of(alloc, lines, replaced, text)?;
    if judged(alloc, &whole) == Some(wanted) {
        return Ok(());
    }
    Err(Fail::new(format_args!("{text}")))
}

#[test]
fn a_record_with_one_line_replaced(rt: HostRuntime) -> Result<(), Fail> {
    for &(replaced, text, number, broken) in &CASES {
        try_text(rt.alloc(), &LINES, replaced, text, (number, broken))?;
    }
    Ok(())
}

#[test]
fn a_record_of_named_words_with_one_line_replaced(rt: HostRuntime) -> Result<(), Fail> {
    for &(replaced, text, number, broken) in &NAMED_CASES {
        try_text(rt.alloc(), &NAMED, replaced, text, (number, broken))?;
    }
    Ok(())
}

/// Fails the test where a record whose sixth line breaks a rule isn't refused for it, or not for
/// the version of another record.
fn try_sixth(alloc: Global, sixth: &'static str, number: u8) -> Result<(), Fail> {
    let mut lines = LINES;
    lines[5] = sixth;
    for fourteenth in &FOURTEENTH {
        try_text(alloc, &lines, 13, fourteenth, (number, 6))?;
    }
    try_text(alloc, &lines, 0, "shasta-record 9\n", (43, 1))
}

/// Which other line breaks two rules, counted from 0, its text, the number of the lower rule, and
/// the line, counted from 1.
static OTHERS: [(usize, &str, u8, usize); 4] = [
    (1, "nodes 0\n", 42, 2),
    (13, "take 9 2 0\n", 41, 14),
    (14, "take 16 2 4\n", 42, 15),
    (14, "take 15 1 4\n", 41, 15),
];

/// Fails the test where another line isn't refused for the lower of its rules.
fn try_others(alloc: Global) -> Result<(), Fail> {
    for &(replaced, text, number, broken) in &OTHERS {
        try_text(alloc, &LINES, replaced, text, (number, broken))?;
    }
    Ok(())
}

/// Of two lines that break a rule the first is told, whatever their rules; and of two rules that a
/// line breaks the lower one.
#[test]
fn a_record_with_two_faults(rt: HostRuntime) -> Result<(), Fail> {
    for &(sixth, number) in &SIXTH {
        try_sixth(rt.alloc(), sixth, number)?;
    }
    try_others(rt.alloc())
}
