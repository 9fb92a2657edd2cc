//! `page`, of the run of two nodes whose trace `trace` puts.

use crate::calls::{BEFORE, Row, USAGE, try_unwritten, written};
use crate::trace::{RECORD, ROW};
use std::alloc::Global;
use std::str::from_utf8;
use std::test::Fail;
use test_calls::files::executable;

/// A call that writes a page, and what the page says of its events; `trace` has a line for each.
static WRITTEN: [(&str, &str); 4] = [
    ("page IN R OUT", "13 events, with stamps from 5 to 16."),
    (
        "page IN R OUT --from 9 --to 12",
        "6 events, with stamps from 9 to 12.",
    ),
    ("page --to=8 IN R OUT", "4 events, with stamps from 5 to 8."),
    ("page IN R --from 17 OUT", "No such event."),
];

/// Calls that write none; B is the record with one entry changed, whose message isn't there yet.
static UNWRITTEN: [Row; 6] = [
    ("page IN R", 2, &[], USAGE),
    ("page A R OUT", 3, &[], "shasta: cannot read A\n"),
    (
        "page T R OUT",
        4,
        &[],
        "shasta: executable refused 1 Short\n",
    ),
    (
        "page IN R OUT --verify IN",
        4,
        &[],
        "shasta: code refused 50 NoPlan\n",
    ),
    (
        "page IN IN OUT",
        7,
        &[],
        "shasta: record refused 40 at line 1\n",
    ),
    (
        "page IN B OUT",
        7,
        &[],
        "shasta: record refused 44 at node 0 entry 2\n",
    ),
];

/// Fails the test where a call doesn't write a page that says this of its events.
fn try_page(
    alloc: Global,
    files: &[(&str, &[u8])],
    line: &'static str,
    events: &str,
) -> Result<(), Fail> {
    let page = written(alloc, files, &(line, 0, &[], ""))?;
    let text = from_utf8(&page)?;
    if text.contains("<svg") && text.contains(events) {
        return Ok(());
    }
    Err(Fail::new(format_args!("{line}")))
}

/// Makes each call that writes a page.
fn try_pages(alloc: Global, files: &[(&str, &[u8])]) -> Result<(), Fail> {
    for (line, events) in &WRITTEN {
        try_page(alloc, files, line, events)?;
    }
    Ok(())
}

#[test]
fn writes_pages_or_leaves_the_file(rt: HostRuntime) -> Result<(), Fail> {
    let alloc = rt.alloc();
    let program = executable(alloc, ROW, &[7, 0, 0, 0], 64)?;
    let broken = RECORD.replace(alloc, "take 9 1 0", "take 8 1 0")?;
    let files = [
        ("IN", program.as_slice()),
        ("T", b"text"),
        ("R", RECORD.as_bytes()),
        ("B", broken.as_bytes()),
        ("OUT", BEFORE.as_bytes()),
    ];
    try_pages(alloc, &files)?;
    try_unwritten(alloc, &files, &UNWRITTEN)
}
