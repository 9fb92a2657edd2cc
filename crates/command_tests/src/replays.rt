//! `replay` of records, and the executables that `gen` writes.

use crate::calls::{call, try_held};
use crate::watch::CountingGate;
use std::alloc::Global;
use std::str::from_utf8;
use std::sync::Wait;
use std::test::Fail;
use std::thread::Threads;
use test_calls::calls::{Called, Expected, expect_text, sure};
use test_calls::files::{executable, text_of};
use test_calls::samples::{BLOCKS, READ, READS, STORES, WAITED};

/// A record of the program that reads, on two nodes: the last word of node 0 has the stamp 6. Then
/// it takes its own Bye, the Read that node 1 sends at 8, its own FwdRead, Done and the Bye of node
/// 1.
const RECORD: &str = "shasta-record 1
nodes 2
budget 100000000
batch 1
node 0
take 7 0 6
take 9 1 0
take 10 0 0
take 12 1 0
take 16 1 0
end
node 1
take 9 0 8
take 11 0 0
take 16 1 4
end
";

/// The same record as `run` writes it: the rewritten code has 15 words, and each take has the
/// number by which its stamp is above the least, the stamp of the take before and the words since
/// then and 1.
pub const NAMED: &str = "shasta-record 2
nodes 2
budget 100000000
batch 1
code 15
node 0
take 0 0 6
take 1 1 0
take 0 0 0
take 1 1 0
take 3 1 0
end
node 1
take 0 0 8
take 1 0 0
take 0 1 4
end
";

/// What one node leaves: it ends with its sixth word, and takes its own Bye.
const ALONE: &str = "shasta-record 2
nodes 1
budget 100000000
batch 1
code 15
node 0
take 0 0 6
end
";

/// A part of the record, what stands in its place, and why it is refused then.
static RECORDS: [(&str, &str, &str); 17] = [
    ("shasta-record 1", "shasta-record", "40 at line 1"),
    ("take 16 1 4\nend\n", "take 16 1 4\n", "40 at line 16"),
    (
        "take 16 1 4\nend\n",
        "take 16 1 4\nend\n\n",
        "40 at line 17",
    ),
    ("take 7 0 6", "take 5 0 6", "41 at line 6"),
    ("take 16 1 4", "take 15 1 4", "41 at line 15"),
    ("nodes 2", "nodes 17", "42 at line 2"),
    ("take 16 1 4", "take 16 2 4", "42 at line 15"),
    ("record 1", "record 9", "43 at line 1"),
    // node 1 has sent nothing yet
    ("take 7 0 6", "take 7 1 6", "44 at node 0 entry 1"),
    // the Read is not yet sent
    ("take 9 1 0", "take 8 1 0", "44 at node 0 entry 2"),
    // the Bye and the Data of node 0 are taken
    ("take 16 1 4", "take 16 0 4", "44 at node 1 entry 3"),
    // node 0 ends with its sixth word
    ("take 7 0 6", "take 8 0 7", "45 at node 0 entry 1"),
    // node 1 ends with its fourth word
    ("take 16 1 4", "take 20 1 8", "45 at node 1 entry 3"),
    // node 0 has not taken the Bye of node 1
    ("take 16 1 0\n", "", "45 at node 0 entry 5"),
    // the Bye of node 0 has the stamp 6
    ("take 7 0 6", "take 8 0 6", "46 at node 0 entry 1"),
    // the Bye has the stamp 15
    ("take 16 1 0", "take 17 1 0", "46 at node 0 entry 5"),
    ("take 16 1 4", "take 17 1 4", "46 at node 1 entry 3"),
];

/// The first take in the record, by another text, and why it is refused then; and other texts of
/// the last one, each refused too.
static FIRST_TAKES: [(&str, &str); 3] = [
    ("take 7 1 6", "44 at node 0 entry 1"),
    ("take 8 0 7", "45 at node 0 entry 1"),
    ("take 8 0 6", "46 at node 0 entry 1"),
];

static LAST_TAKES: [&str; 3] = ["take 16 0 4", "take 20 1 8", "take 17 1 4"];

/// A record of a program of three words, by which each of two nodes ends; then it takes both Byes.
const ENDS: &str = "shasta-record 1
nodes 2
budget 100000000
batch 1
node 0
take 4 0 3
take 5 1 0
end
node 1
take 4 0 3
take 5 1 0
end
";

/// Its code.
const EXITS: &str = "addi x10, x0, 0; addi x17, x0, 93; ecall";

/// Likewise of the record that names the words: one word more than there is; the same where the
/// layout would be refused too; and a stamp that is 1 too high.
static NAMED_RECORDS: [(&str, &str, &str); 3] = [
    ("code 15", "code 16", "47 at line 5"),
    (
        "code 15\n",
        "code 16\nblock 0x00020020 0x00000040 64 *\n",
        "47 at line 5",
    ),
    ("take 3 1 0", "take 4 1 0", "46 at node 0 entry 5"),
];

/// Blocks in the record, and why its layout is refused then: a start that is no multiple of the
/// size, and two blocks of one line.
static LAYOUTS: [(&str, &str); 2] = [
    (
        "batch 1\nblock 0x00020020 0x00000040 64 *\n",
        "32 at line 1",
    ),
    (
        "batch 1\nblock 0x00020000 0x00000040 64 *\nblock 0x00020000 0x00000040 64 1\n",
        "34 at line 2",
    ),
];

/// The first instructions of the executable of 0: four pages, two rounds, and three groups.
const FIRST: &str = "00010000: 00200437 lui x8, 0x200
00010004: 00201937 lui x18, 0x201
00010008: 002029b7 lui x19, 0x202
0001000c: 00203a37 lui x20, 0x203
00010010: 00200493 addi x9, x0, 2
00010014: 00000693 addi x13, x0, 0
00010018: 1b8a2603 lw x12, 440(x20)
0001001c: 02900693 addi x13, x0, 41
00010020: 54090713 addi x14, x18, 1344
00010024: 00d7202f amoadd.w x0, x13, (x14)
00010028: 8cd12623 sw x13, -1844(x2)
";

/// What it prints on one node: twice the sum that it adds, which is 250078.
const SUM: &str = "output 9\n0007a1bc\n\nprocessor 0 exit 0\n";

/// What it prints on two: as much of each.
const SUM_OF_TWO: &str = "output 9\n000f4378\n\nprocessor 0 exit 0\nprocessor 1 exit 0\n";

/// The executable of the program that reads.
fn reader(alloc: Global) -> Result<Vec<u8>, Fail> {
    executable(alloc, READS, b"\x07\x00\x00\x00", 64)
}

/// Makes a call, and fails the test where it answers otherwise.
fn try_words(
    rt: &(impl Threads + Wait + Sync + AllocGlobal),
    files: &[(&str, &[u8])],
    words: &str,
    status: u8,
    out: &str,
    err: &str,
) -> Result<(), Fail> {
    let answer = Expected {
        status,
        out: &[out],
        err,
    };
    try_held(rt, files, &[words], &answer)
}

/// Replays a record whole, and without the counts.
fn try_record(
    rt: &(impl Threads + Wait + Sync + AllocGlobal),
    file: &[u8],
    record: &str,
) -> Result<(), Fail> {
    let held = [("IN", file), ("R", record.as_bytes())];
    try_words(rt, &held, "replay IN R", 0, READ, "")?;
    try_words(rt, &held, "replay --brief IN R", 0, WAITED, "")
}

#[test]
fn replays_a_record(rt: HostRuntime) -> Result<(), Fail> {
    let file = reader(rt.alloc())?;
    try_record(&rt, &file, RECORD)?;
    try_record(&rt, &file, NAMED)
}

/// Replays a record with another part, and fails the test where another line is told.
fn try_refused(
    rt: &(impl Threads + Wait + Sync + AllocGlobal),
    record: &str,
    (old, new): (&str, &str),
    status: u8,
    line: &[&str],
) -> Result<(), Fail> {
    let alloc = rt.alloc();
    let other = record.replace(alloc, old, new)?;
    let err = text_of(alloc, line)?;
    let file = reader(alloc)?;
    let held = [("IN", file.as_slice()), ("R", other.as_bytes())];
    try_words(rt, &held, "replay IN R", status, "", &err)
}

/// Replays a record with each other part.
fn try_records(
    rt: &(impl Threads + Wait + Sync + AllocGlobal),
    record: &str,
    rows: &[(&str, &str, &str)],
) -> Result<(), Fail> {
    for (old, new, why) in rows {
        let line = ["shasta: record refused ", *why, "\n"];
        try_refused(rt, record, (*old, *new), 7, &line)?;
    }
    Ok(())
}

/// Replays the record with each layout that is refused.
fn try_layouts(rt: &(impl Threads + Wait + Sync + AllocGlobal)) -> Result<(), Fail> {
    for &(new, why) in &LAYOUTS {
        let line = ["shasta: layout refused ", why, "\n"];
        try_refused(rt, RECORD, ("batch 1\n", new), 6, &line)?;
    }
    Ok(())
}

#[test]
fn refuses_records(rt: HostRuntime) -> Result<(), Fail> {
    try_records(&rt, RECORD, &RECORDS)?;
    try_records(&rt, NAMED, &NAMED_RECORDS)?;
    try_layouts(&rt)
}

/// Replays the record with other texts of its last take, and fails the test where another event is
/// told.
fn try_last_takes(
    rt: &(impl Threads + Wait + Sync + AllocGlobal),
    record: &str,
    why: &str,
) -> Result<(), Fail> {
    let line = ["shasta: record refused ", why, "\n"];
    for last in &LAST_TAKES {
        try_refused(rt, record, ("take 16 1 4", last), 7, &line)?;
    }
    Ok(())
}

/// Of two events that are refused the first is told, whatever their rules.
#[test]
fn refuses_the_first_event(rt: HostRuntime) -> Result<(), Fail> {
    for &(first, why) in &FIRST_TAKES {
        let record = RECORD.replace(rt.alloc(), "take 7 0 6", first)?;
        try_last_takes(&rt, &record, why)?;
    }
    Ok(())
}

/// The last place of a record is the end of its last node, which isn't over where it has not taken
/// its own Bye.
#[test]
fn refuses_a_node_that_ends_too_early(rt: HostRuntime) -> Result<(), Fail> {
    let file = executable(rt.alloc(), EXITS, b"", 64)?;
    let held = [("IN", file.as_slice()), ("R", ENDS.as_bytes())];
    try_words(&rt, &held, "replay IN R --brief", 0, WAITED, "")?;
    let own = "node 1\ntake 4 0 3\ntake 5 1 0\n";
    let early = ENDS.replace(rt.alloc(), own, "node 1\ntake 4 0 3\n")?;
    let held = [("IN", file.as_slice()), ("R", early.as_bytes())];
    let err = "shasta: record refused 45 at node 1 entry 2\n";
    try_words(&rt, &held, "replay IN R", 7, "", err)
}

/// Calls the program with these words on these files, and gives what it did. Fails the test where
/// the status isn't 0.
fn done(
    rt: &(impl Threads + Wait + Sync + AllocGlobal),
    files: &[(&str, &[u8])],
    words: &str,
    written: &str,
) -> Result<Called, Fail> {
    let called = call(rt, sure(files), words, written, &CountingGate::new(false))?;
    if called.status == 0 && called.err.is_empty() {
        return Ok(called);
    }
    let status = called.status;
    Err(Fail::new(format_args!("{words}: {status}")))
}

#[test]
fn records_the_words_of_its_code(rt: HostRuntime) -> Result<(), Fail> {
    let file = reader(rt.alloc())?;
    let held = [("IN", file.as_slice())];
    let ran = done(&rt, &held, "run IN --record R", "R")?;
    expect_text(&ran.written, ALONE)
}

#[test]
fn replays_what_ran(rt: HostRuntime) -> Result<(), Fail> {
    let alloc = rt.alloc();
    let data = vec![in alloc; b'A'; 8192]?;
    let file = executable(alloc, STORES, &data, 8192)?;
    let held = [("IN", file.as_slice()), ("BLOCKS", BLOCKS.as_bytes())];
    let words = "run IN --nodes 2 --record R --layout BLOCKS";
    let ran = done(&rt, &held, words, "R")?;
    let held = [("IN", file.as_slice()), ("R", ran.written.as_slice())];
    let again = done(&rt, &held, "replay IN R", "")?;
    let text = from_utf8(&ran.out)?;
    if text.starts_with("output 200\n") {
        return expect_text(&again.out, text);
    }
    Err(Fail::new(format_args!("{text}")))
}

#[test]
fn lists_a_generated_executable(rt: HostRuntime) -> Result<(), Fail> {
    let made = done(&rt, &[], "gen 0 OUT", "OUT")?;
    let list = done(&rt, &[("OUT", made.written.as_slice())], "list OUT", "")?;
    if made.out.is_empty() && from_utf8(&list.out)?.starts_with(FIRST) {
        return Ok(());
    }
    Err(Fail::from("other instructions"))
}

/// No addition is lost: on one node by `run` and `replay`, and on two by `sim`.
#[test]
fn runs_a_generated_executable(rt: HostRuntime) -> Result<(), Fail> {
    let made = done(&rt, &[], "gen 0 OUT", "OUT")?;
    let held = [("OUT", made.written.as_slice())];
    let ran = done(&rt, &held, "run OUT --record R --brief", "R")?;
    expect_text(&ran.out, SUM)?;
    try_words(&rt, &held, "sim OUT --nodes 2 --brief", 0, SUM_OF_TWO, "")?;
    let held = [
        ("OUT", made.written.as_slice()),
        ("R", ran.written.as_slice()),
    ];
    try_words(&rt, &held, "replay OUT R --brief", 0, SUM, "")
}
