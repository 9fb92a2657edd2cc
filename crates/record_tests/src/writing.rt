//! Texts of records, byte by byte.

ghost use Rattle.std.specs.Prelude.{◌≡◌, IfOk, IfSome};
ghost use Rattle.run_record.specs.Record.{IsRecord, IsCodeLength};

use crate::reading::{LINES, NAMED};
use block_layout::BlockRange;
use node_model::Entry;
use run_record::{Blocks, Journals, Record, write_record};
use std::alloc::{AllocError, Global};
use std::test::Fail;

/// The record of a run of one node, over two ranges of a layout.
const TWO_RANGES: [&str; 8] = [
    "shasta-record 1\n",
    "nodes 1\n",
    "budget 4294967296\n",
    "batch 0\n",
    "block 0x00100000 0x0000a000 4096 0\n",
    "block 0x7f00bfc0 0x00000040 64 *\n",
    "node 0\n",
    "end\n",
];

/// Lines, one after the other.
fn joined(alloc: Global, lines: &[&str]) -> Result<Vec<u8>, AllocError> {
    let mut text = Vec::new(alloc);
    for line in lines {
        text.extend_from_slice(line.as_bytes())?;
    }
    Ok(text)
}

fn entry(stamp: u64, from: u8, words: u64) -> Entry
    ensures { result ≡ record { stamp = stamp; from = from; words = words } }
{
    Entry { stamp, from, words }
}

fn two_nodes(alloc: Global, code: Option<u32>) -> Result<Record, AllocError>
    requires { IfSome code IsCodeLength }
    ensures { IfOk result IsRecord }
{
    let first = Vec::from_array(
        alloc,
        [
            entry(7, 0, 6),
            entry(9, 1, 0),
            entry(10, 0, 0),
            entry(12, 1, 0),
            entry(16, 1, 0),
        ],
    )?;
    let second = Vec::from_array(alloc, [entry(9, 0, 8), entry(11, 0, 0), entry(16, 1, 4)])?;
    Ok(Record {
        nodes: 2,
        budget: 100_000_000,
        batch: true,
        code,
        blocks: Blocks::of(Vec::new(alloc)),
        journals: Journals::of(Vec::from_array(alloc, [first, second])?),
    })
}

fn two_ranges(alloc: Global) -> Result<Record, AllocError>
    ensures { IfOk result IsRecord }
{
    let ranges = Vec::from_array(
        alloc,
        [
            BlockRange {
                start: 0x0010_0000,
                length: 0xa000,
                block: 4096,
                home: Some(0),
            },
            BlockRange {
                start: 0x7f00_bfc0,
                length: 64,
                block: 64,
                home: None,
            },
        ],
    )?;
    Ok(Record {
        nodes: 1,
        budget: 1 << 32,
        batch: false,
        code: None,
        blocks: Blocks::of(ranges),
        journals: Journals::of(Vec::from_array(alloc, [Vec::new(alloc)])?),
    })
}

/// Fails the test where the text of a record has other lines.
fn try_record(alloc: Global, record: &Record, wanted: &[&str]) -> Result<(), Fail>
    requires { IsRecord record.now }
{
    let mut text = Vec::new(alloc);
    write_record(record, &mut text)?;
    if text.as_slice() == joined(alloc, wanted)?.as_slice() {
        return Ok(());
    }
    Err(Fail::from("another text"))
}

#[test]
fn records_have_these_texts(rt: HostRuntime) -> Result<(), Fail> {
    let alloc = rt.alloc();
    let stamped = two_nodes(alloc, None)?;
    try_record(alloc, &stamped, &LINES)?;
    let named = two_nodes(alloc, Some(15))?;
    try_record(alloc, &named, &NAMED)?;
    let laid = two_ranges(alloc)?;
    try_record(alloc, &laid, &TWO_RANGES)
}
