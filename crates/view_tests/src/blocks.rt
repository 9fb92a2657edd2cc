//! `blocks`, of the run of two nodes whose trace `trace` puts.

use crate::calls::{Row, try_views};
use crate::trace::{RECORD, ROW};
use std::alloc::Global;
use std::test::Fail;
use test_calls::files::{executable, push_words};

/// What its nodes count, and what its block costs: node 1 asks for it. The last line goes on with
/// the name of the code, where it has one.
const COSTS: &str =
    "node 0 read 0 exclusive 0 upgrade 0 false 0 invalidations 0 fallbacks 0 messages 2
node 1 read 1 exclusive 0 upgrade 0 false 0 invalidations 0 fallbacks 0 messages 2
messages  about a block, of a node about it, of code that asks for it; most first
4         00020000-0002003f home 0
2           node 0 read 0 exclusive 0 upgrade 0 invalidations 0
2           node 1 read 1 exclusive 0 upgrade 0 invalidations 0
1           code 00010008";

static CALLS: [Row; 4] = [
    ("blocks IN R", 0, &[COSTS, "\n"], ""),
    (
        "blocks IN IN",
        7,
        &[],
        "shasta: record refused 40 at line 1\n",
    ),
    (
        "blocks IN R --verify IN",
        4,
        &[],
        "shasta: code refused 50 NoPlan\n",
    ),
    ("blocks A R", 3, &[], "shasta: cannot read A\n"),
];

/// The names of an executable's symbols and sections, and its symbols: the function `main` has all
/// of the code, the function `read` the branch and the load, and `row`, which is none, the load.
const NAMES: &[u8] = b"\0main\0read\0row\0.text\0.symtab\0.strtab\0.names\0";

const SYMBOLS: &str = "00000000 00000000 00000000 00000000
    00000001 00010000 00000018 00010012
    00000006 00010004 00000008 00010012
    0000000b 00010008 00000004 00010011";

/// Its section headers: an empty one, that of the code, that of the symbols, which stand at 0x2004
/// of the file, and two of the names after them: for the symbols and for the sections.
const SECTIONS: &str = "00000000 00000000 00000000 00000000 00000000 00000000 00000000 00000000
    00000000 00000000
    0000000f 00000001 00000006 00010000 00001000 00000018 00000000 00000000 00000004 00000000
    00000015 00000002 00000000 00000000 00002004 00000040 00000003 00000001 00000004 00000010
    0000001d 00000003 00000000 00000000 00002044 0000002c 00000000 00000000 00000001 00000000
    00000025 00000003 00000000 00000000 00002044 0000002c 00000000 00000000 00000001 00000000";

/// Where the file header says them: from 0x2070 on, five of forty bytes; the last has the names of
/// the sections.
static HEADER: [(usize, u8); 5] = [(32, 0x70), (33, 0x20), (46, 40), (48, 5), (50, 4)];

/// The executable of the program, with these symbols.
pub(crate) fn named(alloc: Global) -> Result<Vec<u8>, Fail> {
    let mut file = executable(alloc, ROW, &[7, 0, 0, 0], 64)?;
    for &(offset, byte) in &HEADER {
        if let Some(place) = file.get_mut(offset) {
            *place = byte;
        }
    }
    push_words(&mut file, SYMBOLS)?;
    file.extend_from_slice(NAMES)?;
    push_words(&mut file, SECTIONS)?;
    Ok(file)
}

/// Of the two functions that have the load `read` begins last; the load is its second word.
static NAMED: [Row; 1] = [("blocks IN R", 0, &[COSTS, " read+0x4\n"], "")];

/// Makes the calls of a table where IN holds a program, and R the record.
fn try_costs(alloc: Global, program: &[u8], rows: &[Row]) -> Result<(), Fail> {
    try_views(alloc, &[("IN", program), ("R", RECORD.as_bytes())], rows)
}

#[test]
fn shows_costs(rt: HostRuntime) -> Result<(), Fail> {
    let alloc = rt.alloc();
    try_costs(alloc, &named(alloc)?, &NAMED)?;
    try_costs(alloc, &executable(alloc, ROW, &[7, 0, 0, 0], 64)?, &CALLS)
}
