//! Each refusal of a file with its line, alone and with another: the one that is judged first is
//! told.

use crate::calls::try_held;
use std::alloc::Global;
use std::sync::Wait;
use std::test::Fail;
use std::thread::Threads;
use test_calls::calls::{Expected, NODE};
use test_calls::files::{executable, push_code, push_sizes, push_words, text_of};

/// A program that exits with code 0.
const CODE: &str = "addi x10, x0, 0; addi x17, x0, 93; ecall";

/// A file that isn't cut.
pub const WHOLE: usize = usize::MAX;

/// A rule: the length to which it cuts the file, the bytes that it changes, and what is told.
pub struct RefusalRow {
    pub len: usize,
    pub bytes: &'static [(usize, u8)],
    pub line: &'static str,
}

/// Rules that a file of 8195 bytes breaks, with two program headers and three bytes of data.
static SMALL: [RefusalRow; 18] = [
    RefusalRow {
        len: 51,
        bytes: &[],
        line: "1 Short",
    },
    RefusalRow {
        len: WHOLE,
        bytes: &[(0, 0x7e)],
        line: "2 NotElf",
    },
    RefusalRow {
        len: WHOLE,
        bytes: &[(4, 2)],
        line: "3 NotElf32",
    },
    RefusalRow {
        len: WHOLE,
        bytes: &[(5, 2)],
        line: "3 NotElf32",
    },
    // e_type, and e_flags after it
    RefusalRow {
        len: WHOLE,
        bytes: &[(16, 3), (36, 1)],
        line: "4 NotExec type 3",
    },
    RefusalRow {
        len: WHOLE,
        bytes: &[(18, 62), (19, 1)],
        line: "5 NotRiscv machine 318",
    },
    RefusalRow {
        len: WHOLE,
        bytes: &[(36, 1)],
        line: "6 Flags 0x00000001",
    },
    // e_phnum 0, in a whole file and where the file ends after its header; e_phentsize
    RefusalRow {
        len: WHOLE,
        bytes: &[(44, 0)],
        line: "7 ProgramTable",
    },
    RefusalRow {
        len: 52,
        bytes: &[(44, 0)],
        line: "7 ProgramTable",
    },
    RefusalRow {
        len: WHOLE,
        bytes: &[(42, 56)],
        line: "7 ProgramTable",
    },
    // one section header at offset 0, of no bytes
    RefusalRow {
        len: WHOLE,
        bytes: &[(48, 1)],
        line: "8 SectionTable",
    },
    // e_shoff 0xfffffff0 with one section header of 40 bytes
    RefusalRow {
        len: WHOLE,
        bytes: &[
            (32, 0xf0),
            (33, 0xff),
            (34, 0xff),
            (35, 0xff),
            (46, 40),
            (48, 1),
        ],
        line: "8 SectionTable",
    },
    // PT_INTERP second, and the first outside: the lower number is told
    RefusalRow {
        len: WHOLE,
        bytes: &[(59, 0xff), (84, 3)],
        line: "9 Dynamic header 1",
    },
    // p_offset 0xfffffff0
    RefusalRow {
        len: WHOLE,
        bytes: &[(88, 0xf0), (89, 0xff), (90, 0xff), (91, 0xff)],
        line: "10 SegmentOutside header 1",
    },
    // p_filesz 0xffffffff: the sum with the offset is above 2^32
    RefusalRow {
        len: WHOLE,
        bytes: &[(100, 0xff), (101, 0xff), (102, 0xff), (103, 0xff)],
        line: "10 SegmentOutside header 1",
    },
    // the file ends within the last segment
    RefusalRow {
        len: 8194,
        bytes: &[],
        line: "10 SegmentOutside header 1",
    },
    // p_memsz 2, of three bytes
    RefusalRow {
        len: WHOLE,
        bytes: &[(104, 2)],
        line: "11 SegmentSizes header 1",
    },
    // p_vaddr 0xfffffffe and p_memsz 3
    RefusalRow {
        len: WHOLE,
        bytes: &[(92, 0xfe), (93, 0xff), (94, 0xff), (95, 0xff)],
        line: "11 SegmentSizes header 1",
    },
];

/// Has a file break a rule.
pub fn break_by(file: &mut Vec<u8>, rule: &RefusalRow) {
    for (offset, byte) in rule.bytes {
        if let Some(place) = file.get_mut(*offset) {
            *place = *byte;
        }
    }
    file.truncate(rule.len);
}

/// Calls the program on a refused file, and fails the test where another refusal is told.
pub fn try_refused(
    rt: &(impl Threads + Wait + Sync + AllocGlobal),
    file: &[u8],
    words: &str,
    line: &str,
) -> Result<(), Fail> {
    let err = text_of(rt.alloc(), &["shasta: executable refused ", line, "\n"])?;
    let answer = Expected {
        status: 4,
        out: &[],
        err: &err,
    };
    try_held(rt, &[("IN", file)], &[words], &answer)
}

/// Has a file break a rule, and fails the test where another refusal is told by these words.
fn try_rule(
    rt: &(impl Threads + Wait + Sync + AllocGlobal),
    whole: &[u8],
    words: &str,
    rule: &RefusalRow,
) -> Result<(), Fail> {
    let mut file = whole.to_vec(rt.alloc())?;
    break_by(&mut file, rule);
    try_refused(rt, &file, words, rule.line)
}

/// Has a file break each rule in its turn.
fn try_each(
    rt: &(impl Threads + Wait + Sync + AllocGlobal),
    whole: &[u8],
    words: &str,
    rules: &[RefusalRow],
) -> Result<(), Fail> {
    for rule in rules {
        try_rule(rt, whole, words, rule)?;
    }
    Ok(())
}

/// Has a file that is to be listed break each rule in its turn.
pub fn try_rules(
    rt: &(impl Threads + Wait + Sync + AllocGlobal),
    whole: &[u8],
    rules: &[RefusalRow],
) -> Result<(), Fail> {
    try_each(rt, whole, "list IN", rules)
}

#[test]
fn tells_why_a_file_is_refused(rt: HostRuntime) -> Result<(), Fail> {
    let file = executable(rt.alloc(), CODE, b"hi\n", 3)?;
    try_rules(&rt, &file, &SMALL)
}

/// The flag of total store order breaks no rule.
static ACCEPTED: RefusalRow = RefusalRow {
    len: WHOLE,
    bytes: &[(36, 0x10)],
    line: "",
};

#[test]
fn accepts_total_store_order(rt: HostRuntime) -> Result<(), Fail> {
    let mut file = executable(rt.alloc(), CODE, b"hi\n", 3)?;
    break_by(&mut file, &ACCEPTED);
    let answer = Expected {
        status: 0,
        out: &["output 0\n\nprocessor 0 exit 0\n", NODE],
        err: "",
    };
    try_held(&rt, &[("IN", &file)], &["run IN"], &answer)
}

/// The file header, with two of a thousand program headers and a section table that isn't there,
/// and the code's program header before its sizes.
const FILE_HEADER: &str = "464c457f 00010101 00000000 00000000 00f30002 00000001 00010000 00000034
    00000000 00000000 00200034 00000002 00000000 00000001 00008000 00010000 00010000";

/// The rest of that, and the program header of three bytes of data, which stand at 0x7f00.
const DATA_HEADER: &str = "00000005 00001000
    00000001 00007f00 00400000 00400000 00000003 00000003 00000006 00001000";

/// A program header of an empty segment.
const EMPTY_HEADER: &str =
    "00000001 00000000 00000000 00000000 00000000 00000000 00000004 00000000";

/// A section of code whose size is no multiple of 4.
const CODE_SECTION: &str = "00000000 00000001 00000006 00010000 00008000 0000000a 00000000 00000000
    00000004 00000000";

/// How many instructions `lw x5, 0(x5)` have more rewritten words than there may be.
const MANY: usize = 470_000;

/// The rules, ascending.
static RULES: [RefusalRow; 20] = [
    RefusalRow {
        len: 51,
        bytes: &[],
        line: "1 Short",
    },
    RefusalRow {
        len: WHOLE,
        bytes: &[(0, 0x7e)],
        line: "2 NotElf",
    },
    RefusalRow {
        len: WHOLE,
        bytes: &[(4, 2)],
        line: "3 NotElf32",
    },
    RefusalRow {
        len: WHOLE,
        bytes: &[(16, 3)],
        line: "4 NotExec type 3",
    },
    RefusalRow {
        len: WHOLE,
        bytes: &[(18, 62)],
        line: "5 NotRiscv machine 62",
    },
    RefusalRow {
        len: WHOLE,
        bytes: &[(36, 1)],
        line: "6 Flags 0x00000001",
    },
    // e_phentsize 56
    RefusalRow {
        len: WHOLE,
        bytes: &[(42, 56)],
        line: "7 ProgramTable",
    },
    // a section header, of no bytes
    RefusalRow {
        len: WHOLE,
        bytes: &[(46, 0), (48, 1)],
        line: "8 SectionTable",
    },
    // PT_INTERP second
    RefusalRow {
        len: WHOLE,
        bytes: &[(84, 3)],
        line: "9 Dynamic header 1",
    },
    // the first p_offset 0xff008000
    RefusalRow {
        len: WHOLE,
        bytes: &[(59, 0xff)],
        line: "10 SegmentOutside header 0",
    },
    // the last byte of the first p_memsz 8, of twelve bytes or 1,880,012
    RefusalRow {
        len: WHOLE,
        bytes: &[(72, 8)],
        line: "11 SegmentSizes header 0",
    },
    // the second p_vaddr 0x7fff0000
    RefusalRow {
        len: WHOLE,
        bytes: &[(94, 0xff), (95, 0x7f)],
        line: "12 TooHigh segment 1",
    },
    // the first p_vaddr 0x00400000, which is the second too
    RefusalRow {
        len: WHOLE,
        bytes: &[(62, 0x40)],
        line: "13 Overlap segments 0 1",
    },
    // the second p_flags 7
    RefusalRow {
        len: WHOLE,
        bytes: &[(108, 7)],
        line: "14 WritableCode segment 1",
    },
    // the first p_flags 4
    RefusalRow {
        len: WHOLE,
        bytes: &[(76, 4)],
        line: "15 NoCode",
    },
    // the second p_memsz 0x01000003
    RefusalRow {
        len: WHOLE,
        bytes: &[(107, 1)],
        line: "16 TooMuch shared",
    },
    // e_entry 0x00010001
    RefusalRow {
        len: WHOLE,
        bytes: &[(24, 1)],
        line: "17 EntryNotCode 0x00010001",
    },
    // csrrs x5, cycle, x0
    RefusalRow {
        len: WHOLE,
        bytes: &[(0x8000, 0xf3), (0x8001, 0x22), (0x8002, 0), (0x8003, 0xc0)],
        line: "18 Unsupported 0x00010000 word 0xc00022f3",
    },
    // two section headers at 0x7e00, of which the second is of ten bytes of code
    RefusalRow {
        len: WHOLE,
        bytes: &[(33, 0x7e), (46, 40), (48, 2)],
        line: "19 CodeAlign section 0",
    },
    // e_phnum 1000
    RefusalRow {
        len: WHOLE,
        bytes: &[(44, 0xe8), (45, 3)],
        line: "22 TooManySegments 1000 segments",
    },
];

/// A file that breaks no rule but where it has many loads: a thousand program headers, only two of
/// which count, the header of a section, the data, and `loads` loads before the code.
pub fn file_of(alloc: Global, loads: usize) -> Result<Vec<u8>, Fail> {
    let mut load = Vec::new(alloc);
    push_code(alloc, &mut load, "lw x5, 0(x5)")?;
    let mut code = Vec::new(alloc);
    for _ in 0..loads {
        code.extend_from_slice(&load)?;
    }
    push_code(alloc, &mut code, CODE)?;
    let mut file = Vec::new(alloc);
    push_words(&mut file, FILE_HEADER)?;
    push_sizes(&mut file, code.len(), u32::try_from(code.len())?)?;
    push_words(&mut file, DATA_HEADER)?;
    for _ in 2..1000 {
        push_words(&mut file, EMPTY_HEADER)?;
    }
    file.resize(0x7e00 + 40, 0)?;
    push_words(&mut file, CODE_SECTION)?;
    file.resize(0x7f00, 0)?;
    file.extend_from_slice(b"hi\n")?;
    file.resize(0x8000, 0)?;
    file.extend_from_slice(&code)?;
    Ok(file)
}

#[test]
fn tells_the_lowest_refusal(rt: HostRuntime) -> Result<(), Fail> {
    let alloc = rt.alloc();
    let whole = file_of(alloc, 0)?;
    for (count, higher) in RULES.iter().enumerate() {
        let mut file = whole.as_slice().to_vec(alloc)?;
        break_by(&mut file, higher);
        for lower in RULES.iter().take(count + 1) {
            try_rule(&rt, &file, "list IN", lower)?;
        }
    }
    Ok(())
}

/// What a program is refused for is told before its rewritten words are counted; and they aren't
/// counted where a file is to be verified, which here says no plan.
#[test]
fn counts_the_words_last(rt: HostRuntime) -> Result<(), Fail> {
    let many = file_of(rt.alloc(), MANY)?;
    try_each(&rt, &many, "run IN", &RULES)?;
    try_refused(&rt, &many, "run IN", "20 CodeTooLarge 4230005 words")?;
    let answer = Expected {
        status: 4,
        out: &[],
        err: "shasta: code refused 50 NoPlan\n",
    };
    try_held(&rt, &[("IN", &many)], &["run IN --verify IN"], &answer)
}
