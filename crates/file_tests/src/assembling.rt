//! Assembly texts that are assembled, and texts that are refused.

use crate::files::push_words;
use elf32_read::Segment;
use rv32_asm::{AsmRefused, assemble, check_text};
use std::alloc::Global;
use std::test::Fail;

/// Names before and after their lines, an entry, zeros and every other directive.
const NAMES: &[u8] = b"# a loop
.entry start
.segment rw 0x20000
here:
.word 0x00020000
.space 3
.bytes 0a
.zero 40
end:
.segment rx 0x10000
start:
jal x0, there
  back: 
fence
illegal
there:
beq x1, x2, back
mulhu x3, x4, x5
jal x1, 0x00010000";

/// The code words of the names' text.
static NAMES_WORDS: [u32; 6] = [
    0x00c0006f, 0x0ff0000f, 0x00000000, 0xfe208ce3, 0x025231b3, 0xfedff0ef,
];

/// Whether there are two segments, the data and then these bytes of code.
fn are_segments(segments: &[Segment<'_>], words: &[u8]) -> bool {
    let [data, code] = segments else {
        return false;
    };
    (data.flags, data.vaddr, data.memsz) == (6, 0x20000, 48)
        && data.bytes == b"\x00\x00\x02\x00\x00\x00\x00\x0a".as_slice()
        && (code.flags, code.vaddr, code.memsz) == (5, 0x10000, 24)
        && code.bytes == words
}

#[test]
fn assembles_names(rt: HostRuntime) -> Result<(), Fail> {
    let assembled = assemble(rt.alloc(), NAMES)?;
    let elf = assembled.elf(rt.alloc())?;
    let mut words = Vec::new(rt.alloc());
    push_words(&mut words, &NAMES_WORDS)?;
    if elf.entry() == 0x10000 && are_segments(elf.segments(), &words) {
        return Ok(());
    }
    Err(Fail::from("another executable"))
}

/// A text of lines, with the number of the rule that refuses it and the line.
static REFUSED: [(&[u8], u8, usize); 39] = [
    (b".segment rx 0x10000\naddi x1, x0, 2048\n", 61, 2),
    (b".segment rx 0x10000\njal x0, there", 62, 2),
    (b"", 65, 1),
    (b"\n\n", 65, 3),
    (b"# a\n # b ", 65, 3),
    (b".segment rx 0x10000\n unknown", 60, 2),
    (b".segment rx 0x10000\naddi x01, x0, 1", 60, 2),
    (b".segment rx 0x10000\naddi x-1, x0, 1", 60, 2),
    (b".segment rx 0x10000\naddi x1, x0, -0", 60, 2),
    (b".segment rx 0x10000\naddi x1,x0, 1", 60, 2),
    (b".segment rx 0x10000\naddi x32, x0, 1", 61, 2),
    (
        b".segment rx 0x10000\naddi x1, x0, 99999999999999999999999999",
        61,
        2,
    ),
    (b".segment rx 0x10000\naddi x1, x0, -2049", 61, 2),
    (b".segment rx 0x10000\nslli x1, x0, 32", 61, 2),
    (b".segment rx 0x10000\nslli x1, x0, -1", 61, 2),
    (b".segment rx 0x10000\nlui x1, 0x100000", 61, 2),
    (b".segment rx 0x10000\nlui x1, 0x00001", 60, 2),
    (b".segment rx 0x10000\njal x1, 0x10000", 60, 2),
    (b".segment rx 0x10000\njal x1, 0x000010001", 61, 2),
    (b".segment rx 0x10000\njal x1, 0x00010001", 61, 2),
    (b".segment rx 0x10000\nbeq x1, x2, 0x00011000", 61, 2),
    (b".segment rx 0x10000\na:\na:", 62, 3),
    (b".segment rx 0x10000\na:\n.entry a\n.entry a", 62, 4),
    (b".segment rx 0x10000\n.entry b", 62, 2),
    (b"ecall", 63, 1),
    (b"a:", 63, 1),
    (b".zero 0", 63, 1),
    (b".segment r 0x0\n.bytes 00\necall", 63, 3),
    (b".segment r 0x0\n.zero 0\n.space 0", 63, 3),
    (b".segment r 0xffffffff\n.zero 2", 64, 2),
    (b".segment r 0x0\n.space 16777217", 64, 2),
    (b".segment r 0x0\n.bytes 0", 60, 2),
    (b".segment r 0x0\n.segment x 0x0", 60, 2),
    (b".segment r 0x000000000", 60, 1),
    (b".segment rx 0x10001\njal x0, 0x00010002", 63, 2),
    (b".segment rx 0x10001\njal x0, 0x00010003", 61, 2),
    (b".segment rx 0x10000\njal x0, 0x00110000", 61, 2),
    (b"a:\n.segment rx 0x10000\njal x0, a", 63, 1),
    (b".entry a\n.segment r 0xfffffff0\n.zero 16\na:", 61, 1),
];

/// The number of the rule that refuses a text, and the line; 0 and 0 where none does.
fn refusal(alloc: Global, text: &[u8]) -> Result<(u8, usize), Fail> {
    match check_text(alloc, text) {
        Ok(()) => Ok((0, 0)),
        Err(AsmRefused::Broken { rule, line }) => Ok((rule.number(), line)),
        Err(error) => Err(Fail::from(error)),
    }
}

/// Fails the test where a text isn't refused by this rule at this line.
fn try_refused(alloc: Global, text: &[u8], number: u8, line: usize) -> Result<(), Fail> {
    if refusal(alloc, text)? == (number, line) {
        return Ok(());
    }
    Err(Fail::new(format_args!("{number} at line {line}")))
}

#[test]
fn refuses(rt: HostRuntime) -> Result<(), Fail> {
    for &(text, number, line) in &REFUSED {
        try_refused(rt.alloc(), text, number, line)?;
    }
    Ok(())
}
