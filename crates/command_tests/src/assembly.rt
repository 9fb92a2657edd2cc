//! Executables of assembly texts.

use crate::calls::{call, try_held};
use crate::watch::CountingGate;
use std::sync::Wait;
use std::test::Fail;
use std::thread::Threads;
use test_calls::calls::{Expected, sure};
use test_calls::files::{executable, text_of};

/// The program that writes its three bytes of data, as a text.
const HI_TEXT: &str = ".segment rx 0x10000
lui x11, 0x20
addi x10, x0, 1
addi x12, x0, 3
addi x17, x0, 64
ecall
addi x10, x0, 0
addi x17, x0, 93
ecall
.segment rw 0x20000
.bytes 68690a
";

/// The words of its code.
const HI_WORDS: &str = ".word 0x000205b7; .word 0x00100513; .word 0x00300613; .word 0x04000893;
    .word 0x00000073; .word 0x00000513; .word 0x05d00893; .word 0x00000073";

/// Texts, and the number of the rule that each breaks and the line that breaks it.
static REFUSED: [(&str, &str); 8] = [
    (".segment rx 0x10000\naddi x1, x0, 2048", "61 at line 2"),
    // a shift by a number of either sign that doesn't fit
    (".segment rx 0x10000\nslli x1, x1, -1", "61 at line 2"),
    (".segment rx 0x10000\nsrli x1, x1, -32", "61 at line 2"),
    (
        ".segment rx 0x10000\nsrai x1, x1, -4294967297",
        "61 at line 2",
    ),
    (".segment rx 0x10000\nslli x1, x1, 32", "61 at line 2"),
    // a target out of reach, of an instruction that stands at no multiple of 4
    (".segment rx 0x10002\njal x0, 0x00200000", "61 at line 2"),
    (".segment rx 0x10000\njal x0, there", "62 at line 2"),
    ("", "65 at line 1"),
];

#[test]
fn assembles_a_program(rt: HostRuntime) -> Result<(), Fail> {
    let alloc = rt.alloc();
    let held = [("TEXT", HI_TEXT.as_bytes())];
    let line = "asm TEXT OUT";
    let made = call(&rt, sure(&held), line, "OUT", &CountingGate::new(false))?;
    made.expect_bytes(line, b"")?;
    if made.written == executable(alloc, HI_WORDS, b"hi\n", 3)? {
        return Ok(());
    }
    Err(Fail::from("another executable"))
}

/// Fails the test where a text isn't refused for this.
fn try_refused(
    rt: &(impl Threads + Wait + Sync + AllocGlobal),
    text: &str,
    why: &str,
) -> Result<(), Fail> {
    let err = text_of(rt.alloc(), &["shasta: text refused ", why, "\n"])?;
    let answer = Expected {
        status: 8,
        out: &[],
        err: &err,
    };
    let held = [("TEXT", text.as_bytes()), ("OUT", b"as it was".as_slice())];
    try_held(rt, &held, &["asm TEXT OUT"], &answer)
}

#[test]
fn refuses_assembly_texts(rt: HostRuntime) -> Result<(), Fail> {
    for &(text, why) in &REFUSED {
        try_refused(&rt, text, why)?;
    }
    Ok(())
}
