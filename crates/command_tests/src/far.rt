//! A direct jump past more rewritten words than a JAL reaches.

use crate::calls::{call, rewritten, try_held};
use crate::watch::CountingGate;
use std::sync::Wait;
use std::test::Fail;
use std::thread::Threads;
use test_calls::calls::{Expected, NODE, sure};
use test_calls::files::text_of;

/// The executable of a jump past 100,000 loads, to which nothing leads.
fn far_program(rt: &(impl Threads + Wait + Sync + AllocGlobal)) -> Result<Vec<u8>, Fail> {
    let mut text = text_of(rt.alloc(), &[".segment rx 0x10000\njal x0, last\n"])?;
    for _ in 0..100_000 {
        text.push_str("lw x5, 0(x5)\n")?;
    }
    text.push_str("last:\naddi x10, x0, 0\naddi x17, x0, 93\necall\n")?;
    let held = [("TEXT", text.as_bytes())];
    let made = call(
        rt,
        sure(&held),
        "asm TEXT OUT",
        "OUT",
        &CountingGate::new(false),
    )?;
    Ok(made.written)
}

/// Bytes of the rewritten file: at 100 and 104 the sizes of the code, which has 900,008 words; and
/// the jump's third word, at 0xa000000c, a far jump to word 900,004. The code begins at 0x63000.
static BYTES: [(usize, [u8; 4]); 3] = [
    (100, [0xa0, 0xee, 0x36, 0x00]),
    (104, [0xa0, 0xee, 0x36, 0x00]),
    (0x6300c, [0x0b, 0xf2, 0xee, 0x36]),
];

/// Fails the test where the rewritten file has other bytes.
fn try_bytes(code: &[u8]) -> Result<(), Fail> {
    for (offset, bytes) in &BYTES {
        let behind = code.get(*offset..).unwrap_or(b"");
        if !behind.starts_with(bytes) {
            return Err(Fail::new(format_args!("other bytes at {offset}")));
        }
    }
    Ok(())
}

#[test]
fn jumps_far(rt: HostRuntime) -> Result<(), Fail> {
    let file = far_program(&rt)?;
    let answer = Expected {
        status: 0,
        out: &["output 0\n\nprocessor 0 exit 0\n", NODE],
        err: "",
    };
    let code = rewritten(&rt, &file)?;
    let held = [("IN", file.as_slice()), ("OUT", &code)];
    try_held(&rt, &held, &["run IN", "run IN --code OUT"], &answer)?;
    try_bytes(&code)
}
