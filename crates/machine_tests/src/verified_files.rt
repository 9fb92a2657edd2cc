//! Files that are taken for a rewriting by the plan that they say, and those that are refused.

use crate::plans::LOOP;
use elf32_read::read_elf;
use exec_map::accept;
use rewrite_verify::{VerifyRefused, verify};
use std::alloc::Global;
use std::test::Fail;
use test_calls::files::{executable, rewritten_file};
use test_calls::samples::HI;

/// The look at the state of the store's line by x2 and x1 in place of x1 and x2: addi x2, x7, 0;
/// lui x1, 0x80000; srli x2, x2, 6; add x2, x2, x1; lbu x2, 0(x2); beq x2, x0, +8
const OTHER_LOOK: &[u8] = &[
    0x13, 0x81, 0x03, 0x00, 0xb7, 0x00, 0x00, 0x80, 0x13, 0x51, 0x61, 0x00, 0x33, 0x01, 0x11, 0x00,
    0x03, 0x41, 0x01, 0x00, 0x63, 0x04, 0x01, 0x00,
];

/// What is refused, and at which address.
type Refusal = (&'static str, u32);

/// Where bytes of the file of `LOOP` are changed, one after another, and what it is refused for
/// then. The code stands at 0x3000 of the file, the plan after its 80 bytes. The store's place is
/// the fifth, and its eight words stand after seven others.
const PLANS: [(usize, &[u8], Option<Refusal>); 3] = [
    (0x3071, &[7, 2], Some(("BadPlan", 0x00010010))),
    (0x3071, &[2, 1], Some(("BadCode", 0xa000001c))),
    (0x301c, OTHER_LOOK, None),
];

/// What a file is refused for as one of the program of an executable, if it is.
fn refusal(alloc: Global, file: &[u8], out: &[u8]) -> Result<Option<Refusal>, Fail> {
    let original = read_elf(alloc, file)?;
    let program = accept(alloc, &original)?;
    let elf = read_elf(alloc, out)?;
    match verify(alloc, &program, &original, &elf) {
        Ok(_) => Ok(None),
        Err(VerifyRefused::NoPlan) => Ok(Some(("NoPlan", 0))),
        Err(VerifyRefused::BadPlan(address)) => Ok(Some(("BadPlan", address))),
        Err(VerifyRefused::BadMap) => Ok(Some(("BadMap", 0))),
        Err(VerifyRefused::BadCode(address)) => Ok(Some(("BadCode", address))),
        Err(VerifyRefused::BadFile) => Ok(Some(("BadFile", 0))),
        Err(other) => Err(other.into()),
    }
}

/// What the file of `HI` is refused for where its byte at an offset is changed.
fn refusal_with(alloc: Global, offset: usize) -> Result<Option<Refusal>, Fail> {
    let file = executable(alloc, HI, b"hi\n", 3)?;
    let mut out = rewritten_file(alloc, &file)?;
    if let Some(byte) = out.get_mut(offset) {
        *byte ^= 1;
    }
    refusal(alloc, &file, &out)
}

/// The entry stands at 0x18 of the file, the code at 0x3000, the plan after its 40 bytes, the map
/// after those 72, and 72 further on the names; the plan's is the first.
#[test]
fn refuses_what_was_changed(rt: HostRuntime) -> Result<(), Fail> {
    let alloc = rt.alloc();
    for (offset, wanted) in [
        (0x10000, None),
        (0x30ba, Some(("NoPlan", 0))),
        (0x3028, Some(("BadPlan", 0x00010000))),
        (0x3049, Some(("BadPlan", 0x00010010))),
        (0x3070, Some(("BadMap", 0))),
        (0x3004, Some(("BadCode", 0xa0000004))),
        (0x0018, Some(("BadFile", 0))),
    ] {
        if refusal_with(alloc, offset)? != wanted {
            return Err(Fail::new(format_args!("at {offset}")));
        }
    }
    Ok(())
}

/// Writes bytes over those from an offset on.
fn put(out: &mut Vec<u8>, offset: usize, bytes: &[u8]) {
    for (place, byte) in out.iter_mut().skip(offset).zip(bytes) {
        *place = *byte;
    }
}

#[test]
fn takes_another_plan(rt: HostRuntime) -> Result<(), Fail> {
    let alloc = rt.alloc();
    let file = executable(alloc, LOOP, b"hi\n", 3)?;
    let mut out = rewritten_file(alloc, &file)?;
    for (offset, bytes, wanted) in PLANS {
        put(&mut out, offset, bytes);
        if refusal(alloc, &file, &out)? != wanted {
            return Err(Fail::new(format_args!("at {offset}")));
        }
    }
    Ok(())
}
