//! Files of rewritten code by another plan than the program's own.

use crate::calls::{rewritten, try_held};
use crate::programs::{FALSE_LOAD, FALSE_MISS};
use std::sync::Wait;
use std::test::Fail;
use std::thread::Threads;
use test_calls::calls::Expected;
use test_calls::files::{executable, push_words};
use test_calls::samples::USAGE;

/// The rewritten words of the program by a plan whose load spills x1, after `sw x1, -4(x0)` and
/// before `lw x1, -4(x0)`, in place of taking x10. The runtime's own words are no instructions, so
/// all are in hexadecimal.
const CODE: &str = "0000102b 000202b7 fe102e23 00028093 0000c863 0002a303 f0300093 00131663
    0002810b 0002a303 ffc02083 00030513 05d00893 0000300b 0000002b";

/// What differs from the file that `rewrite` makes: at 120, 132 and 136 the offset of the code's
/// segment, which stands after all else, and its sizes; in the map, whose six places of eight
/// bytes stand at 0x3064, the new addresses after the load.
static CHANGES: [(usize, u8); 8] = [
    (120, 0x58),
    (121, 0x31),
    (132, 0x3c),
    (136, 0x3c),
    (0x3078, 0x2c),
    (0x3080, 0x30),
    (0x3088, 0x34),
    (0x3090, 0x38),
];

/// Where the plan, whose entries of eight bytes stand at 0x3034, says the scratch register of the
/// load.
const SCRATCH: usize = 0x303d;

/// The file of the program by such a plan, with this byte for its scratch register.
fn file_with(
    rt: &(impl Threads + Wait + Sync + AllocGlobal),
    file: &[u8],
    scratch: u8,
) -> Result<Vec<u8>, Fail> {
    let mut out = rewritten(rt, file)?;
    push_words(&mut out, CODE)?;
    for &(offset, byte) in &CHANGES {
        if let Some(place) = out.get_mut(offset) {
            *place = byte;
        }
    }
    if let Some(place) = out.get_mut(SCRATCH) {
        *place = scratch;
    }
    Ok(out)
}

/// Where bit 7 of the byte is set the register is spilled; x1 is live there.
#[test]
fn runs_a_verified_file(rt: HostRuntime) -> Result<(), Fail> {
    let file = executable(rt.alloc(), FALSE_LOAD, b"\x03\xff\xff\xff", 64)?;
    for (scratch, status, out, err) in [
        (
            0x81,
            1,
            ["output 0\n\nprocessor 0 exit 3\n", FALSE_MISS],
            "",
        ),
        (
            0x01,
            4,
            ["", ""],
            "shasta: code refused 51 BadPlan 0x00010004\n",
        ),
    ] {
        let verified = file_with(&rt, &file, scratch)?;
        let held = [("IN", file.as_slice()), ("FILE", verified.as_slice())];
        let calls = ["run IN --verify FILE", "sim --verify=FILE IN"];
        let answer = Expected {
            status,
            out: &out,
            err,
        };
        try_held(&rt, &held, &calls, &answer)?;
    }
    Ok(())
}

#[test]
fn excludes_other_code_beside_a_verified_file(rt: HostRuntime) -> Result<(), Fail> {
    let calls = [
        "run IN --verify FILE --code FILE",
        "sim IN --verify FILE --code FILE",
        "run IN --verify FILE --no-batch",
        "sim IN --verify FILE --no-batch",
        "replay IN RECORD --verify FILE --code FILE",
        "rewrite IN OUT --verify FILE",
    ];
    let answer = Expected {
        status: 2,
        out: &[],
        err: USAGE,
    };
    try_held(&rt, &[], &calls, &answer)
}
