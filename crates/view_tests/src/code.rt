//! `code` and `--help`: their texts, and what is told of faulty words and files.

use crate::calls::{Row, USAGE, show, try_view, try_views};
use std::alloc::Global;
use std::str::from_utf8;
use std::test::Fail;
use test_calls::calls::{Faults, Held, NO_FAULTS, sure};
use test_calls::files::{executable, rewritten_file};
use test_calls::samples::HI;

/// A program that loads a word, whose line may be read.
const LOADS: &str = "lui x5, 0x20; lw x6, 0(x5); addi x10, x6, 0; addi x17, x0, 93; ecall";

/// Two loads by one register, which share a check.
const PAIR: &str = "lui x5, 0x20; lw x6, 0(x5); lw x7, 4(x5); addi x10, x0, 0; addi x17, x0, 93;
    ecall";

/// What stands before the first place.
const HEAD: &str =
    "address   word     text                           ; template, scratch registers; run
  address   word     place    part     c text
c: * commits a step, ? unless the value is the flag, ~ unless it waits, . doesn't
  a0000000: 0000102b no place          . trap.off
";

/// Each instruction stands for itself but for the system calls; after the code a word stops.
const HI_CODE: &str = "00010000: 000205b7 lui x11, 0x20                  ; as it is
  a0000004: 000205b7 00010000 single   * lui x11, 0x20
00010004: 00100513 addi x10, x0, 1                ; as it is
  a0000008: 00100513 00010004 single   * addi x10, x0, 1
00010008: 00300613 addi x12, x0, 3                ; as it is
  a000000c: 00300613 00010008 single   * addi x12, x0, 3
0001000c: 04000893 addi x17, x0, 64               ; as it is
  a0000010: 04000893 0001000c single   * addi x17, x0, 64
00010010: 00000073 ecall                          ; call
  a0000014: 0000300b 00010010 single   ~ call
00010014: 00000513 addi x10, x0, 0                ; as it is
  a0000018: 00000513 00010014 single   * addi x10, x0, 0
00010018: 05d00893 addi x17, x0, 93               ; as it is
  a000001c: 05d00893 00010018 single   * addi x17, x0, 93
0001001c: 00000073 ecall                          ; call
  a0000020: 0000300b 0001001c single   ~ call
00010020: -------- no code word                   ; stop
  a0000024: 0000002b 00010020 single   * trap.fetch
";

/// The load misses where the address is high or the value is the flag, -253.
const LOADS_CODE: &str = "00010000: 000202b7 lui x5, 0x20                   ; as it is
  a0000004: 000202b7 00010000 single   * lui x5, 0x20
00010004: 0002a303 lw x6, 0(x5)                   ; load by its value, s x10
  a0000008: 00028513 00010004 single   . addi x10, x5, 0
  a000000c: 00054863 00010004 single   . blt x10, x0, 0xa000001c
  a0000010: 0002a303 00010004 single   ? lw x6, 0(x5)
  a0000014: f0300513 00010004 single   . addi x10, x0, -253
  a0000018: 00a31663 00010004 single   . bne x6, x10, 0xa0000024
  a000001c: 0002810b 00010004 single   . miss.r.w 0(x5)
  a0000020: 0002a303 00010004 single   * lw x6, 0(x5)
00010008: 00030513 addi x10, x6, 0                ; as it is
  a0000024: 00030513 00010008 single   * addi x10, x6, 0
0001000c: 05d00893 addi x17, x0, 93               ; as it is
  a0000028: 05d00893 0001000c single   * addi x17, x0, 93
00010010: 00000073 ecall                          ; call
  a000002c: 0000300b 00010010 single   ~ call
00010014: -------- no code word                   ; stop
  a0000030: 0000002b 00010014 single   * trap.fetch
";

/// Calls where IN holds the first program.
static CALLS: [Row; 11] = [
    ("code IN", 0, &[HEAD, HI_CODE], ""),
    ("code --no-batch IN", 0, &[HEAD, HI_CODE], ""),
    ("--help", 0, &[USAGE], ""),
    ("", 2, &[], USAGE),
    ("code", 2, &[], USAGE),
    ("code IN IN", 2, &[], USAGE),
    ("code IN --brief", 2, &[], USAGE),
    ("--help IN", 2, &[], USAGE),
    ("list IN", 2, &[], USAGE),
    ("code IN --verify IN --no-batch", 2, &[], USAGE),
    ("code a", 3, &[], "shasta: cannot read a\n"),
];

/// And where V holds the file that `rewrite` makes of it.
static VERIFIED: [Row; 3] = [
    ("code IN --verify V", 0, &[HEAD, HI_CODE], ""),
    (
        "code --verify=IN IN",
        4,
        &[],
        "shasta: code refused 50 NoPlan\n",
    ),
    ("code IN --verify A", 3, &[], "shasta: cannot read A\n"),
];

/// And where it holds the second.
static LOADS_CALLS: [Row; 1] = [("code IN", 0, &[HEAD, LOADS_CODE], "")];

/// And where it holds none.
static REFUSED: [Row; 1] = [("code IN", 4, &[], "shasta: executable refused 1 Short\n")];

/// And where the first put fails.
static FAILED: Row = ("code IN", 3, &[], "shasta: cannot write output\n");

/// Makes the calls of a table where IN holds a program without data.
fn try_code(alloc: Global, program: &str, rows: &[Row]) -> Result<(), Fail> {
    let file = executable(alloc, program, b"", 64)?;
    try_views(alloc, &[("IN", &file)], rows)
}

#[test]
fn shows_code(rt: HostRuntime) -> Result<(), Fail> {
    try_code(rt.alloc(), HI, &CALLS)?;
    try_code(rt.alloc(), LOADS, &LOADS_CALLS)
}

#[test]
fn shows_verified_code(rt: HostRuntime) -> Result<(), Fail> {
    let alloc = rt.alloc();
    let file = executable(alloc, HI, b"", 64)?;
    let verified = rewritten_file(alloc, &file)?;
    try_views(alloc, &[("IN", &file), ("V", &verified)], &VERIFIED)
}

/// Fails the test where the code of a file has a run, or none, and this says otherwise.
fn try_runs(alloc: Global, file: &[u8], line: &str, runs: bool) -> Result<(), Fail> {
    let called = show(alloc, sure(&[("IN", file)]), line)?;
    let text = from_utf8(&called.out)?;
    let has_runs = text.contains("; run of 2, s ");
    if has_runs == runs && text.contains(" batch.r (") == runs && called.status == 0 {
        return Ok(());
    }
    Err(Fail::new(format_args!("{line}: {text}")))
}

/// Two loads that share a check are a run of two; without batches each has its own.
#[test]
fn shows_runs(rt: HostRuntime) -> Result<(), Fail> {
    let alloc = rt.alloc();
    let file = executable(alloc, PAIR, b"", 64)?;
    try_runs(alloc, &file, "code IN", true)?;
    try_runs(alloc, &file, "code IN --no-batch", false)
}

#[test]
fn tells_refusals_and_faults(rt: HostRuntime) -> Result<(), Fail> {
    let alloc = rt.alloc();
    try_views(alloc, &[("IN", b"text")], &REFUSED)?;
    let file = executable(alloc, HI, b"", 64)?;
    let failing = Held {
        files: &[("IN", &file)],
        faults: Faults {
            out: &[1],
            ..NO_FAULTS
        },
    };
    try_view(alloc, failing, &FAILED)
}
