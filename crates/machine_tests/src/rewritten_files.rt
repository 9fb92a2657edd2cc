//! The file of a rewritten program: what it holds, and what is refused for it.

use elf32_read::{Elf, Section, read_elf};
use exec_map::accept;
use rewriter::{CodeRefused, FilePart, Options, Rewritten};
use std::alloc::Global;
use std::test::Fail;
use test_calls::files::{executable, rewritten_file};
use test_calls::samples::HI;

/// The templates of the places of `HI`: four plain words, a call, two plain words, a call, a stop.
const TEMPLATES: [u8; 9] = [0, 0, 0, 0, 7, 0, 0, 7, 9];

/// Whether an executable has three segments, the first read-only, the second writable and the third
/// code, and begins at the first place.
fn has_segments(elf: &Elf<'_>) -> bool {
    for (segment, flags) in elf.segments().iter().zip([4, 6, 5]) {
        if segment.flags != flags {
            return false;
        }
    }
    elf.segments().len() == 3 && elf.entry() == 0xa0000004 && elf.flags() == 0
}

/// Whether a plan has an entry of eight bytes for each place, with its template.
fn is_plan(plan: &Section<'_>) -> bool {
    for (entry, template) in plan.bytes.chunks(8).zip(TEMPLATES) {
        if entry != [template, 0, 0, 0, 0, 0, 0, 0].as_slice() {
            return false;
        }
    }
    plan.name == b".shasta.plan".as_slice() && plan.kind == 0x80000001
}

/// Whether a map has eight bytes for each place, and the last is that after the program.
fn is_map(map: &Section<'_>) -> bool {
    map.bytes.len() == 72
        && map.bytes.ends_with(&[0x20, 0, 1, 0, 0x24, 0, 0, 0xa0])
        && map.name == b".shasta.map".as_slice()
        && map.kind == 0x80000002
}

#[test]
fn writes_the_segments_the_plan_and_the_map(rt: HostRuntime) -> Result<(), Fail> {
    let alloc = rt.alloc();
    let file = executable(alloc, HI, b"hi\n", 3)?;
    let out = rewritten_file(alloc, &file)?;
    let elf = read_elf(alloc, &out)?;
    let plan = elf.sections().get(0).ok_or("a plan")?;
    let map = elf.sections().get(1).ok_or("a map")?;
    if has_segments(&elf) && is_plan(plan) && is_map(map) {
        return Ok(());
    }
    Err(Fail::from("another segment, plan or map"))
}

/// The part that is refused where the file's byte at an offset is changed, if one is.
fn part_refused(alloc: Global, offset: usize) -> Result<Option<FilePart>, Fail> {
    let file = executable(alloc, HI, b"hi\n", 3)?;
    let mut out = rewritten_file(alloc, &file)?;
    if let Some(byte) = out.get_mut(offset) {
        *byte ^= 1;
    }
    let original = read_elf(alloc, &file)?;
    let program = accept(alloc, &original)?;
    let elf = read_elf(alloc, &out)?;
    match Rewritten::of_elf(alloc, &program, &original, Options { batch: true }, &elf) {
        Ok(_) => Ok(None),
        Err(CodeRefused::PlanRefused(part)) => Ok(Some(part)),
        Err(other) => Err(other.into()),
    }
}

/// The code stands at 0x3000 of the file, the plan after its 40 bytes, the map after those 72.
#[test]
fn takes_the_file_alone(rt: HostRuntime) -> Result<(), Fail> {
    let alloc = rt.alloc();
    for (offset, part) in [
        (0x10000, None),
        (0x3004, Some(FilePart::Code)),
        (0x3028, Some(FilePart::Plan)),
        (0x3070, Some(FilePart::Map)),
    ] {
        if part_refused(alloc, offset)? != part {
            return Err(Fail::new(format_args!("at {offset}")));
        }
    }
    Ok(())
}
