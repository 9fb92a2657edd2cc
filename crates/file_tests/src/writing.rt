//! What is written, byte by byte, and what it reads as.

use crate::files::{CODE, example, push_words};
use elf32_read::{Elf, Section, Segment, read_elf};
use elf32_write::{writable, write_elf};
use std::alloc::Global;
use std::test::Fail;

/// The segments of a code and of data, whose memory has this size.
fn segments<'a>(
    alloc: Global,
    code: &'a [u8],
    data: &'a [u8],
    data_size: u32,
) -> Result<Vec<Segment<'a>>, Fail> {
    let mut all = Vec::new(alloc);
    let memsz = u32::try_from(code.len())?;
    all.push(Segment {
        flags: 5,
        vaddr: 0x10000,
        memsz,
        bytes: code,
    })?;
    all.push(Segment {
        flags: 6,
        vaddr: 0x20000,
        memsz: data_size,
        bytes: data,
    })?;
    Ok(all)
}

/// The file of an executable.
fn written(alloc: Global, e: &Elf<'_>) -> Result<Vec<u8>, Fail> {
    if !writable(e) {
        return Err("not writable".into());
    }
    let mut out = Vec::new(alloc);
    write_elf(e, &mut out)?;
    Ok(out)
}

#[test]
fn writes_code_and_data(rt: HostRuntime) -> Result<(), Fail> {
    let alloc = rt.alloc();
    let mut code = Vec::new(alloc);
    push_words(&mut code, &CODE)?;
    let parts = segments(alloc, &code, b"hi\n", 3)?;
    let e = Elf::make(0x10000, 0, parts, Vec::new(alloc)).ok_or("not made")?;
    let out = written(alloc, &e)?;
    if out.len() == 8195 && out == example(alloc, &CODE)? {
        return Ok(());
    }
    Err(Fail::from("another file"))
}

/// Two sections: one of a name and of bytes, and one without.
fn sections<'a>(
    alloc: Global,
    name: &'a [u8],
    bytes: &'a [u8],
    none: &'a [u8],
) -> Result<Vec<Section<'a>>, Fail> {
    let mut all = Vec::new(alloc);
    let size = u32::try_from(bytes.len())?;
    all.push(Section {
        name,
        kind: 0x80000001,
        flags: 0,
        addr: 0,
        size,
        bytes,
    })?;
    all.push(Section {
        name: none,
        kind: 1,
        flags: 0,
        addr: 7,
        size: 0,
        bytes: none,
    })?;
    Ok(all)
}

/// The file of four bytes of code, no data, and two sections.
fn file_of_sections(alloc: Global) -> Result<Vec<u8>, Fail> {
    let segments = segments(alloc, &[0x73, 0, 0x10, 0], b"", 64)?;
    let sections = sections(alloc, b".plan", b"12345", b"")?;
    let e = Elf::make(0x10000, 0x10, segments, sections).ok_or("not made")?;
    written(alloc, &e)
}

/// Whether the file has these bytes at an offset.
fn has(file: &[u8], offset: usize, bytes: &[u8]) -> bool {
    match file.get(offset..) {
        Some(rest) => rest.starts_with(bytes),
        None => false,
    }
}

/// The segments end at 0x2000; 5 bytes, 3 zeros; names of 18 bytes, 2 zeros; four headers.
const SIZE: usize = 0x2000 + 8 + 20 + 160;

/// Offsets of the file, and bytes there.
static PARTS: [(usize, &[u8]); 3] = [
    (0x2000, b"12345\0\0\0\0.plan\0\0.shstrtab\0\0\0"),
    // e_shoff
    (32, &[0x1c, 0x20, 0, 0]),
    // e_shentsize, e_shnum and e_shstrndx
    (46, &[40, 0, 4, 0, 3, 0]),
];

#[test]
fn writes_sections(rt: HostRuntime) -> Result<(), Fail> {
    let out = file_of_sections(rt.alloc())?;
    for &(offset, bytes) in &PARTS {
        if !has(&out, offset, bytes) || out.len() != SIZE {
            return Err(Fail::new(format_args!("at {offset}")));
        }
    }
    Ok(())
}

/// Whether there are the two sections that were written.
fn are_sections(sections: &[Section<'_>]) -> bool {
    let [plan, empty] = sections else {
        return false;
    };
    plan.name == b".plan".as_slice()
        && plan.bytes == b"12345".as_slice()
        && (plan.kind, plan.size) == (0x80000001, 5)
        && empty.name.is_empty()
        && (empty.kind, empty.addr, empty.size) == (1, 7, 0)
}

#[test]
fn sections_come_back(rt: HostRuntime) -> Result<(), Fail> {
    let out = file_of_sections(rt.alloc())?;
    let read = read_elf(rt.alloc(), &out)?;
    let begins = (read.entry(), read.flags(), read.segments().len()) == (0x10000, 0x10, 2);
    if begins && are_sections(read.sections()) {
        return Ok(());
    }
    Err(Fail::from("another executable"))
}

/// Whether there is an executable of these flags and of three bytes in memory of this size.
fn is_made(alloc: Global, flags: u32, size: u32) -> Result<bool, Fail> {
    let parts = segments(alloc, b"", b"123", size)?;
    Ok(Elf::make(0, flags, parts, Vec::new(alloc)).is_some())
}

#[test]
fn makes_no_executable_beyond_its_limits(rt: HostRuntime) -> Result<(), Fail> {
    let alloc = rt.alloc();
    let empty = Elf::make(0, 0, Vec::new(alloc), Vec::new(alloc)).is_some();
    if empty || is_made(alloc, 1, 3)? || is_made(alloc, 0, 2)? {
        return Err(Fail::from("an executable beyond its limits"));
    }
    Ok(())
}
