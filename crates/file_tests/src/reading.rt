//! A file of another tool's layout: several sections, and a header that is passed over.

use crate::files::push_words;
use elf32_read::{Section, Segment, read_elf};
use exec_map::{Class, Lines, Program, accept};
use std::alloc::{AllocError, Global};
use std::test::Fail;

/// The ELF header and three program headers.
static HEADERS: [u32; 37] = [
    // e_ident, e_type and e_machine, e_version, e_entry, e_phoff, e_shoff, e_flags
    0x464c457f, 0x00010101, 0, 0, 0x00f30002, 1, 0x10094, 52, 0x420, 0,
    // e_ehsize and e_phentsize, e_phnum and e_shentsize, e_shnum and e_shstrndx
    0x00200034, 0x00280003, 0x00070008,
    // attributes, which are passed over unread
    0x70000003, 0xffffffff, 0, 0, 0xffffffff, 0, 4, 1,
    // headers, code and constants
    1, 0, 0x10000, 0x10000, 0x3b4, 0x3b4, 5, 0x1000,
    // data
    1, 0x3b4, 0x113b4, 0x113b4, 0x20, 0x80, 6, 0x1000,
];

/// The names of the sections.
const NAMES: &[u8] =
    b"\0.text\0.rodata\0.data\0.bss\0.riscv.attributes\0.symtab\0.shstrtab\0unended";

/// The section headers: name, type, flags, address, offset, size, link, info, alignment, entry
/// size.
static SECTIONS: [[u32; 10]; 8] = [
    [0; 10],
    [1, 1, 6, 0x10094, 0x94, 0x20, 0, 0, 4, 0],
    [7, 1, 2, 0x100b4, 0xb4, 0x300, 0, 0, 4, 0],
    [15, 1, 3, 0x113b4, 0x3b4, 0x20, 0, 0, 4, 0],
    [21, 8, 3, 0x113d4, 0x3d4, 0x60, 0, 0, 4, 0],
    // a name that has no end
    [62, 0x70000003, 0, 0, 0x3d4, 4, 0, 0, 1, 0],
    // a name beyond the table, and a range that begins beyond the file's end
    [1000, 2, 0, 0, 0xffffffff, 0, 0, 0, 4, 16],
    [52, 3, 0, 0, 0x3d8, 69, 0, 0, 1, 0],
];

/// The file of these headers, with code of eight words.
fn example(alloc: Global) -> Result<Vec<u8>, AllocError> {
    let mut file = Vec::new(alloc);
    push_words(&mut file, &HEADERS)?;
    push_words(&mut file, &[0x00000073; 8])?;
    file.resize(0x3d8, 0x55)?;
    file.extend_from_slice(NAMES)?;
    file.resize(0x420, 0)?;
    for header in &SECTIONS {
        push_words(&mut file, header)?;
    }
    Ok(file)
}

/// Whether there are two segments, and the second is the data.
fn are_segments(segments: &[Segment<'_>]) -> bool {
    let [_, data] = segments else {
        return false;
    };
    (data.flags, data.vaddr, data.memsz) == (6, 0x113b4, 0x80)
        && data.bytes == [0x55; 32].as_slice()
}

/// Whether there are the six sections that have a name or bytes.
fn are_sections(sections: &[Section<'_>]) -> bool {
    let [text, constants, _, zeros, unnamed, outside] = sections else {
        return false;
    };
    text.name == b".text".as_slice()
        && text.bytes.len() == 32
        && constants.bytes == [0x55; 0x300].as_slice()
        && zeros.name == b".bss".as_slice()
        && (zeros.size, zeros.bytes.len()) == (0x60, 0)
        && (unnamed.name.len(), unnamed.bytes.len()) == (0, 4)
        && (outside.name.len(), outside.bytes.len()) == (0, 0)
}

#[test]
fn reads_segments_and_sections(rt: HostRuntime) -> Result<(), Fail> {
    let file = example(rt.alloc())?;
    let e = read_elf(rt.alloc(), &file)?;
    if are_segments(e.segments()) && are_sections(e.sections()) {
        return Ok(());
    }
    Err(Fail::from("another segment or section"))
}

/// Whether a program has the lines and the code of these headers.
fn is_mapped(alloc: Global, program: &Program<'_>) -> Result<bool, AllocError> {
    let shared = program.shared_ranges(alloc)?;
    let lines = Lines {
        first: 0x11380 / 64,
        lines: 3,
    };
    Ok(
        shared.as_slice() == [lines].as_slice()
            && program.class(0x10000 / 64) == Class::ReadOnly
            && program.class(0x10380 / 64) == Class::ReadOnly
            && program.class(0x103c0 / 64) == Class::Unmapped
            && program.next_code(0) == Some(0x10094)
            && program.next_code(0x100b1).is_none(),
    )
}

#[test]
fn accepts_an_executable_of_sections(rt: HostRuntime) -> Result<(), Fail> {
    let file = example(rt.alloc())?;
    let e = read_elf(rt.alloc(), &file)?;
    let program = accept(rt.alloc(), &e)?;
    if is_mapped(rt.alloc(), &program)? {
        return Ok(());
    }
    Err(Fail::from("other lines or other code"))
}

/// 65,535 sections whose names begin in eight MiB of letters, which nothing ends.
fn example_of_many(alloc: Global) -> Result<Vec<u8>, AllocError> {
    let mut file = example(alloc)?;
    // e_shoff 0x10000, e_shnum 0xffff and e_shstrndx 1
    for (offset, byte) in [(33, 0), (34, 1), (48, 0xff), (49, 0xff), (50, 1)] {
        if let Some(place) = file.get_mut(offset) {
            *place = byte;
        }
    }
    file.resize(0x10000, 0)?;
    push_words(&mut file, &[0; 10])?;
    push_words(&mut file, &[0, 3, 0, 0, 0x29_0000, 0x80_0000, 0, 0, 1, 0])?;
    for number in 2..0xffff_u32 {
        push_words(&mut file, &[number, 1, 0, 0, 0, 0, 0, 0, 1, 0])?;
    }
    file.resize(0x29_0000, 0)?;
    file.resize(0xa9_0000, b'a')?;
    Ok(file)
}

/// Each section is empty, and a look at the letters for each of them would take hours.
#[test]
fn reads_many_headers(rt: HostRuntime) -> Result<(), Fail> {
    let file = example_of_many(rt.alloc())?;
    let e = read_elf(rt.alloc(), &file)?;
    for section in e.sections() {
        if !section.name.is_empty() {
            return Err(Fail::from("a name that ends"));
        }
    }
    if e.sections().len() == 0xfffd {
        return Ok(());
    }
    Err(Fail::from("another number of sections"))
}
