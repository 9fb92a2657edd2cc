//! The segments and sections of a file that no rule refuses.

ghost use Rattle.std.specs.Prelude.{◌≡◌, ◌+◌, ◌^◌, ◌<◌, ◌≤◌, true, length, map, IfOk};
ghost use Rattle.elf32_read.specs.Elf.{are_placed};
ghost use Rattle.elf32_read.specs.Fields as fields;
ghost use Rattle.elf32_read.specs.Reading as model;
ghost use Rattle.elf32_read.specs.Segments.{segment_of, section_of};
ghost use Rattle.elf32_read.specs.Refusals.{IsReadable};
ghost use Rattle.elf32_read.specs.Judging.{HasTables};
ghost use Rattle.elf32_read.specs.NameEnds.{AreEnds};

use crate::headers::{FileHeader, ProgramHeader, SectionHeader, program_header, section_header};
use crate::rules::{has_range, is_load};
use crate::{Section, Segment};
use std::alloc::{AllocError, Global};

/// SHT_NOBITS: the type of a section without bytes in the file.
pub const NO_BITS: u32 = 8;

/// The loadable segments, in the order of the program headers.
pub fn segments(
    alloc: Global,
    file: &[u8],
    header: FileHeader,
) -> Result<Vec<Segment<'_>>, AllocError>
    requires tables { HasTables file.now header }
    requires readable { IsReadable file.now }
    ensures value { IfOk result (λ all.
        map segment_of all.items ≡ (model.elf_of file.now).segments) }
    ensures placed { IfOk result (λ all. are_placed (map segment_of all.items) ≡ true) }
{
    let mut all = Vec::new(alloc);
    for index in 0..header.e_phnum {
        let h = program_header(file, header, index);
        if !is_load(h) {
            continue;
        }
        all.push(segment(file, h))?;
    }
    Ok(all)
}

/// The segment of a header.
fn segment(file: &[u8], h: ProgramHeader) -> Segment<'_>
    requires { h.p_offset + h.p_filesz ≤ length file.now }
    ensures { segment_of result ≡ model.segment_in file.now h }
{
    let start = h.p_offset as usize;
    Segment {
        flags: h.p_flags,
        vaddr: h.p_vaddr,
        memsz: h.p_memsz,
        bytes: &file[start..start + h.p_filesz as usize],
    }
}

/// The sections, in the order of the section headers, without the first and the names' own.
pub fn sections(
    alloc: Global,
    file: &[u8],
    header: FileHeader,
) -> Result<Vec<Section<'_>>, AllocError>
    requires { HasTables file.now header }
    ensures { IfOk result (λ all.
        map section_of all.items ≡ (model.elf_of file.now).sections) }
{
    let names = section_names(file, header);
    let ends = name_ends(alloc, names)?;
    let mut all = Vec::new(alloc);
    for index in 1..header.e_shnum {
        if index == header.e_shstrndx {
            continue;
        }
        let h = section_header(file, header, index);
        all.push(section(file, names, &ends, h))?;
    }
    Ok(all)
}

/// The section of a header.
fn section<'a>(file: &'a [u8], names: &'a [u8], ends: &[u32], h: SectionHeader) -> Section<'a>
    requires names { names.now ≡ model.section_names file.now }
    requires ends { AreEnds names.now ends.now }
    ensures { section_of result ≡ model.section_in file.now h }
{
    Section {
        name: name_at(names, ends, h.sh_name),
        kind: h.sh_type,
        flags: h.sh_flags,
        addr: h.sh_addr,
        size: h.sh_size,
        bytes: section_bytes(file, h),
    }
}

/// The bytes of the section that has the names.
fn section_names(file: &[u8], header: FileHeader) -> &[u8]
    requires { HasTables file.now header }
    ensures names { result.now ≡ model.section_names file.now }
    ensures short { length result.now < 2 ^ 32 }
{
    if header.e_shstrndx < header.e_shnum {
        section_bytes(file, section_header(file, header, header.e_shstrndx))
    } else {
        &[]
    }
}

/// The bytes that the file has for a section.
fn section_bytes(file: &[u8], h: SectionHeader) -> &[u8]
    ensures bytes { result.now ≡ model.section_bytes file.now h }
    ensures short { length result.now < 2 ^ 32 }
{
    if h.sh_type == NO_BITS || !has_range(file, h.sh_offset, h.sh_size) {
        &[]
    } else {
        let start = h.sh_offset as usize;
        &file[start..start + h.sh_size as usize]
    }
}

/// For each offset in the names up to the last zero byte, where the first zero byte is from there
/// on.
fn name_ends(alloc: Global, names: &[u8]) -> Result<Vec<u32>, AllocError>
    requires short { length names.now < 2 ^ 32 }
    ensures { IfOk result (λ ends. AreEnds names.now ends.items) }
{
    let mut ends = Vec::new(alloc);
    for index in 0..names.len() {
        if names[index] == 0 {
            ends.resize(index + 1, index as u32)?;
        }
    }
    Ok(ends)
}

/// The name at an offset in the names: the bytes up to the first that is zero.
fn name_at<'a>(names: &'a [u8], ends: &[u32], offset: u32) -> &'a [u8]
    requires { AreEnds names.now ends.now }
    ensures { result.now ≡ model.name_at names.now offset }
{
    let start = offset as usize;
    match ends.get(start) {
        Some(end) => &names[start..*end as usize],
        None => &[],
    }
}
