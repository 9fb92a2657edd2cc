//! The ELF header.

ghost use Rattle.std.specs.Prelude.{◌≡◌, ◌+◌, ◌≤◌, ◌++◌, length, map, vec_len, OnOk};
ghost use Rattle.elf32_read.specs.Segments.{section_of};
ghost use Rattle.elf32_write.specs.Layout as model;
ghost use Rattle.elf32_write.specs.Room.{sections_room, room_limit};

use crate::bytes::{push_halves, push_words};
use crate::offsets::{aligned, names_size, sections_end};
use elf32_read::Section;
use std::alloc::AllocError;

/// The first sixteen bytes: magic number, 32 bits, little-endian, version 1.
const IDENTIFICATION: [u8; 16] = [0x7f, b'E', b'L', b'F', 1, 1, 1, 0, 0, 0, 0, 0, 0, 0, 0, 0];

/// Where the section headers are: e_shoff, e_shentsize, e_shnum, e_shstrndx.
#[derive(Clone, Copy)]
pub struct Table {
    pub offset: u32,
    pub entry_size: u16,
    pub count: u16,
    pub names: u16,
}

/// The section headers of sections that follow this end: none where there is no section.
pub fn table_of(end: u32, sections: &[Section<'_>]) -> Table
    requires few { length sections.now ≤ 1000 }
    requires room { end + sections_room (map section_of sections.now) ≤ room_limit }
    ensures { result ≡ model.table_of end (map section_of sections.now) }
{
    if sections.is_empty() {
        return Table {
            offset: 0,
            entry_size: 0,
            count: 0,
            names: 0,
        };
    }
    let names = aligned(sections_end(end, sections));
    Table {
        offset: aligned(names + names_size(sections)),
        entry_size: 40,
        count: sections.len() as u16 + 2,
        names: sections.len() as u16 + 1,
    }
}

/// Appends the ELF header.
pub fn push_file_header(
    out: &mut Vec<u8>,
    entry: u32,
    flags: u32,
    segments: u16,
    table: Table,
) -> Result<(), AllocError>
    ensures items { OnOk result
        (out.new.items ≡ out.old.items ++ model.file_header entry flags segments table) }
    ensures len { OnOk result (vec_len out.new ≡ vec_len out.old + 52) }
{
    out.extend_from_slice(&IDENTIFICATION)?;
    push_halves(out, &[2, 243])?;
    push_words(out, &[1, entry, 52, table.offset, flags])?;
    push_halves(
        out,
        &[52, 32, segments, table.entry_size, table.count, table.names],
    )?;
    Ok(())
}
