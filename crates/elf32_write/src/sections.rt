//! The sections' bytes, the table of their names, and the section headers.

ghost use Rattle.std.specs.Prelude.{◌≡◌, ◌+◌, ◌≤◌, ◌++◌, true, length, map, vec_len, OnOk};
ghost use Rattle.std.specs.List.{flat_map, list_all};
ghost use Rattle.elf32_read.specs.Segments.{section_of};
ghost use Rattle.elf32_write.specs.Layout as model;
ghost use Rattle.elf32_write.specs.Writable.{has_section_words};
ghost use Rattle.elf32_write.specs.Room.{sections_room, room_limit};

use crate::bytes::{pad, push_words};
use crate::offsets::aligned;
use elf32_read::Section;
use std::alloc::AllocError;

/// The name of the table of names.
const NAMES: &[u8] = b".shstrtab";

/// The type of a section of names.
const NAMES_KIND: u32 = 3;

/// The length of a section header in bytes.
const HEADER_SIZE: usize = 40;

/// Appends what follows the segments: nothing where there is no section.
pub fn push_section_part(out: &mut Vec<u8>, sections: &[Section<'_>]) -> Result<(), AllocError>
    requires { vec_len out.old + sections_room (map section_of sections.now) ≤ room_limit }
    ensures items { OnOk result (out.new.items ≡ out.old.items
        ++ model.section_part (vec_len out.old) (map section_of sections.now)) }
    ensures words { OnOk result
        (list_all has_section_words (map section_of sections.now) ≡ true) }
{
    if sections.is_empty() {
        return Ok(());
    }
    let end = out.len() as u32;
    push_section_bytes(out, sections)?;
    let names = aligned(out.len() as u32);
    pad(out, names as usize)?;
    push_names(out, sections)?;
    let names_end = out.len() as u32;
    let table = aligned(names_end) as usize;
    pad(out, table)?;
    pad(out, table + HEADER_SIZE)?;
    push_section_table(out, end, sections)?;
    push_names_header(out, names, names_end - names)?;
    Ok(())
}

/// Appends the sections' bytes, each section's at a multiple of four.
fn push_section_bytes(out: &mut Vec<u8>, sections: &[Section<'_>]) -> Result<(), AllocError>
    requires { vec_len out.old + sections_room (map section_of sections.now) ≤ room_limit }
    ensures items { OnOk result (out.new.items ≡ out.old.items
        ++ model.section_bytes (vec_len out.old) (map section_of sections.now)) }
    ensures len { OnOk result
        (vec_len out.new ≡ model.sections_end (vec_len out.old) (map section_of sections.now)) }
{
    for s in sections {
        let offset = aligned(out.len() as u32);
        pad(out, offset as usize)?;
        out.extend_from_slice(s.bytes)?;
    }
    Ok(())
}

/// Appends the table of names.
fn push_names(out: &mut Vec<u8>, sections: &[Section<'_>]) -> Result<(), AllocError>
    ensures items { OnOk result
        (out.new.items ≡ out.old.items ++ model.names (map section_of sections.now)) }
    ensures len { OnOk result
        (vec_len out.new ≡ vec_len out.old + length (model.names (map section_of sections.now))) }
{
    out.push(0)?;
    for s in sections {
        out.extend_from_slice(s.name)?;
        out.push(0)?;
    }
    out.extend_from_slice(NAMES)?;
    out.push(0)?;
    Ok(())
}

/// Appends the header of each section, where the sections follow this end.
fn push_section_table(
    out: &mut Vec<u8>,
    start: u32,
    sections: &[Section<'_>],
) -> Result<(), AllocError>
    requires { start + sections_room (map section_of sections.now) ≤ room_limit }
    ensures items { OnOk result (out.new.items ≡ out.old.items
        ++ model.section_table start 1 (map section_of sections.now)) }
    ensures words { OnOk result
        (list_all has_section_words (map section_of sections.now) ≡ true) }
{
    let mut end = start;
    let mut name = 1;
    for s in sections {
        let offset = aligned(end);
        push_section_header(out, s, name, offset)?;
        end = offset + s.bytes.len() as u32;
        name += s.name.len() as u32 + 1;
    }
    Ok(())
}

/// Appends the header of a section, whose name and bytes stand at these offsets.
fn push_section_header(
    out: &mut Vec<u8>,
    s: &Section<'_>,
    name: u32,
    offset: u32,
) -> Result<(), AllocError>
    requires { length s.now.bytes.now ≤ room_limit }
    ensures items { OnOk result (out.new.items ≡ out.old.items
        ++ flat_map model.word (model.section_words
        (model.name_offset name (section_of s.now)) offset (section_of s.now))) }
    ensures words { has_section_words (section_of s.now) ≡ true }
{
    let name = if s.name.is_empty() { 0 } else { name };
    let size = s.bytes.len() as u32;
    push_words(
        out,
        &[name, s.kind, s.flags, s.addr, offset, size, 0, 0, 1, 0],
    )?;
    Ok(())
}

/// Appends the header of the table of names, which has this offset and size, and its own name at
/// the end.
fn push_names_header(out: &mut Vec<u8>, offset: u32, size: u32) -> Result<(), AllocError>
    requires { 10 ≤ size }
    ensures { OnOk result (out.new.items ≡ out.old.items
        ++ flat_map model.word (model.names_words offset size)) }
{
    let name = size - 10;
    push_words(out, &[name, NAMES_KIND, 0, 0, offset, size, 0, 0, 1, 0])?;
    Ok(())
}
