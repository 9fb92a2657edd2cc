//! The program headers, and the segments' bytes.

ghost use Rattle.std.specs.Prelude.{◌≡◌, ◌+◌, ◌*◌, ◌≤◌, ◌++◌, true, length, map, vec_len, OnOk};
ghost use Rattle.std.specs.List.{flat_map, list_all};
ghost use Rattle.elf32_read.specs.Segments.{segment_of};
ghost use Rattle.elf32_write.specs.Layout as model;
ghost use Rattle.elf32_write.specs.Writable.{has_segment_words};
ghost use Rattle.elf32_write.specs.Room.{segments_room, room_limit};

use crate::bytes::{pad, push_words};
use crate::offsets::{ALIGNMENT, placed};
use elf32_read::Segment;
use std::alloc::AllocError;

/// Appends the program headers.
pub fn push_program_table(out: &mut Vec<u8>, segments: &[Segment<'_>]) -> Result<(), AllocError>
    requires few { length segments.now ≤ 1000 }
    requires room { model.headers_end (map segment_of segments.now)
        + segments_room (map segment_of segments.now) ≤ room_limit }
    ensures items { OnOk result (out.new.items ≡ out.old.items
        ++ model.program_table (model.headers_end (map segment_of segments.now))
        (map segment_of segments.now)) }
    ensures len { OnOk result (vec_len out.new ≡ vec_len out.old + 32 * length segments.now) }
    ensures words { OnOk result
        (list_all has_segment_words (map segment_of segments.now) ≡ true) }
{
    let mut end = 52 + 32 * segments.len() as u32;
    for s in segments {
        let offset = placed(end, s.vaddr);
        push_program_header(out, s, offset)?;
        end = offset + s.bytes.len() as u32;
    }
    Ok(())
}

/// Appends the program header of a segment at an offset.
fn push_program_header(out: &mut Vec<u8>, s: &Segment<'_>, offset: u32) -> Result<(), AllocError>
    requires { length s.now.bytes.now ≤ room_limit }
    ensures items { OnOk result (out.new.items ≡ out.old.items
        ++ flat_map model.word (model.program_words offset (segment_of s.now))) }
    ensures len { OnOk result (vec_len out.new ≡ vec_len out.old + 32) }
    ensures words { has_segment_words (segment_of s.now) ≡ true }
{
    let size = s.bytes.len() as u32;
    push_words(
        out,
        &[
            1, offset, s.vaddr, s.vaddr, size, s.memsz, s.flags, ALIGNMENT,
        ],
    )?;
    Ok(())
}

/// Appends the segments' bytes, each segment's at its offset.
pub fn push_segment_bytes(out: &mut Vec<u8>, segments: &[Segment<'_>]) -> Result<(), AllocError>
    requires { vec_len out.old + segments_room (map segment_of segments.now) ≤ room_limit }
    ensures items { OnOk result (out.new.items ≡ out.old.items
        ++ model.segment_bytes (vec_len out.old) (map segment_of segments.now)) }
    ensures len { OnOk result
        (vec_len out.new ≡ model.segments_end (vec_len out.old) (map segment_of segments.now)) }
{
    for s in segments {
        let offset = placed(out.len() as u32, s.vaddr);
        pad(out, offset as usize)?;
        out.extend_from_slice(s.bytes)?;
    }
    Ok(())
}
