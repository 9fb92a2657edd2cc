//! Where segments and sections stand in a file.

ghost use Rattle.std.specs.Prelude.{◌≡◌, ◌+◌, ◌-◌, ◌^◌, ◌<◌, ◌≤◌, length, map};
ghost use Rattle.elf32_read.specs.Segments.{segment_of, section_of};
ghost use Rattle.elf32_write.specs.Layout as model;
ghost use Rattle.elf32_write.specs.Room.{segments_room, sections_room, room_limit};

use elf32_read::{Section, Segment};

/// A segment's address and its offset in the file are equal modulo this number.
pub const ALIGNMENT: u32 = 4096;

/// The least offset that is not below the end so far and equals the address modulo the alignment.
pub fn placed(end: u32, vaddr: u32) -> u32
    requires { end ≤ room_limit }
    ensures value { result ≡ model.placed end vaddr }
    ensures low { end ≤ result }
    ensures high { result < end + 4096 }
{
    end + (vaddr % ALIGNMENT + ALIGNMENT - end % ALIGNMENT) % ALIGNMENT
}

/// The next multiple of four.
pub fn aligned(end: u32) -> u32
    requires { end < 2 ^ 32 - 4 }
    ensures value { result ≡ model.aligned end }
    ensures low { end ≤ result }
    ensures high { result < end + 4 }
{
    end + (4 - end % 4) % 4
}

/// Where the segments end.
pub fn segments_end(segments: &[Segment<'_>]) -> u32
    requires few { length segments.now ≤ 1000 }
    requires room { model.headers_end (map segment_of segments.now)
        + segments_room (map segment_of segments.now) ≤ room_limit }
    ensures { result ≡ model.segments_end (model.headers_end (map segment_of segments.now))
        (map segment_of segments.now) }
{
    let mut end = 52 + 32 * segments.len() as u32;
    for s in segments {
        end = placed(end, s.vaddr) + s.bytes.len() as u32;
    }
    end
}

/// Where sections end that follow this end.
pub fn sections_end(start: u32, sections: &[Section<'_>]) -> u32
    requires { start + sections_room (map section_of sections.now) ≤ room_limit }
    ensures { result ≡ model.sections_end start (map section_of sections.now) }
{
    let mut end = start;
    for s in sections {
        end = aligned(end) + s.bytes.len() as u32;
    }
    end
}

/// The length of the table of names.
pub fn names_size(sections: &[Section<'_>]) -> u32
    requires { sections_room (map section_of sections.now) ≤ room_limit }
    ensures { result ≡ length (model.names (map section_of sections.now)) }
{
    let mut size = 11;
    for s in sections {
        size += s.name.len() as u32 + 1;
    }
    size
}
