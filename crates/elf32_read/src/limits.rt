//! The limits of an executable that is made of its parts.

ghost use Rattle.std.specs.Prelude.{◌≡◌, ◌+◌, ◌^◌, map, nat_le};
ghost use Rattle.elf32_read.specs.Elf as model;
ghost use Rattle.elf32_read.specs.Segments.{segment_of, section_of, elf_with};

use crate::{Section, Segment};

/// The greatest number of segments, and of sections.
const COUNT_LIMIT: usize = 1000;

/// The greatest number of bytes of all segments and sections.
const SIZE_LIMIT: u64 = 1 << 30;

/// The only flag that an executable may have: its memory is totally ordered.
pub const TOTAL_STORE_ORDER: u32 = 0x10;

/// Addresses are below this number.
pub const ADDRESS_END: u64 = 1 << 32;

/// Whether an executable may have these flags, segments and sections.
pub fn are_in_limits(flags: u32, segments: &[Segment<'_>], sections: &[Section<'_>]) -> bool
    ensures { result ≡ model.is_in_limits (elf_with 0 flags segments.now sections.now) }
{
    !segments.is_empty()
        && segments.len() <= COUNT_LIMIT
        && sections.len() <= COUNT_LIMIT
        && (flags == 0 || flags == TOTAL_STORE_ORDER)
        && are_placed(segments)
        && are_small(segments, sections)
}

/// Whether each segment has no more bytes than memory, which ends at 2^32 at most.
fn are_placed(segments: &[Segment<'_>]) -> bool
    ensures { result ≡ model.are_placed (map segment_of segments.now) }
{
    for s in segments {
        if !is_placed(s) {
            return false;
        }
    }
    true
}

/// Whether a segment has no more bytes than memory, which ends at 2^32 at most.
fn is_placed(s: &Segment<'_>) -> bool
    ensures { result ≡ model.is_placed (segment_of s.now) }
{
    s.bytes.len() <= s.memsz as usize && u64::from(s.vaddr) + u64::from(s.memsz) <= ADDRESS_END
}

/// Whether the segments and sections have few bytes in all.
fn are_small(segments: &[Segment<'_>], sections: &[Section<'_>]) -> bool
    ensures { result ≡ nat_le
        (model.segments_size (map segment_of segments.now)
        + model.sections_size (map section_of sections.now)) (2 ^ 30) }
{
    let mut total = 0;
    for s in segments {
        total += s.bytes.len() as u64;
        if total > SIZE_LIMIT {
            return false;
        }
    }
    for s in sections {
        total += s.bytes.len() as u64;
        if total > SIZE_LIMIT {
            return false;
        }
    }
    true
}
