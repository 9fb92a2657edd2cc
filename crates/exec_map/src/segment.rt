//! What one segment holds. Addresses are added as 64-bit numbers, which do not wrap.

ghost use Rattle.std.specs.Prelude.{◌≡◌, ◌+◌, ◌*◌, ◌<◌, ◌≤◌, Some, length};
ghost use Rattle.elf32_read.specs.Segments.{segment_of, section_of};
ghost use Rattle.exec_map.specs.Contents as model;
ghost use Rattle.exec_map.specs.Index as index;
ghost use Rattle.exec_map.specs.Refusals as rules;

use crate::Class;
use byte_range::WINDOW_START;
use elf32_read::{NO_BITS, Section, Segment};

/// PF_X of a segment's permissions.
const EXECUTABLE: u32 = 1;

/// PF_W of a segment's permissions.
const WRITABLE: u32 = 2;

/// Whether the segment's words may be executed.
pub fn is_executable(s: &Segment<'_>) -> bool
    ensures { result ≡ model.is_executable (segment_of s.now) }
{
    s.flags & EXECUTABLE != 0
}

/// Whether the segment may be written.
pub fn is_writable(s: &Segment<'_>) -> bool
    ensures { result ≡ model.is_writable (segment_of s.now) }
{
    s.flags & WRITABLE != 0
}

/// Whether the segment has memory.
pub fn has_memory(s: &Segment<'_>) -> bool
    ensures { result ≡ rules.has_memory (segment_of s.now) }
{
    s.memsz > 0
}

/// The class of the lines in which the segment is the first.
pub fn class(s: &Segment<'_>) -> Class
    ensures { result ≡ model.segment_class (Some (segment_of s.now)) }
{
    if is_writable(s) {
        Class::Shared
    } else {
        Class::ReadOnly
    }
}

/// Where the segment's memory ends.
pub fn end(s: &Segment<'_>) -> u64
    ensures { result ≡ s.now.vaddr + s.now.memsz }
{
    u64::from(s.vaddr) + u64::from(s.memsz)
}

/// The line after the last in which the segment has a byte.
pub fn end_line(s: &Segment<'_>) -> u64
    ensures { result ≡ index.end_line (segment_of s.now) }
{
    end(s).div_ceil(64)
}

/// Whether the segment has a byte in the line of 64 bytes.
pub fn touches(s: &Segment<'_>, line: u32) -> bool
    ensures { result ≡ model.touches line (segment_of s.now) }
{
    let first = u64::from(s.vaddr);
    let line_first = 64 * u64::from(line);
    has_memory(s) && first < line_first + 64 && line_first < end(s)
}

/// Where the bytes that the file has for the segment end.
pub fn end_of_bytes(s: &Segment<'_>) -> u64
    ensures { result ≡ s.now.vaddr + length s.now.bytes.now }
{
    u64::from(s.vaddr) + s.bytes.len() as u64
}

/// Whether the file has a byte of the segment for the address.
pub fn holds(s: &Segment<'_>, address: u32) -> bool
    ensures { result ≡ model.holds address (segment_of s.now) }
{
    s.vaddr <= address && u64::from(address) < end_of_bytes(s)
}

/// Whether the segment ends above the addresses that a program may have.
pub fn is_too_high(s: &Segment<'_>) -> bool
    ensures { result ≡ rules.is_too_high (segment_of s.now) }
{
    has_memory(s) && end(s) > u64::from(WINDOW_START)
}

/// Whether the segment is writable and executable.
pub fn is_writable_code(s: &Segment<'_>) -> bool
    ensures { result ≡ rules.is_writable_code (segment_of s.now) }
{
    has_memory(s) && is_writable(s) && is_executable(s)
}

/// The number of lines in which the segment has a byte.
pub fn lines(s: &Segment<'_>) -> u64
    ensures value { result ≡ rules.lines_of (segment_of s.now) }
    ensures few { result ≤ 0x8000000 }
{
    if has_memory(s) {
        end_line(s) - u64::from(s.vaddr / 64)
    } else {
        0
    }
}

/// SHF_ALLOC of a section's attributes.
const ALLOCATED: u32 = 2;

/// SHF_EXECINSTR of a section's attributes.
const INSTRUCTIONS: u32 = 4;

/// Whether the section is one of code.
pub fn is_code_section(s: &Section<'_>) -> bool
    ensures { result ≡ model.is_code_section (section_of s.now) }
{
    s.flags & ALLOCATED != 0 && s.flags & INSTRUCTIONS != 0 && s.kind != NO_BITS
}

/// Whether the segment is executable and the file has all bytes of the section for it.
pub fn is_within(s: &Section<'_>, segment: &Segment<'_>) -> bool
    ensures { result ≡ rules.is_within (section_of s.now) (segment_of segment.now) }
{
    is_executable(segment)
        && segment.vaddr <= s.addr
        && u64::from(s.addr) + u64::from(s.size) <= end_of_bytes(segment)
}
