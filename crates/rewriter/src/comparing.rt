//! Whether segments and sections are those that are wanted.

ghost use Rattle.std.specs.Prelude.{◌≡◌, ◌↔◌, IsTrue, Some, map, slice_get};
ghost use Rattle.elf32_read.specs.Segments.{segment_of, section_of};

use elf32_read::{Section, Segment};

/// Whether two sections have the same fields.
fn is_section(one: &Section<'_>, other: &Section<'_>) -> bool
    ensures value { IsTrue result ↔ (section_of one.now ≡ section_of other.now) }
{
    one.name == other.name
        && one.kind == other.kind
        && one.flags == other.flags
        && one.addr == other.addr
        && one.size == other.size
        && one.bytes == other.bytes
}

/// Whether the section of a number is there, with these fields.
pub(crate) fn has_section(sections: &[Section<'_>], k: usize, wanted: &Section<'_>) -> bool
    ensures value { IsTrue result
        ↔ (slice_get (map section_of sections.now) k ≡ Some (section_of wanted.now)) }
{
    match sections.get(k) {
        Some(section) => is_section(section, wanted),
        None => false,
    }
}

/// Whether two segments have the same fields.
fn is_segment(one: &Segment<'_>, other: &Segment<'_>) -> bool
    ensures value { IsTrue result ↔ (segment_of one.now ≡ segment_of other.now) }
{
    one.flags == other.flags
        && one.vaddr == other.vaddr
        && one.memsz == other.memsz
        && one.bytes == other.bytes
}

/// Whether segments have the same fields as others, in the same order.
pub(crate) fn are_segments(ones: &[Segment<'_>], others: &[Segment<'_>]) -> bool
    ensures value { IsTrue result ↔ (map segment_of ones.now ≡ map segment_of others.now) }
{
    if ones.len() != others.len() {
        return false;
    }
    for k in 0..ones.len() {
        if !is_segment(&ones[k], &others[k]) {
            return false;
        }
    }
    true
}
