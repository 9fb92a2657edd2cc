//! The segments that have memory, sorted by address: a line or an address is found by halving.

ghost use Rattle.std.specs.Prelude.{◌≡◌, false, ◌+◌, ◌-◌, ◌/◌, ◌^◌, ◌≤◌, ◌<◌, ℕ, true, find};
ghost use Rattle.std.specs.Prelude.{length, map, IfOk, IfSome, All, AllPairs};
ghost use Rattle.std.specs.List.{list_any, list_all, filter, filter_map, AllWithin};
ghost use Rattle.std.specs.Option.{option_copied, option_map};
ghost use Rattle.rv32_decode.specs.Widths.{size_of};
ghost use Rattle.byte_range.specs.Memory.{raw};
ghost use Rattle.block_layout.specs.Layout.{AreRanges, is_in};
ghost use Rattle.elf32_read.specs.Elf.{are_placed};
ghost use Rattle.elf32_read.specs.Segments.{segment_of};
ghost use Rattle.exec_map.specs.Contents as model;
ghost use Rattle.exec_map.specs.Index as index;
ghost use Rattle.exec_map.specs.Index.{AreSorted, AreApart, AreSearchable, IsSome, end_line};
ghost use Rattle.exec_map.specs.Index.{has_line};
ghost use Rattle.exec_map.specs.Refusals.{has_memory};

use crate::stretches::{self, NumberRange};
use crate::{Lines, segment};
use elf32_read::Segment;
use rv32_decode::Width;
use std::alloc::{AllocError, Global};

/// The segments that have memory, by address.
pub fn sorted<'a>(alloc: Global, all: &[Segment<'a>]) -> Result<Vec<Segment<'a>>, AllocError>
    requires { are_placed (map segment_of all.now) ≡ true }
    ensures { IfOk result (λ v. AreSorted (map segment_of all.now) (map segment_of v.items)) }
{
    let mut sorted = with_memory(alloc, all)?;
    sorted.sort_unstable_by_key(|s| s.vaddr);
    Ok(sorted)
}

/// The segments that have memory, in their order.
fn with_memory<'a>(alloc: Global, all: &[Segment<'a>]) -> Result<Vec<Segment<'a>>, AllocError>
    ensures { IfOk result (λ v. v.items ≡ filter (λ s. has_memory (segment_of s)) all.now) }
{
    all.iter()
        .filter(|s| segment::has_memory(s))
        .copied()
        .collect(alloc)
}

/// Whether no two of the segments have a line in common.
pub fn are_apart(sorted: &[Segment<'_>]) -> bool
    requires { list_all has_memory (map segment_of sorted.now) ≡ true }
    ensures yes { result ≡ true → AreApart (map segment_of sorted.now) }
    ensures no { result ≡ false → AreApart (map segment_of sorted.now) → ⊥ }
{
    for place in 1..sorted.len() {
        if segment::end_line(&sorted[place - 1]) > u64::from(sorted[place].vaddr / 64) {
            return false;
        }
    }
    true
}

/// The segment that has a byte in the line.
pub fn at_line<'s, 'a>(sorted: &'s [Segment<'a>], line: u32) -> Option<&'s Segment<'a>>
    requires { AreSearchable (map segment_of sorted.now) }
    ensures { option_map segment_of (option_copied result) ≡
        find (model.touches line) (map segment_of sorted.now) }
{
    let s = sorted.get(passed(sorted, line))?;
    if segment::touches(s, line) {
        Some(s)
    } else {
        None
    }
}

/// How many segments have their last byte in a line before this one.
fn passed(sorted: &[Segment<'_>], line: u32) -> usize
    requires { AreSearchable (map segment_of sorted.now) }
    ensures passed { AllWithin (λ s. end_line s ≤ line) (map segment_of sorted.now) 0 result }
    ensures ahead { AllWithin (λ s. line < end_line s) (map segment_of sorted.now)
        result (length sorted.now) }
{
    sorted.partition_point(|s| segment::end_line(s) <= u64::from(line))
}

/// The segment for which the file has a byte of the address.
fn at<'s, 'a>(sorted: &'s [Segment<'a>], address: u32) -> Option<&'s Segment<'a>>
    requires { AreSearchable (map segment_of sorted.now) }
    ensures value { option_map segment_of (option_copied result) ≡
        find (model.holds address) (map segment_of sorted.now) }
    ensures holds { IfSome result (λ s. model.holds address (segment_of s.now) ≡ true) }
{
    let s = at_line(sorted, address / 64)?;
    if segment::holds(s, address) {
        Some(s)
    } else {
        None
    }
}

/// The byte that the file has for an address, or 0.
pub fn byte_at(sorted: &[Segment<'_>], address: u32) -> u8
    requires { AreSearchable (map segment_of sorted.now) }
    ensures { result ≡ model.byte_of (map segment_of sorted.now) address }
{
    match at(sorted, address) {
        Some(s) => s.bytes[(address - s.vaddr) as usize],
        None => 0,
    }
}

/// The little-endian number that the bytes of the addresses from one on make.
pub fn load(sorted: &[Segment<'_>], width: Width, address: u32) -> u32
    requires searchable { AreSearchable (map segment_of sorted.now) }
    requires ends { address + size_of width ≤ 2 ^ 32 }
    ensures { result ≡ raw width (model.byte_of (map segment_of sorted.now)) address }
{
    match width {
        Width::Byte => u32::from(byte_at(sorted, address)),
        Width::Half => u32::from(u16::from_le_bytes([
            byte_at(sorted, address),
            byte_at(sorted, address + 1),
        ])),
        Width::Word => word(sorted, address),
    }
}

/// The little-endian word of four addresses.
fn word(sorted: &[Segment<'_>], address: u32) -> u32
    requires searchable { AreSearchable (map segment_of sorted.now) }
    requires ends { address + 4 ≤ 2 ^ 32 }
    ensures { result ≡ raw Width.Word (model.byte_of (map segment_of sorted.now)) address }
{
    u32::from_le_bytes([
        byte_at(sorted, address),
        byte_at(sorted, address + 1),
        byte_at(sorted, address + 2),
        byte_at(sorted, address + 3),
    ])
}

/// The maximal ranges of the lines in which a writable segment has a byte, or one that isn't.
pub fn ranges_of(
    alloc: Global,
    sorted: &[Segment<'_>],
    writable: bool,
) -> Result<Vec<Lines>, AllocError>
    requires { AreSearchable (map segment_of sorted.now) }
    ensures ranges { IfOk result (λ v. AreRanges v.items) }
    ensures lines { (line : ℕ) → IfOk result (λ v.
        is_in v.items line ≡ list_any (has_line writable line) (map segment_of sorted.now)) }
    ensures apart { IfOk result (λ v. AllPairs (λ r q. r.first + r.lines < q.first) v.items) }
{
    let of_kind = lines_of_kind(alloc, sorted, writable)?;
    let merged = stretches::merged(alloc, &of_kind)?;
    let ranges = lengths(alloc, &merged)?;
    Ok(ranges)
}

/// Stretches of lines by their lengths.
fn lengths(alloc: Global, stretches: &[NumberRange]) -> Result<Vec<Lines>, AllocError>
    requires { All IsSome stretches.now }
    ensures { IfOk result (λ v. v.items ≡ map index.lines_of_stretch stretches.now) }
{
    let mut ranges = Vec::with_capacity(alloc, stretches.len())?;
    for r in stretches {
        ranges.push(Lines {
            first: r.first,
            lines: r.end - r.first,
        })?;
    }
    Ok(ranges)
}

/// The lines in which the segments of a kind have bytes.
fn lines_of_kind(
    alloc: Global,
    sorted: &[Segment<'_>],
    writable: bool,
) -> Result<Vec<NumberRange>, AllocError>
    ensures { IfOk result (λ v. v.items
        ≡ filter_map (λ s. index.lines_of_kind writable (segment_of s)) sorted.now) }
{
    sorted
        .iter()
        .filter_map(|s| lines_of(s, writable))
        .collect(alloc)
}

/// The lines in which a segment has a byte, where it is of this kind.
fn lines_of(s: &Segment<'_>, writable: bool) -> Option<NumberRange>
    ensures { result ≡ index.lines_of_kind writable (segment_of s.now) }
{
    if segment::is_writable(s) == writable {
        Some(NumberRange {
            first: s.vaddr / 64,
            end: segment::end_line(s) as u32,
        })
    } else {
        None
    }
}
