//! Where the code words stand.

ghost use Rattle.std.specs.Prelude.{◌≡◌, ◌+◌, ◌%◌, ◌^◌, ◌<◌, ◌≤◌, ◌&&◌, ◌==◌, ℕ, true, false};
ghost use Rattle.std.specs.Prelude.{map, IfOk, IfSome, IfNone, All};
ghost use Rattle.std.specs.List.{filter, filter_map};
ghost use Rattle.std.specs.List.Sorted.{IsPermutation};
ghost use Rattle.elf32_read.specs.Elf.{are_placed};
ghost use Rattle.elf32_read.specs.Segments.{segment_of, section_of};
ghost use Rattle.exec_map.specs.Index as index;
ghost use Rattle.exec_map.specs.Index.{AreSearchable, AreNumberRanges, AreCode, IsOfWords};
ghost use Rattle.exec_map.specs.Index.{NoRuleBelow, have, words_of_segment, words_of_section};
ghost use Rattle.exec_map.specs.Refusals.{has_memory};

use crate::segment;
use crate::stretches::{self, NumberRange};
use elf32_read::{Elf, Section, Segment};
use rv32_program::addresses::MEMORY_END;
use std::alloc::{AllocError, Global};

/// The address of the last whole word.
const LAST_WORD: u32 = 0xffff_fffc;

/// The stretches of the code words: those of the executable segments that are in a section of code,
/// or all where there are no sections.
pub fn ranges<'a>(
    alloc: Global,
    e: &Elf<'a>,
    segments: &[Segment<'a>],
) -> Result<Vec<NumberRange>, AllocError>
    requires permutation { IsPermutation (filter has_memory e.now.segments)
        (map segment_of segments.now) }
    requires searchable { AreSearchable (map segment_of segments.now) }
    requires placed { are_placed e.now.segments ≡ true }
    requires low { NoRuleBelow e.now 15 }
    ensures { IfOk result (λ v. AreCode e.now v.items) }
{
    let held = of_segments(alloc, segments)?;
    if e.sections().is_empty() {
        return Ok(held);
    }
    let named = of_sections(alloc, e.sections())?;
    let common = stretches::common(alloc, &named, &held)?;
    Ok(common)
}

/// The words that the file has for the executable segments.
fn of_segments(alloc: Global, segments: &[Segment<'_>]) -> Result<Vec<NumberRange>, AllocError>
    ensures { IfOk result (λ v.
        v.items ≡ filter_map (λ s. words_of_segment (segment_of s)) segments.now) }
{
    segments.iter().filter_map(|s| of_segment(s)).collect(alloc)
}

/// The words that the file has for a segment, where it is executable.
fn of_segment(s: &Segment<'_>) -> Option<NumberRange>
    ensures { result ≡ words_of_segment (segment_of s.now) }
{
    if segment::is_executable(s) {
        words_within(u64::from(s.vaddr), segment::end_of_bytes(s))
    } else {
        None
    }
}

/// The words of the sections of code.
fn of_sections(alloc: Global, sections: &[Section<'_>]) -> Result<Vec<NumberRange>, AllocError>
    ensures stretches { IfOk result (λ v. AreNumberRanges v.items) }
    ensures whole { IfOk result (λ v. All IsOfWords v.items) }
    ensures words { (a : ℕ) → IfOk result (λ v. have v.items a ≡
        have (filter_map (λ s. words_of_section (section_of s)) sections.now) a) }
{
    let mut all = section_words(alloc, sections)?;
    all.sort_unstable_by_key(|r| r.first);
    let merged = stretches::merged(alloc, &all)?;
    Ok(merged)
}

/// The words of each section of code, in the order of the sections.
fn section_words(alloc: Global, sections: &[Section<'_>]) -> Result<Vec<NumberRange>, AllocError>
    ensures { IfOk result (λ v.
        v.items ≡ filter_map (λ s. words_of_section (section_of s)) sections.now) }
{
    sections.iter().filter_map(|s| of_section(s)).collect(alloc)
}

/// The words of a section, where it is one of code.
fn of_section(s: &Section<'_>) -> Option<NumberRange>
    ensures { result ≡ words_of_section (section_of s.now) }
{
    if segment::is_code_section(s) {
        words_within(u64::from(s.addr), u64::from(s.addr) + u64::from(s.size))
    } else {
        None
    }
}

/// The whole words at multiples of four from an address to before an end, as far as they are low.
fn words_within(first: u64, end: u64) -> Option<NumberRange>
    requires { first < 2 ^ 32 }
    ensures { result ≡ index.words_within first end }
{
    let first = (first + 3) / 4 * 4;
    let end = end.min(u64::from(MEMORY_END)) / 4 * 4;
    if first < end {
        Some(NumberRange {
            first: first as u32,
            end: end as u32,
        })
    } else {
        None
    }
}

/// Whether a code word stands at the address.
pub fn has_word(code: &[NumberRange], address: u32) -> bool
    requires { AreNumberRanges code.now }
    ensures { result ≡ (address % 4 == 0) && have code.now address }
{
    address % 4 == 0 && stretches::has(code, address)
}

/// The address of the lowest code word at or above another address.
pub fn next_word(code: &[NumberRange], from: u32) -> Option<u32>
    requires stretches { AreNumberRanges code.now }
    requires whole { All IsOfWords code.now }
    requires low { All (λ r. r.end ≤ 2 ^ 31) code.now }
    ensures from { IfSome result (λ a. from ≤ a) }
    ensures some { IfSome result (λ a. ((a % 4 == 0) && have code.now a) ≡ true) }
    ensures least { IfSome result (λ a. (b : ℕ) → from ≤ b → b < a
        → ((b % 4 == 0) && have code.now b) ≡ false) }
    ensures none { IfNone result ((b : ℕ) → from ≤ b → ((b % 4 == 0) && have code.now b) ≡ false) }
    ensures low { IfSome result (λ a. a + 4 ≤ 2 ^ 31) }
{
    if from > LAST_WORD {
        return None;
    }
    let next = stretches::next(code, (from + 3) / 4 * 4)?;
    Some(next)
}
