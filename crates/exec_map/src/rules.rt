//! The rules that an executable is judged by.

ghost use Rattle.std.specs.Prelude.{◌≡◌, ◌+◌, ◌<◌, ℕ, true, false, map, nat_lt};
ghost use Rattle.std.specs.Prelude.{position, IfSome, IfNone};
ghost use Rattle.std.specs.List.{list_any};
ghost use Rattle.elf32_read.specs.Segments.{segment_of, section_of};
ghost use Rattle.exec_map.specs.Contents as contents;
ghost use Rattle.exec_map.specs.Refusals as model;
ghost use Rattle.exec_map.specs.Index.{AreSorted, AreSearchable, IsIndex, NoRuleBelow};
ghost use Rattle.exec_map.specs.Index.{common_line, is_of_kind};

use crate::stretches::NumberRange;
use crate::{Class, ProgramRule, code, segment, segments};
use elf32_read::{Elf, Section, Segment};
use rv32_decode::{Width, decode};

/// More lines of a class than these are refused: 16 MiB.
const LINE_LIMIT: u64 = 262_144;

/// An executable has fewer segments, so that a rewritten file may have one more.
const SEGMENT_LIMIT: usize = 999;

/// The first rule on segments alone that fits, of those before the rules on code.
pub fn broken_by_segments(e: &Elf<'_>, sorted: &[Segment<'_>]) -> Option<ProgramRule>
    requires { AreSorted e.now.segments (map segment_of sorted.now) }
    ensures some { IfSome result (model.IsRefusedBy e.now) }
    ensures none { IfNone result (NoRuleBelow e.now 15) }
    ensures searchable { IfNone result (AreSearchable (map segment_of sorted.now)) }
{
    let all = e.segments();
    if let Some(segment) = first_too_high(all) {
        return Some(ProgramRule::TooHigh { segment });
    }
    if !segments::are_apart(sorted) {
        if let Some((first, second)) = first_overlap(all) {
            return Some(ProgramRule::Overlap { first, second });
        }
    }
    let segment = first_writable_code(all)?;
    Some(ProgramRule::WritableCode { segment })
}

/// The first segment that ends too high.
fn first_too_high(all: &[Segment<'_>]) -> Option<usize>
    ensures { result ≡ position model.is_too_high (map segment_of all.now) }
{
    for place in 0..all.len() {
        if segment::is_too_high(&all[place]) {
            return Some(place);
        }
    }
    None
}

/// The first segment that is writable and executable.
fn first_writable_code(all: &[Segment<'_>]) -> Option<usize>
    ensures { result ≡ position model.is_writable_code (map segment_of all.now) }
{
    for place in 0..all.len() {
        if segment::is_writable_code(&all[place]) {
            return Some(place);
        }
    }
    None
}

/// The first segment that has a line in common with a later one, and the first of those.
fn first_overlap(all: &[Segment<'_>]) -> Option<(usize, usize)>
    ensures some { IfSome result (λ p. model.IsFirstOverlap (map segment_of all.now) p.0 p.1) }
    ensures none { IfNone result ((k l : ℕ) →
        model.AreOverlapping (map segment_of all.now) k l → ⊥) }
{
    for first in 0..all.len() {
        for second in first + 1..all.len() {
            if have_common_line(&all[first], &all[second]) {
                return Some((first, second));
            }
        }
    }
    None
}

/// Whether two segments have a line in common.
fn have_common_line(one: &Segment<'_>, other: &Segment<'_>) -> bool
    ensures { result ≡ common_line (segment_of one.now) (segment_of other.now) }
{
    segment::has_memory(one)
        && segment::has_memory(other)
        && u64::from(one.vaddr / 64) < segment::end_line(other)
        && u64::from(other.vaddr / 64) < segment::end_line(one)
}

/// The first of the rules from that on code on that fits.
pub fn broken_by_code(
    e: &Elf<'_>,
    sorted: &[Segment<'_>],
    code: &[NumberRange],
) -> Option<ProgramRule>
    requires index { IsIndex e.now (map segment_of sorted.now) code.now }
    requires before { NoRuleBelow e.now 15 }
    ensures some { IfSome result (model.IsRefusedBy e.now) }
    ensures none { IfNone result (model.IsAcceptable e.now) }
    ensures supported { IfNone result (contents.AllSupported e.now) }
{
    if code.is_empty() {
        return Some(ProgramRule::NoCode);
    }
    if let Some(class) = class_of_too_much(e.segments()) {
        return Some(ProgramRule::TooMuch { class });
    }
    let address = e.entry();
    if !code::has_word(code, address) {
        return Some(ProgramRule::EntryNotCode { address });
    }
    if let Some((address, word)) = first_unsupported(e, sorted, code) {
        return Some(ProgramRule::Unsupported { address, word });
    }
    if let Some(section) = first_broken_section(e.sections(), sorted) {
        return Some(ProgramRule::CodeAlign { section });
    }
    let count = e.segments().len();
    if count > SEGMENT_LIMIT {
        return Some(ProgramRule::TooManySegments { count });
    }
    None
}

/// The class that has too many lines.
fn class_of_too_much(all: &[Segment<'_>]) -> Option<Class>
    ensures some { IfSome result (model.IsTooMuch (map segment_of all.now)) }
    ensures none { IfNone result ((class : Class) →
        model.IsTooMuch (map segment_of all.now) class → ⊥) }
{
    if is_too_much(all, true) {
        Some(Class::Shared)
    } else if is_too_much(all, false) {
        Some(Class::ReadOnly)
    } else {
        None
    }
}

/// Whether there are too many lines of segments that are writable, or that are not.
fn is_too_much(all: &[Segment<'_>], writable: bool) -> bool
    ensures { result ≡ nat_lt model.line_limit
        (model.lines_of_all (is_of_kind writable) (map segment_of all.now)) }
{
    let mut lines = 0;
    for s in all {
        if segment::is_writable(s) == writable {
            lines += segment::lines(s);
            if lines > LINE_LIMIT {
                return true;
            }
        }
    }
    false
}

/// The lowest code word that is no instruction, with its address.
fn first_unsupported(
    e: &Elf<'_>,
    sorted: &[Segment<'_>],
    code: &[NumberRange],
) -> Option<(u32, u32)>
    requires index { IsIndex e.now (map segment_of sorted.now) code.now }
    requires before { NoRuleBelow e.now 15 }
    ensures some { IfSome result (λ p. model.IsFirstUnsupported e.now p.0 p.1) }
    ensures none { IfNone result (contents.AllSupported e.now) }
{
    let mut next = code::next_word(code, 0);
    while let Some(address) = next {
        let word = segments::load(sorted, Width::Word, address);
        if !is_supported_word(word) {
            return Some((address, word));
        }
        next = code::next_word(code, address + 4);
    }
    None
}

/// Whether a word is an instruction.
fn is_supported_word(word: u32) -> bool
    ensures { result ≡ contents.is_supported_word word }
{
    decode(word).is_some()
}

/// The first section of code that is not whole words of an executable segment's file bytes.
fn first_broken_section(sections: &[Section<'_>], sorted: &[Segment<'_>]) -> Option<usize>
    requires { AreSearchable (map segment_of sorted.now) }
    ensures { result ≡ position (model.is_broken_code (map segment_of sorted.now))
        (map section_of sections.now) }
{
    for place in 0..sections.len() {
        if is_broken_code(&sections[place], sorted) {
            return Some(place);
        }
    }
    None
}

/// Whether the section is one of code, and not whole words of an executable segment's file bytes.
fn is_broken_code(s: &Section<'_>, sorted: &[Segment<'_>]) -> bool
    requires { AreSearchable (map segment_of sorted.now) }
    ensures { result ≡ model.is_broken_code (map segment_of sorted.now) (section_of s.now) }
{
    segment::is_code_section(s) && s.size > 0 && !is_whole_code(s, sorted)
}

/// Whether the section's address and size are multiples of four, and an executable segment has it.
fn is_whole_code(s: &Section<'_>, sorted: &[Segment<'_>]) -> bool
    requires searchable { AreSearchable (map segment_of sorted.now) }
    requires some { 0 < s.now.size }
    ensures { result ≡ model.is_whole_code (map segment_of sorted.now) (section_of s.now) }
{
    s.addr % 4 == 0 && s.size % 4 == 0 && is_within_one(s, sorted)
}

/// Whether an executable segment's file bytes have the section.
fn is_within_one(s: &Section<'_>, sorted: &[Segment<'_>]) -> bool
    requires searchable { AreSearchable (map segment_of sorted.now) }
    requires some { 0 < s.now.size }
    ensures { result ≡ list_any (model.is_within (section_of s.now)) (map segment_of sorted.now) }
{
    match segments::at_line(sorted, s.addr / 64) {
        Some(segment) => segment::is_within(s, segment),
        None => false,
    }
}
