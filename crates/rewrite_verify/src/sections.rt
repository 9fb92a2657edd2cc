//! Sections by their names and types.

ghost use Rattle.std.specs.Prelude.{◌≡◌, ◌<◌, ◌≤◌, ◌↔◌, ℕ, List, IsTrue, MatchOption, IfSome};
ghost use Rattle.std.specs.Prelude.{IfNone, Some, map, slice_get};
ghost use Rattle.elf32_read.specs.Elf.{Section as Fields};
ghost use Rattle.elf32_read.specs.Segments.{section_of};
ghost use Rattle.rewrite_verify.specs.Sections.{HasOnly, IsNamedAs};

use elf32_read::Section;

/// Whether a section has the name and the type of a wanted one.
fn is_named_as(section: &Section<'_>, wanted: &Section<'_>) -> bool
    ensures value { IsTrue result ↔ IsNamedAs (section_of wanted.now) (section_of section.now) }
{
    section.name == wanted.name && section.kind == wanted.kind
}

/// The number of the first section from one on that has the name and the type of a wanted one; None
/// exactly where none has.
fn named_from(sections: &[Section<'_>], from: usize, wanted: &Section<'_>) -> Option<usize>
    ensures some { IfSome result (λ k. (s : Fields) × (from ≤ k)
        × (slice_get (map section_of sections.now) k ≡ Some s)
        × IsNamedAs (section_of wanted.now) s) }
    ensures first { IfSome result (λ k. (j : ℕ) (s : Fields) → from ≤ j → j < k
        → slice_get (map section_of sections.now) j ≡ Some s
        → ¬ IsNamedAs (section_of wanted.now) s) }
    ensures none { IfNone result ((j : ℕ) (s : Fields) → from ≤ j
        → slice_get (map section_of sections.now) j ≡ Some s
        → ¬ IsNamedAs (section_of wanted.now) s) }
{
    for k in from..sections.len() {
        if is_named_as(&sections[k], wanted) {
            return Some(k);
        }
    }
    None
}

/// The bytes of the one section that has the name and the type of a wanted one; None exactly where
/// no section has both, or more than one.
pub(crate) fn only_named<'a>(sections: &[Section<'a>], wanted: &Section<'_>) -> Option<&'a [u8]>
    ensures value { MatchOption result
        ((bytes : List ℕ) → ¬ HasOnly (map section_of sections.now)
        (record (section_of wanted.now) { bytes = bytes }))
        (λ b. HasOnly (map section_of sections.now)
        (record (section_of wanted.now) { bytes = b.now })) }
{
    let k = named_from(sections, 0, wanted)?;
    match named_from(sections, k + 1, wanted) {
        Some(_) => None,
        None => Some(sections[k].bytes),
    }
}

/// Whether exactly one section has the name and the type of a wanted one, and its bytes.
pub(crate) fn has_only(sections: &[Section<'_>], wanted: &Section<'_>) -> bool
    ensures value { IsTrue result ↔ HasOnly (map section_of sections.now) (section_of wanted.now) }
{
    match only_named(sections, wanted) {
        Some(bytes) => bytes == wanted.bytes,
        None => false,
    }
}
