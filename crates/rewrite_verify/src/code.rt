//! The rewritten words of a file.

ghost use Rattle.std.specs.Prelude.{◌≡◌, ◌≢◌, ◌↔◌, ◌*◌, ◌≤◌, ◌∷◌, [], ℕ, List, IsTrue, IfOk};
ghost use Rattle.std.specs.Prelude.{MatchOption, length};
ghost use Rattle.elf32_read.specs.Elf.{Segment as Fields};
ghost use Rattle.elf32_read.specs.Segments.{segment_of};
ghost use Rattle.rewriter.specs.jump_map.Image.{most_words};
ghost use Rattle.rewriter.specs.RewrittenFile.{code_bytes, segment_with};
ghost use Rattle.rewrite_verify.specs.FileCode.{HasBadWord, HasWords, IsFirstOther};
ghost use Rattle.rewrite_verify.specs.FileCode.{later_segments};

use elf32_read::{Elf, Segment};
use rewriter::code_bytes;
use rewriter::jump_map::{IMAGE_BASE, Image};
use std::alloc::{AllocError, Global};

/// The address of the first word of a file that isn't an image's; that of the first word of all
/// where the segments after the original's aren't one of as many words.
pub(crate) fn first_bad_word(
    alloc: Global,
    original: &Elf<'_>,
    elf: &Elf<'_>,
    image: &Image,
) -> Result<Option<u32>, AllocError>
    ensures value { IfOk result (λ r. MatchOption r
        (HasWords original.now elf.now (length image.now) (code_bytes image.now))
        (HasBadWord original.now elf.now image.now)) }
{
    let wanted = code_bytes(alloc, image)?;
    let Some(bytes) = words_of(original, elf, image.words()) else {
        return Ok(Some(IMAGE_BASE));
    };
    match first_other(bytes, &wanted) {
        Some(k) => Ok(Some(IMAGE_BASE + 4 * k)),
        None => Ok(None),
    }
}

/// The bytes of the one segment after the original's, which holds `count` rewritten words; None
/// exactly where there is another number of segments, or that is no such segment.
fn words_of<'a>(original: &Elf<'_>, elf: &Elf<'a>, count: u32) -> Option<&'a [u8]>
    requires few { count ≤ most_words }
    ensures value { MatchOption result
        ((bytes : List ℕ) → ¬ HasWords original.now elf.now count bytes)
        (λ b. HasWords original.now elf.now count b.now) }
{
    let segment = later_segment(original, elf)?;
    if is_code(&segment, 4 * count) {
        Some(segment.bytes)
    } else {
        None
    }
}

/// The one segment after the original's; None exactly where there is another number of segments.
fn later_segment<'a>(original: &Elf<'_>, elf: &Elf<'a>) -> Option<Segment<'a>>
    ensures value { MatchOption result
        ((s : Fields) → later_segments original.now elf.now ≢ s ∷ [])
        (λ s. later_segments original.now elf.now ≡ segment_of s ∷ []) }
{
    let segments = elf.segments();
    let first = original.segments().len();
    if first < segments.len() && segments.len() - first == 1 {
        Some(segments[first])
    } else {
        None
    }
}

/// Whether a segment is one of rewritten code with `size` bytes.
fn is_code(segment: &Segment<'_>, size: u32) -> bool
    ensures value { IsTrue result
        ↔ ((segment_of segment.now ≡ segment_with segment.now.bytes.now)
        × (length segment.now.bytes.now ≡ size)) }
{
    segment.flags == 5
        && segment.vaddr == IMAGE_BASE
        && segment.memsz == size
        && segment.bytes.len() == size as usize
}

/// The number of the first word that differs from the wanted one; None exactly where none does.
fn first_other(bytes: &[u8], wanted: &[u8]) -> Option<u32>
    requires long { length bytes.now ≡ length wanted.now }
    requires whole { (n : ℕ) × (length wanted.now ≡ 4 * n) × (n ≤ most_words) }
    ensures value { MatchOption result (bytes.now ≡ wanted.now)
        (IsFirstOther bytes.now wanted.now) }
{
    let count = (wanted.len() / 4) as u32;
    for k in 0..count {
        let from = 4 * k as usize;
        if bytes[from..from + 4] != wanted[from..from + 4] {
            return Some(k);
        }
    }
    None
}
