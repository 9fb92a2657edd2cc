//! Which executables are written.

ghost use Rattle.std.specs.Prelude.{◌≡◌, ◌==◌, map};
ghost use Rattle.std.specs.List.{list_all, list_any};
ghost use Rattle.elf32_read.specs.Segments.{section_of};
ghost use Rattle.elf32_write.specs.Writable as model;

use elf32_read::{Elf, NO_BITS, Section};

/// The longest name in bytes.
const NAME_LIMIT: usize = 64;

/// Whether an executable can be written: it is in the limits of `Elf::make`, and each section has
/// no memory, a type other than 8, as many bytes as its size says, and a name of at most 64 bytes
/// without a zero.
pub fn writable(e: &Elf<'_>) -> bool
    ensures value { result ≡ model.is_writable e.now }
{
    e.is_in_limits() && are_plain(e.sections())
}

/// Whether each section has its bytes in the file alone, and a plain name.
fn are_plain(sections: &[Section<'_>]) -> bool
    ensures { result ≡ list_all model.is_plain (map section_of sections.now) }
{
    for s in sections {
        if !is_plain(s) {
            return false;
        }
    }
    true
}

/// Whether a section has its bytes in the file alone, and a plain name.
fn is_plain(s: &Section<'_>) -> bool
    ensures { result ≡ model.is_plain (section_of s.now) }
{
    s.flags / 2 % 2 == 0
        && s.kind != NO_BITS
        && s.size as usize == s.bytes.len()
        && s.name.len() <= NAME_LIMIT
        && !has_zero(s.name)
}

/// Whether a byte is zero.
fn has_zero(name: &[u8]) -> bool
    ensures { result ≡ list_any (λ b. b == 0) name.now }
{
    name.iter().any(|byte| *byte == 0)
}
