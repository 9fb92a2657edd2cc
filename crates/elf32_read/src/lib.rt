#![tactic(auto)]
//! Reads ELF32 executables.

ghost use Rattle.std.specs.Prelude.{◌≡◌, ℕ, List, true, map, is_some, IfSome, IfOk, OnOk, IsErrOf};
ghost use Rattle.elf32_read.specs.Elf.{are_placed, is_in_limits, are_known_flags};
ghost use Rattle.elf32_read.specs.Segments.{segment_of, section_of, elf_with};
ghost use Rattle.elf32_read.specs.Reading.{elf_of};
ghost use Rattle.elf32_read.specs.Refusals.{Fits, IsReadable, IsRefusedBy};

mod contents;
mod fields;
mod headers;
mod limits;
mod refused;
mod rules;

pub use contents::NO_BITS;
pub use refused::{ElfRefused, FileRule};
use std::alloc::Global;
use std::marker::Model;

/// A loadable segment. Its bytes are those of the file; the rest of its memory is zero.
#[derive(Clone, Copy)]
pub struct Segment<'a> {
    /// Permissions: the sum of 1 (executable), 2 (writable) and 4 (readable).
    pub flags: u32,
    /// The address of the first byte.
    pub vaddr: u32,
    /// How many bytes the segment has in memory.
    pub memsz: u32,
    /// The bytes that the file has for it.
    pub bytes: &'a [u8],
}

/// A section. Its name and its bytes are those of the file, and empty where it has none.
#[derive(Clone, Copy)]
pub struct Section<'a> {
    pub name: &'a [u8],
    /// The type (sh_type).
    pub kind: u32,
    /// Attributes: the sum of 1 (writable), 2 (in memory), 4 (executable) and others.
    pub flags: u32,
    /// The address of the first byte.
    pub addr: u32,
    /// How many bytes the section has.
    pub size: u32,
    /// The bytes that the file has for it.
    pub bytes: &'a [u8],
}

/// An executable, whose segments' and sections' bytes are those of a file.
#[derive(Drop)]
pub struct Elf<'a> {
    entry: u32,
    flags: u32,
    segments: Vec<Segment<'a>>,
    sections: Vec<Section<'a>>,
}

impl<'a> Model for Elf<'a> {
    ghost use Rattle.std.specs.Prelude.{◌≡◌, map, true};
    ghost use Rattle.elf32_read.specs.Elf.{Elf as Fields, are_placed, are_known_flags};
    ghost use Rattle.elf32_read.specs.Segments.{segment_of, section_of};

    ghost Value = { Fields };

    ghost view = { λ e. record {
      entry = e.entry;
      flags = e.flags;
      segments = map segment_of e.segments.items;
      sections = map section_of e.sections.items;
    } };

    ghost invariant = { λ e. (are_placed (map segment_of e.segments.items) ≡ true)
        × (are_known_flags e.flags ≡ true) };
}

impl<'a> Elf<'a> {
    /// The executable of these parts.
    ///
    /// `None` exactly where they are not in the limits: 1 to 1,000 segments, each with no more
    /// bytes than memory and an end of at most 2^32; at most 1,000 sections; no flag but 0x10; at
    /// most 2^30 bytes in all segments and sections.
    pub fn make(
        entry: u32,
        flags: u32,
        segments: Vec<Segment<'a>>,
        sections: Vec<Section<'a>>,
    ) -> Option<Elf<'a>>
        ensures value { IfSome result (λ e.
            e ≡ elf_with entry flags segments.entry.items sections.entry.items) }
        ensures limits { is_some result
            ≡ is_in_limits (elf_with entry flags segments.entry.items sections.entry.items) }
    {
        if !limits::are_in_limits(flags, &segments, &sections) {
            return None;
        }
        Some(Elf {
            entry,
            flags,
            segments,
            sections,
        })
    }

    /// Whether `make` would accept it. A file may have more segments and sections.
    pub fn is_in_limits(&self) -> bool
        ensures value { result ≡ is_in_limits self.now }
    {
        limits::are_in_limits(self.flags, &self.segments, &self.sections)
    }

    /// The address of the first instruction.
    pub fn entry(&self) -> u32
        ensures { result ≡ self.now.entry }
    {
        self.entry
    }

    /// The processor's flags (e_flags).
    pub fn flags(&self) -> u32
        ensures value { result ≡ self.now.flags }
        ensures known { are_known_flags self.now.flags ≡ true }
    {
        self.flags
    }

    /// The segments, in the order of the program headers.
    pub fn segments(&self) -> &[Segment<'a>]
        ensures value { map segment_of result.now ≡ self.now.segments }
        ensures placed { are_placed self.now.segments ≡ true }
    {
        &self.segments
    }

    /// The sections, in the order of the section headers, without the first and the names' own.
    pub fn sections(&self) -> &[Section<'a>]
        ensures value { map section_of result.now ≡ self.now.sections }
    {
        &self.sections
    }
}

/// Reads a file. The segments and sections borrow its bytes.
///
/// Fails with the first rule that fits the file, in the order of their numbers, and with the least
/// program header of that rule. Takes time in proportion to the headers and the section of names.
pub fn read_elf(alloc: Global, file: &[u8]) -> Result<Elf<'_>, ElfRefused>
    ensures ok { IfOk result (λ e. e ≡ elf_of file.now) }
    ensures readable { OnOk result (IsReadable file.now) }
    ensures refused { (r : FileRule)
        → IsErrOf result (ElfRefused.Broken r) → IsRefusedBy file.now r }
{
    if let Some(rule) = rules::first_broken(file) {
        return Err(ElfRefused::Broken(rule));
    }
    let header = headers::file_header(file);
    Ok(Elf {
        entry: header.e_entry,
        flags: header.e_flags,
        segments: contents::segments(alloc, file, header)?,
        sections: contents::sections(alloc, file, header)?,
    })
}

/// At most one rule refuses a file first, and a file that one refuses is not readable. A file is
/// readable just where no rule fits it.
pub fn refusal_law()
    ensures one_rule { (file : List ℕ) (r q : FileRule)
        → IsRefusedBy file r → IsRefusedBy file q → r ≡ q }
    ensures unreadable { (file : List ℕ) (r : FileRule)
        → IsRefusedBy file r → IsReadable file → ⊥ }
    ensures no_rule { (file : List ℕ) (r : FileRule) → IsReadable file → Fits file r → ⊥ }
    ensures readable { (file : List ℕ) → ((r : FileRule) → Fits file r → ⊥) → IsReadable file }
{}
