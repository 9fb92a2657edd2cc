//! The file of a rewritten program.

ghost use Rattle.std.specs.Prelude.{◌≡◌, ◌++◌, ◌∷◌, ◌^◌, ◌<◌, ◌≤◌, [], ℕ, map, IfOk, IsErrOf};
ghost use Rattle.std.specs.Prelude.{MatchOption, OnErr, OnOk, length, true};
ghost use Rattle.exec_map.specs.Contents.{program_of};
ghost use Rattle.exec_map.specs.Refusals.{IsAcceptable};
ghost use Rattle.jump_map.specs.Image.{IsRewriting};
ghost use Rattle.elf32_read.specs.Elf.{are_placed};
ghost use Rattle.elf32_read.specs.Segments.{segment_of, section_of};
ghost use Rattle.elf32_write.specs.Layout.{file_of};
ghost use Rattle.elf32_write.specs.Writable.{is_writable};
ghost use Rattle.templates.specs.WholePlan.{IsPlanOf};
ghost use Rattle.rewriter.specs.TooLarge.{IsTooLarge};
ghost use Rattle.rewriter.specs.RewrittenFile as model;
ghost use Rattle.rewriter.specs.RewrittenFile.{IsFirstDifference, IsOtherCode, rewritten_elf};

use crate::comparing::{are_segments, has_section};
use crate::file_bytes::{code_bytes, map_bytes, new_address, plan_bytes};
use crate::rewriting::{Options, Rewritten, rewrite};
use elf32_read::{Elf, Section, Segment};
use elf32_write::write_elf;
use exec_map::Program;
use jump_map::{IMAGE_BASE, ImageRefused};
use std::alloc::{AllocError, Global};
use thiserror::Error;

/// A part of a rewritten program's file.
#[derive(Clone, Copy, Debug, PartialEq, Eq)]
pub enum FilePart {
    /// The section of the plan, which is the first one.
    Plan,
    /// The section of the map of addresses, which is the second one.
    Map,
    /// The entry, the flags, the segments and any further section.
    Code,
}

/// Why an executable isn't taken for rewritten code.
#[derive(Debug, Drop, Error)]
pub enum CodeRefused {
    /// The rewriting has more words than an image may have.
    #[error("CodeTooLarge {0} words")]
    CodeTooLarge(u64),
    /// The executable differs from that of the rewriting, first in this part.
    #[error("PlanRefused")]
    PlanRefused(FilePart),
    #[error("out of memory")]
    OutOfMemory,
}

impl From<AllocError> for CodeRefused {
    ghost use Rattle.std.specs.Prelude.{◌≡◌};
    ghost use Rattle.rewriter.specs.declared.file.CodeRefused.TheVariants.{OutOfMemory};

    ghost from_gives = { λ _ e. e ≡ OutOfMemory };

    fn from(_error: AllocError) -> CodeRefused {
        CodeRefused::OutOfMemory
    }
}

/// The section of a plan with these bytes.
pub fn plan_section<'a>(bytes: &'a [u8]) -> Section<'a>
    requires short { length bytes.now < 2 ^ 32 }
    ensures value { section_of result ≡ model.plan_section bytes.entry.now }
{
    Section {
        name: b".shasta.plan",
        kind: 0x8000_0001,
        flags: 0,
        addr: 0,
        size: bytes.len() as u32,
        bytes,
    }
}

/// The section of a map of addresses with these bytes.
pub fn map_section<'a>(bytes: &'a [u8]) -> Section<'a>
    requires short { length bytes.now < 2 ^ 32 }
    ensures value { section_of result ≡ model.map_section bytes.entry.now }
{
    Section {
        name: b".shasta.map",
        kind: 0x8000_0002,
        flags: 0,
        addr: 0,
        size: bytes.len() as u32,
        bytes,
    }
}

/// A segment of the original, which can't be executed any more.
fn without_execution<'s, 'o: 's>(segment: &Segment<'o>) -> Segment<'s>
    ensures value { segment_of result ≡ model.without_execution (segment_of segment.now) }
{
    Segment {
        flags: segment.flags - segment.flags % 2,
        vaddr: segment.vaddr,
        memsz: segment.memsz,
        bytes: segment.bytes,
    }
}

/// The segments of a rewritten file, whose code has these bytes.
fn rewritten_segments<'s, 'o: 's>(
    alloc: Global,
    original: &Elf<'o>,
    code: &'s [u8],
) -> Result<Vec<Segment<'s>>, AllocError>
    requires short { length code.now < 2 ^ 32 }
    ensures value { IfOk result (λ segments. map segment_of segments.items
        ≡ map model.without_execution original.now.segments
        ++ (model.segment_with code.entry.now ∷ [])) }
    ensures placed { OnOk result (are_placed original.now.segments ≡ true) }
{
    let mut segments = Vec::new(alloc);
    for segment in original.segments() {
        segments.push(without_execution(segment))?;
    }
    segments.push(Segment {
        flags: 5,
        vaddr: IMAGE_BASE,
        memsz: code.len() as u32,
        bytes: code,
    })?;
    Ok(segments)
}

/// The executable of a rewritten program, by its entry and the bytes of its plan, map and code.
/// That of an original that is accepted is in the limits of `Elf::make`.
fn elf_of_parts<'s, 'o: 's>(
    alloc: Global,
    original: &Elf<'o>,
    entry: u32,
    plan: &'s [u8],
    map: &'s [u8],
    code: &'s [u8],
) -> Result<Elf<'s>, AllocError>
    requires accepted { IsAcceptable original.now }
    requires plan { length plan.now ≤ 2 ^ 25 }
    requires map { length map.now ≤ 2 ^ 25 }
    requires code { length code.now ≤ 2 ^ 24 }
    ensures value { IfOk result (λ e. e ≡ model.elf_of_parts original.now entry
        plan.entry.now map.entry.now code.entry.now) }
    ensures writable { IfOk result (λ e. is_writable e ≡ true) }
{
    let segments = rewritten_segments(alloc, original, code)?;
    let mut sections = Vec::new(alloc);
    sections.push(plan_section(plan))?;
    sections.push(map_section(map))?;
    match Elf::make(entry, original.flags(), segments, sections) {
        Some(elf) => Ok(elf),
        None => unreachable!(),
    }
}

impl Rewritten {
    /// The first part in which an executable differs from the one that `to_elf` writes.
    pub fn first_difference(
        &self,
        alloc: Global,
        original: &Elf<'_>,
        elf: &Elf<'_>,
    ) -> Result<Option<FilePart>, AllocError>
        ensures value { IfOk result (λ r. MatchOption r
            (elf.now ≡ rewritten_elf original.now self.now.image self.now.plan)
            (IsFirstDifference (rewritten_elf original.now self.now.image self.now.plan) elf.now)) }
    {
        let sections = elf.sections();
        let plan = plan_bytes(alloc, self.plan())?;
        let wanted = plan_section(&plan);
        if !has_section(sections, 0, &wanted) {
            return Ok(Some(FilePart::Plan));
        }
        let map = map_bytes(alloc, self.image(), self.plan())?;
        let wanted = map_section(&map);
        if !has_section(sections, 1, &wanted) {
            return Ok(Some(FilePart::Map));
        }
        let code = code_bytes(alloc, self.image())?;
        let segments = rewritten_segments(alloc, original, &code)?;
        if sections.len() == 2
            && elf.entry() == new_address(self.image(), original.entry())
            && elf.flags() == original.flags()
            && are_segments(elf.segments(), &segments)
        {
            Ok(None)
        } else {
            Ok(Some(FilePart::Code))
        }
    }

    /// Writes the file of the rewritten program, with what it takes from the original, from which
    /// the program was accepted. Where memory is wanted, `out` is left empty.
    pub fn to_elf(
        &self,
        alloc: Global,
        original: &Elf<'_>,
        out: &mut Vec<u8>,
    ) -> Result<(), AllocError>
        requires accepted { IsAcceptable original.now }
        requires empty { out.old.items ≡ [] }
        ensures ok { OnOk result (out.new.items
            ≡ file_of (rewritten_elf original.now self.now.image self.now.plan)) }
        ensures err { OnErr result (out.new.items ≡ []) }
    {
        let plan = plan_bytes(alloc, self.plan())?;
        let map = map_bytes(alloc, self.image(), self.plan())?;
        let code = code_bytes(alloc, self.image())?;
        let entry = new_address(self.image(), original.entry());
        let elf = elf_of_parts(alloc, original, entry, &plan, &map, &code)?;
        write_elf(&elf, out)
    }

    /// Takes an executable for the rewriting, by these options, of a program that was accepted from
    /// the original.
    ///
    /// Fails with the first part that differs where it isn't the one that `to_elf` writes.
    pub fn of_elf(
        alloc: Global,
        program: &Program<'_>,
        original: &Elf<'_>,
        options: Options,
        elf: &Elf<'_>,
    ) -> Result<Rewritten, CodeRefused>
        requires accepted { program.now ≡ original.now }
        ensures plan { IfOk result
            (λ r. IsPlanOf options.batch (program_of program.now).code r.plan) }
        ensures rewriting { IfOk result (λ r. IsRewriting (program_of program.now) r.plan r.image) }
        ensures same { IfOk result (λ r. elf.now ≡ rewritten_elf original.now r.image r.plan) }
        ensures differs { (part : FilePart) → IsErrOf result (CodeRefused.PlanRefused part)
            → IsOtherCode options.batch original.now elf.now part }
        ensures too_large { (w : ℕ) → IsErrOf result (CodeRefused.CodeTooLarge w)
            → IsTooLarge options.batch (program_of program.now) w }
    {
        let rewritten = match rewrite(alloc, program, options) {
            Ok(rewritten) => rewritten,
            Err(ImageRefused::CodeTooLarge(words)) => return Err(CodeRefused::CodeTooLarge(words)),
            Err(ImageRefused::OutOfMemory) => return Err(CodeRefused::OutOfMemory),
        };
        match rewritten.first_difference(alloc, original, elf)? {
            None => Ok(rewritten),
            Some(part) => Err(CodeRefused::PlanRefused(part)),
        }
    }
}
