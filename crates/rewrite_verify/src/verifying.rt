//! Whether a file is that of a rewriting of its original.

ghost use Rattle.std.specs.Prelude.{◌≡◌, List, IfOk, IfErr, OnOk};
ghost use Rattle.exec_map.specs.Contents.{program_of};
ghost use Rattle.templates.specs.declared.plans.PlanEntry.{PlanEntry};
ghost use Rattle.rewriter.specs.jump_map.Image.{Cell, IsRewriting};
ghost use Rattle.rewriter.specs.RewrittenFile.{rewritten_elf};
ghost use Rattle.rewrite_verify.specs.FilePlan.{SaysPlan};
ghost use Rattle.rewrite_verify.specs.Refusals.{Fits, IsByPlan};
ghost use Rattle.rewrite_verify.specs.declared.refused.VerifyRefused.TheVariants as refused;

use crate::code::first_bad_word;
use crate::plan::plan_of_file;
use crate::refused::VerifyRefused;
use crate::sections::has_only;
use elf32_read::Elf;
use exec_map::Program;
use rewriter::flow_graph::Graph;
use rewriter::jump_map::{ImageRefused, image_law};
use rewriter::liveness::Live;
use rewriter::{Rewritten, map_bytes, map_section};
use std::alloc::Global;

/// Takes an executable for the rewriting, by the plan that it says, of a program that was accepted
/// from the original: any plan that is admissible will do.
///
/// Fails with the first reason that fits, in the order of `VerifyRefused`. Takes time of the order
/// of n log n in the places and the rewritten words.
pub fn verify(
    alloc: Global,
    program: &Program<'_>,
    original: &Elf<'_>,
    elf: &Elf<'_>,
) -> Result<Rewritten, VerifyRefused>
    requires accepted { program.now ≡ original.now }
    ensures plan { IfOk result (λ r. SaysPlan (program_of original.now).code elf.now r.plan) }
    ensures rewriting { IfOk result (λ r. IsRewriting (program_of original.now) r.plan r.image) }
    ensures same { IfOk result (λ r. elf.now ≡ rewritten_elf original.now r.image r.plan) }
    ensures refused { IfErr result (Fits original.now elf.now) }
    ensures only { (plan : List PlanEntry) (image : List Cell)
        → IsRewriting (program_of original.now) plan image
        → elf.now ≡ rewritten_elf original.now image plan
        → IfErr result (λ r. r ≡ refused.OutOfMemory) }
{
    image_law();
    let rewritten = rewriting_by_file(alloc, program, original, elf)?;
    judge_file(alloc, original, elf, &rewritten)?;
    Ok(rewritten)
}

/// The rewriting of a program by the plan that a file says.
fn rewriting_by_file(
    alloc: Global,
    program: &Program<'_>,
    original: &Elf<'_>,
    elf: &Elf<'_>,
) -> Result<Rewritten, VerifyRefused>
    requires accepted { program.now ≡ original.now }
    ensures ok { IfOk result (λ r. IsByPlan original.now elf.now r.plan r.image) }
    ensures refused { IfErr result (Fits original.now elf.now) }
{
    let graph = Graph::of(alloc, program)?;
    let live = Live::of(alloc, &graph)?;
    let plan = plan_of_file(alloc, &live, elf)?;
    match Rewritten::by_plan(alloc, graph.code(), plan) {
        Ok(rewritten) => Ok(rewritten),
        Err(ImageRefused::CodeTooLarge(words)) => Err(VerifyRefused::CodeTooLarge(words)),
        Err(ImageRefused::OutOfMemory) => Err(VerifyRefused::OutOfMemory),
    }
}

/// Judges the map, the words and then all else of the file whose plan gives this rewriting.
fn judge_file(
    alloc: Global,
    original: &Elf<'_>,
    elf: &Elf<'_>,
    rewritten: &Rewritten,
) -> Result<(), VerifyRefused>
    requires by_plan { IsByPlan original.now elf.now rewritten.now.plan rewritten.now.image }
    ensures ok { OnOk result
        (elf.now ≡ rewritten_elf original.now rewritten.now.image rewritten.now.plan) }
    ensures refused { IfErr result (Fits original.now elf.now) }
{
    let map = map_bytes(alloc, rewritten.image(), rewritten.plan())?;
    if !has_only(elf.sections(), &map_section(&map)) {
        return Err(VerifyRefused::BadMap);
    }
    if let Some(address) = first_bad_word(alloc, original, elf, rewritten.image())? {
        return Err(VerifyRefused::BadCode(address));
    }
    match rewritten.first_difference(alloc, original, elf)? {
        None => Ok(()),
        Some(_) => Err(VerifyRefused::BadFile),
    }
}
