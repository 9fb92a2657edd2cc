//! Nodes over links that lose packets give what they give over links that don't.

ghost use Rattle.std.specs.Prelude.{◌<◌};
ghost use Rattle.exec_map.specs.Contents.{program_of};
ghost use Rattle.jump_map.specs.Image.{IsRewriting};

use crate::cores::layout_over;
use elf32_read::read_elf;
use exec_map::{Program, accept};
use lossy_sim::dsm_core::{Outcome, Work};
use lossy_sim::lossy_simulate;
use lossy_sim::shared_sim::simulate;
use rewriter::{Options, Rewritten, rewrite};
use run_limits::Budget;
use std::alloc::Global;
use std::test::Fail;
use test_calls::files::executable;

/// A processor other than 0 loads a shared word; each exits with code 0.
pub(crate) const READS: &str = "lui x5, 0x20
beq x10, x0, end
lw x6, 0(x5)
end:
addi x10, x0, 0
addi x17, x0, 93
ecall
";

/// Whether two outcomes have the same bytes, ends and counts.
fn is_same(outcome: &Outcome, other: &Outcome) -> bool {
    outcome.output.as_slice() == other.output.as_slice()
        && outcome.ends.as_slice() == other.ends.as_slice()
        && outcome.counts.as_slice() == other.counts.as_slice()
}

/// Whether two nodes of a rewritten program give over lossy links what they give without loss.
fn is_kept(
    alloc: Global,
    rewritten: &Rewritten,
    program: &Program<'_>,
    loss: u32,
) -> Result<bool, Fail>
    requires rewriting { IsRewriting (program_of program.now) rewritten.now.plan
        rewritten.now.image }
{
    let layout = layout_over(alloc, program, 2)?;
    let Some(budget) = Budget::of(100_000_000) else {
        return Err(Fail::from("a hundred million is a budget"));
    };
    // For the proof alone.
    let _ = program.entry();
    let _ = budget.number();
    let work = Work {
        program,
        image: rewritten.image(),
        layout: &layout,
        budget,
    };
    let without = simulate(alloc, &work, 0)?;
    let with = lossy_simulate(alloc, &work, 0, loss)?;
    Ok(is_same(&with, &without))
}

/// Has two nodes run a program with a loss, and fails the test where that gives another outcome.
fn try_loss(alloc: Global, program: &Program<'_>, loss: u32) -> Result<(), Fail> {
    let rewritten = rewrite(alloc, program, Options { batch: true })?;
    if is_kept(alloc, &rewritten, program, loss)? {
        return Ok(());
    }
    Err(Fail::from("the outcome of the run without loss"))
}

/// Has two nodes run this code with each loss.
fn try_losses(alloc: Global, code: &str, losses: &[u32]) -> Result<(), Fail> {
    let file = executable(alloc, code, &[7, 0, 0, 0], 64)?;
    let elf = read_elf(alloc, &file)?;
    let program = accept(alloc, &elf)?;
    for loss in losses {
        try_loss(alloc, &program, *loss)?;
    }
    Ok(())
}

#[test]
fn two_nodes_read_over_lossy_links(rt: HostRuntime) -> Result<(), Fail> {
    try_losses(rt.alloc(), READS, &[0, 5, 77, 4_294_967_295])
}
