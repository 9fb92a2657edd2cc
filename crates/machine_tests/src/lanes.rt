//! Nodes of several processors, by an order.

ghost use Rattle.exec_map.specs.Contents.{program_of};
ghost use Rattle.jump_map.specs.Image.{IsRewriting};

use crate::cores::layout_over;
use crate::lossy::READS;
use elf32_read::read_elf;
use exec_map::{End, Exit, Program, accept};
use lossy_sim::dsm_core::{Outcome, Work};
use rewriter::{Options, Rewritten, rewrite};
use run_limits::Budget;
use smp_sim::smp_simulate;
use std::alloc::Global;
use std::test::Fail;
use test_calls::files::executable;

/// The outcome of a rewritten program on two nodes of two processors each, by the order of a
/// number.
fn run(
    alloc: Global,
    rewritten: &Rewritten,
    program: &Program<'_>,
    order: u32,
) -> Result<Outcome, Fail>
    requires rewriting { IsRewriting (program_of program.now) rewritten.now.plan
        rewritten.now.image }
{
    let layout = layout_over(alloc, program, 2)?;
    let Some(budget) = Budget::of(100_000_000) else {
        return Err(Fail::from("a hundred million is a budget"));
    };
    // For the proof alone.
    let _ = program.entry();
    let _ = budget.number();
    let work = Work {
        program,
        image: rewritten.image(),
        layout: &layout,
        budget,
    };
    let outcome = smp_simulate(alloc, &work, 2, order)?;
    Ok(outcome)
}

/// Whether four processors exit with code 0, and one read of node 1's brings their block there.
fn is_read_once(outcome: &Outcome) -> bool {
    let [home, other] = outcome.counts.as_slice() else {
        return false;
    };
    outcome.ends.as_slice() == [End::Exited(Exit::Code(0)); 4].as_slice()
        && home.read == 0
        && home.messages == 2
        && other.read == 1
        && other.messages == 2
        && other.falses <= 1
}

/// Fails the test where, by the order of a number, each processor of node 1 reads.
fn try_order(alloc: Global, program: &Program<'_>, order: u32) -> Result<(), Fail> {
    let rewritten = rewrite(alloc, program, Options { batch: true })?;
    if is_read_once(&run(alloc, &rewritten, program, order)?) {
        return Ok(());
    }
    Err(Fail::from("one read for both processors of node 1"))
}

#[test]
fn two_processors_of_a_node_wait_for_one_read(rt: HostRuntime) -> Result<(), Fail> {
    let alloc = rt.alloc();
    let file = executable(alloc, READS, &[7, 0, 0, 0], 64)?;
    let elf = read_elf(alloc, &file)?;
    let program = accept(alloc, &elf)?;
    for order in [0, 1, 7, 4_294_967_295] {
        try_order(alloc, &program, order)?;
    }
    Ok(())
}
