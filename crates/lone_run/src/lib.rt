#![tactic(auto)]
//! The original program on one processor and one memory, with its steps counted.

ghost use Rattle.std.specs.Prelude.{◌≡◌, IfOk};
ghost use Rattle.exec_map.specs.Contents.{program_of};
ghost use Rattle.one_memory.specs.ByOrder.{end_by};
ghost use Rattle.lone_run.specs.Lone.{IsLoneRun, alone};

use block_layout::Layout;
use exec_map::{End, Exit, Program};
use one_memory::OneMemory;
use run_limits::{Budget, NodeCount};
use std::alloc::{AllocError, Global};

/// How many steps the processor makes, and how it ends.
#[derive(Clone, Copy, PartialEq, Eq)]
pub struct LoneRun {
    pub steps: u64,
    pub end: End,
}

/// Runs one processor of a program, whose shared lines have these blocks, to its end: by itself, or
/// after `budget` steps. Fails only where memory runs out.
pub fn run_alone(
    alloc: Global,
    program: &Program<'_>,
    layout: &Layout,
    budget: Budget,
) -> Result<LoneRun, AllocError>
    ensures { IfOk result (λ r.
        IsLoneRun (alone (program_of program.now) layout.now) budget r.steps r.end) }
{
    let mut machine = OneMemory::new(alloc, program, layout, NodeCount::ONE)?;
    let most = budget.number();
    let steps = machine.run_alone(0, most)?;
    Ok(LoneRun {
        steps,
        end: end_of(machine.exit(0), most),
    })
}

/// How the processor ended: by its exit, or else by the budget.
fn end_of(exit: Option<Exit>, budget: u64) -> End
    ensures { result ≡ end_by budget exit }
{
    match exit {
        Some(exit) => End::Exited(exit),
        None => End::Stopped(budget),
    }
}
