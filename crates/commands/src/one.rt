//! `one`: the original's processors on one memory, by the order of a number.

ghost use Rattle.std.specs.Prelude.{false, IfOk, IfErr};
ghost use Rattle.commands.specs.Headline.{IsTextWith, IsOutcomeByOrder};
ghost use Rattle.judged_files.specs.Executables.{IsUnaccepted};
ghost use Rattle.text_output.specs.Failures.{Puts, FailsAs};
ghost use Rattle.judged_files.specs.Given.{bytes_of};
ghost use Rattle.commands.specs.Refusals.{IsBadLayout};

use dsm_io::Sink;
use judged_files::input::{Inputs, elf_of, program_of};
use judged_files::layout::layout_for;
use judged_files::refusal::Subject;
use one_memory::run_by_order;
use prepared_run::put_outcome;
use run_limits::{Budget, NodeCount};
use std::alloc::Global;
use text_output::Failure;

/// Runs the original of the executable among these files, with the blocks of the layout, and puts
/// the text of the outcome.
pub fn one<O: Sink>(
    alloc: Global,
    inputs: &Inputs<'_>,
    nodes: NodeCount,
    order: u32,
    budget: Budget,
    out: &mut O,
) -> Result<u8, Failure>
    ensures ok { IfOk result (λ status.
        Puts (IsTextWith (IsOutcomeByOrder (bytes_of inputs.now) nodes order budget) false) status
        (O.state out.old) (O.state out.new)) }
    ensures failure { IfErr result (FailsAs
        (IsTextWith (IsOutcomeByOrder (bytes_of inputs.now) nodes order budget) false)
        (IsUnaccepted (bytes_of inputs.now).executable) (IsBadLayout (bytes_of inputs.now) nodes)
        (O.state out.old) (O.state out.new)) }
{
    let elf = elf_of(alloc, Subject::Executable, inputs.executable)?;
    let program = program_of(alloc, &elf)?;
    let layout = layout_for(alloc, &program, inputs.layout, nodes)?;
    let outcome = run_by_order(alloc, &program, &layout, nodes, order, budget)?;
    put_outcome(alloc, &outcome.output, &outcome.ends, &[], out)
}
