//! `sim`: the executable's rewritten code on nodes of one thread, by the order of a number. Each is
//! of one processor, and the links lose nothing, or packets by the order of another number; or each
//! is of several processors.

ghost use Rattle.std.specs.Prelude.{◌≤◌, ◌*◌, IfOk, IfErr};
ghost use Rattle.rewriting_law.specs.Bounds.{RunsRewritten};
ghost use Rattle.dsm_core.specs.CoreParts.{outcome_of, work_in};
ghost use Rattle.smp_sim.specs.CoreParts.{work_with};
ghost use Rattle.command_line.specs.Tasks.{AreFew};
ghost use Rattle.command_line.specs.Meaning.{lanes_of, loss_of, sim_of};
ghost use Rattle.commands.specs.Headline.{IsTextOfSim};
ghost use Rattle.commands.specs.Runs.{IsOutcomeOn, IsOutcomeOnLanes};
ghost use Rattle.text_output.specs.Failures.{Puts, FailsAs};
ghost use Rattle.prepared_run.specs.Ready.{work_for};
ghost use Rattle.judged_files.specs.Given.{bytes_of};
ghost use Rattle.judged_files.specs.Refusals.{IsRunRefused, IsBadRunLayout};

use command_line::{Machine, SimArguments};
use dsm_core::{Outcome, Work};
use dsm_io::Sink;
use judged_files::input::{Inputs, elf_of};
use judged_files::refusal::Subject;
use lane_law::{lane_law, lane_progress_law};
use lossy_sim::lossy_simulate;
use prepared_run::{Prepared, prepare, put_told};
use run_limits::LaneCount;
use shared_sim::simulate;
use smp_sim::smp_simulate;
use std::alloc::{AllocError, Global};
use text_output::Failure;

/// Runs the rewritten code of the executable among these files, which a file of code or a verified
/// one may hold, on nodes of one thread, and puts the text of the outcome.
pub fn sim<O: Sink>(
    alloc: Global,
    inputs: &Inputs<'_>,
    arguments: &SimArguments<'_>,
    out: &mut O,
) -> Result<u8, Failure>
    requires few { AreFew arguments.now.execution.nodes (loss_of arguments.now.machine)
        (lanes_of arguments.now.machine) }
    ensures ok { IfOk result (λ status. Puts (IsTextOfSim (sim_of arguments.now)
        (bytes_of inputs.now)) status (O.state out.old) (O.state out.new)) }
    ensures failure { IfErr result (FailsAs (IsTextOfSim (sim_of arguments.now)
        (bytes_of inputs.now)) (IsRunRefused (bytes_of inputs.now))
        (IsBadRunLayout (bytes_of inputs.now) arguments.now.execution.nodes)
        (O.state out.old) (O.state out.new)) }
{
    let elf = elf_of(alloc, Subject::Executable, inputs.executable)?;
    let execution = &arguments.execution;
    let prepared = prepare(alloc, &elf, inputs, execution.nodes, execution.budget)?;
    let outcome = execute(alloc, &prepared, arguments.order, arguments.machine)?;
    put_told(alloc, &outcome, execution.brief, out)
}

/// Runs the nodes of the layout to their ends, by the order of a number, on such a machine.
fn execute(
    alloc: Global,
    prepared: &Prepared<'_>,
    order: u32,
    machine: Machine,
) -> Result<Outcome, AllocError>
    requires rewritten { RunsRewritten (work_for prepared.now) }
    requires few { AreFew (work_for prepared.now).layout.nodes (loss_of machine)
        (lanes_of machine) }
    ensures outcome { IfOk result (λ o. IsOutcomeOn machine (work_for prepared.now) order
        (outcome_of o)) }
{
    let work = prepared.work();
    match machine {
        Machine::Plain => simulate(alloc, &work, order),
        Machine::Lossy(loss) => lossy_simulate(alloc, &work, order, loss),
        Machine::Lanes(lanes) => simulate_on_lanes(alloc, &work, order, lanes),
    }
}

/// Runs the nodes, each of so many processors, to their ends, by the order of a number.
fn simulate_on_lanes(
    alloc: Global,
    work: &Work<'_>,
    order: u32,
    lanes: LaneCount,
) -> Result<Outcome, AllocError>
    requires rewritten { RunsRewritten (work_in work.now) }
    requires few { (work_in work.now).layout.nodes * lanes ≤ 16 }
    ensures outcome { IfOk result (λ o. IsOutcomeOnLanes (work_with (work_in work.now) lanes) order
        (outcome_of o)) }
{
    lane_law();
    lane_progress_law();
    smp_simulate(alloc, work, lanes.as_u8(), order)
}
