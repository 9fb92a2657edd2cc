//! `run`: the executable's rewritten code on nodes in threads, and the record of the run.

ghost use Rattle.std.specs.Prelude.{◌≡◌, ◌≢◌, ℕ, List, Some, Contains, IfOk, IfErr};
ghost use Rattle.rewriting_law.specs.Bounds.{RunsRewritten};
ghost use Rattle.node_model.specs.Core.{IsOver};
ghost use Rattle.dsm_core.specs.CoreParts.{work_of, core_of, outcome_of};
ghost use Rattle.command_line.specs.Commands.{Run, writes};
ghost use Rattle.command_line.specs.Meaning.{file_name, run_of};
ghost use Rattle.commands.specs.Answers.{AreLeft, AreWritten};
ghost use Rattle.commands.specs.Headline.{IsText, held_by};
ghost use Rattle.text_output.specs.Failures.{Puts};
ghost use Rattle.commands.specs.Failures.{IsMade, IsOwnRecorded, IsRecordFailure, IsPerformFailure};
ghost use Rattle.commands.specs.Failures.{AreKept};
ghost use Rattle.prepared_run.specs.Ready.{work_for};
ghost use Rattle.judged_files.specs.Given.{bytes_of};

use crate::record::write_record_of;
use command_line::RunArguments;
use dsm_core::{Core, Outcome};
use dsm_io::{Files, Sink};
use judged_files::input::{Inputs, elf_of};
use judged_files::refusal::Subject;
use node_threads::{Gate, race};
use prepared_run::{Prepared, prepare, put_told};
use std::alloc::{AllocError, Global};
use std::sync::Wait;
use std::thread::Threads;
use text_output::Failure;

/// Runs the rewritten code of the executable among these files, which a file of code or a verified
/// one may hold, on nodes in threads of their own; writes the record of the run, where a file is
/// named for it; and puts the text of the outcome.
pub fn run<R: Threads + Wait + Sync, F: Files, O: Sink, G: Gate + Sync>(
    rt: &R,
    alloc: Global,
    inputs: &Inputs<'_>,
    arguments: &RunArguments<'_>,
    files: &mut F,
    out: &mut O,
    gate: &G,
) -> Result<u8, Failure>
    ensures ok { IfOk result (λ status. Puts (IsText (Run (run_of arguments.now))
        (F.state files.new) (bytes_of inputs.now)) status (O.state out.old) (O.state out.new)) }
    ensures failure { IfErr result (IsPerformFailure (Run (run_of arguments.now))
        (bytes_of inputs.now) (F.state files.old) (F.state files.new) (O.state out.old)
        (O.state out.new)) }
    ensures others { (name : List ℕ) → (Contains (writes (Run (run_of arguments.now))) name → ⊥)
        → (F.state files.new).held name ≡ (F.state files.old).held name }
    ensures kept { IfErr result (AreKept (F.state files.old) (F.state files.new)) }
    ensures written { IfOk result (λ status. AreWritten (Run (run_of arguments.now))
        (bytes_of inputs.now) (F.state files.new)) }
    ensures left { IfErr result (λ f. AreLeft (Run (run_of arguments.now)) (bytes_of inputs.now)
        (F.state files.old) (F.state files.new)) }
{
    let elf = elf_of(alloc, Subject::Executable, inputs.executable)?;
    let execution = &arguments.execution;
    let prepared = prepare(alloc, &elf, inputs, execution.nodes, execution.budget)?;
    let outcome = execute(rt, alloc, &prepared, arguments.record_file, files, gate)?;
    put_told(alloc, &outcome, execution.brief, out)
}

/// Runs the nodes of the layout to their ends, writes the record of the run into a file, where one
/// is named, and gives the outcome.
fn execute<R: Threads + Wait + Sync, F: Files, G: Gate + Sync>(
    rt: &R,
    alloc: Global,
    prepared: &Prepared<'_>,
    record_file: Option<&str>,
    files: &mut F,
    gate: &G,
) -> Result<Outcome, Failure>
    requires rewritten { RunsRewritten (work_for prepared.now) }
    ensures outcome { IfOk result (λ o. IsOwnRecorded prepared.now.batches (work_for prepared.now)
        (held_by (F.state files.new) (file_name record_file.entry)) (outcome_of o)) }
    ensures failure { IfErr result (IsRecordFailure (file_name record_file.entry)
        (F.state files.old) (F.state files.new)) }
    ensures made { IfErr result (IsMade (work_for prepared.now)) }
    ensures others { (n : List ℕ) → (file_name record_file.entry ≢ Some n)
        → (F.state files.new).held n ≡ (F.state files.old).held n }
{
    let core = raced_core(rt, alloc, prepared, gate)?;
    let outcome = core.outcome(alloc)?;
    write_record_of(alloc, &core, prepared, record_file, files)?;
    Ok(outcome)
}

/// The nodes of the layout at their ends, where each ran in a thread of its own.
fn raced_core<'a, R: Threads + Wait + Sync, G: Gate + Sync>(
    rt: &R,
    alloc: Global,
    prepared: &'a Prepared<'a>,
    gate: &G,
) -> Result<Core<'a>, AllocError>
    requires rewritten { RunsRewritten (work_for prepared.now) }
    ensures work { IfOk result (λ core. work_of core ≡ work_for prepared.now) }
    ensures over { IfOk result (λ core. IsOver (work_of core) (core_of core)) }
{
    let core = Core::new(alloc, &prepared.work())?;
    race(rt, alloc, core, gate)
}
