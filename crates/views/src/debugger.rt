//! `gdb`: a recorded run, as GDB sees it.

ghost use Rattle.std.specs.Prelude.{◌≡◌, ℕ, List, IfErr, IfOk, OnOk, map};
ghost use Rattle.jump_map.specs.Image.{IsRewriting};
ghost use Rattle.rewriting_law.specs.Bounds.{RunsRewritten};
ghost use Rattle.run_record.specs.Record.{IsRecord};
ghost use Rattle.templates.specs.Code.{HasCode};
ghost use Rattle.recorded_run.specs.debugged_run.one_memory.Shown.{pick_of};
ghost use Rattle.recorded_run.specs.record_picks.Picks.{ArePicksOf, IsInterleaved};
ghost use Rattle.judged_files.specs.Given.{bytes_of};
ghost use Rattle.judged_files.specs.Inputs.{Inputs as Given};
ghost use Rattle.prepared_run.specs.Ready.{work_for};
ghost use Rattle.prepared_run.specs.Replays.{IsBrokenRun, IsWorkOf};
ghost use Rattle.text_output.specs.Failures.{IsRecordRefusal};
ghost use Rattle.command_line.specs.Views.{recorded_of};
ghost use Rattle.views.specs.Debugger.{HasShown, streams};
ghost use Rattle.views.specs.Failures.{FailsAsSession, HasShownRun, IsInputFault, IsShowFailure};

use crate::input::{read_inputs, run_files};
use crate::recorded::refusal_of;
use byte_source::Source;
use command_line::{Megabytes, RecordedFiles};
use dsm_core::Work;
use dsm_io::{Files, Sink};
use flow_graph::Graph;
use gdb_server::{ServeError, serve};
use judged_files::input::{Inputs, elf_of};
use judged_files::refusal::Subject;
use prepared_run::{Prepared, prepare_replay};
use recorded_run::RecordedRun;
use recorded_run::debugged_run::time_machine::one_memory::Pick;
use recorded_run::record_picks::picks_of_record;
use run_record::Record;
use std::alloc::{AllocError, Global};
use templates::Code;
use text_output::Failure;

/// Serves a debugger at the run on one memory that a recorded run stands for, with the nodes beside
/// it. Checkpoints take at most so much memory.
pub(crate) fn show_run<F: Files, S: Source, O: Sink>(
    alloc: Global,
    run: &RecordedFiles<'_>,
    memory: Megabytes,
    files: &mut F,
    source: &mut S,
    out: &mut O,
) -> Result<(), Failure>
    ensures ok { OnOk result (HasShownRun (recorded_of run.now) (F.state files.old)
        (streams (S.state source.old) (S.state source.new) (O.state out.old) (O.state out.new))) }
    ensures failure { IfErr result
        (IsShowFailure (recorded_of run.now) (F.state files.old) (F.state files.new)
        (streams (S.state source.old) (S.state source.new) (O.state out.old) (O.state out.new))) }
    ensures contents { (n : List ℕ) → (F.state files.new).held n ≡ (F.state files.old).held n }
{
    let read = read_inputs(alloc, files, run_files(run))?;
    serve_run(alloc, &read.lend(), memory, source, out)
}

/// Serves a debugger at the run of the record among these files and the executable among them.
fn serve_run<S: Source, O: Sink>(
    alloc: Global,
    inputs: &Inputs<'_>,
    memory: Megabytes,
    source: &mut S,
    out: &mut O,
) -> Result<(), Failure>
    ensures ok { OnOk result (HasShown (bytes_of inputs.now)
        (streams (S.state source.old) (S.state source.new) (O.state out.old) (O.state out.new))) }
    ensures failure { IfErr result (FailsAsSession (bytes_of inputs.now)
        (streams (S.state source.old) (S.state source.new) (O.state out.old) (O.state out.new))) }
{
    let elf = elf_of(alloc, Subject::Executable, inputs.executable)?;
    let (prepared, kept) = prepare_replay(alloc, &elf, inputs)?;
    serve_prepared(alloc, &prepared, &kept, memory, source, out)
}

/// Serves a debugger at the run of a record, which was made ready.
fn serve_prepared<S: Source, O: Sink>(
    alloc: Global,
    prepared: &Prepared<'_>,
    kept: &Record,
    memory: Megabytes,
    source: &mut S,
    out: &mut O,
) -> Result<(), Failure>
    requires rewritten { RunsRewritten (work_for prepared.now) }
    requires plan { IsRewriting (work_for prepared.now).program prepared.now.rewritten.plan
        (work_for prepared.now).image }
    requires record { IsRecord kept.now }
    requires nodes { prepared.now.layout.nodes ≡ kept.now.nodes }
    ensures ok { (inputs : Given)
        → IsWorkOf inputs kept.now prepared.now.program prepared.now.rewritten.plan
        (work_for prepared.now)
        → OnOk result (HasShown inputs
        (streams (S.state source.old) (S.state source.new) (O.state out.old) (O.state out.new))) }
    ensures failure { (inputs : Given)
        → IsWorkOf inputs kept.now prepared.now.program prepared.now.rewritten.plan
        (work_for prepared.now)
        → IfErr result (FailsAsSession inputs
        (streams (S.state source.old) (S.state source.new) (O.state out.old) (O.state out.new))) }
{
    let graph = Graph::of(alloc, &prepared.program)?;
    let code = graph.code();
    let picks = picks_of(alloc, prepared, code, kept)?;
    let work = Work {
        program: &prepared.program,
        image: prepared.rewritten.image(),
        layout: &prepared.layout,
        budget: prepared.budget,
    };
    let plan = prepared.rewritten.plan();
    let megabytes = memory.as_u32();
    let mut run = RecordedRun::new(alloc, &work, plan, code, kept, megabytes, picks)?;
    match serve(alloc, &mut run, source, out) {
        Ok(_) => Ok(()),
        Err(ServeError::Input) => Err(unread(alloc)),
        Err(ServeError::Output) => Err(Failure::Output),
        Err(ServeError::OutOfMemory) => Err(Failure::OutOfMemory),
    }
}

/// The picks of the run on one memory that the run of a record stands for. A run whose events can't
/// be made as they are told of is refused.
fn picks_of(
    alloc: Global,
    prepared: &Prepared<'_>,
    code: &Code,
    kept: &Record,
) -> Result<Vec<Pick>, Failure>
    requires rewritten { RunsRewritten (work_for prepared.now) }
    requires plan { IsRewriting (work_for prepared.now).program prepared.now.rewritten.plan
        (work_for prepared.now).image }
    requires code { HasCode (work_for prepared.now).program code.now }
    requires record { IsRecord kept.now }
    requires nodes { prepared.now.layout.nodes ≡ kept.now.nodes }
    ensures picks { IfOk result (λ picks. ArePicksOf (work_for prepared.now)
        prepared.now.rewritten.plan kept.now (map pick_of picks.items)) }
    ensures allowed { IfOk result (λ picks.
        IsInterleaved (work_for prepared.now) (map pick_of picks.items)) }
    ensures refused { IfErr result
        (IsRecordRefusal (IsBrokenRun (work_for prepared.now) kept.now)) }
{
    let plan = prepared.rewritten.plan();
    match picks_of_record(alloc, &prepared.work(), plan, code, kept) {
        Ok(picks) => Ok(picks),
        Err(refused) => Err(refusal_of(alloc, refused)),
    }
}

/// The failure of an input that couldn't be read.
fn unread(alloc: Global) -> Failure
    ensures { IsInputFault result }
{
    match Vec::from_slice(alloc, b"shasta: cannot read standard input\n") {
        Ok(line) => Failure::Input(line),
        Err(AllocError) => Failure::OutOfMemory,
    }
}
