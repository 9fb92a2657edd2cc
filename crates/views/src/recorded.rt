//! A recorded run: what is judged of it, and its events.

ghost use Rattle.std.specs.Prelude.{◌≡◌, ◌⊎◌, ℕ, List, IfErr, IfOk, OnOk};
ghost use Rattle.node_model.specs.Node.{Work as OfRun};
ghost use Rattle.rewriting_law.specs.Bounds.{RunsRewritten};
ghost use Rattle.run_trace.specs.Traced.{Traced as OfEvent};
ghost use Rattle.run_trace.specs.Tracing.{HasTraced, HasGoneOn, IsFewer, IsSame};
ghost use Rattle.run_trace.specs.Tracing.{record_traced, work_traced};
ghost use Rattle.judged_files.specs.Executables.{ReadsAs};
ghost use Rattle.text_output.specs.Failures.{IsRecordRefusal};
ghost use Rattle.prepared_run.specs.Replays.{IsReplayRefusal, IsBrokenRun, IsWorkOf};
ghost use Rattle.judged_files.specs.Given.{bytes_of};
ghost use Rattle.prepared_run.specs.Ready.{work_for};
ghost use Rattle.run_record.specs.Record.{IsRecord};
ghost use Rattle.run_record.specs.declared.Record.{Record as Kept};
ghost use Rattle.dsm_core.specs.CoreParts.{outcome_of};
ghost use Rattle.replay.specs.Refusals.{IsFirstBroken, IsUnfinished};
ghost use Rattle.replay.specs.Replay.{IsReplay};
ghost use Rattle.replay.specs.declared.refused.ReplayRule.{ReplayRule as Rules};
ghost use Rattle.replay.specs.declared.refused.ReplayRefused.TheVariants.{Broken};
ghost use Rattle.views.specs.Failures.{HasGoneOnTo, TellsWhole};

use dsm_core::Outcome;
use elf32_read::Elf;
use judged_files::input::Inputs;
use prepared_run::{Prepared, event_line, prepare_replay};
use replay::{ReplayRefused, replay, replay_law};
use run_record::Record;
use run_trace::{Traced, Tracer};
use std::alloc::{AllocError, Global};
use text_output::Failure;

/// A recorded run that was judged.
#[derive(Drop)]
pub(crate) struct JudgedRun<'a> {
    /// What it is a run of.
    pub(crate) prepared: Prepared<'a>,
    /// Its record, which tells of a whole run.
    pub(crate) kept: Record,
}

/// Judges the executable, which was read, and the record, and makes the run once more: what it is
/// of and its record.
pub(crate) fn judged_run<'a>(
    alloc: Global,
    elf: &'a Elf<'_>,
    inputs: &Inputs<'_>,
) -> Result<JudgedRun<'a>, Failure>
    requires reads { ReadsAs (bytes_of inputs.now).executable elf.now }
    ensures rewritten { IfOk result (λ r. RunsRewritten (work_for r.prepared)) }
    ensures asked { IfOk result (λ r. IsWorkOf (bytes_of inputs.now) r.kept r.prepared.program
        r.prepared.rewritten.plan (work_for r.prepared)) }
    ensures whole { IfOk result (λ r. TellsWhole (work_for r.prepared) r.kept) }
    ensures refused { IfErr result (IsReplayRefusal (bytes_of inputs.now)) }
{
    let (prepared, kept) = prepare_replay(alloc, elf, inputs)?;
    judge_events(alloc, &prepared, &kept)?;
    Ok(JudgedRun { prepared, kept })
}

/// Makes the run that a record tells of, whose events are refused otherwise.
fn judge_events(alloc: Global, prepared: &Prepared<'_>, kept: &Record) -> Result<Outcome, Failure>
    requires rewritten { RunsRewritten (work_for prepared.now) }
    requires record { IsRecord kept.now }
    requires nodes { prepared.now.layout.nodes ≡ kept.now.nodes }
    ensures ok { IfOk result (λ o. IsReplay (work_for prepared.now) kept.now (outcome_of o)) }
    ensures refused { IfErr result
        (IsRecordRefusal (IsBrokenRun (work_for prepared.now) kept.now)) }
{
    match replay(alloc, &prepared.work(), kept) {
        Ok(outcome) => Ok(outcome),
        Err(refused) => Err(refusal_of(alloc, refused)),
    }
}

/// The failure of a view whose run is refused: the line of the rule that an event breaks, or want
/// of memory.
pub(crate) fn refusal_of(alloc: Global, refused: ReplayRefused) -> Failure
    ensures { (work : OfRun) (kept : Kept)
        → ((rule : Rules) (node entry : ℕ) → refused ≡ Broken rule node entry
        → IsFirstBroken work kept rule node entry ⊎ IsUnfinished work kept rule node entry)
        → IsRecordRefusal (IsBrokenRun work kept) result }
{
    match refused {
        ReplayRefused::Broken { rule, node, entry } => {
            match event_line(alloc, rule, node, entry) {
                Ok(line) => Failure::Record(line),
                Err(AllocError) => Failure::OutOfMemory,
            }
        }
        ReplayRefused::OutOfMemory => Failure::OutOfMemory,
    }
}

/// What the next event of a whole run does; None where all were made.
fn next_event(tracer: &mut Tracer<'_>) -> Result<Option<Traced>, AllocError>
    requires traced { (seen : List OfEvent) × HasTraced tracer.old seen }
    requires whole { TellsWhole (work_traced tracer.old) (record_traced tracer.old) }
    ensures next { (seen : List OfEvent) → HasTraced tracer.old seen
        → IfOk result (HasGoneOn tracer.new seen) }
    ensures same { OnOk result (IsSame tracer.old tracer.new) }
    ensures fewer { IfOk result (IsFewer tracer.old tracer.new) }
{
    replay_law();
    match tracer.next() {
        Ok(event) => Ok(event),
        Err(ReplayRefused::Broken { .. }) => unreachable!(),
        Err(ReplayRefused::OutOfMemory) => Err(AllocError),
    }
}

/// What the next event of a whole run does, up to this stamp; None where all events that are left
/// have later ones.
pub(crate) fn next_event_to(tracer: &mut Tracer<'_>, to: u64) -> Result<Option<Traced>, AllocError>
    requires traced { (seen : List OfEvent) × HasTraced tracer.old seen }
    requires whole { TellsWhole (work_traced tracer.old) (record_traced tracer.old) }
    ensures next { (seen : List OfEvent) → HasTraced tracer.old seen
        → IfOk result (HasGoneOnTo to tracer.new seen) }
    ensures same { OnOk result (IsSame tracer.old tracer.new) }
    ensures fewer { IfOk result (IsFewer tracer.old tracer.new) }
{
    replay_law();
    let Some(event) = next_event(tracer)? else {
        return Ok(None);
    };
    if event.stamp > to {
        return Ok(None);
    }
    Ok(Some(event))
}
