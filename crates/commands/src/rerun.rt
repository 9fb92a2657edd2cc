//! `replay`: the run of a record, made once more.

ghost use Rattle.std.specs.Prelude.{◌≡◌, IfOk, IfErr};
ghost use Rattle.dsm_core.specs.CoreParts.{outcome_of};
ghost use Rattle.replay.specs.Replay.{IsReplay};
ghost use Rattle.rewriting_law.specs.Bounds.{RunsRewritten};
ghost use Rattle.run_record.specs.Record.{IsRecord};
ghost use Rattle.commands.specs.Headline.{IsTextWith};
ghost use Rattle.text_output.specs.Failures.{Puts, IsRecordRefusal};
ghost use Rattle.commands.specs.Failures.{IsReplayFailure};
ghost use Rattle.prepared_run.specs.Ready.{work_for};
ghost use Rattle.judged_files.specs.Given.{bytes_of};
ghost use Rattle.prepared_run.specs.Replays.{IsBrokenRun, IsOutcomeOfReplay};

use dsm_core::Outcome;
use dsm_io::Sink;
use judged_files::input::{Inputs, elf_of};
use judged_files::refusal::Subject;
use prepared_run::{Prepared, event_line, prepare_replay, put_told};
use replay::{ReplayRefused, replay};
use run_record::Record;
use std::alloc::Global;
use text_output::Failure;

/// Makes the run of the record among these files once more, of the rewritten code of the executable
/// among them, and puts the text of the outcome.
pub fn put_replay<O: Sink>(
    alloc: Global,
    inputs: &Inputs<'_>,
    brief: bool,
    out: &mut O,
) -> Result<u8, Failure>
    ensures ok { IfOk result (λ status.
        Puts (IsTextWith (IsOutcomeOfReplay (bytes_of inputs.now)) brief) status
        (O.state out.old) (O.state out.new)) }
    ensures failure { IfErr result (IsReplayFailure (bytes_of inputs.now) brief (O.state out.old)
        (O.state out.new)) }
{
    let elf = elf_of(alloc, Subject::Executable, inputs.executable)?;
    let (prepared, kept) = prepare_replay(alloc, &elf, inputs)?;
    let outcome = make_again(alloc, &prepared, &kept)?;
    put_told(alloc, &outcome, brief, out)
}

/// Makes the run that a record tells of, of the parts that it asks for.
fn make_again(alloc: Global, prepared: &Prepared<'_>, kept: &Record) -> Result<Outcome, Failure>
    requires rewritten { RunsRewritten (work_for prepared.now) }
    requires record { IsRecord kept.now }
    requires nodes { prepared.now.layout.nodes ≡ kept.now.nodes }
    ensures ok { IfOk result (λ o. IsReplay (work_for prepared.now) kept.now (outcome_of o)) }
    ensures refused { IfErr result
        (IsRecordRefusal (IsBrokenRun (work_for prepared.now) kept.now)) }
{
    match replay(alloc, &prepared.work(), kept) {
        Ok(outcome) => Ok(outcome),
        Err(ReplayRefused::Broken { rule, node, entry }) => {
            Err(Failure::Record(event_line(alloc, rule, node, entry)?))
        }
        Err(ReplayRefused::OutOfMemory) => Err(Failure::OutOfMemory),
    }
}
