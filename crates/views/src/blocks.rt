//! `blocks`: what each block cost in a recorded run.

ghost use Rattle.std.specs.Prelude.{◌≡◌, ◌⊎◌, ℕ, [], List, IfErr, IfOk, IsErrOf, OnOk};
ghost use Rattle.rewriting_law.specs.Bounds.{RunsRewritten};
ghost use Rattle.run_record.specs.Record.{IsRecord};
ghost use Rattle.replay.specs.Refusals.{IsFirstBroken, IsUnfinished};
ghost use Rattle.replay.specs.declared.refused.ReplayRule.{ReplayRule as Rules};
ghost use Rattle.replay.specs.declared.refused.ReplayRefused.TheVariants.{Broken};
ghost use Rattle.run_trace.specs.Traced.{Traced as OfEvent};
ghost use Rattle.run_trace.specs.Trace.{IsTraceOf};
ghost use Rattle.run_trace.specs.Tracing.{HasTraced, plan_traced, record_traced, work_traced};
ghost use Rattle.block_view.specs.Kept.{AreSumsOf, layout_in};
ghost use Rattle.text_output.specs.Failures.{IsRecordRefusal, Puts};
ghost use Rattle.judged_files.specs.Given.{bytes_of};
ghost use Rattle.prepared_run.specs.Ready.{work_for};
ghost use Rattle.prepared_run.specs.Replays.{IsBrokenRun};
ghost use Rattle.views.specs.Blocks.{IsCostsText};
ghost use Rattle.views.specs.Failures.{FailsAsRun, IsTextOfBlocks, IsTextOfRun};

use crate::recorded::refusal_of;
use block_layout::Layout;
use block_view::Sums;
use dsm_io::Sink;
use elf_symbols::Symbols;
use flow_graph::Graph;
use judged_files::input::{Inputs, elf_of};
use judged_files::refusal::Subject;
use prepared_run::{Prepared, prepare_replay, push_nodes};
use replay::ReplayRefused;
use run_record::Record;
use run_trace::{Tracer, Until};
use std::alloc::{AllocError, Global};
use text_output::{Failure, put};

/// Puts what each block cost in the run of the record among these files and the executable among
/// them.
pub(crate) fn put_blocks<O: Sink>(
    alloc: Global,
    inputs: &Inputs<'_>,
    out: &mut O,
) -> Result<(), Failure>
    ensures ok { OnOk result (Puts (IsTextOfBlocks (bytes_of inputs.now)) 0
        (O.state out.old) (O.state out.new)) }
    ensures failure { IfErr result (FailsAsRun (IsTextOfBlocks (bytes_of inputs.now))
        (bytes_of inputs.now) (O.state out.old) (O.state out.new)) }
{
    let elf = elf_of(alloc, Subject::Executable, inputs.executable)?;
    let (prepared, kept) = prepare_replay(alloc, &elf, inputs)?;
    let symbols = Symbols::of(alloc, &elf)?;
    let text = costs_text(alloc, &prepared, &kept, &symbols)?;
    put(out, &text)
}

/// The text of what each block cost in the run that a record tells of, whose events are refused
/// otherwise. Fails also where a sum has no room.
fn costs_text(
    alloc: Global,
    prepared: &Prepared<'_>,
    kept: &Record,
    symbols: &Symbols<'_>,
) -> Result<Vec<u8>, Failure>
    requires rewritten { RunsRewritten (work_for prepared.now) }
    requires record { IsRecord kept.now }
    requires nodes { prepared.now.layout.nodes ≡ kept.now.nodes }
    ensures ok { IfOk result (λ t. IsTextOfRun symbols.now prepared.now kept.now t.items) }
    ensures refused { IfErr result
        (IsRecordRefusal (IsBrokenRun (work_for prepared.now) kept.now)) }
{
    let graph = Graph::of(alloc, &prepared.program)?;
    let plan = prepared.rewritten.plan();
    let mut tracer = Tracer::new(alloc, &prepared.work(), plan, graph.code(), kept)?;
    match sums_of(alloc, &prepared.layout, &mut tracer) {
        Ok(sums) => Ok(text_of(alloc, &sums, symbols)?),
        Err(refused) => Err(refusal_of(alloc, refused)),
    }
}

/// The sums over the events of a run, from its start on; a run whose events can't be made as they
/// are told of is refused. Fails also where a sum has no room.
fn sums_of<'a>(
    alloc: Global,
    layout: &'a Layout,
    tracer: &mut Tracer<'_>,
) -> Result<Sums<'a>, ReplayRefused>
    requires start { HasTraced tracer.old [] }
    ensures sums { IfOk result (λ s. (trace : List OfEvent)
        × IsTraceOf (work_traced tracer.old) (plan_traced tracer.old) (record_traced tracer.old)
        trace × AreSumsOf s trace) }
    ensures layout { IfOk result (λ s. layout_in s ≡ layout.now) }
    ensures refused { (rule : Rules) (node entry : ℕ) → IsErrOf result (Broken rule node entry)
        → IsFirstBroken (work_traced tracer.old) (record_traced tracer.old) rule node entry
        ⊎ IsUnfinished (work_traced tracer.old) (record_traced tracer.old) rule node entry }
{
    let mut sums = Sums::new(alloc, layout)?;
    loop {
        sums.laws();
        if let Some(word) = tracer.run_until(Until::Write) {
            sums.add_passed(&word)?;
        } else if let Some(event) = tracer.next()? {
            sums.add(&event)?;
        } else {
            return Ok(sums);
        }
    }
}

/// The text of sums: what each node counts, and the lines of the blocks. Fails also where a cost
/// has no room.
fn text_of(alloc: Global, sums: &Sums<'_>, symbols: &Symbols<'_>) -> Result<Vec<u8>, AllocError>
    requires kept { (seen : List OfEvent) × AreSumsOf sums.now seen }
    ensures { (seen : List OfEvent) → AreSumsOf sums.now seen
        → IfOk result (λ t. IsCostsText symbols.now (layout_in sums.now) seen t.items) }
{
    let mut text = Vec::new(alloc);
    push_nodes(&mut text, sums.nodes())?;
    sums.push_lines(alloc, symbols, &mut text)?;
    Ok(text)
}
