//! `page`: a page that draws a recorded run.

ghost use Rattle.std.specs.Prelude.{◌≡◌, ◌≢◌, ◌<◌, [], ◌∷◌, ◌++◌, None, ℕ, List, true, false};
ghost use Rattle.std.specs.Prelude.{IfErr, IfOk, OnOk};
ghost use Rattle.rewriting_law.specs.Bounds.{RunsRewritten};
ghost use Rattle.run_record.specs.Record.{IsRecord};
ghost use Rattle.run_trace.specs.Given.{traced_of};
ghost use Rattle.run_trace.specs.Traced.{Traced as OfEvent};
ghost use Rattle.run_trace.specs.Trace.{IsTraceOf};
ghost use Rattle.run_trace.specs.Passing.{passed_of};
ghost use Rattle.run_trace.specs.Tracing.{HasTraced, IsSame, events_to_trace};
ghost use Rattle.run_trace.specs.Tracing.{plan_traced, record_traced, work_traced};
ghost use Rattle.block_view.specs.event_text.Shown.{shown};
ghost use Rattle.page_view.specs.page_events.Shown.{kept};
ghost use Rattle.prepared_run.specs.Replays.{IsReplayRefusal};
ghost use Rattle.command_line.specs.Views.{recorded_of};
ghost use Rattle.judged_files.specs.Given.{bytes_of};
ghost use Rattle.prepared_run.specs.Ready.{work_for};
ghost use Rattle.views.specs.Failures.{IsPageFailure, IsPageWritten, TellsWhole};
ghost use Rattle.views.specs.Page.{HasAddedOn, IsPageText, drawn_text};

use crate::input::{read_inputs, run_files};
use crate::recorded::{JudgedRun, judged_run, next_event_to};
use crate::trace::Selection;
use block_view::event_text::{EventFilter, is_passed_shown, is_shown, shown_law};
use command_line::RecordedFiles;
use dsm_io::Files;
use flow_graph::Graph;
use judged_files::input::{Inputs, elf_of};
use judged_files::refusal::Subject;
use page_view::page_events::Shown;
use page_view::{Page, push_page};
use replay::replay_law;
use run_trace::{Traced, Tracer, Until, WordPassed};
use std::alloc::{AllocError, Global};
use text_output::{Failure, write_file};

/// Writes the page of the events that are asked for, of a recorded run, into a file.
pub(crate) fn write_page<F: Files>(
    alloc: Global,
    files: &mut F,
    run: &RecordedFiles<'_>,
    output: &str,
    selection: Selection,
) -> Result<(), Failure>
    ensures ok { OnOk result (IsPageWritten (recorded_of run.now) output.now selection
        (F.state files.old) (F.state files.new)) }
    ensures failure { IfErr result (IsPageFailure (recorded_of run.now) output.now selection
        (F.state files.old) (F.state files.new)) }
    ensures others { (n : List ℕ) → n ≢ output.now
        → (F.state files.new).held n ≡ (F.state files.old).held n }
{
    let read = read_inputs(alloc, files, run_files(run))?;
    let page = page_of(alloc, &read.lend(), selection)?;
    write_file(alloc, files, output, &page)
}

/// The page of the events that are asked for, of the run of the record among these files and the
/// executable among them.
fn page_of(alloc: Global, inputs: &Inputs<'_>, selection: Selection) -> Result<Vec<u8>, Failure>
    ensures ok { IfOk result (λ page. IsPageText (bytes_of inputs.now) selection page.items) }
    ensures failure { IfErr result (IsReplayRefusal (bytes_of inputs.now)) }
{
    let elf = elf_of(alloc, Subject::Executable, inputs.executable)?;
    let run = judged_run(alloc, &elf, inputs)?;
    let page = page_of_run(alloc, &run, selection)?;
    Ok(page)
}

/// The page of the events of a judged run that are asked for.
fn page_of_run(
    alloc: Global,
    run: &JudgedRun<'_>,
    selection: Selection,
) -> Result<Vec<u8>, AllocError>
    requires rewritten { RunsRewritten (work_for run.now.prepared) }
    requires record { IsRecord run.now.kept }
    requires nodes { run.now.prepared.layout.nodes ≡ run.now.kept.nodes }
    requires whole { TellsWhole (work_for run.now.prepared) run.now.kept }
    ensures { (trace : List OfEvent)
        → IsTraceOf (work_for run.now.prepared) run.now.prepared.rewritten.plan run.now.kept trace
        → IfOk result (λ page. page.items ≡ drawn_text run.now.prepared.program
        run.now.prepared.layout selection trace) }
{
    let program = &run.prepared.program;
    let graph = Graph::of(alloc, program)?;
    let plan = run.prepared.rewritten.plan();
    let mut tracer = Tracer::new(alloc, &run.prepared.work(), plan, graph.code(), &run.kept)?;
    let shown = shown_events(alloc, &mut tracer, &selection.about(None))?;
    let mut page = Vec::new(alloc);
    let drawn = Page {
        program,
        layout: &run.prepared.layout,
        shown: &shown,
        to: selection.to,
    };
    push_page(alloc, &mut page, &drawn)?;
    Ok(page)
}

/// The events of a whole run that a page shows, from its start on. None is made after the one that
/// fills the page, nor after the first that is later than all asked for.
fn shown_events(
    alloc: Global,
    tracer: &mut Tracer<'_>,
    options: &EventFilter,
) -> Result<Shown, AllocError>
    requires start { HasTraced tracer.old [] }
    requires whole { TellsWhole (work_traced tracer.old) (record_traced tracer.old) }
    requires words { options.now.words ≡ false }
    ensures { (trace : List OfEvent)
        → IsTraceOf (work_traced tracer.old) (plan_traced tracer.old) (record_traced tracer.old)
        trace
        → IfOk result (λ s. s ≡ kept (shown options.now trace)) }
{
    replay_law();
    let mut events = Shown::new(alloc);
    while add_next(&mut events, tracer, options)? {
        if events.is_full() {
            return Ok(events);
        }
    }
    Ok(events)
}

/// Makes words up to the first that accesses memory, or else the next event, and adds it to those
/// of a page, if it is shown. It says whether there was one that isn't later than all asked for.
fn add_next(
    events: &mut Shown,
    tracer: &mut Tracer<'_>,
    options: &EventFilter,
) -> Result<bool, AllocError>
    requires traced { (seen : List OfEvent) × HasTraced tracer.old seen }
    requires whole { TellsWhole (work_traced tracer.old) (record_traced tracer.old) }
    requires words { options.now.words ≡ false }
    ensures next { (seen : List OfEvent) → HasTraced tracer.old seen
        → events.old ≡ kept (shown options.now seen)
        → IfOk result (HasAddedOn options.now tracer.new seen events.new) }
    ensures same { OnOk result (IsSame tracer.old tracer.new) }
    ensures fewer { IfOk result (λ more. more ≡ true
        → events_to_trace tracer.new < events_to_trace tracer.old) }
{
    replay_law();
    shown_law();
    if let Some(word) = tracer.run_until(Until::Access) {
        if word.stamp > options.to {
            return Ok(false);
        }
        add_passed_if_shown(events, options, &word)?;
        return Ok(true);
    }
    let Some(event) = next_event_to(tracer, options.to)? else {
        return Ok(false);
    };
    add_if_shown(events, options, event)?;
    Ok(true)
}

/// Adds a word that only accesses memory to the events of a page, if it is shown.
fn add_passed_if_shown(
    events: &mut Shown,
    options: &EventFilter,
    word: &WordPassed,
) -> Result<(), AllocError>
    ensures { (seen : List OfEvent) → events.old ≡ kept (shown options.now seen)
        → OnOk result (events.new ≡ kept (shown options.now (seen ++ passed_of word.now ∷ []))) }
{
    if !is_passed_shown(options, word) {
        return Ok(());
    }
    events.add_passed(word)
}

/// Adds an event to those of a page, if it is shown.
fn add_if_shown(events: &mut Shown, options: &EventFilter, event: Traced) -> Result<(), AllocError>
    ensures { (seen : List OfEvent) → events.old ≡ kept (shown options.now seen)
        → OnOk result (events.new ≡ kept (shown options.now (seen ++ traced_of event ∷ []))) }
{
    if !is_shown(options, &event) {
        return Ok(());
    }
    events.add(event)
}
