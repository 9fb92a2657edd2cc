//! `trace`: what each event of a recorded run did, a line an event.

ghost use Rattle.std.specs.Prelude.{◌≡◌, ◌<◌, ◌++◌, ◌∷◌, [], List, true, false};
ghost use Rattle.std.specs.Prelude.{IfErr, IfOk, OnOk};
ghost use Rattle.std.specs.List.{flat_map};
ghost use Rattle.dsm_io.specs.Causes.{Appends};
ghost use Rattle.rewriting_law.specs.Bounds.{RunsRewritten};
ghost use Rattle.run_record.specs.Record.{IsRecord};
ghost use Rattle.run_trace.specs.Given.{traced_of};
ghost use Rattle.run_trace.specs.Traced.{Traced as OfEvent};
ghost use Rattle.run_trace.specs.Trace.{IsTraceOf};
ghost use Rattle.run_trace.specs.Passing.{passed_of};
ghost use Rattle.run_trace.specs.Tracing.{HasTraced, IsSame, events_to_trace};
ghost use Rattle.run_trace.specs.Tracing.{plan_traced, record_traced, work_traced};
ghost use Rattle.block_view.specs.event_text.Events.{event_line};
ghost use Rattle.block_view.specs.event_text.Shown.{head, shown, trace_text};
ghost use Rattle.text_output.specs.Failures.{FailsAs, IsLike, IsNever, Puts};
ghost use Rattle.judged_files.specs.Given.{bytes_of};
ghost use Rattle.prepared_run.specs.Ready.{work_for};
ghost use Rattle.views.specs.Failures.{FailsAsRun, IsTextOfTrace, TellsWhole};
ghost use Rattle.views.specs.Trace.{HasPushedOn, options_about, options_at, selected_text};

use crate::recorded::{JudgedRun, judged_run, next_event_to};
use block_layout::{Block, Layout};
use block_view::event_text::{
    EventFilter, is_passed_shown, is_shown, push_event, push_head, push_passed, shown_law,
};
use dsm_io::Sink;
use exec_map::Program;
use flow_graph::Graph;
use judged_files::input::{Inputs, elf_of};
use judged_files::refusal::Subject;
use replay::replay_law;
use run_trace::{Traced, Tracer, Until, WordPassed};
use std::alloc::{AllocError, Global};
use text_output::{Failure, PIECE, put};

/// Which events are asked for: all, but for what is given.
#[derive(Clone, Copy)]
pub(crate) struct Selection {
    /// The least stamp.
    pub(crate) from: Option<u64>,
    /// The greatest stamp.
    pub(crate) to: Option<u64>,
    /// An address in the block that they are about.
    pub(crate) address: Option<u32>,
    /// Their node.
    pub(crate) node: Option<u8>,
}

impl Selection {
    /// The events about one block, or about any or none.
    pub(crate) fn about(self, block: Option<Block>) -> EventFilter
        ensures { result ≡ options_about self block }
    {
        EventFilter {
            from: self.from.unwrap_or(0),
            to: self.to.unwrap_or(u64::MAX),
            node: self.node,
            block,
            words: false,
        }
    }

    /// The events that are asked for. None where the address lies in no block.
    fn options(self, layout: &Layout) -> Option<EventFilter>
        ensures { result ≡ options_at layout.now self self.address }
    {
        match self.address {
            None => Some(self.about(None)),
            Some(address) => {
                let block = layout.block_of(address / 64)?;
                Some(self.about(Some(block)))
            }
        }
    }
}

/// Puts the lines of the events that are asked for, of the run of the record among these files and
/// the executable among them.
pub(crate) fn put_trace<O: Sink>(
    alloc: Global,
    inputs: &Inputs<'_>,
    selection: Selection,
    out: &mut O,
) -> Result<(), Failure>
    ensures ok { OnOk result (Puts (IsTextOfTrace (bytes_of inputs.now) selection) 0
        (O.state out.old) (O.state out.new)) }
    ensures failure { IfErr result (FailsAsRun (IsTextOfTrace (bytes_of inputs.now) selection)
        (bytes_of inputs.now) (O.state out.old) (O.state out.new)) }
{
    let elf = elf_of(alloc, Subject::Executable, inputs.executable)?;
    let run = judged_run(alloc, &elf, inputs)?;
    put_selected(alloc, &run, selection, out)
}

/// Puts the lines of the events of a judged run that are asked for.
fn put_selected<O: Sink>(
    alloc: Global,
    run: &JudgedRun<'_>,
    selection: Selection,
    out: &mut O,
) -> Result<(), Failure>
    requires rewritten { RunsRewritten (work_for run.now.prepared) }
    requires record { IsRecord run.now.kept }
    requires nodes { run.now.prepared.layout.nodes ≡ run.now.kept.nodes }
    requires whole { TellsWhole (work_for run.now.prepared) run.now.kept }
    ensures ok { (trace : List OfEvent)
        → IsTraceOf (work_for run.now.prepared) run.now.prepared.rewritten.plan run.now.kept trace
        → OnOk result (Appends (O.state out.old).taken (O.state out.new).taken
        (selected_text run.now.prepared.program run.now.prepared.layout selection trace)) }
    ensures failure { (trace : List OfEvent)
        → IsTraceOf (work_for run.now.prepared) run.now.prepared.rewritten.plan run.now.kept trace
        → IfErr result (FailsAs (IsLike (selected_text run.now.prepared.program
        run.now.prepared.layout selection trace)) IsNever IsNever
        (O.state out.old) (O.state out.new)) }
{
    match selection.options(&run.prepared.layout) {
        Some(options) => put_run(alloc, run, &options, out),
        None => put_head(alloc, out),
    }
}

/// Puts the first line alone.
fn put_head<O: Sink>(alloc: Global, out: &mut O) -> Result<(), Failure>
    ensures ok { OnOk result (Appends (O.state out.old).taken (O.state out.new).taken head) }
    ensures failure { IfErr result (FailsAs (IsLike head) IsNever IsNever
        (O.state out.old) (O.state out.new)) }
{
    let mut line = Vec::new(alloc);
    push_head(&mut line)?;
    put(out, &line)
}

/// Puts the lines of the events of a judged run that are shown.
fn put_run<O: Sink>(
    alloc: Global,
    run: &JudgedRun<'_>,
    options: &EventFilter,
    out: &mut O,
) -> Result<(), Failure>
    requires rewritten { RunsRewritten (work_for run.now.prepared) }
    requires record { IsRecord run.now.kept }
    requires nodes { run.now.prepared.layout.nodes ≡ run.now.kept.nodes }
    requires whole { TellsWhole (work_for run.now.prepared) run.now.kept }
    requires words { options.now.words ≡ false }
    ensures ok { (trace : List OfEvent)
        → IsTraceOf (work_for run.now.prepared) run.now.prepared.rewritten.plan run.now.kept trace
        → OnOk result (Appends (O.state out.old).taken (O.state out.new).taken
        (trace_text run.now.prepared.program options.now trace)) }
    ensures failure { (trace : List OfEvent)
        → IsTraceOf (work_for run.now.prepared) run.now.prepared.rewritten.plan run.now.kept trace
        → IfErr result (FailsAs (IsLike (trace_text run.now.prepared.program options.now trace))
        IsNever IsNever (O.state out.old) (O.state out.new)) }
{
    let program = &run.prepared.program;
    let graph = Graph::of(alloc, program)?;
    let plan = run.prepared.rewritten.plan();
    let mut tracer = Tracer::new(alloc, &run.prepared.work(), plan, graph.code(), &run.kept)?;
    put_events(alloc, program, &mut tracer, options, out)
}

/// Puts the lines of the events of a whole run that are shown, from its start on. None is made
/// after the first that is later than all asked for.
fn put_events<O: Sink>(
    alloc: Global,
    program: &Program<'_>,
    tracer: &mut Tracer<'_>,
    options: &EventFilter,
    out: &mut O,
) -> Result<(), Failure>
    requires start { HasTraced tracer.old [] }
    requires whole { TellsWhole (work_traced tracer.old) (record_traced tracer.old) }
    requires words { options.now.words ≡ false }
    ensures ok { (trace : List OfEvent)
        → IsTraceOf (work_traced tracer.old) (plan_traced tracer.old) (record_traced tracer.old)
        trace
        → OnOk result (Appends (O.state out.old).taken (O.state out.new).taken
        (trace_text program.now options.now trace)) }
    ensures failure { (trace : List OfEvent)
        → IsTraceOf (work_traced tracer.old) (plan_traced tracer.old) (record_traced tracer.old)
        trace
        → IfErr result (FailsAs (IsLike (trace_text program.now options.now trace)) IsNever
        IsNever (O.state out.old) (O.state out.new)) }
{
    replay_law();
    let mut lines = Vec::new(alloc);
    push_head(&mut lines)?;
    while push_next(&mut lines, program, tracer, options)? {
        if lines.len() >= PIECE {
            put(out, &lines)?;
            lines.clear();
        }
    }
    put(out, &lines)?;
    Ok(())
}

/// Makes words up to the first that accesses memory, or else the next event, and appends its line,
/// if it is shown. It says whether there was one that isn't later than all asked for.
fn push_next(
    lines: &mut Vec<u8>,
    program: &Program<'_>,
    tracer: &mut Tracer<'_>,
    options: &EventFilter,
) -> Result<bool, AllocError>
    requires traced { (seen : List OfEvent) × HasTraced tracer.old seen }
    requires whole { TellsWhole (work_traced tracer.old) (record_traced tracer.old) }
    requires words { options.now.words ≡ false }
    ensures next { (seen : List OfEvent) → HasTraced tracer.old seen → IfOk result
        (HasPushedOn program.now options.now tracer.new seen lines.old.items lines.new.items) }
    ensures same { OnOk result (IsSame tracer.old tracer.new) }
    ensures fewer { IfOk result (λ more. more ≡ true
        → events_to_trace tracer.new < events_to_trace tracer.old) }
{
    replay_law();
    shown_law();
    if let Some(word) = tracer.run_until(Until::Access) {
        if word.stamp > options.to {
            return Ok(false);
        }
        push_passed_if_shown(lines, program, options, &word)?;
        return Ok(true);
    }
    let Some(event) = next_event_to(tracer, options.to)? else {
        return Ok(false);
    };
    push_if_shown(lines, program, options, &event)?;
    Ok(true)
}

/// Appends the line of a word that only accesses memory, if it is shown.
fn push_passed_if_shown(
    lines: &mut Vec<u8>,
    program: &Program<'_>,
    options: &EventFilter,
    word: &WordPassed,
) -> Result<(), AllocError>
    ensures { OnOk result (lines.new.items ≡ lines.old.items
        ++ flat_map (event_line program.now) (shown options.now (passed_of word.now ∷ []))) }
{
    if !is_passed_shown(options, word) {
        return Ok(());
    }
    push_passed(lines, program, word)
}

/// Appends the line of an event, if it is shown.
fn push_if_shown(
    lines: &mut Vec<u8>,
    program: &Program<'_>,
    options: &EventFilter,
    event: &Traced,
) -> Result<(), AllocError>
    ensures { OnOk result (lines.new.items ≡ lines.old.items
        ++ flat_map (event_line program.now) (shown options.now (traced_of event.now ∷ []))) }
{
    if !is_shown(options, event) {
        return Ok(());
    }
    push_event(lines, program, event)
}
