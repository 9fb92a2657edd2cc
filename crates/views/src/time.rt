//! `time`: a run of nodes by a clock, and what they spend their time on.

ghost use Rattle.std.specs.Prelude.{◌≡◌, ◌≤◌, ◌^◌, ◌++◌, ◌∷◌, [], All};
ghost use Rattle.std.specs.Prelude.{IfErr, IfOk, OnOk};
ghost use Rattle.std.specs.Fmt.{decimal};
ghost use Rattle.dsm_core.specs.CoreParts.{outcome_of};
ghost use Rattle.rewriting_law.specs.Bounds.{RunsRewritten};
ghost use Rattle.timed_sim.specs.Clock.{AreInRange, IsOutcomeByClock, clock_of};
ghost use Rattle.dsm_io.specs.Causes.{Appends};
ghost use Rattle.command_line.specs.Views.{time_of};
ghost use Rattle.text_output.specs.Failures.{FailsAs, IsLike, IsNever, Puts};
ghost use Rattle.judged_files.specs.Given.{bytes_of};
ghost use Rattle.judged_files.specs.Refusals.{IsBadRunLayout, IsRunRefused};
ghost use Rattle.prepared_run.specs.Outcomes.{text_of};
ghost use Rattle.prepared_run.specs.Ready.{work_for};
ghost use Rattle.views.specs.Failures.{IsTextOfTime};
ghost use Rattle.views.specs.Time as model;

use command_line::TimeArguments;
use dsm_io::Sink;
use flow_graph::Graph;
use itoa::Buffer;
use judged_files::input::{Inputs, elf_of};
use judged_files::refusal::Subject;
use prepared_run::{Prepared, prepare, put_outcome};
use std::alloc::{AllocError, Global};
use text_output::{Failure, push_count, put};
use timed_sim::{Costs, Spent, Timed, simulate_by_clock};

/// Runs the rewritten code of the executable among these files, which a verified one may hold, on
/// nodes by a clock; puts the text of the outcome, what the nodes spent their time on, and how many
/// steps of the original they make.
pub(crate) fn put_time<O: Sink>(
    alloc: Global,
    inputs: &Inputs<'_>,
    arguments: &TimeArguments<'_>,
    out: &mut O,
) -> Result<(), Failure>
    ensures ok { OnOk result (Puts (IsTextOfTime (bytes_of inputs.now) (time_of arguments.now)) 0
        (O.state out.old) (O.state out.new)) }
    ensures failure { IfErr result (FailsAs
        (IsTextOfTime (bytes_of inputs.now) (time_of arguments.now))
        (IsRunRefused (bytes_of inputs.now))
        (IsBadRunLayout (bytes_of inputs.now) arguments.now.nodes)
        (O.state out.old) (O.state out.new)) }
{
    let elf = elf_of(alloc, Subject::Executable, inputs.executable)?;
    let prepared = prepare(alloc, &elf, inputs, arguments.nodes, arguments.budget)?;
    let timed = run_by_clock(alloc, &prepared, arguments)?;
    put_timed(alloc, &timed, out)
}

/// Runs the nodes by a clock.
pub(crate) fn run_by_clock(
    alloc: Global,
    prepared: &Prepared<'_>,
    arguments: &TimeArguments<'_>,
) -> Result<Timed, AllocError>
    requires rewritten { RunsRewritten (work_for prepared.now) }
    ensures outcome { IfOk result (λ t. IsOutcomeByClock (work_for prepared.now)
        prepared.now.rewritten.plan (model.costs_of (time_of arguments.now)) (outcome_of t.outcome)
        t.spent.items t.time t.steps) }
    ensures sums { IfOk result (λ t. All (λ s. clock_of s ≡ t.time) t.spent.items) }
    ensures most { IfOk result (λ t. t.time ≤ 2 ^ 100) }
    ensures few { IfOk result (λ t. t.steps ≤ 2 ^ 100) }
{
    let graph = Graph::of(alloc, &prepared.program)?;
    let plan = prepared.rewritten.plan();
    let costs = costs_of(arguments);
    simulate_by_clock(alloc, &prepared.work(), plan, graph.code(), &costs)
}

/// What messages cost.
fn costs_of(arguments: &TimeArguments<'_>) -> Costs
    ensures value { result ≡ model.costs_of (time_of arguments.now) }
    ensures range { AreInRange result }
{
    Costs {
        latency: arguments.latency.as_u32(),
        line: arguments.line.as_u32(),
        handling: arguments.handling.as_u32(),
    }
}

/// Puts the text of a run by a clock.
fn put_timed<O: Sink>(alloc: Global, timed: &Timed, out: &mut O) -> Result<(), Failure>
    ensures ok { OnOk result (Appends (O.state out.old).taken (O.state out.new).taken
        (text_of (outcome_of timed.now.outcome)
        ++ model.time_text timed.now.spent.items timed.now.steps timed.now.time)) }
    ensures failure { IfErr result (FailsAs (IsLike (text_of (outcome_of timed.now.outcome)
        ++ model.time_text timed.now.spent.items timed.now.steps timed.now.time)) IsNever IsNever
        (O.state out.old) (O.state out.new)) }
{
    let lines = time_text(alloc, &timed.spent, timed.steps, timed.time)?;
    let outcome = &timed.outcome;
    put_outcome(alloc, &outcome.output, &outcome.ends, &outcome.counts, out)?;
    put(out, &lines)?;
    Ok(())
}

/// The lines of what nodes spent their time on, the steps of the original, and the time of the run.
fn time_text(alloc: Global, spent: &[Spent], steps: u128, time: u128) -> Result<Vec<u8>, AllocError>
    ensures { IfOk result (λ text. text.items ≡ model.time_text spent.now steps time) }
{
    let mut text = Vec::new(alloc);
    for (node, spent) in spent.iter().enumerate() {
        push_node(&mut text, node as u64, time, spent)?;
    }
    push_words(&mut text, b"steps ", steps)?;
    push_words(&mut text, b"\ntime ", time)?;
    text.extend_from_slice(b"\n")?;
    Ok(text)
}

/// Appends the line of a node.
fn push_node(text: &mut Vec<u8>, node: u64, time: u128, spent: &Spent) -> Result<(), AllocError>
    ensures { OnOk result
        (text.new.items ≡ text.old.items ++ model.spent_lines node time (spent.now ∷ [])) }
{
    push_count(text, b"node ", node)?;
    push_words(text, b" time ", time)?;
    push_spent(text, spent)?;
    text.extend_from_slice(b"\n")?;
    Ok(())
}

/// Appends what a node spent its time on.
fn push_spent(text: &mut Vec<u8>, spent: &Spent) -> Result<(), AllocError>
    ensures { OnOk result (text.new.items ≡ text.old.items ++ model.spent_text spent.now) }
{
    push_words(text, b" words ", spent.words)?;
    push_words(text, b" waits-to-read ", spent.to_read)?;
    push_words(text, b" waits-to-write ", spent.to_write)?;
    push_words(text, b" handling ", spent.handling)?;
    push_words(text, b" idle ", spent.idle)?;
    Ok(())
}

/// Appends a name and a time, in words.
fn push_words(text: &mut Vec<u8>, name: &[u8], words: u128) -> Result<(), AllocError>
    ensures { OnOk result (text.new.items ≡ text.old.items ++ (name.now ++ decimal words)) }
{
    let mut buffer = Buffer::new();
    text.extend_from_slice(name)?;
    text.extend_from_slice(buffer.format(words).as_bytes())?;
    Ok(())
}
