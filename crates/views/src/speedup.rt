//! `speedup`: runs of nodes by a clock, and the page of their speed-up.

ghost use Rattle.std.specs.Prelude.{◌≡◌, ◌≢◌, ◌≤◌, ◌^◌, ◌∷◌, [], ◌++◌, ℕ, All, List, length};
ghost use Rattle.std.specs.Prelude.{Contains, IfErr, IfOk, OnOk};
ghost use Rattle.std.specs.List.{list_any};
ghost use Rattle.dsm_core.specs.CoreParts.{outcome_of};
ghost use Rattle.timed_sim.specs.Clock.{clock_of};
ghost use Rattle.speedup_page.specs.Page.{page_text};
ghost use Rattle.speedup_page.specs.Rows.{IsFit};
ghost use Rattle.command_line.specs.Views.{time_of};
ghost use Rattle.text_output.specs.Failures.{IsRefusal};
ghost use Rattle.judged_files.specs.Executables.{ReadsAs};
ghost use Rattle.judged_files.specs.Given.{bytes_of};
ghost use Rattle.judged_files.specs.Refusals.{IsBadRunLayout, IsRunRefused};
ghost use Rattle.views.specs.Speedup as model;
ghost use Rattle.views.specs.Speedup.{AreRowsOf, IsBaseOf, IsRowOf, IsSpeedupPage};
ghost use Rattle.views.specs.SpeedupEnds.{IsSpeedupFailure, IsSpeedupRefusal, IsSpeedupWritten};
ghost use Rattle.views.specs.Time.{costs_of as asked_costs};

use crate::input::{read_inputs, time_files};
use crate::time::run_by_clock;
use command_line::TimeArguments;
use dsm_io::Files;
use elf32_read::Elf;
use exec_map::{End, Exit};
use judged_files::input::{Inputs, elf_of};
use judged_files::refusal::Subject;
use lone_run::{LoneRun, run_alone};
use prepared_run::prepare;
use run_limits::NodeCount;
use speedup_page::{Base, Ended, Parameters, Row, Shares, SpeedupPage, Trap, push_page};
use std::alloc::{AllocError, Global};
use text_output::{Failure, write_file};
use timed_sim::{Timed, total_spent};

/// Writes the page of the speed-up of the executable in a file, on 1 node up to a number, into
/// another file.
pub(crate) fn write_speedup<F: Files>(
    alloc: Global,
    files: &mut F,
    arguments: &TimeArguments<'_>,
    output: &str,
) -> Result<(), Failure>
    ensures ok { OnOk result (IsSpeedupWritten (time_of arguments.now) output.now
        (F.state files.old) (F.state files.new)) }
    ensures failure { IfErr result (IsSpeedupFailure (time_of arguments.now) output.now
        (F.state files.old) (F.state files.new)) }
    ensures others { (n : List ℕ) → n ≢ output.now
        → (F.state files.new).held n ≡ (F.state files.old).held n }
{
    let read = read_inputs(alloc, files, time_files(arguments))?;
    let page = page_of(alloc, &read.lend(), arguments)?;
    write_file(alloc, files, output, &page)
}

/// The page of the executable among these files.
fn page_of(
    alloc: Global,
    inputs: &Inputs<'_>,
    arguments: &TimeArguments<'_>,
) -> Result<Vec<u8>, Failure>
    ensures ok { IfOk result (λ page. IsSpeedupPage (bytes_of inputs.now) (time_of arguments.now)
        page.items) }
    ensures failure { IfErr result
        (IsSpeedupRefusal (bytes_of inputs.now) (model.counts_to arguments.now.nodes)) }
{
    let elf = elf_of(alloc, Subject::Executable, inputs.executable)?;
    let counts = counts_to(alloc, arguments.nodes)?;
    let base = base_of(alloc, &elf, inputs, arguments)?;
    let rows = rows_of(alloc, &elf, inputs, arguments, &counts)?;
    let page = page_with(alloc, arguments, base, &rows)?;
    Ok(page)
}

/// The page of these rows.
fn page_with(
    alloc: Global,
    arguments: &TimeArguments<'_>,
    base: Base,
    rows: &[Row],
) -> Result<Vec<u8>, AllocError>
    requires { All IsFit rows.now }
    ensures { IfOk result (λ page. page.items
        ≡ page_text (model.parameters_of (time_of arguments.now)) base rows.now) }
{
    let shown = SpeedupPage {
        parameters: parameters_of(arguments),
        base,
        rows,
    };
    let mut page = Vec::new(alloc);
    push_page(&mut page, &shown)?;
    Ok(page)
}

/// What the page says of what was asked for.
fn parameters_of(arguments: &TimeArguments<'_>) -> Parameters
    ensures { result ≡ model.parameters_of (time_of arguments.now) }
{
    Parameters {
        nodes: arguments.nodes,
        budget: arguments.budget,
        latency: arguments.latency.as_u32(),
        line: arguments.line.as_u32(),
        handling: arguments.handling.as_u32(),
        layout: arguments.layout.is_some(),
        verified: arguments.verified.is_some(),
        no_batch: arguments.no_batch,
    }
}

/// How many steps the original makes on one processor.
fn base_of(
    alloc: Global,
    elf: &Elf<'_>,
    inputs: &Inputs<'_>,
    arguments: &TimeArguments<'_>,
) -> Result<Base, Failure>
    requires reads { ReadsAs (bytes_of inputs.now).executable elf.now }
    ensures ok { IfOk result (IsBaseOf (bytes_of inputs.now) arguments.now.budget) }
    ensures refused { IfErr result (IsRefusal (IsRunRefused (bytes_of inputs.now))
        (IsBadRunLayout (bytes_of inputs.now) 1)) }
{
    let prepared = prepare(alloc, elf, inputs, NodeCount::ONE, arguments.budget)?;
    let run = run_alone(alloc, &prepared.program, &prepared.layout, arguments.budget)?;
    Ok(base_from(&run))
}

/// The base of such a run: its steps, where it ended by its exit call.
fn base_from(run: &LoneRun) -> Base
    ensures { result ≡ model.base_from run.now.steps run.now.end }
{
    match ended_of(&[run.end]) {
        Ended::Whole => Base::Steps(run.steps),
        Ended::Trapped(trap) => Base::Trapped(trap),
        Ended::Stopped => Base::Stopped,
    }
}

/// The rows of these numbers of nodes.
fn rows_of(
    alloc: Global,
    elf: &Elf<'_>,
    inputs: &Inputs<'_>,
    arguments: &TimeArguments<'_>,
    counts: &[NodeCount],
) -> Result<Vec<Row>, Failure>
    requires reads { ReadsAs (bytes_of inputs.now).executable elf.now }
    ensures ok { IfOk result (λ rows. AreRowsOf (bytes_of inputs.now) arguments.now.budget
        (asked_costs (time_of arguments.now)) counts.now rows.items) }
    ensures fit { IfOk result (λ rows. All IsFit rows.items) }
    ensures refused { IfErr result (IsSpeedupRefusal (bytes_of inputs.now) counts.now) }
{
    let mut rows = Vec::new(alloc);
    for nodes in counts {
        let row = row_of(alloc, elf, inputs, arguments, *nodes)?;
        push_row(&mut rows, row)?;
    }
    Ok(rows)
}

/// Appends a row.
fn push_row(rows: &mut Vec<Row>, row: Row) -> Result<(), AllocError>
    ensures { OnOk result (rows.new.items ≡ rows.old.items ++ row ∷ []) }
{
    rows.push(row)?;
    Ok(())
}

/// The numbers of nodes: 1, 2, 4 and 8, as far as these are below the most, and the most.
fn counts_to(alloc: Global, most: NodeCount) -> Result<Vec<NodeCount>, AllocError>
    ensures value { IfOk result (λ counts. counts.items ≡ model.counts_to most) }
    ensures first { IfOk result (λ counts. Contains counts.items 1) }
{
    let mut counts = Vec::new(alloc);
    for number in [1, 2, 4, 8] {
        if number < most.number() {
            push_count(&mut counts, number)?;
        }
    }
    counts.push(most)?;
    Ok(counts)
}

/// Appends a number of nodes.
fn push_count(counts: &mut Vec<NodeCount>, number: u64) -> Result<(), AllocError>
    requires some { 1 ≤ number }
    requires few { number ≤ 16 }
    ensures { OnOk result (counts.new.items ≡ counts.old.items ++ number ∷ []) }
{
    match NodeCount::of(number) {
        Some(nodes) => {
            counts.push(nodes)?;
            Ok(())
        }
        None => unreachable!(),
    }
}

/// The row of `nodes` nodes.
fn row_of(
    alloc: Global,
    elf: &Elf<'_>,
    inputs: &Inputs<'_>,
    arguments: &TimeArguments<'_>,
    nodes: NodeCount,
) -> Result<Row, Failure>
    requires reads { ReadsAs (bytes_of inputs.now).executable elf.now }
    ensures ok { IfOk result (IsRowOf (bytes_of inputs.now) arguments.now.budget
        (asked_costs (time_of arguments.now)) nodes) }
    ensures fits { IfOk result IsFit }
    ensures refused { IfErr result (IsRefusal (IsRunRefused (bytes_of inputs.now))
        (IsBadRunLayout (bytes_of inputs.now) nodes)) }
{
    let prepared = prepare(alloc, elf, inputs, nodes, arguments.budget)?;
    let timed = run_by_clock(alloc, &prepared, arguments)?;
    Ok(row_from(nodes.as_u8(), &timed))
}

/// The row of a run by a clock on `nodes` nodes.
fn row_from(nodes: u8, timed: &Timed) -> Row
    requires few { length timed.now.spent.items ≤ 16 }
    requires sums { All (λ s. clock_of s ≡ timed.now.time) timed.now.spent.items }
    requires most { timed.now.time ≤ 2 ^ 100 }
    requires fewer { timed.now.steps ≤ 2 ^ 100 }
    ensures value { result ≡ model.row_from nodes (outcome_of timed.now.outcome).ends
        timed.now.spent.items timed.now.time timed.now.steps }
    ensures fits { IsFit result }
{
    let spent = total_spent(&timed.spent);
    Row {
        nodes,
        ended: ended_of(&timed.outcome.ends),
        time: timed.time,
        steps: timed.steps,
        spent: Shares {
            words: spent.words,
            to_read: spent.to_read,
            to_write: spent.to_write,
            handling: spent.handling,
            idle: spent.idle,
        },
    }
}

/// How a run ended whose processors ended so.
fn ended_of(ends: &[End]) -> Ended
    ensures { result ≡ model.ended_of ends.now }
{
    match first_trap(ends) {
        Some(trap) => Ended::Trapped(trap),
        None => {
            if is_any_stopped(ends) {
                Ended::Stopped
            } else {
                Ended::Whole
            }
        }
    }
}

/// The first trap of processors that ended so, if one ended by a trap.
fn first_trap(ends: &[End]) -> Option<Trap>
    ensures { result ≡ model.first_trap ends.now }
{
    for end in ends {
        if let Some(trap) = trap_of(*end) {
            return Some(trap);
        }
    }
    None
}

/// The trap by which a processor ended, if it did.
fn trap_of(end: End) -> Option<Trap>
    ensures { result ≡ model.trap_of end }
{
    match end {
        End::Exited(Exit::Code(_)) => None,
        End::Exited(Exit::Ebreak(_)) => Some(Trap::Ebreak),
        End::Exited(Exit::Illegal(_)) => Some(Trap::Illegal),
        End::Exited(Exit::Misaligned(_)) => Some(Trap::Misaligned),
        End::Exited(Exit::Access(_)) => Some(Trap::Access),
        End::Exited(Exit::Fetch(_)) => Some(Trap::Fetch),
        End::Stopped(_) => None,
    }
}

/// Whether the budget stopped a processor.
fn is_any_stopped(ends: &[End]) -> bool
    ensures { result ≡ list_any model.is_stopped ends.now }
{
    for end in ends {
        if let End::Stopped(_) = end {
            return true;
        }
    }
    false
}
