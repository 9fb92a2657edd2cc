//! `cost` with a record: what checks cost in a recorded run, as a table.

ghost use Rattle.std.specs.Prelude.{◌≡◌, ◌<◌, ℕ, List, Some, Contains, length};
ghost use Rattle.std.specs.Prelude.{IfErr, IfOk, MatchResult, OnOk};
ghost use Rattle.command_line.specs.Views.{Cost, code_of, reads, recorded_of};
ghost use Rattle.judged_files.specs.Failures.{file_limit};
ghost use Rattle.jump_map.specs.Image.{IsRewriting};
ghost use Rattle.rewriting_law.specs.Bounds.{RunsRewritten};
ghost use Rattle.run_record.specs.Record.{IsRecord};
ghost use Rattle.text_output.specs.Failures.{IsNoRefusal, IsRecordRefusal, Puts};
ghost use Rattle.judged_files.specs.Given.{bytes_of};
ghost use Rattle.prepared_run.specs.Ready.{work_for};
ghost use Rattle.prepared_run.specs.Replays.{IsBrokenRun};
ghost use Rattle.views.specs.Failures.{FailsAsRun, IsFailure, IsSuccess};
ghost use Rattle.views.specs.RunCost as model;
ghost use Rattle.views.specs.RunCost.{IsTextOfCosts, IsTextOfRunCost, IsTextOfTold};

use crate::input::{read_inputs, run_files};
use crate::recorded::refusal_of;
use check_costs::{Counted, table_of};
use command_line::{CodeArguments, RecordedFiles};
use dsm_io::{Files, Sink};
use elf_symbols::Symbols;
use flow_graph::Graph;
use judged_files::input::{Inputs, elf_of};
use judged_files::refusal::Subject;
use prepared_run::{Prepared, prepare_replay, push_nodes};
use run_costs::{RunCosts, costs_of_record};
use run_record::Record;
use std::alloc::{AllocError, Global};
use text_output::{Failure, put};

/// Reads the files of a recorded run, and puts what checks cost in it.
pub(crate) fn show_run_cost<F: Files, O: Sink>(
    alloc: Global,
    arguments: &CodeArguments<'_>,
    record_file: &str,
    files: &mut F,
    out: &mut O,
) -> Result<(), Failure>
    ensures ok { OnOk result (IsSuccess (Cost (code_of arguments.now) (Some record_file.now))
        (F.state files.old) (O.state out.old) (O.state out.new)) }
    ensures failure { IfErr result (IsFailure (Cost (code_of arguments.now) (Some record_file.now))
        (F.state files.old) (F.state files.new) (O.state out.old) (O.state out.new)) }
    ensures longer { (name content : List ℕ)
        → Contains (reads (Cost (code_of arguments.now) (Some record_file.now))) name
        → (F.state files.old).held name ≡ Some content → file_limit < length content
        → MatchResult result (λ _. ⊥) IsNoRefusal }
    ensures same { (n : List ℕ) → (F.state files.new).held n ≡ (F.state files.old).held n }
{
    let run = run_of(arguments, record_file);
    let read = read_inputs(alloc, files, run_files(&run))?;
    put_run_cost(alloc, &read.lend(), out)
}

/// The files of a recorded run whose cost is asked for.
fn run_of<'a>(arguments: &CodeArguments<'a>, record_file: &'a str) -> RecordedFiles<'a>
    ensures { recorded_of result ≡ model.run_of (code_of arguments.now) record_file.now }
{
    RecordedFiles {
        file: arguments.file,
        record_file,
        verified: arguments.verified,
    }
}

/// Puts what checks cost in the run of the record among these files and the executable among them.
fn put_run_cost<O: Sink>(alloc: Global, inputs: &Inputs<'_>, out: &mut O) -> Result<(), Failure>
    ensures ok { OnOk result (Puts (IsTextOfRunCost (bytes_of inputs.now)) 0
        (O.state out.old) (O.state out.new)) }
    ensures failure { IfErr result (FailsAsRun (IsTextOfRunCost (bytes_of inputs.now))
        (bytes_of inputs.now) (O.state out.old) (O.state out.new)) }
{
    let elf = elf_of(alloc, Subject::Executable, inputs.executable)?;
    let (prepared, kept) = prepare_replay(alloc, &elf, inputs)?;
    let symbols = Symbols::of(alloc, &elf)?;
    let text = run_text(alloc, &prepared, &kept, &symbols)?;
    put(out, &text)
}

/// The text of what the run counts that a record tells of, whose events are refused otherwise.
/// Fails also where a count has no room.
fn run_text(
    alloc: Global,
    prepared: &Prepared<'_>,
    kept: &Record,
    symbols: &Symbols<'_>,
) -> Result<Vec<u8>, Failure>
    requires rewritten { RunsRewritten (work_for prepared.now) }
    requires plan { IsRewriting (work_for prepared.now).program prepared.now.rewritten.plan
        (work_for prepared.now).image }
    requires record { IsRecord kept.now }
    requires nodes { prepared.now.layout.nodes ≡ kept.now.nodes }
    ensures ok { IfOk result (λ t. IsTextOfTold symbols.now (work_for prepared.now)
        prepared.now.rewritten.plan kept.now t.items) }
    ensures refused { IfErr result
        (IsRecordRefusal (IsBrokenRun (work_for prepared.now) kept.now)) }
{
    let graph = Graph::of(alloc, &prepared.program)?;
    let plan = prepared.rewritten.plan();
    match costs_of_record(alloc, &prepared.work(), plan, graph.code(), kept, symbols) {
        Ok(costs) => Ok(text_of(alloc, &costs, symbols)?),
        Err(refused) => Err(refusal_of(alloc, refused)),
    }
}

/// The text of what a run counts. Fails also where a sum has no room.
fn text_of(alloc: Global, costs: &RunCosts, symbols: &Symbols<'_>) -> Result<Vec<u8>, AllocError>
    ensures { IfOk result (λ t. IsTextOfCosts symbols.now costs.now.counts.items
        costs.now.nodes.items t.items) }
{
    let mut text = table_of(alloc, Counted::Steps, symbols, &costs.counts)?;
    push_nodes(&mut text, &costs.nodes)?;
    Ok(text)
}
