//! `cost`: what the checks in the rewritten code of an executable cost, as a table.

ghost use Rattle.std.specs.Prelude.{◌≡◌, ◌<◌, ℕ, List, None, Some, Contains, length};
ghost use Rattle.std.specs.Prelude.{IfErr, IfOk, MatchResult, OnOk};
ghost use Rattle.command_line.specs.Meaning.{file_name};
ghost use Rattle.command_line.specs.Views.{Cost, code_of, reads};
ghost use Rattle.exec_map.specs.Contents.{program_of as meaning_of};
ghost use Rattle.jump_map.specs.Image.{IsRewriting};
ghost use Rattle.judged_files.specs.Given.{bytes_of};
ghost use Rattle.judged_files.specs.Failures.{file_limit};
ghost use Rattle.text_output.specs.Failures.{FailsAs, IsNever, IsNoRefusal, IsRefusal, Puts};
ghost use Rattle.views.specs.Code.{IsCodeless};
ghost use Rattle.views.specs.Cost.{IsTableOf, IsTextOfCost};
ghost use Rattle.views.specs.Failures.{IsFailure, IsSuccess};

use crate::input::{code_files, read_inputs};
use crate::run_cost::show_run_cost;
use check_costs::{Counted, counts_of, table_of};
use command_line::CodeArguments;
use dsm_io::{Files, Sink};
use elf_symbols::Symbols;
use elf32_read::Elf;
use exec_map::Program;
use flow_graph::Graph;
use judged_files::code::rewriting_of;
use judged_files::input::{Inputs, elf_of, program_of};
use judged_files::refusal::Subject;
use rewriter::Rewritten;
use std::alloc::{AllocError, Global};
use text_output::{Failure, put};

/// Reads the files that are named, and puts what checks cost in the rewritten code of the
/// executable; or, where the file of a record is named, in its run.
pub(crate) fn show_cost<F: Files, O: Sink>(
    alloc: Global,
    arguments: &CodeArguments<'_>,
    record_file: Option<&str>,
    files: &mut F,
    out: &mut O,
) -> Result<(), Failure>
    ensures ok { OnOk result (IsSuccess (Cost (code_of arguments.now) (file_name record_file.entry))
        (F.state files.old) (O.state out.old) (O.state out.new)) }
    ensures failure { IfErr result
        (IsFailure (Cost (code_of arguments.now) (file_name record_file.entry))
        (F.state files.old) (F.state files.new) (O.state out.old) (O.state out.new)) }
    ensures longer { (name content : List ℕ)
        → Contains (reads (Cost (code_of arguments.now) (file_name record_file.entry))) name
        → (F.state files.old).held name ≡ Some content → file_limit < length content
        → MatchResult result (λ _. ⊥) IsNoRefusal }
    ensures same { (n : List ℕ) → (F.state files.new).held n ≡ (F.state files.old).held n }
{
    match record_file {
        None => show_code_cost(alloc, arguments, files, out),
        Some(record_file) => show_run_cost(alloc, arguments, record_file, files, out),
    }
}

/// Reads the files of code, and puts what checks cost in it.
fn show_code_cost<F: Files, O: Sink>(
    alloc: Global,
    arguments: &CodeArguments<'_>,
    files: &mut F,
    out: &mut O,
) -> Result<(), Failure>
    ensures ok { OnOk result (IsSuccess (Cost (code_of arguments.now) None)
        (F.state files.old) (O.state out.old) (O.state out.new)) }
    ensures failure { IfErr result (IsFailure (Cost (code_of arguments.now) None)
        (F.state files.old) (F.state files.new) (O.state out.old) (O.state out.new)) }
    ensures longer { (name content : List ℕ)
        → Contains (reads (Cost (code_of arguments.now) None)) name
        → (F.state files.old).held name ≡ Some content → file_limit < length content
        → MatchResult result (λ _. ⊥) IsNoRefusal }
    ensures same { (n : List ℕ) → (F.state files.new).held n ≡ (F.state files.old).held n }
{
    let read = read_inputs(alloc, files, code_files(arguments))?;
    put_cost(alloc, &read.lend(), out)
}

/// Puts the table of what the rewritten code of the executable among these files counts, which a
/// verified one among them may hold.
fn put_cost<O: Sink>(alloc: Global, inputs: &Inputs<'_>, out: &mut O) -> Result<(), Failure>
    ensures ok { OnOk result (Puts (IsTextOfCost (bytes_of inputs.now)) 0
        (O.state out.old) (O.state out.new)) }
    ensures failure { IfErr result (FailsAs (IsTextOfCost (bytes_of inputs.now))
        (IsCodeless (bytes_of inputs.now)) IsNever (O.state out.old) (O.state out.new)) }
{
    let text = cost_text(alloc, inputs)?;
    put(out, &text)
}

/// This table.
fn cost_text(alloc: Global, inputs: &Inputs<'_>) -> Result<Vec<u8>, Failure>
    ensures ok { IfOk result (λ text. IsTextOfCost (bytes_of inputs.now) text.items 0) }
    ensures refused { IfErr result (IsRefusal (IsCodeless (bytes_of inputs.now)) IsNever) }
{
    let elf = elf_of(alloc, Subject::Executable, inputs.executable)?;
    let program = program_of(alloc, &elf)?;
    let rewritten = rewriting_of(alloc, &program, &elf, inputs.batches, inputs.verified)?;
    Ok(counts_text(alloc, &elf, &program, &rewritten)?)
}

/// The table of what the rewritten code of a program counts. Fails also where a count has no room.
fn counts_text(
    alloc: Global,
    elf: &Elf<'_>,
    program: &Program<'_>,
    rewritten: &Rewritten,
) -> Result<Vec<u8>, AllocError>
    requires accepted { program.now ≡ elf.now }
    requires rewriting { IsRewriting (meaning_of elf.now) rewritten.now.plan rewritten.now.image }
    ensures { IfOk result (λ text. IsTableOf elf.now rewritten.now.plan rewritten.now.image
        text.items) }
{
    let graph = Graph::of(alloc, program)?;
    let symbols = Symbols::of(alloc, elf)?;
    let counts = counts_of(alloc, &symbols, graph.code(), rewritten.plan())?;
    table_of(alloc, Counted::Instructions, &symbols, &counts)
}
