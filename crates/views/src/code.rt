//! `code`: the rewritten code of an executable, as a text.

ghost use Rattle.std.specs.Prelude.{IfErr, OnOk};
ghost use Rattle.dsm_io.specs.Causes.{Appends};
ghost use Rattle.judged_files.specs.Given.{bytes_of};
ghost use Rattle.text_output.specs.Failures.{FailsAs, IsLike, IsNever, Puts};
ghost use Rattle.code_view.specs.Code.{IsShown, code_text};
ghost use Rattle.exec_map.specs.Contents.{program_of};
ghost use Rattle.jump_map.specs.Image.{IsRewriting};
ghost use Rattle.views.specs.Code.{IsCodeless};
ghost use Rattle.views.specs.Failures.{IsTextOfCode, shown_text};

use code_view::CodeView;
use dsm_io::Sink;
use exec_map::Program;
use flow_graph::Graph;
use judged_files::code::rewriting_of;
use judged_files::input::{Inputs, elf_of, program_of};
use judged_files::refusal::Subject;
use rewriter::Rewritten;
use std::alloc::Global;
use text_output::{Failure, PIECE, put};

/// Puts the text of the rewritten code of the executable among these files, which a verified one
/// may hold.
pub(crate) fn put_code<O: Sink>(
    alloc: Global,
    inputs: &Inputs<'_>,
    out: &mut O,
) -> Result<(), Failure>
    ensures ok { OnOk result (Puts (IsTextOfCode (bytes_of inputs.now)) 0
        (O.state out.old) (O.state out.new)) }
    ensures failure { IfErr result (FailsAs (IsTextOfCode (bytes_of inputs.now))
        (IsCodeless (bytes_of inputs.now)) IsNever (O.state out.old) (O.state out.new)) }
{
    let elf = elf_of(alloc, Subject::Executable, inputs.executable)?;
    let program = program_of(alloc, &elf)?;
    let rewritten = rewriting_of(alloc, &program, &elf, inputs.batches, inputs.verified)?;
    put_rewritten(alloc, &program, &rewritten, out)
}

/// Puts the text of a program's rewritten code.
fn put_rewritten<O: Sink>(
    alloc: Global,
    program: &Program<'_>,
    rewritten: &Rewritten,
    out: &mut O,
) -> Result<(), Failure>
    requires rewriting { IsRewriting (program_of program.now) rewritten.now.plan
        rewritten.now.image }
    ensures ok { OnOk result (Appends (O.state out.old).taken (O.state out.new).taken
        (code_text program.now rewritten.now.plan rewritten.now.image)) }
    ensures failure { IfErr result (FailsAs
        (IsLike (code_text program.now rewritten.now.plan rewritten.now.image)) IsNever IsNever
        (O.state out.old) (O.state out.new)) }
{
    let graph = Graph::of(alloc, program)?;
    let view = CodeView {
        program,
        code: graph.code(),
        plan: rewritten.plan(),
        image: rewritten.image(),
    };
    put_entries(alloc, &view, out)
}

/// Puts the text of rewritten code, an entry of the plan at a time.
fn put_entries<O: Sink>(alloc: Global, view: &CodeView<'_>, out: &mut O) -> Result<(), Failure>
    requires shown { IsShown view.now }
    ensures ok { OnOk result
        (Appends (O.state out.old).taken (O.state out.new).taken (shown_text view.now)) }
    ensures failure { IfErr result (FailsAs (IsLike (shown_text view.now)) IsNever IsNever
        (O.state out.old) (O.state out.new)) }
{
    let mut lines = Vec::new(alloc);
    view.push_head(alloc, &mut lines)?;
    let mut number = 1;
    for entry in view.plan.entries() {
        number = view.push_entry(alloc, entry, number, &mut lines)?;
        if lines.len() >= PIECE {
            put(out, &lines)?;
            lines.clear();
        }
    }
    put(out, &lines)?;
    Ok(())
}
