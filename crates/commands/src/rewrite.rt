//! `rewrite`: the rewritten executable of an executable, into a file.

ghost use Rattle.std.specs.Prelude.{◌≡◌, ◌≢◌, ℕ, List, [], IfOk, OnOk, IfErr, IfSome};
ghost use Rattle.judged_files.specs.Code.{IsUnrewritten, Planned};
ghost use Rattle.text_output.specs.Failures.{IsRefusal, IsNever};
ghost use Rattle.commands.specs.Failures.{IsRewriteFailure};
ghost use Rattle.commands.specs.Headline.{IsRewrittenFile, IsRewrittenText};

use dsm_io::Files;
use judged_files::code::planned_rewriting;
use judged_files::input::{elf_of, program_of};
use judged_files::refusal::Subject;
use std::alloc::Global;
use text_output::{Failure, write_file};

/// Writes the rewritten executable of the one that a file holds, with batches or without, into the
/// file `output`.
pub fn rewrite_into<F: Files>(
    alloc: Global,
    file: &[u8],
    batches: bool,
    output: &str,
    files: &mut F,
) -> Result<u8, Failure>
    ensures text { IfOk result (IsRewrittenText batches file.now []) }
    ensures holds { OnOk result
        (IfSome ((F.state files.new).held output.now) (IsRewrittenFile batches file.now)) }
    ensures failure { IfErr result (IsRewriteFailure batches file.now (F.state files.old)
        (F.state files.new) output.now) }
    ensures others { (n : List ℕ)
        → n ≢ output.now → (F.state files.new).held n ≡ (F.state files.old).held n }
{
    let bytes = rewritten_file(alloc, file, batches)?;
    write_file(alloc, files, output, &bytes)?;
    Ok(0)
}

/// The file of the rewritten program of the executable in a file.
fn rewritten_file(alloc: Global, file: &[u8], batches: bool) -> Result<Vec<u8>, Failure>
    ensures ok { IfOk result (λ bytes. IsRewrittenFile batches file.now bytes.items) }
    ensures refused { IfErr result (IsRefusal (IsUnrewritten (Planned batches) file.now) IsNever) }
{
    let elf = elf_of(alloc, Subject::Executable, file)?;
    let program = program_of(alloc, &elf)?;
    let rewritten = planned_rewriting(alloc, &program, batches)?;
    let mut bytes = Vec::new(alloc);
    rewritten.to_elf(alloc, &elf, &mut bytes)?;
    Ok(bytes)
}
