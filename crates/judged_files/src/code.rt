//! The rewritten code of a program, by its own plan or by that of a verified file, and a file that
//! is taken for it.

ghost use Rattle.std.specs.Prelude.{◌≡◌, option_map, IfOk, IfErr, OnOk};
ghost use Rattle.exec_map.specs.Contents.{program_of as meaning_of};
ghost use Rattle.templates.specs.WholePlan.{IsPlanOf};
ghost use Rattle.rewrite_verify.specs.jump_map.Image.{IsRewriting};
ghost use Rattle.rewrite_verify.specs.rewriter.RewrittenFile.{rewritten_elf};
ghost use Rattle.judged_files.specs.Code.{IsChosen, IsFileOf, IsOtherFile, IsUnchosen, Verified};
ghost use Rattle.judged_files.specs.Code.{choice_of};
ghost use Rattle.judged_files.specs.Executables.{HasLongCode, ReadsAs};
ghost use Rattle.text_output.specs.Failures.{IsRefusal, IsNever};

use crate::input::elf_of;
use crate::refusal::{Subject, code_line, too_many_words, verify_line};
use elf32_read::Elf;
use exec_map::Program;
use rewrite_verify::jump_map::ImageRefused;
use rewrite_verify::rewriter::{Options, Rewritten, rewrite};
use rewrite_verify::{VerifyRefused, verify};
use std::alloc::Global;
use text_output::Failure;

/// The rewriting of a program that was accepted from the original: that of the verified file, where
/// there is one; else that by the program's plan, with batches or without.
pub fn rewriting_of(
    alloc: Global,
    program: &Program<'_>,
    original: &Elf<'_>,
    batches: bool,
    verified: Option<&[u8]>,
) -> Result<Rewritten, Failure>
    requires accepted { program.now ≡ original.now }
    ensures chosen { IfOk result (λ r. IsChosen (choice_of batches
        (option_map (λ file. file.now) verified.entry)) program.now r.plan r.image) }
    ensures rewriting { IfOk result (λ r. IsRewriting (meaning_of program.now) r.plan r.image) }
    ensures refused { IfErr result (IsRefusal (IsUnchosen (choice_of batches
        (option_map (λ file. file.now) verified.entry)) program.now) IsNever) }
{
    match verified {
        None => planned_rewriting(alloc, program, batches),
        Some(file) => verified_rewriting(alloc, program, original, file),
    }
}

/// The rewriting of a program by its plan, with batches or without.
pub fn planned_rewriting(
    alloc: Global,
    program: &Program<'_>,
    batches: bool,
) -> Result<Rewritten, Failure>
    ensures plan { IfOk result (λ r. IsPlanOf batches (meaning_of program.now).code r.plan) }
    ensures rewriting { IfOk result (λ r. IsRewriting (meaning_of program.now) r.plan r.image) }
    ensures refused { IfErr result (IsRefusal (HasLongCode batches program.now) IsNever) }
{
    match rewrite(alloc, program, Options { batch: batches }) {
        Ok(rewritten) => Ok(rewritten),
        Err(ImageRefused::CodeTooLarge(words)) => {
            Err(Failure::Refused(too_many_words(alloc, words)?))
        }
        Err(ImageRefused::OutOfMemory) => Err(Failure::OutOfMemory),
    }
}

/// The rewriting of a program that a file holds, by the plan that the file says.
fn verified_rewriting(
    alloc: Global,
    program: &Program<'_>,
    original: &Elf<'_>,
    file: &[u8],
) -> Result<Rewritten, Failure>
    requires accepted { program.now ≡ original.now }
    ensures chosen { IfOk result
        (λ r. ReadsAs file.now (rewritten_elf original.now r.image r.plan)) }
    ensures rewriting { IfOk result (λ r. IsRewriting (meaning_of original.now) r.plan r.image) }
    ensures refused { IfErr result
        (IsRefusal (IsUnchosen (Verified file.now) original.now) IsNever) }
{
    let elf = elf_of(alloc, Subject::Code, file)?;
    match verify(alloc, program, original, &elf) {
        Ok(rewritten) => Ok(rewritten),
        Err(VerifyRefused::OutOfMemory) => Err(Failure::OutOfMemory),
        Err(refused) => Err(Failure::Refused(verify_line(alloc, &refused)?)),
    }
}

/// Judges the file of code, where there is one: it is that of this rewriting of the original.
pub fn judge_code(
    alloc: Global,
    original: &Elf<'_>,
    rewritten: &Rewritten,
    code: Option<&[u8]>,
) -> Result<(), Failure>
    ensures ok { OnOk result
        (IsFileOf (rewritten_elf original.now rewritten.now.image rewritten.now.plan)
        (option_map (λ file. file.now) code.entry)) }
    ensures refused { IfErr result (IsRefusal
        (IsOtherFile (rewritten_elf original.now rewritten.now.image rewritten.now.plan)
        (option_map (λ file. file.now) code.entry)) IsNever) }
{
    let Some(file) = code else {
        return Ok(());
    };
    let elf = elf_of(alloc, Subject::Code, file)?;
    match rewritten.first_difference(alloc, original, &elf)? {
        None => Ok(()),
        Some(part) => Err(Failure::Refused(code_line(alloc, part)?)),
    }
}
