//! `asm`: the executable of an assembly text, into a file.

ghost use Rattle.std.specs.Prelude.{◌≡◌, ◌≢◌, ℕ, List, [], IfOk, OnOk, IfErr, IfSome};
ghost use Rattle.commands.specs.Failures.{IsAssemblyFailure, IsAssemblyRefusal};
ghost use Rattle.commands.specs.Headline.{IsAssembledFile, IsAssembledText};

use dsm_io::Files;
use elf32_write::write_elf;
use judged_files::refusal::assembly_line;
use rv32_asm::{AsmRefused, assemble};
use std::alloc::Global;
use text_output::{Failure, write_file};

/// Writes the executable of an assembly text into the file `output`.
pub fn assemble_into<F: Files>(
    alloc: Global,
    text: &[u8],
    output: &str,
    files: &mut F,
) -> Result<u8, Failure>
    ensures text { IfOk result (IsAssembledText text.now []) }
    ensures holds { OnOk result
        (IfSome ((F.state files.new).held output.now) (IsAssembledFile text.now)) }
    ensures failure { IfErr result (IsAssemblyFailure text.now (F.state files.old)
        (F.state files.new) output.now) }
    ensures others { (n : List ℕ)
        → n ≢ output.now → (F.state files.new).held n ≡ (F.state files.old).held n }
{
    let bytes = assembled_file(alloc, text)?;
    write_file(alloc, files, output, &bytes)?;
    Ok(0)
}

/// The file of the executable of an assembly text.
fn assembled_file(alloc: Global, text: &[u8]) -> Result<Vec<u8>, Failure>
    ensures ok { IfOk result (λ bytes. IsAssembledFile text.now bytes.items) }
    ensures refused { IfErr result (IsAssemblyRefusal text.now) }
{
    let assembled = match assemble(alloc, text) {
        Ok(assembled) => assembled,
        Err(AsmRefused::Broken { rule, line }) => {
            return Err(Failure::Text(assembly_line(alloc, rule, line)?));
        }
        Err(AsmRefused::OutOfMemory) => return Err(Failure::OutOfMemory),
    };
    let elf = assembled.elf(alloc)?;
    let mut bytes = Vec::new(alloc);
    write_elf(&elf, &mut bytes)?;
    Ok(bytes)
}
