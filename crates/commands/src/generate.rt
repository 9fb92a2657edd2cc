//! `gen`: the executable that a number makes, into a file.

ghost use Rattle.std.specs.Prelude.{◌≡◌, ◌≢◌, ℕ, List, IfOk, IfErr, IfSome, OnOk};
ghost use Rattle.elf32_write.specs.Layout.{file_of};
ghost use Rattle.workload.specs.Generated.{generated_elf};
ghost use Rattle.text_output.specs.Failures.{IsWriteFailure};

use dsm_io::Files;
use elf32_write::write_elf;
use std::alloc::{AllocError, Global};
use text_output::{Failure, write_file};
use workload::program_of;

/// Writes the executable that a number makes into the file `output`; the status is 0.
pub fn generate_into<F: Files>(
    alloc: Global,
    number: u32,
    output: &str,
    files: &mut F,
) -> Result<u8, Failure>
    ensures status { IfOk result (λ status. status ≡ 0) }
    ensures holds { OnOk result
        (IfSome ((F.state files.new).held output.now)
        (λ bytes. bytes ≡ file_of (generated_elf number))) }
    ensures failure { IfErr result
        (IsWriteFailure (F.state files.old) (F.state files.new) output.now) }
    ensures others { (n : List ℕ)
        → n ≢ output.now → (F.state files.new).held n ≡ (F.state files.old).held n }
{
    let bytes = generated_file(alloc, number)?;
    write_file(alloc, files, output, &bytes)?;
    Ok(0)
}

/// The file of the executable that a number makes.
fn generated_file(alloc: Global, number: u32) -> Result<Vec<u8>, AllocError>
    ensures { IfOk result (λ bytes. bytes.items ≡ file_of (generated_elf number)) }
{
    let generated = program_of(alloc, number)?;
    let elf = generated.elf(alloc)?;
    let mut bytes = Vec::new(alloc);
    write_elf(&elf, &mut bytes)?;
    Ok(bytes)
}
