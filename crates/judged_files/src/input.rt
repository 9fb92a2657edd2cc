//! Files that are read, and the executables in them.

ghost use Rattle.std.specs.Prelude.{◌≡◌, ◌≤◌, ℕ, List, Option, Some, option_map, IfOk, OnOk, IfErr};
ghost use Rattle.judged_files.specs.Given.{bytes_of, contents_of};
ghost use Rattle.judged_files.specs.Text as model;
ghost use Rattle.judged_files.specs.Executables.{ReadsAs, IsUnread, IsRejection};
ghost use Rattle.judged_files.specs.Failures.{AreBytes, AreContents, IsContent, IsNamedFailure};
ghost use Rattle.text_output.specs.Failures.{IsNever, IsRefusal};
ghost use Rattle.judged_files.specs.Failures.{IsReadFailure};
ghost use Rattle.exec_map.specs.Contents.{program_of as model_program_of};
ghost use Rattle.exec_map.specs.Refusals.{IsAcceptable};
ghost use Rattle.rv32_program.specs.Program.{IsAccepted};

use crate::refusal::{Subject, file_line, program_line};
use dsm_io::{FileError, Files};
use elf32_read::{Elf, ElfRefused, read_elf};
use exec_map::{Program, ProgramRefused, accept};
use std::alloc::{AllocError, Global};
use text_output::Failure;

/// What a command is given: the files that it reads, and whether code is rewritten with batches.
#[derive(Drop)]
pub struct InputFiles {
    /// None where the command reads no executable.
    pub executable: Vec<u8>,
    /// The file of rewritten code, where the command names one.
    pub code: Option<Vec<u8>>,
    /// The verified file, where the command names one.
    pub verified: Option<Vec<u8>>,
    /// The layout, where the command names one.
    pub layout: Option<Vec<u8>>,
    /// The text of the record, or the assembly text.
    pub text: Vec<u8>,
    /// Whether code is rewritten with batches, where no record says so.
    pub batches: bool,
}

/// The bytes of the files that a command reads, and whether code is rewritten with batches.
#[derive(Clone, Copy)]
pub struct Inputs<'a> {
    /// None where the command reads no executable.
    pub executable: &'a [u8],
    /// None where the command names no file of rewritten code.
    pub code: Option<&'a [u8]>,
    /// None where the command names no verified file, whose code is run in place of that by the
    /// program's own plan.
    pub verified: Option<&'a [u8]>,
    /// None where the command names no layout.
    pub layout: Option<&'a [u8]>,
    /// The text of the record, or the assembly text. None where the command reads neither.
    pub text: &'a [u8],
    /// Whether code is rewritten with batches, where no record says so.
    pub batches: bool,
}

impl InputFiles {
    /// Their bytes.
    pub fn lend(&self) -> Inputs<'_>
        ensures value { bytes_of result ≡ contents_of self.now }
    {
        Inputs {
            executable: &self.executable,
            code: lent(&self.code),
            verified: lent(&self.verified),
            layout: lent(&self.layout),
            text: &self.text,
            batches: self.batches,
        }
    }
}

/// The bytes of a file that may be left out.
fn lent(file: &Option<Vec<u8>>) -> Option<&[u8]>
    ensures { option_map (λ bytes. bytes.now) result ≡ option_map (λ bytes. bytes.items) file.now }
{
    match file {
        Some(bytes) => Some(bytes),
        None => None,
    }
}

/// The bytes of a file that may be left out. There are none where it has no name.
pub fn read_bytes<F: Files>(
    alloc: Global,
    files: &mut F,
    name: Option<&str>,
) -> Result<Vec<u8>, Failure>
    ensures ok { IfOk result (λ bytes. AreBytes (F.state files.old)
        (option_map (λ n. n.now) name.entry)
        bytes.items) }
    ensures failure { IfErr result (IsNamedFailure (F.state files.old) (F.state files.new)
        (option_map (λ n. n.now) name.entry)) }
    ensures contents { (n : List ℕ) → (F.state files.new).held n ≡ (F.state files.old).held n }
    ensures reads { (n : List ℕ)
        → (F.state files.old).failed_reads n ≤ (F.state files.new).failed_reads n }
    ensures writes { (n : List ℕ)
        → (F.state files.old).failed_writes n ≤ (F.state files.new).failed_writes n }
{
    match name {
        Some(name) => {
            let bytes = read_file(alloc, files, name)?;
            Ok(bytes)
        }
        None => Ok(Vec::new(alloc)),
    }
}

/// The bytes of a file that may be left out. None where it has no name.
pub fn read_named<F: Files>(
    alloc: Global,
    files: &mut F,
    name: Option<&str>,
) -> Result<Option<Vec<u8>>, Failure>
    ensures ok { IfOk result (λ bytes. AreContents (F.state files.old)
        (option_map (λ n. n.now) name.entry)
        (option_map (λ b. b.items) bytes)) }
    ensures failure { IfErr result (IsNamedFailure (F.state files.old) (F.state files.new)
        (option_map (λ n. n.now) name.entry)) }
    ensures contents { (n : List ℕ) → (F.state files.new).held n ≡ (F.state files.old).held n }
    ensures reads { (n : List ℕ)
        → (F.state files.old).failed_reads n ≤ (F.state files.new).failed_reads n }
    ensures writes { (n : List ℕ)
        → (F.state files.old).failed_writes n ≤ (F.state files.new).failed_writes n }
{
    match name {
        Some(name) => {
            let bytes = read_file(alloc, files, name)?;
            Ok(Some(bytes))
        }
        None => Ok(None),
    }
}

/// The longest file that is read, in bytes.
const FILE_LIMIT: u64 = 33_554_432;

/// The bytes of a file.
pub fn read_file<F: Files>(alloc: Global, files: &mut F, name: &str) -> Result<Vec<u8>, Failure>
    ensures ok { IfOk result (λ bytes. IsContent ((F.state files.old).held name.now) bytes.items) }
    ensures failure { IfErr result (λ f. IsReadFailure (F.state files.old) (F.state files.new)
        name.now f) }
    ensures contents { (n : List ℕ) → (F.state files.new).held n ≡ (F.state files.old).held n }
    ensures reads { (n : List ℕ)
        → (F.state files.old).failed_reads n ≤ (F.state files.new).failed_reads n }
    ensures writes { (n : List ℕ)
        → (F.state files.old).failed_writes n ≤ (F.state files.new).failed_writes n }
{
    match files.read(alloc, name, FILE_LIMIT) {
        Ok(bytes) => Ok(bytes),
        Err(FileError::Failed) => Err(Failure::Input(cannot_read(alloc, name)?)),
        Err(FileError::TooLong { limit: _ }) => Err(Failure::Input(too_long(alloc, name)?)),
        Err(FileError::OutOfMemory) => Err(Failure::OutOfMemory),
    }
}

/// The line that says which file could not be read.
fn cannot_read(alloc: Global, name: &str) -> Result<Vec<u8>, AllocError>
    ensures { IfOk result (λ line. line.items ≡ model.cannot_read name.now) }
{
    let mut line = Vec::new(alloc);
    line.extend_from_slice(b"shasta: cannot read ")?;
    line.extend_from_slice(name.as_bytes())?;
    line.extend_from_slice(b"\n")?;
    Ok(line)
}

/// The line that says which file is too long.
fn too_long(alloc: Global, name: &str) -> Result<Vec<u8>, AllocError>
    ensures { IfOk result (λ line. line.items ≡ model.too_long name.now) }
{
    let mut line = Vec::new(alloc);
    line.extend_from_slice(b"shasta: ")?;
    line.extend_from_slice(name.as_bytes())?;
    line.extend_from_slice(b" is longer than 33554432 bytes\n")?;
    Ok(line)
}

/// The executable in a file, which is read for this.
pub fn elf_of(alloc: Global, subject: Subject, file: &[u8]) -> Result<Elf<'_>, Failure>
    ensures ok { IfOk result (λ elf. ReadsAs file.now elf) }
    ensures refused { IfErr result (IsRefusal (IsUnread subject file.now) IsNever) }
{
    match read_elf(alloc, file) {
        Ok(elf) => Ok(elf),
        Err(ElfRefused::Broken(rule)) => Err(Failure::Refused(file_line(alloc, subject, rule)?)),
        Err(ElfRefused::OutOfMemory) => Err(Failure::OutOfMemory),
    }
}

/// The program of an executable.
pub fn program_of<'a>(alloc: Global, elf: &'a Elf<'_>) -> Result<Program<'a>, Failure>
    ensures ok { IfOk result (λ program. program ≡ elf.now) }
    ensures acceptable { OnOk result (IsAcceptable elf.now) }
    ensures accepted { OnOk result (IsAccepted (model_program_of elf.now)) }
    ensures refused { IfErr result (IsRefusal (IsRejection elf.now) IsNever) }
{
    match accept(alloc, elf) {
        Ok(program) => Ok(program),
        Err(ProgramRefused::Broken(rule)) => Err(Failure::Refused(program_line(alloc, rule)?)),
        Err(ProgramRefused::OutOfMemory) => Err(Failure::OutOfMemory),
    }
}
