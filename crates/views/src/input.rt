//! Files that views read.

ghost use Rattle.std.specs.Prelude.{◌≡◌, ◌≤◌, ℕ, List, IfErr, IfOk};
ghost use Rattle.command_line.specs.Views.{code_of, recorded_of, time_of};
ghost use Rattle.judged_files.specs.Given.{contents_of};
ghost use Rattle.views.specs.Inputs as model;
ghost use Rattle.views.specs.Inputs.{AreInputs, IsInputFailure, names_of};

use command_line::{CodeArguments, RecordedFiles, TimeArguments};
use dsm_io::Files;
use judged_files::input::{InputFiles, read_bytes, read_file, read_named};
use std::alloc::Global;
use text_output::Failure;

/// The files that a view reads, each where it reads one.
#[derive(Clone, Copy)]
pub(crate) struct FileNames<'a> {
    executable: &'a str,
    /// The record.
    text: Option<&'a str>,
    /// The verified executable.
    verified: Option<&'a str>,
    layout: Option<&'a str>,
    /// Whether the view asks for code with batches, where no record says so.
    batches: bool,
}

/// The files of code that is shown.
pub(crate) fn code_files<'a>(arguments: &CodeArguments<'a>) -> FileNames<'a>
    ensures { names_of result ≡ model.code_files (code_of arguments.now) }
{
    FileNames {
        executable: arguments.file,
        text: None,
        verified: arguments.verified,
        layout: None,
        batches: !arguments.no_batch,
    }
}

/// The files of a recorded run.
pub(crate) fn run_files<'a>(run: &RecordedFiles<'a>) -> FileNames<'a>
    ensures { names_of result ≡ model.run_files (recorded_of run.now) }
{
    FileNames {
        executable: run.file,
        text: Some(run.record_file),
        verified: run.verified,
        layout: None,
        batches: true,
    }
}

/// The files of a run by a clock.
pub(crate) fn time_files<'a>(arguments: &TimeArguments<'a>) -> FileNames<'a>
    ensures { names_of result ≡ model.time_files (time_of arguments.now) }
{
    FileNames {
        executable: arguments.file,
        text: None,
        verified: arguments.verified,
        layout: arguments.layout,
        batches: !arguments.no_batch,
    }
}

/// Reads the files of a view: the executable, the verified one, the layout and the record, in this
/// order.
pub(crate) fn read_inputs<F: Files>(
    alloc: Global,
    files: &mut F,
    names: FileNames<'_>,
) -> Result<InputFiles, Failure>
    ensures ok { IfOk result
        (λ r. AreInputs (F.state files.old) (names_of names.entry) (contents_of r)) }
    ensures failure { IfErr result
        (IsInputFailure (names_of names.entry) (F.state files.old) (F.state files.new)) }
    ensures contents { (n : List ℕ) → (F.state files.new).held n ≡ (F.state files.old).held n }
    ensures writes { (n : List ℕ)
        → (F.state files.old).failed_writes n ≤ (F.state files.new).failed_writes n }
{
    let executable = read_file(alloc, files, names.executable)?;
    let verified = read_named(alloc, files, names.verified)?;
    let layout = read_named(alloc, files, names.layout)?;
    let text = read_bytes(alloc, files, names.text)?;
    Ok(InputFiles {
        executable,
        code: None,
        verified,
        layout,
        text,
        batches: names.batches,
    })
}
