//! Files that commands read.

ghost use Rattle.std.specs.Prelude.{◌≡◌, ◌<◌, ◌≤◌, ℕ, List, length, Option, Some, Contains, IfOk};
ghost use Rattle.std.specs.Prelude.{IfErr, MatchResult};
ghost use Rattle.command_line.specs.Commands.{reads};
ghost use Rattle.command_line.specs.Meaning.{execution_of, file_name, meaning_of};
ghost use Rattle.commands.specs.Inputs.{execution_files as model_execution_files};
ghost use Rattle.commands.specs.Inputs.{file_names as model_file_names, no_file};
ghost use Rattle.commands.specs.Runs.{names_of};
ghost use Rattle.judged_files.specs.Given.{contents_of};
ghost use Rattle.judged_files.specs.Failures.{file_limit};
ghost use Rattle.commands.specs.Failures.{AreInputs, IsInputFailure};
ghost use Rattle.text_output.specs.Failures.{IsNoRefusal};

use command_line::{Command, Execution};
use dsm_io::Files;
use judged_files::input::{InputFiles, read_bytes, read_named};
use std::alloc::Global;
use text_output::Failure;

/// The files that a command reads, each where it reads one.
#[derive(Clone, Copy)]
struct FileNames<'a> {
    executable: Option<&'a str>,
    /// The rewritten executable.
    code: Option<&'a str>,
    /// The verified executable.
    verified: Option<&'a str>,
    layout: Option<&'a str>,
    /// The record, or the assembly text.
    text: Option<&'a str>,
    /// Whether the command asks for code with batches.
    batches: bool,
}

/// The files of a command that reads an executable, or none.
fn files_with<'a>(executable: Option<&'a str>) -> FileNames<'a>
    ensures { names_of result ≡ record no_file { executable = file_name executable.entry } }
{
    FileNames {
        executable,
        code: None,
        verified: None,
        layout: None,
        text: None,
        batches: true,
    }
}

/// The files of nodes that run.
fn execution_files<'a>(execution: &Execution<'a>) -> FileNames<'a>
    ensures { names_of result ≡ model_execution_files (execution_of execution.now) }
{
    FileNames {
        executable: Some(execution.file),
        code: execution.code,
        verified: execution.verified,
        layout: execution.layout,
        text: None,
        batches: !execution.no_batch,
    }
}

/// The files of a command.
fn file_names<'a>(command: &Command<'a>) -> FileNames<'a>
    ensures { names_of result ≡ model_file_names (meaning_of command.now) }
{
    match command {
        Command::Rewrite(arguments) => FileNames {
            batches: !arguments.no_batch,
            ..files_with(Some(arguments.input))
        },
        Command::Run(arguments) => execution_files(&arguments.execution),
        Command::List(arguments) => files_with(Some(arguments.file)),
        Command::One(arguments) => FileNames {
            layout: arguments.layout,
            ..files_with(Some(arguments.file))
        },
        Command::Sim(arguments) => execution_files(&arguments.execution),
        Command::Replay(arguments) => FileNames {
            verified: arguments.verified,
            text: Some(arguments.record_file),
            ..files_with(Some(arguments.file))
        },
        Command::Generate(_) => files_with(None),
        Command::Assemble(arguments) => FileNames {
            text: Some(arguments.text),
            ..files_with(None)
        },
    }
}

/// Reads the files of a command: the executable, that of its code, the verified one, the layout,
/// and the record or the assembly text, in this order.
pub fn read_inputs<F: Files>(
    alloc: Global,
    command: &Command<'_>,
    files: &mut F,
) -> Result<InputFiles, Failure>
    ensures ok { IfOk result (λ r.
        AreInputs (meaning_of command.now) (F.state files.old) (contents_of r)) }
    ensures failure { IfErr result (IsInputFailure (meaning_of command.now) (F.state files.old)
        (F.state files.new)) }
    ensures longer { (name content : List ℕ) → Contains (reads (meaning_of command.now)) name
        → (F.state files.old).held name ≡ Some content → file_limit < length content
        → MatchResult result (λ r. ⊥) IsNoRefusal }
    ensures contents { (n : List ℕ) → (F.state files.new).held n ≡ (F.state files.old).held n }
    ensures writes { (n : List ℕ)
        → (F.state files.old).failed_writes n ≤ (F.state files.new).failed_writes n }
{
    let names = file_names(command);
    let executable = read_bytes(alloc, files, names.executable)?;
    let code = read_named(alloc, files, names.code)?;
    let verified = read_named(alloc, files, names.verified)?;
    let layout = read_named(alloc, files, names.layout)?;
    let text = read_bytes(alloc, files, names.text)?;
    Ok(InputFiles {
        executable,
        code,
        verified,
        layout,
        text,
        batches: names.batches,
    })
}
