//! The top call.

ghost use Rattle.std.specs.Prelude.{◌≡◌, ◌≢◌, ◌≤◌, ◌⊎◌, ◌<◌, ℕ, List, Some, length, Contains, IfOk};
ghost use Rattle.std.specs.Prelude.{IfErr, MatchResult};
ghost use Rattle.command_line.specs.Commands.{Command as Asked, IsFit, reads, writes};
ghost use Rattle.command_line.specs.Tasks.{Task};
ghost use Rattle.command_line.specs.Asks.{Asks, AsksToRun};
ghost use Rattle.command_line.specs.Meaning.{meaning_of};
ghost use Rattle.commands.specs.Headline.{IsText, Prints, PrintsPrefix};
ghost use Rattle.commands.specs.Inputs.{AreTold, inputs_of};
ghost use Rattle.commands.specs.Interleaved.{AreFilesTold, PrintsOriginal};
ghost use Rattle.judged_files.specs.Given.{bytes_of};
ghost use Rattle.commands.specs.Failures.{IsSuccess, IsFailure, IsPerformFailure, AreKept};
ghost use Rattle.text_output.specs.Failures.{IsNoRefusal, Puts};
ghost use Rattle.commands.specs.Refusals.{IsRefused, IsLayoutRefused, IsRecordRefused};
ghost use Rattle.commands.specs.Refusals.{IsTextRefused};
ghost use Rattle.text_output.specs.Answers.{Tells};
ghost use Rattle.judged_files.specs.Failures.{file_limit};
ghost use Rattle.commands.specs.Answers.{IsFault, IsRefusalStatus, AreLeft, AreWritten};
ghost use Rattle.commands.specs.Text.{usage};
ghost use Rattle.text_output.specs.Text.{out_of_memory};

use crate::assembly::assemble_into;
use crate::generate::generate_into;
use crate::input::read_inputs;
use crate::list::list;
use crate::one::one;
use crate::rerun::put_replay;
use crate::rewrite::rewrite_into;
use crate::run::run;
use crate::sim::sim;
use crate::text::USAGE;
use command_line::{Command, command_of};
use dsm_io::{Files, Sink, Text};
use judged_files::input::Inputs;
use node_threads::Gate;
use std::alloc::Global;
use std::sync::Wait;
use std::thread::Threads;
use text_output::{Failure, tell, tell_out_of_memory};

/// Does what the words ask for, and answers the status: 0 where every processor ended by itself
/// with code 0, or none runs; 1 where some processor ended otherwise; 2 for a faulty command line;
/// 3 where a file or the output failed; 4 where the executable, a file of its rewritten code or a
/// verified file is refused; 5 where it was out of memory; 6 where the layout is refused; 7 where
/// the record is; 8 where the assembly text is.
pub fn shasta<R: Threads + Wait + Sync, F: Files, O: Sink, E: Sink, G: Gate + Sync>(
    rt: &R,
    alloc: Global,
    words: &[Text],
    files: &mut F,
    out: &mut O,
    err: &mut E,
    gate: &G,
) -> u8
    ensures range { result ≤ 8 }

    // Status 2 is for words that ask for nothing, and where there is memory for exactly those; the
    // usage text is told.
    ensures faulty { result ≡ 2 → (c : Asked) → Asks words.now c → ⊥ }
    ensures asked { result ≢ 2 → result ≢ 5 → (c : Asked) × Asks words.now c }
    ensures usage { result ≡ 2 → Tells (E.state err.old) (E.state err.new) usage }

    // With status 0 and 1 the text is what the command asks for: of `run`, `sim` and `replay`, that
    // of a run of the original on one memory. Where `run` writes a record, the file holds that of
    // the very run whose text this is; and `replay` makes the very run that the record tells of.
    // `err` took nothing.
    ensures prints { (c : Asked) (contents : List ℕ → List ℕ) → Asks words.now c
        → AreTold c (F.state files.old) contents → result ≤ 1
        → Prints c contents (F.state files.new) (O.state out.old) (O.state out.new) result }
    ensures silent { result ≤ 1 → (E.state err.new).taken ≡ (E.state err.old).taken }
    // So the text of `one`, `sim`, `run` and `replay` tells of the original alone: of a run of its
    // processors on one memory, interleaved instruction by instruction. A processor without an exit
    // has made steps there: of `one` as many as the budget, of the others at least one for each 40
    // words of the budget; for nodes of several processors no number is promised. The run of
    // `replay` has the processors, the budget and the blocks of the record.
    ensures interleaved { (p : Task) (contents : List ℕ → List ℕ) → AsksToRun words.now p
        → AreFilesTold p (F.state files.old) contents → result ≤ 1
        → PrintsOriginal p contents (O.state out.old) (O.state out.new) }

    // Status 4 is for a refused executable, one that isn't the rewritten one, or a verified file
    // that is that of no rewriting; the refusal is told.
    ensures refused { (c : Asked) (contents : List ℕ → List ℕ) → Asks words.now c
        → AreTold c (F.state files.old) contents → result ≡ 4
        → (line : List ℕ) × IsRefused c (inputs_of c contents) line
        × Tells (E.state err.old) (E.state err.new) line }
    ensures nothing { (result ≡ 2) ⊎ IsRefusalStatus result
        → (O.state out.new).taken ≡ (O.state out.old).taken }

    // Status 6 is for a refused layout of an executable that isn't refused; the refusal is told.
    ensures layout { (c : Asked) (contents : List ℕ → List ℕ) → Asks words.now c
        → AreTold c (F.state files.old) contents → result ≡ 6
        → (line : List ℕ) × IsLayoutRefused c (inputs_of c contents) line
        × Tells (E.state err.old) (E.state err.new) line }

    // Status 7 is for a refused record, by its text or by the events that it tells of; the refusal
    // is told.
    ensures record { (c : Asked) (contents : List ℕ → List ℕ) → Asks words.now c
        → AreTold c (F.state files.old) contents → result ≡ 7
        → (line : List ℕ) × IsRecordRefused c (inputs_of c contents) line
        × Tells (E.state err.old) (E.state err.new) line }

    // Status 8 is for an assembly text that breaks a rule; the first line that breaks one, and the
    // lowest rule that it breaks, are told.
    ensures text { (c : Asked) (contents : List ℕ → List ℕ) → Asks words.now c
        → AreTold c (F.state files.old) contents → result ≡ 8
        → (line : List ℕ) × IsTextRefused c (inputs_of c contents) line
        × Tells (E.state err.old) (E.state err.new) line }

    // Status 3 comes only where a count of faults rose in this call, or a file is too long; its
    // line names which. A fault of a file comes before anything is put, one of the output only
    // where a text that the command asks for is being put. A file that is too long is never run.
    ensures fault { (c : Asked) → Asks words.now c → result ≡ 3
        → IsFault c (F.state files.old) (F.state files.new) (O.state out.old) (O.state out.new)
        (Tells (E.state err.old) (E.state err.new)) }
    ensures longer { (c : Asked) (name content : List ℕ) → Asks words.now c
        → Contains (reads c) name → (F.state files.old).held name ≡ Some content
        → file_limit < length content → (result ≡ 3) ⊎ (result ≡ 5) }

    // Status 5 is for want of memory, and says so. A prefix of the text was put, or nothing. With
    // status 3 as with 5, where `run` wrote a record the prefix is of the text of that very run.
    ensures wanted { result ≡ 5 → Tells (E.state err.old) (E.state err.new) out_of_memory }
    ensures prefix { (c : Asked) (contents : List ℕ → List ℕ) → Asks words.now c
        → AreTold c (F.state files.old) contents → result ≡ 5
        → ((O.state out.new).taken ≡ (O.state out.old).taken)
        ⊎ PrintsPrefix c contents (F.state files.new) (O.state out.old) (O.state out.new) }

    // No file changes but one that the command writes; and that one does only with status 0, 3 or
    // 5.
    ensures files { (name : List ℕ)
        → ((c : Asked) → Asks words.now c → Contains (writes c) name → ⊥)
        → (F.state files.new).held name ≡ (F.state files.old).held name }
    ensures kept { (result ≡ 2) ⊎ IsRefusalStatus result
        → (name : List ℕ) → (F.state files.new).held name ≡ (F.state files.old).held name }
    ensures written { (c : Asked) (contents : List ℕ → List ℕ) → Asks words.now c
        → AreTold c (F.state files.old) contents → result ≤ 1
        → AreWritten c (inputs_of c contents) (F.state files.new) }
    ensures left { (c : Asked) (contents : List ℕ → List ℕ) → Asks words.now c
        → AreTold c (F.state files.old) contents → (result ≡ 3) ⊎ (result ≡ 5)
        → AreLeft c (inputs_of c contents) (F.state files.old) (F.state files.new) }
{
    let command = match command_of(alloc, words) {
        Ok(Some(command)) => command,
        Ok(None) => {
            tell(err, USAGE.as_bytes());
            return 2;
        }
        Err(_) => return tell_out_of_memory(err),
    };
    match answer(rt, alloc, &command, files, out, gate) {
        Ok(status) => status,
        Err(failure) => {
            tell(err, failure.line());
            failure.status()
        }
    }
}

/// Reads the files of a command, and does what the command asks for.
fn answer<R: Threads + Wait + Sync, F: Files, O: Sink, G: Gate + Sync>(
    rt: &R,
    alloc: Global,
    command: &Command<'_>,
    files: &mut F,
    out: &mut O,
    gate: &G,
) -> Result<u8, Failure>
    requires fits { IsFit (meaning_of command.now) }
    ensures ok { IfOk result (IsSuccess (meaning_of command.now) (F.state files.old)
        (F.state files.new) (O.state out.old) (O.state out.new)) }
    ensures failure { IfErr result (IsFailure (meaning_of command.now) (F.state files.old)
        (F.state files.new) (O.state out.old) (O.state out.new)) }
    ensures longer { (name content : List ℕ) → Contains (reads (meaning_of command.now)) name
        → (F.state files.old).held name ≡ Some content → file_limit < length content
        → MatchResult result (λ status. ⊥) IsNoRefusal }
    ensures others { (name : List ℕ) → (Contains (writes (meaning_of command.now)) name → ⊥)
        → (F.state files.new).held name ≡ (F.state files.old).held name }
    ensures kept { IfErr result (AreKept (F.state files.old) (F.state files.new)) }
    ensures written { IfOk result (λ status. (contents : List ℕ → List ℕ)
        → AreTold (meaning_of command.now) (F.state files.old) contents
        → AreWritten (meaning_of command.now) (inputs_of (meaning_of command.now) contents)
        (F.state files.new)) }
    ensures left { IfErr result (λ f. (contents : List ℕ → List ℕ)
        → AreTold (meaning_of command.now) (F.state files.old) contents
        → AreLeft (meaning_of command.now) (inputs_of (meaning_of command.now) contents)
        (F.state files.old) (F.state files.new)) }
{
    let inputs = read_inputs(alloc, command, files)?;
    perform(rt, alloc, command, &inputs.lend(), files, out, gate)
}

/// Does what a command asks for, with the files that it reads.
fn perform<R: Threads + Wait + Sync, F: Files, O: Sink, G: Gate + Sync>(
    rt: &R,
    alloc: Global,
    command: &Command<'_>,
    inputs: &Inputs<'_>,
    files: &mut F,
    out: &mut O,
    gate: &G,
) -> Result<u8, Failure>
    requires fits { IsFit (meaning_of command.now) }
    ensures ok { IfOk result (λ status.
        Puts (IsText (meaning_of command.now) (F.state files.new) (bytes_of inputs.now))
        status (O.state out.old) (O.state out.new)) }
    ensures failure { IfErr result (IsPerformFailure (meaning_of command.now) (bytes_of inputs.now)
        (F.state files.old) (F.state files.new) (O.state out.old) (O.state out.new)) }
    ensures others { (name : List ℕ) → (Contains (writes (meaning_of command.now)) name → ⊥)
        → (F.state files.new).held name ≡ (F.state files.old).held name }
    ensures kept { IfErr result (AreKept (F.state files.old) (F.state files.new)) }
    ensures written { IfOk result (λ status. AreWritten (meaning_of command.now)
        (bytes_of inputs.now) (F.state files.new)) }
    ensures left { IfErr result (λ f. AreLeft (meaning_of command.now) (bytes_of inputs.now)
        (F.state files.old) (F.state files.new)) }
{
    let file = inputs.executable;
    match command {
        Command::Rewrite(arguments) => {
            rewrite_into(alloc, file, inputs.batches, arguments.output, files)
        }
        Command::Run(arguments) => run(rt, alloc, inputs, arguments, files, out, gate),
        Command::List(_) => list(alloc, file, out),
        Command::One(arguments) => {
            one(
                alloc,
                inputs,
                arguments.nodes,
                arguments.order,
                arguments.budget,
                out,
            )
        }
        Command::Sim(arguments) => sim(alloc, inputs, arguments, out),
        Command::Replay(arguments) => put_replay(alloc, inputs, arguments.brief, out),
        Command::Generate(arguments) => {
            generate_into(alloc, arguments.number, arguments.output, files)
        }
        Command::Assemble(arguments) => {
            assemble_into(alloc, inputs.text, arguments.output, files)
        }
    }
}
