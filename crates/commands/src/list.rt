//! `list`: a line for each code word, ascending.

ghost use Rattle.std.specs.Prelude.{◌≡◌, ◌++◌, true, IfOk, IfErr, OnOk};
ghost use Rattle.exec_map.specs.Contents.{is_code_word, word_of};
ghost use Rattle.rv32_text.specs.Listing.{line_of as model_line_of};
ghost use Rattle.dsm_io.specs.Causes.{Appends};
ghost use Rattle.commands.specs.Headline.{IsListingText, listing};
ghost use Rattle.judged_files.specs.Executables.{IsUnaccepted};
ghost use Rattle.text_output.specs.Failures.{Puts, FailsAs, IsLike, IsNever};

use dsm_io::Sink;
use exec_map::Program;
use judged_files::input::{elf_of, program_of};
use judged_files::refusal::Subject;
use rv32_text::line_of;
use std::alloc::{AllocError, Global};
use text_output::{Failure, PIECE, put};

/// Puts the listing of the executable in a file; the status is 0.
pub fn list<O: Sink>(alloc: Global, file: &[u8], out: &mut O) -> Result<u8, Failure>
    ensures ok { IfOk result (λ status. Puts (IsListingText file.now) status
        (O.state out.old) (O.state out.new)) }
    ensures failure { IfErr result (FailsAs (IsListingText file.now) (IsUnaccepted file.now) IsNever
        (O.state out.old) (O.state out.new)) }
{
    let elf = elf_of(alloc, Subject::Executable, file)?;
    let program = program_of(alloc, &elf)?;
    put_lines(alloc, &program, out)?;
    Ok(0)
}

/// Puts a line for each code word.
fn put_lines<O: Sink>(alloc: Global, program: &Program<'_>, out: &mut O) -> Result<(), Failure>
    ensures ok { OnOk result (Appends (O.state out.old).taken (O.state out.new).taken
        (listing program.now)) }
    ensures failure { IfErr result (FailsAs (IsLike (listing program.now)) IsNever IsNever
        (O.state out.old) (O.state out.new)) }
{
    let mut lines = Vec::new(alloc);
    let mut next = program.next_code(0);
    while let Some(address) = next {
        push_line(program, address, &mut lines)?;
        if lines.len() >= PIECE {
            put(out, &lines)?;
            lines.clear();
        }
        next = program.next_code(address + 4);
    }
    put(out, &lines)?;
    Ok(())
}

/// Appends the line of the code word at an address.
fn push_line(program: &Program<'_>, address: u32, lines: &mut Vec<u8>) -> Result<(), AllocError>
    requires { is_code_word program.now address ≡ true }
    ensures { OnOk result (lines.new.items
        ≡ lines.old.items ++ model_line_of address (word_of program.now address)) }
{
    match program.word_at(address) {
        Some(word) => line_of(address, word, lines),
        None => unreachable!(),
    }
}
