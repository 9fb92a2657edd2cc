//! Puts texts to the output, tells lines of errors, and writes files.

ghost use Rattle.std.specs.Prelude.{◌≡◌, ◌≢◌, ℕ, List, IfErr, IfOk, IfSome, OnOk};
ghost use Rattle.dsm_io.specs.Causes.{Appends};
ghost use Rattle.text_output.specs.Failures.{IsPutFailure, IsWriteFailure};
ghost use Rattle.text_output.specs.Text as model;
ghost use Rattle.text_output.specs.Answers.{Tells};
ghost use Rattle.text_output.specs.Text.{out_of_memory};

use crate::failure::Failure;
use dsm_io::{FileError, Files, Sink, SinkError};
use std::alloc::{AllocError, Global};

/// A long text is put in pieces of about this number of bytes.
pub const PIECE: usize = 0x1_0000;

/// Puts a piece of a command's text.
pub fn put<O: Sink>(out: &mut O, piece: &[u8]) -> Result<(), Failure>
    ensures ok { OnOk result (Appends (O.state out.old).taken (O.state out.new).taken piece.now) }
    ensures faults { OnOk result ((O.state out.new).faults ≡ (O.state out.old).faults) }
    ensures failure { IfErr result (IsPutFailure (O.state out.old) (O.state out.new) piece.now) }
{
    match out.put(piece) {
        Ok(()) => Ok(()),
        Err(SinkError::Failed) => Err(Failure::Output),
        Err(SinkError::OutOfMemory) => Err(Failure::OutOfMemory),
    }
}

/// Makes a file hold these bytes.
pub fn write_file<F: Files>(
    alloc: Global,
    files: &mut F,
    name: &str,
    bytes: &[u8],
) -> Result<(), Failure>
    ensures holds { OnOk result
        (IfSome ((F.state files.new).held name.now) (λ content. content ≡ bytes.now)) }
    ensures failure { IfErr result (IsWriteFailure (F.state files.old) (F.state files.new)
        name.now) }
    ensures others { (n : List ℕ)
        → n ≢ name.now → (F.state files.new).held n ≡ (F.state files.old).held n }
{
    match files.write(name, bytes) {
        Ok(()) => Ok(()),
        Err(FileError::Failed) => Err(Failure::NotWritten(cannot_write(alloc, name)?)),
        Err(FileError::TooLong { limit: _ }) => Err(Failure::OutOfMemory),
        Err(FileError::OutOfMemory) => Err(Failure::OutOfMemory),
    }
}

/// The line that says which file could not be written.
fn cannot_write(alloc: Global, name: &str) -> Result<Vec<u8>, AllocError>
    ensures { IfOk result (λ line. line.items ≡ model.cannot_write name.now) }
{
    let mut line = Vec::new(alloc);
    line.extend_from_slice(b"shasta: cannot write ")?;
    line.extend_from_slice(name.as_bytes())?;
    line.extend_from_slice(b"\n")?;
    Ok(line)
}

/// Tells that the program is out of memory, and answers the status.
pub fn tell_out_of_memory<E: Sink>(err: &mut E) -> u8
    ensures value { result ≡ 5 }
    ensures told { Tells (E.state err.old) (E.state err.new) out_of_memory }
{
    tell(err, b"shasta: out of memory\n");
    5
}

/// Puts a line, and goes on whatever comes of it.
pub fn tell<E: Sink>(err: &mut E, line: &[u8])
    ensures { Tells (E.state err.old) (E.state err.new) line.now }
{
    match err.put(line) {
        Ok(()) => {}
        Err(SinkError::Failed) => {}
        Err(SinkError::OutOfMemory) => {}
    }
}
