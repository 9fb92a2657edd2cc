#![tactic(auto)]
//! A debugger is served: what comes from it is read byte by byte, and what is put back goes out
//! before an answer is made.

ghost use Rattle.std.specs.Prelude.{ℕ, take, IfErr, IfOk, OnOk};
ghost use Rattle.gdb_server.specs.Ends.{Fails, HasServed};
ghost use Rattle.gdb_server.specs.Parts.{BreaksAnswerOff, BreaksOff, HasAnswered, HasHeard};
ghost use Rattle.gdb_server.specs.Parts.{HasPut, IsBroken, standing};

use byte_source::{Source, SourceFailed};
use dsm_io::{Sink, SinkError};
use gdb_session::{After, Server, Target};
use std::alloc::{AllocError, Global};

/// How serving a debugger ends.
#[derive(Clone, Copy, PartialEq, Eq)]
pub enum ServeEnd {
    /// No more bytes come, or 2^64 - 1 did.
    InputEnds,
    /// The debugger left.
    Left,
    /// The debugger killed the run.
    Killed,
}

/// Why a debugger is served no further.
#[derive(Drop)]
pub enum ServeError {
    /// The input could not be read.
    Input,
    /// The output could not be written.
    Output,
    OutOfMemory,
}

impl From<AllocError> for ServeError {
    ghost use Rattle.std.specs.Prelude.{◌≡◌};
    ghost use Rattle.gdb_server.specs.declared.ServeError.TheVariants.{OutOfMemory};

    ghost from_gives = { λ _ e. e ≡ OutOfMemory };

    fn from(_error: AllocError) -> ServeError {
        ServeError::OutOfMemory
    }
}

impl From<SourceFailed> for ServeError {
    ghost use Rattle.std.specs.Prelude.{◌≡◌};
    ghost use Rattle.gdb_server.specs.declared.ServeError.TheVariants.{Input};

    ghost from_gives = { λ _ e. e ≡ Input };

    fn from(_error: SourceFailed) -> ServeError {
        ServeError::Input
    }
}

/// Serves a debugger at a run, until it leaves or kills the run, or no more bytes come.
///
/// After an error the debugger has heard a part of what it was to hear of the last byte, and the
/// run may stand anywhere.
pub fn serve<T: Target, S: Source, O: Sink>(
    alloc: Global,
    target: &mut T,
    source: &mut S,
    out: &mut O,
) -> Result<ServeEnd, ServeError>
    ensures served { IfOk result (λ end. HasServed T.view T.does T.moves T.tells target.old
        (record {
          input = S.state source.old;
          input_after = S.state source.new;
          output = O.state out.old;
          output_after = O.state out.new;
        }) end target.new) }
    ensures fails { IfErr result (Fails T.view T.does T.moves T.tells target.old
        (record {
          input = S.state source.old;
          input_after = S.state source.new;
          output = O.state out.old;
          output_after = O.state out.new;
        })) }
{
    let mut server = Server::new(alloc);
    for _count in 0..u64::MAX {
        let Some(byte) = source.next()? else {
            return Ok(ServeEnd::InputEnds);
        };
        match hear(alloc, &mut server, target, byte, out)? {
            After::GoesOn => {}
            After::Leaves => return Ok(ServeEnd::Left),
            After::IsKilled => return Ok(ServeEnd::Killed),
        }
    }
    Ok(ServeEnd::InputEnds)
}

/// Hears a byte, and says whether the debugger stays. What is put at once goes out before a request
/// is answered, which may take long.
fn hear<T: Target, O: Sink>(
    alloc: Global,
    server: &mut Server,
    target: &mut T,
    byte: u8,
    out: &mut O,
) -> Result<After, ServeError>
    ensures hears { IfOk result (λ after. HasHeard T.view T.does T.moves T.tells
        (standing server.old target.old After.GoesOn) byte
        (standing server.new target.new after) (O.state out.old) (O.state out.new)) }
    ensures breaks { IfErr result (BreaksOff T.view T.does T.moves T.tells
        (standing server.old target.old After.GoesOn) byte (O.state out.old) (O.state out.new)) }
{
    let mut piece = Vec::new(alloc);
    let asked = server.read(alloc, byte, &mut piece)?;
    put(out, &piece)?;
    if !asked {
        return Ok(After::GoesOn);
    }
    answer(alloc, server, target, out)
}

/// Answers the request that was read last, and says whether the debugger stays.
fn answer<T: Target, O: Sink>(
    alloc: Global,
    server: &mut Server,
    target: &mut T,
    out: &mut O,
) -> Result<After, ServeError>
    ensures answers { IfOk result (λ after. HasAnswered T.view T.does T.moves T.tells
        server.old target.old
        (standing server.new target.new after) (O.state out.old) (O.state out.new)) }
    ensures breaks { IfErr result (BreaksAnswerOff T.view T.does T.moves T.tells
        server.old target.old (O.state out.old) (O.state out.new)) }
{
    let mut packet = Vec::new(alloc);
    let after = server.answer(alloc, target, &mut packet)?;
    put(out, &packet)?;
    Ok(after)
}

/// Puts a piece, if there is anything in it.
fn put<O: Sink>(out: &mut O, piece: &[u8]) -> Result<(), ServeError>
    ensures ok { OnOk result (HasPut (O.state out.old) (O.state out.new) piece.now) }
    ensures err { IfErr result (λ e.
        (k : ℕ) × IsBroken (O.state out.old) (O.state out.new) (take k piece.now) e) }
{
    if piece.is_empty() {
        return Ok(());
    }
    match out.put(piece) {
        Ok(()) => Ok(()),
        Err(SinkError::Failed) => Err(ServeError::Output),
        Err(SinkError::OutOfMemory) => Err(ServeError::OutOfMemory),
    }
}
