//! The commands of `monitor`.

ghost use Rattle.std.specs.Prelude.{◌≡◌, ◌++◌, IfOk, OnOk};
ghost use Rattle.std.specs.Fmt.{decimal};
ghost use Rattle.debugged_run.specs.Commands as model;

use crate::stops::mover_at;
use itoa::Buffer;
use std::alloc::{AllocError, Global};
use time_machine::TimeMachine;
use time_machine::one_memory::Pick;

/// What a command tells.
pub(crate) fn told_of(
    alloc: Global,
    machine: &TimeMachine<'_>,
    command: &[u8],
) -> Result<Vec<u8>, AllocError>
    ensures { IfOk result (λ told. told.items ≡ model.told_of machine.now command.now) }
{
    if command == b"where".as_slice() {
        return where_text(alloc, machine.picks(), machine.position());
    }
    if command == b"output".as_slice() {
        return Vec::from_slice(alloc, machine.machine().output());
    }
    unknown_text(alloc)
}

/// How many of the picks have been made, and whose was the last.
fn where_text(alloc: Global, picks: &[Pick], position: usize) -> Result<Vec<u8>, AllocError>
    ensures { IfOk result (λ text. text.items ≡ model.where_text picks.now position) }
{
    let mut text = Vec::new(alloc);
    text.extend_from_slice(b"after ")?;
    push_number(&mut text, position)?;
    text.extend_from_slice(b" of ")?;
    push_number(&mut text, picks.len())?;
    text.extend_from_slice(b" picks")?;
    push_last(&mut text, picks, position)?;
    Ok(text)
}

/// Appends whose pick was the last that was made, if one was.
fn push_last(text: &mut Vec<u8>, picks: &[Pick], position: usize) -> Result<(), AllocError>
    ensures { OnOk result
        (text.new.items ≡ text.old.items ++ model.last_text picks.now position) }
{
    if position > 0 {
        text.extend_from_slice(b", the last of processor ")?;
        push_number(text, usize::from(mover_at(picks, position - 1)))?;
    }
    text.extend_from_slice(b"\n")
}

/// Appends a number in decimal digits.
fn push_number(text: &mut Vec<u8>, number: usize) -> Result<(), AllocError>
    ensures { OnOk result (text.new.items ≡ text.old.items ++ decimal number) }
{
    let mut buffer = Buffer::new();
    text.extend_from_slice(buffer.format(number).as_bytes())
}

/// What is told of a command that there isn't.
#[tactic(auto, unfolding(crate::specs::Commands::unknown_text))]
fn unknown_text(alloc: Global) -> Result<Vec<u8>, AllocError>
    ensures { IfOk result (λ text. text.items ≡ model.unknown_text) }
{
    Vec::from_slice(alloc, b"no such command; there are where and output\n")
}
