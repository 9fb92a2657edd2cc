#![tactic(auto)]
//! What a program is: classes of lines, code and the paths through it, calls, and how a processor
//! ends.

ghost use Rattle.std.specs.Prelude.{◌≡◌, ◌==◌};
ghost use Rattle.rv32_program.specs.Program as model;
ghost use Rattle.rv32_program.specs.Targets.{aligned, aligned_target};

pub mod addresses;

use rv32_decode::Instr;

/// The class of a line of 64 bytes.
#[derive(Clone, Copy, Debug, PartialEq, Eq)]
pub enum Class {
    /// In a writable segment: all processors have it in common.
    Shared,
    /// In another segment: it holds the original bytes.
    ReadOnly,
    /// In the window 0x7fff0000 to 0x7fffffff, where each processor has bytes of its own.
    Private,
    Unmapped,
}

/// How a processor's run ended by itself. An address is that of the instruction, or the pc for
/// `Fetch`.
#[derive(Clone, Copy, PartialEq, Eq)]
pub enum Exit {
    /// The exit call, with the low 8 bits of a0.
    Code(u8),
    Ebreak(u32),
    Illegal(u32),
    Misaligned(u32),
    Access(u32),
    /// No code word at the pc.
    Fetch(u32),
}

/// How a processor ended.
#[derive(Clone, Copy, PartialEq, Eq)]
pub enum End {
    Exited(Exit),
    /// The budget stopped it, after this number of words, or of steps of the original by `one`.
    Stopped(u64),
}

/// The call that a number names.
#[derive(Clone, Copy, PartialEq, Eq)]
pub enum CallKind {
    /// Writes bytes to file 1 or 2.
    Write,
    /// Ends the processor.
    Exit,
    Unknown,
}

/// The call that a number in a7 names: exit is 93 and 94, write is 64.
pub fn call_of(a7: u32) -> CallKind
    ensures value { result ≡ model.call_of a7 }
{
    match a7 {
        93 | 94 => CallKind::Exit,
        64 => CallKind::Write,
        _ => CallKind::Unknown,
    }
}

/// Where a direct jump or branch at an address goes, where that is a multiple of four.
pub fn aligned_target(i: &Instr, address: u32) -> Option<u32>
    ensures value { result ≡ aligned_target i.now address }
{
    match i {
        Instr::Jal { offset, .. } => aligned(address.wrapping_add(offset.word())),
        Instr::Branch { offset, .. } => aligned(address.wrapping_add(offset.word())),
        _ => None,
    }
}

/// The address, where it is a multiple of four.
fn aligned(address: u32) -> Option<u32>
    ensures value { result ≡ aligned address }
{
    if address % 4 == 0 {
        Some(address)
    } else {
        None
    }
}
