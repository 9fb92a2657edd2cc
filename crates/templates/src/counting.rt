//! How many words a sequence has.

ghost use Rattle.std.specs.Prelude.{◌≡◌, ◌+◌, ◌%◌, ◌≤◌, [], length};
ghost use Rattle.templates.specs.Counting.{spilled_count, IsLoadLength, IsJumpLength};
ghost use Rattle.templates.specs.Counting.{IsBranchLength};
ghost use Rattle.templates.specs.Sequences.{items_of, place_items, instruction_items};
ghost use Rattle.templates.specs.Sequences.{reloads_of_run};

use crate::plans::{PlanEntry, Scratches, is_flag_checked};
use rv32_decode::{Instr, LoadKind, Reg};

/// The number of words of a place's single sequence.
pub fn sequence_length(entry: &PlanEntry, code: Option<Instr>) -> u8
    ensures value { result ≡ length (items_of entry.now code) }
    ensures small { result ≤ 14 }
{
    let length = place_length(entry.address, &entry.single, code);
    if entry.polls { 1 + length } else { length }
}

/// The number of words of a place's single sequence, but for the poll.
fn place_length(address: u32, scratches: &Scratches, code: Option<Instr>) -> u8
    ensures value { result ≡ length (place_items address scratches.now code) }
    ensures small { result ≤ 13 }
{
    match code {
        None => 1,
        Some(i) => instruction_length(address, scratches, &i),
    }
}

/// The number of words of an instruction's sequence.
fn instruction_length(address: u32, scratches: &Scratches, i: &Instr) -> u8
    ensures value { result ≡ length (instruction_items address scratches.now i.now) }
    ensures small { result ≤ 13 }
{
    match i {
        Instr::Auipc { .. } => 2,
        Instr::Jal { offset, .. } => jump_length(address.wrapping_add(offset.word())),
        Instr::Branch { offset, .. } => branch_length(address.wrapping_add(offset.word())),
        Instr::Load { kind, rd, rs1, .. } => load_length(scratches, *kind, *rd, *rs1),
        Instr::Lr { .. } => 9 + 2 * spilled_count(scratches),
        Instr::Sc { .. } => 2,
        Instr::Store { .. } | Instr::Amo { .. } => 8 + 2 * spilled_count(scratches),
        _ => 1,
    }
}

/// The number of words of a load's sequence.
fn load_length(scratches: &Scratches, kind: LoadKind, rd: Reg, rs1: Reg) -> u8
    ensures value { IsLoadLength scratches.now kind rd rs1 result }
    ensures small { result ≤ 13 }
{
    if is_flag_checked(kind, rd, rs1) {
        7 + 2 * u8::from(scratches.s.spilled)
    } else {
        9 + 2 * spilled_count(scratches)
    }
}

/// The number of words of a jump's sequence.
fn jump_length(target: u32) -> u8
    ensures value { IsJumpLength target result }
    ensures small { result ≤ 3 }
{
    if target % 4 == 0 { 3 } else { 1 }
}

/// The number of words of a branch's sequence.
fn branch_length(target: u32) -> u8
    ensures value { IsBranchLength target result }
    ensures small { result ≤ 2 }
{
    if target % 4 == 0 { 2 } else { 1 }
}

/// How many registers of a run's check are spilled, and come back after it.
pub fn reload_count(scratches: &Scratches) -> u8
    ensures value { result ≡ length (reloads_of_run scratches.now []) }
    ensures small { result ≤ 3 }
{
    u8::from(scratches.s.spilled) + u8::from(scratches.t.spilled) + u8::from(scratches.u.spilled)
}

/// How many of the registers are spilled.
pub(crate) fn spilled_count(scratches: &Scratches) -> u8
    ensures value { result ≡ spilled_count scratches.now }
    ensures small { result ≤ 2 }
{
    u8::from(scratches.s.spilled) + u8::from(scratches.t.spilled)
}
