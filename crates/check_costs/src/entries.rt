//! The kinds of the words of an entry.

ghost use Rattle.std.specs.Prelude.{◌≡◌, ◌≢◌, ◌++◌, ℕ, ℤ, map, replicate, OnOk};
ghost use Rattle.rv32_decode.specs.declared.Cond.{Cond as OfBranch};
ghost use Rattle.templates.specs.declared.places.Part.TheVariants.{Single};
ghost use Rattle.templates.specs.Code.{code_of};
ghost use Rattle.templates.specs.Runs.{IsRun};
ghost use Rattle.templates.specs.Plans.{is_flag_checked};
ghost use Rattle.templates.specs.Sequences.{instruction_items, load_sequence};
ghost use Rattle.templates.specs.Writing.{jump_items, branch_items};
ghost use Rattle.check_costs.specs.Kinds.{kind_of, kinds_in, kinds_of};
ghost use Rattle.check_costs.specs.Given.{access_kinds, flag_load_kinds, kinds_of_batch};

use crate::kinds::{WordKind, check_of};
use rv32_decode::{Instr, LoadKind, Reg};
use std::alloc::AllocError;
use templates::{
    Code, PlanEntry, Scratches, Template, batch_lengths, is_flag_checked, reload_count,
};

/// Appends the kinds of an entry's words, in the order of rewritten code.
pub fn push_kinds(
    entry: &PlanEntry,
    code: &Code,
    kinds: &mut Vec<WordKind>,
) -> Result<(), AllocError>
    requires run { entry.now.run ≢ 0
        → IsRun (code_of code.now) entry.now.address entry.now.run }
    ensures kinds { OnOk result (kinds.new.items
        ≡ kinds.old.items ++ kinds_of (code_of code.now) entry.now) }
{
    if entry.run != 0 {
        push_batch(entry, code, kinds)?;
    }
    push_single(entry, code, kinds)?;
    Ok(())
}

/// Appends the kinds of the words of the batch of the run that starts at an entry's place.
fn push_batch(entry: &PlanEntry, code: &Code, kinds: &mut Vec<WordKind>) -> Result<(), AllocError>
    requires run { IsRun (code_of code.now) entry.now.address entry.now.run }
    ensures kinds { OnOk result (kinds.new.items
        ≡ kinds.old.items ++ kinds_of_batch (code_of code.now) entry.now) }
{
    let spilled = reload_count(&entry.batch);
    let lengths = batch_lengths(entry, code);
    push_many(WordKind::Spill, spilled, kinds)?;
    push_many(WordKind::Batch, lengths.head - spilled, kinds)?;
    push_many(WordKind::Spill, spilled, kinds)?;
    push_many(WordKind::Own, entry.run, kinds)?;
    kinds.push(WordKind::Batch)?;
    push_many(WordKind::Spill, spilled, kinds)?;
    Ok(())
}

/// Appends a kind `count` times.
fn push_many(kind: WordKind, count: u8, kinds: &mut Vec<WordKind>) -> Result<(), AllocError>
    ensures { OnOk result (kinds.new.items ≡ kinds.old.items ++ replicate count kind) }
{
    kinds.resize(kinds.len() + usize::from(count), kind)?;
    Ok(())
}

/// Appends the kinds of the words of an entry's single sequence.
fn push_single(entry: &PlanEntry, code: &Code, kinds: &mut Vec<WordKind>) -> Result<(), AllocError>
    ensures { OnOk result (kinds.new.items
        ≡ kinds.old.items ++ kinds_in (code_of code.now) entry.now Single) }
{
    if entry.polls {
        kinds.push(WordKind::Poll)?;
    }
    match code.at(entry.address) {
        None => kinds.push(WordKind::Jump)?,
        Some(i) => push_instruction(entry.address, entry.template, &entry.single, &i, kinds)?,
    }
    Ok(())
}

/// Appends the kinds of the words of an instruction's sequence.
#[tactic(auto, using(crate::proofs::Sequences::read_is, crate::proofs::Sequences::write_is))]
fn push_instruction(
    address: u32,
    template: Template,
    scratches: &Scratches,
    i: &Instr,
    kinds: &mut Vec<WordKind>,
) -> Result<(), AllocError>
    ensures { OnOk result (kinds.new.items ≡ kinds.old.items
        ++ map (kind_of template Single) (instruction_items address scratches.now i.now)) }
{
    match i {
        Instr::Auipc { .. } | Instr::Sc { .. } => {
            kinds.extend_from_slice(&[check_of(template), WordKind::Own])?;
        }
        Instr::Jal { offset, .. } => {
            push_jump(template, address.wrapping_add(offset.word()), kinds)?;
        }
        Instr::Branch { offset, .. } => {
            push_branch(template, address.wrapping_add(offset.word()), kinds)?;
        }
        Instr::Load { kind, rd, rs1, .. } => {
            push_load(template, scratches, *kind, *rd, *rs1, kinds)?;
        }
        Instr::Lr { .. } => push_access(template, scratches, 8, kinds)?,
        Instr::Store { .. } | Instr::Amo { .. } => push_access(template, scratches, 7, kinds)?,
        _ => kinds.push(WordKind::Own)?,
    }
    Ok(())
}

/// Appends the kinds of the words of a jump to an address.
fn push_jump(template: Template, target: u32, kinds: &mut Vec<WordKind>) -> Result<(), AllocError>
    ensures { OnOk result ((rd next : ℕ) → kinds.new.items ≡ kinds.old.items
        ++ map (kind_of template Single) (jump_items rd next target)) }
{
    let check = check_of(template);
    if target % 4 == 0 {
        kinds.extend_from_slice(&[check, WordKind::Own, check])?;
    } else {
        kinds.push(WordKind::Own)?;
    }
    Ok(())
}

/// Appends the kinds of the words of a branch to an address.
fn push_branch(template: Template, target: u32, kinds: &mut Vec<WordKind>) -> Result<(), AllocError>
    ensures { OnOk result ((c : OfBranch) (rs1 rs2 : ℕ) → kinds.new.items ≡ kinds.old.items
        ++ map (kind_of template Single) (branch_items c rs1 rs2 target)) }
{
    if target % 4 == 0 {
        kinds.extend_from_slice(&[WordKind::Own, check_of(template)])?;
    } else {
        kinds.push(WordKind::Own)?;
    }
    Ok(())
}

/// Appends the kinds of the words of a load, by its value or its line's state.
#[tactic(auto, using(crate::proofs::Sequences::read_is, crate::proofs::Sequences::flag_load_is))]
fn push_load(
    template: Template,
    scratches: &Scratches,
    kind: LoadKind,
    rd: Reg,
    rs1: Reg,
    kinds: &mut Vec<WordKind>,
) -> Result<(), AllocError>
    ensures { OnOk result ((imm : ℤ) → kinds.new.items ≡ kinds.old.items
        ++ map (kind_of template Single)
        (load_sequence (is_flag_checked kind rd rs1) scratches.now kind rd rs1 imm)) }
{
    if is_flag_checked(kind, rd, rs1) {
        push_flag_load(template, scratches, kinds)
    } else {
        push_access(template, scratches, 8, kinds)
    }
}

/// Appends the kinds of the words of a load by its value.
fn push_flag_load(
    template: Template,
    scratches: &Scratches,
    kinds: &mut Vec<WordKind>,
) -> Result<(), AllocError>
    ensures { OnOk result (kinds.new.items
        ≡ kinds.old.items ++ flag_load_kinds template scratches.now) }
{
    let check = check_of(template);
    let spilled = u8::from(scratches.s.spilled);
    push_many(WordKind::Spill, spilled, kinds)?;
    kinds.extend_from_slice(&[check, check, WordKind::Own])?;
    kinds.extend_from_slice(&[check, check, check, WordKind::Own])?;
    push_many(WordKind::Spill, spilled, kinds)?;
    Ok(())
}

/// Appends the kinds of the words of an access after the words of its check.
fn push_access(
    template: Template,
    scratches: &Scratches,
    words: u8,
    kinds: &mut Vec<WordKind>,
) -> Result<(), AllocError>
    ensures { OnOk result (kinds.new.items
        ≡ kinds.old.items ++ access_kinds template scratches.now words) }
{
    let spilled = u8::from(scratches.s.spilled) + u8::from(scratches.t.spilled);
    push_many(WordKind::Spill, spilled, kinds)?;
    push_many(check_of(template), words, kinds)?;
    kinds.push(WordKind::Own)?;
    push_many(WordKind::Spill, spilled, kinds)?;
    Ok(())
}
