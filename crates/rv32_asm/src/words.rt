//! The words of instructions at their addresses.

ghost use Rattle.std.specs.Prelude.{◌^◌, ◌+◌, ◌<◌, ◌≤◌, List, MatchBool, IfOk, IfSome};
ghost use Rattle.rv32_lines.specs.Reading.{IsReadTarget, IsReadCommand};
ghost use Rattle.rv32_lines.specs.Statements.{Statement as Statements, IsTarget, IsWritten};
ghost use Rattle.rv32_lines.specs.Texts.{Target as Targets, Written, Jump, Conditional};
ghost use Rattle.rv32_asm.specs.Rules.{IsBeyond};
ghost use Rattle.rv32_asm.specs.Standing.{AreLabels, HasRoom, IsNoAddress, IsNear, IsOffset};
ghost use Rattle.rv32_asm.specs.Standing.{IsFoundTarget, IsFoundOffset, IsFoundWord};

use crate::labels::Labels;
use crate::refused::AsmRule;
use rv32_decode::{BranchOffset, Cond, Instr, JumpOffset, Reg, encode, ranges_law};
use rv32_lines::{Target, WrittenInstruction};

/// No address is as high.
pub(crate) const ADDRESS_END: u128 = 1 << 32;

/// How far a jump reaches.
const JUMP_REACH: u128 = 1 << 20;

/// How far a branch reaches.
const BRANCH_REACH: u128 = 1 << 12;

/// The address of a target; none where its name has none.
fn address_of<'a>(labels: &Labels<'a>, to: &Target<'a>) -> Result<Option<u128>, AsmRule>
    ensures { (all : List Statements) (t : Targets) → AreLabels all labels.now
        → IsReadTarget to.now t → IsFoundTarget all t result }
{
    match to {
        Target::Long => Err(AsmRule::Range),
        Target::Address { address } => Ok(Some(u128::from(*address))),
        Target::Name { name } => match labels.find(*name) {
            Some(label) => Ok(label.address),
            None => Err(AsmRule::Name),
        },
    }
}

/// Whether an address is no instruction's.
fn is_no_address(address: u128) -> bool
    ensures { MatchBool result (IsNoAddress address) (IsNoAddress address → ⊥) }
{
    address % 2 == 1 || address >= ADDRESS_END
}

/// Whether an address is beyond the offsets from another.
fn is_beyond(reach: u128, at: u128, address: u128) -> bool
    requires room { at < 2 ^ 127 + 2 ^ 65 }
    requires near { reach ≤ 2 ^ 20 }
    requires low { address < 2 ^ 32 }
    ensures { MatchBool result (IsBeyond reach at address) (IsBeyond reach at address → ⊥) }
{
    address + reach < at || at + reach < address + 2
}

/// The offset of an address; none where it isn't known from where, or that is odd.
fn offset_to(at: Option<u128>, reach: u128, address: u128) -> Result<Option<i32>, AsmRule>
    requires room { HasRoom at }
    requires near { reach ≤ 2 ^ 20 }
    ensures near { IfOk result (λ o. IfSome o (IsNear reach)) }
    ensures value { IsOffset at reach address result }
{
    if is_no_address(address) {
        return Err(AsmRule::Range);
    }
    let Some(at) = at else {
        return Ok(None);
    };
    if is_beyond(reach, at, address) {
        return Err(AsmRule::Range);
    }
    if at % 2 == 1 {
        return Ok(None);
    }
    Ok(Some((address as i64 - at as i64) as i32))
}

/// The offset of a target; none where an address isn't known, or that of the instruction is odd.
fn offset_of<'a>(
    labels: &Labels<'a>,
    at: Option<u128>,
    reach: u128,
    to: &Target<'a>,
) -> Result<Option<i32>, AsmRule>
    requires room { HasRoom at }
    requires near { reach ≤ 2 ^ 20 }
    ensures near { IfOk result (λ o. IfSome o (IsNear reach)) }
    ensures value { (all : List Statements) (t : Targets) → AreLabels all labels.now
        → IsReadTarget to.now t → IsFoundOffset all at reach t result }
{
    match address_of(labels, to) {
        Ok(Some(address)) => offset_to(at, reach, address),
        Ok(None) => Ok(None),
        Err(rule) => Err(rule),
    }
}

/// The word of a jump at an address; none where an address isn't known, or its own is odd.
fn jump_word<'a>(
    labels: &Labels<'a>,
    at: Option<u128>,
    rd: Reg,
    to: &Target<'a>,
) -> Result<Option<u32>, AsmRule>
    requires { HasRoom at }
    ensures { (all : List Statements) (t : Targets) → AreLabels all labels.now → IsTarget t
        → IsReadTarget to.now t → rd < 32 → IsFoundWord all at (Jump rd t) result }
{
    ranges_law();
    match offset_of(labels, at, JUMP_REACH, to) {
        Ok(Some(offset)) => {
            let offset = JumpOffset::new(offset);
            Ok(Some(encode(Instr::Jal { rd, offset })))
        }
        Ok(None) => Ok(None),
        Err(rule) => Err(rule),
    }
}

/// The word of a branch at an address; none where an address isn't known, or its own is odd.
fn branch_word<'a>(
    labels: &Labels<'a>,
    at: Option<u128>,
    cond: Cond,
    rs1: Reg,
    rs2: Reg,
    to: &Target<'a>,
) -> Result<Option<u32>, AsmRule>
    requires { HasRoom at }
    ensures { (all : List Statements) (t : Targets) → AreLabels all labels.now → IsTarget t
        → IsReadTarget to.now t → rs1 < 32 → rs2 < 32
        → IsFoundWord all at (Conditional cond rs1 rs2 t) result }
{
    ranges_law();
    match offset_of(labels, at, BRANCH_REACH, to) {
        Ok(Some(offset)) => {
            let offset = BranchOffset::new(offset);
            Ok(Some(encode(Instr::Branch {
                cond,
                rs1,
                rs2,
                offset,
            })))
        }
        Ok(None) => Ok(None),
        Err(rule) => Err(rule),
    }
}

/// The word of an instruction at an address; none where an address isn't known, or is odd.
pub(crate) fn word_at<'a>(
    labels: &Labels<'a>,
    at: Option<u128>,
    command: &WrittenInstruction<'a>,
) -> Result<Option<u32>, AsmRule>
    requires { HasRoom at }
    ensures { (all : List Statements) (w : Written) → AreLabels all labels.now
        → IsWritten w → IsReadCommand command.now w → IsFoundWord all at w result }
{
    ranges_law();
    match command {
        WrittenInstruction::Plain { instruction } => Ok(Some(encode(*instruction))),
        WrittenInstruction::OutOfRange => Err(AsmRule::Range),
        WrittenInstruction::Jump { rd, to } => jump_word(labels, at, *rd, to),
        WrittenInstruction::Conditional { cond, rs1, rs2, to } => {
            branch_word(labels, at, *cond, *rs1, *rs2, to)
        }
    }
}
