//! Stretches: words that may be the beginning of a run.

ghost use Rattle.std.specs.Prelude.{◌≡◌, ◌+◌, ◌<◌, MatchOption};
ghost use Rattle.templates.specs.Code.{Ascends, code_of};
ghost use Rattle.templates.specs.Runs.{is_access, may_stand};
ghost use Rattle.batch_plan.specs.Stretches.{IsRunPrefix, IsStretchOf};

use rv32_decode::{Instr, Reg};
use templates::{Code, Reach};

/// What words reach that may be the beginning of a run.
#[derive(Clone, Copy, PartialEq, Eq)]
pub(crate) struct RunPrefix {
    pub reach: Reach,
    /// Whether the last word is an access.
    pub ends: bool,
}

impl RunPrefix {
    /// The word at an address; None exactly where no run begins with it.
    pub fn begin(code: &Code, address: u32) -> Option<RunPrefix>
        ensures value { MatchOption result (IsRunPrefix (code_of code.now) address 1 → ⊥)
            (IsStretchOf (code_of code.now) address 1) }
    {
        let i = code.at(address)?;
        let reach = Reach::of(&i)?;
        if reach.base != Reg::ZERO && may_stand(reach.base, &i) && reach.is_near() {
            Some(RunPrefix { reach, ends: true })
        } else {
            None
        }
    }

    /// The base register.
    pub fn base(&self) -> Reg
        ensures value { result ≡ self.now.reach.base }
    {
        self.reach.base
    }

    /// `words` words from an address on, and the next one; None exactly where no run begins with
    /// them all.
    pub fn longer(&self, code: &Code, address: u32, words: u8) -> Option<RunPrefix>
        requires ascends { Ascends 0 code.now }
        requires stretch { IsStretchOf (code_of code.now) address words self.now }
        requires few { words < 16 }
        ensures value { MatchOption result (IsRunPrefix (code_of code.now) address (words + 1) → ⊥)
            (IsStretchOf (code_of code.now) address (words + 1)) }
    {
        let i = code.at(address + 4 * u32::from(words))?;
        let reach = self.reach.with(&i);
        if may_stand(self.reach.base, &i) && reach.is_near() {
            Some(RunPrefix {
                reach,
                ends: is_access(&i),
            })
        } else {
            None
        }
    }
}

/// Whether an instruction is a load or a store.
fn is_access(i: &Instr) -> bool
    ensures value { result ≡ is_access i.now }
{
    match i {
        Instr::Load { .. } | Instr::Store { .. } => true,
        _ => false,
    }
}

/// Whether an instruction may stand in a run by this base register.
fn may_stand(base: Reg, i: &Instr) -> bool
    ensures value { result ≡ may_stand base i.now }
{
    match i {
        Instr::Lui { rd, .. }
        | Instr::OpImm { rd, .. }
        | Instr::ShiftImm { rd, .. }
        | Instr::Op { rd, .. } => *rd != base,
        Instr::Load { rd, rs1, .. } => *rs1 == base && *rd != base,
        Instr::Store { rs1, .. } => *rs1 == base,
        _ => false,
    }
}
