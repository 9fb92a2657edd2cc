//! The registers that instructions read and write.

ghost use Rattle.std.specs.Prelude.{◌≡◌, ◌≢◌, ℕ, ◌<◌, ◌↔◌, ◌⊎◌};
ghost use Rattle.rv32_decode.specs.Registers.{IsMember, Reads, Writes};

use crate::Instr;
use crate::parts::Reg;
use crate::register_set::RegSet;

/// The registers that an instruction reads, without x0. FENCE reads none.
pub fn uses(i: Instr) -> RegSet
    ensures { (r : ℕ) → r < 32 → (IsMember result r ↔ Reads i r) }
{
    match i {
        Instr::Jalr { rs1, .. }
        | Instr::Load { rs1, .. }
        | Instr::OpImm { rs1, .. }
        | Instr::ShiftImm { rs1, .. }
        | Instr::Lr { rs1, .. } => one(rs1),
        Instr::Branch { rs1, rs2, .. }
        | Instr::Store { rs1, rs2, .. }
        | Instr::Op { rs1, rs2, .. }
        | Instr::Sc { rs1, rs2, .. }
        | Instr::Amo { rs1, rs2, .. } => two(rs1, rs2),
        Instr::Lui { .. } | Instr::Auipc { .. } | Instr::Jal { .. } => RegSet::empty(),
        Instr::Fence { .. } | Instr::Ecall | Instr::Ebreak | Instr::Illegal { .. } =>
            RegSet::empty(),
    }
}

/// The register that an instruction writes, without x0. FENCE writes none.
pub fn defs(i: Instr) -> RegSet
    ensures { (r : ℕ) → r < 32 → (IsMember result r ↔ Writes i r) }
{
    match i {
        Instr::Lui { rd, .. }
        | Instr::Auipc { rd, .. }
        | Instr::Jal { rd, .. }
        | Instr::Jalr { rd, .. }
        | Instr::Load { rd, .. }
        | Instr::OpImm { rd, .. }
        | Instr::ShiftImm { rd, .. }
        | Instr::Op { rd, .. }
        | Instr::Lr { rd, .. }
        | Instr::Sc { rd, .. }
        | Instr::Amo { rd, .. } => one(rd),
        Instr::Branch { .. } | Instr::Store { .. } | Instr::Fence { .. } => RegSet::empty(),
        Instr::Ecall | Instr::Ebreak | Instr::Illegal { .. } => RegSet::empty(),
    }
}

/// The register alone, without x0.
fn one(r: Reg) -> RegSet
    ensures { (q : ℕ) → q < 32 → (IsMember result q ↔ ((q ≢ 0) × (q ≡ r))) }
{
    without_zero(RegSet::empty().with(r))
}

/// The two registers, without x0.
fn two(r: Reg, s: Reg) -> RegSet
    ensures { (q : ℕ) → q < 32 → (IsMember result q ↔ ((q ≢ 0) × ((q ≡ r) ⊎ (q ≡ s)))) }
{
    without_zero(RegSet::empty().with(r).with(s))
}

fn without_zero(set: RegSet) -> RegSet
    ensures { (q : ℕ) → q < 32 → (IsMember result q ↔ ((q ≢ 0) × IsMember set q)) }
{
    set.difference(RegSet::empty().with(Reg::ZERO))
}
