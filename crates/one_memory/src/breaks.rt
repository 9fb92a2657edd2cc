//! Which processor may break another's reservation: one that is about to store into a block.

ghost use Rattle.std.specs.Prelude.{◌≡◌, ◌<◌, ◌&&◌, ◌||◌, false};
ghost use Rattle.exec_map.specs.Contents.{program_of};
ghost use Rattle.rv32_decode.specs.Widths.{size_of};
ghost use Rattle.rv32_step.specs.Registers.{registers_of};
ghost use Rattle.rv32_step.specs.Breaks as model;
ghost use Rattle.one_memory.specs.Stretches.{reaches, reaches_as, reaches_by_any};
ghost use Rattle.one_memory.specs.Stretches.{reaches_or_stands, store_base};

use block_layout::{Block, Layout};
use exec_map::Program;
use rv32_decode::{Instr, Reg, Width};
use rv32_step::{Demand, Registers, demand_of};

/// The most instructions of a stretch.
const MOST: u8 = 16;

/// A block of a program's memory.
#[derive(Drop)]
pub struct BlockOf<'a> {
    pub program: &'a Program<'a>,
    pub layout: &'a Layout,
    pub block: Block,
}

impl<'a> BlockOf<'a> {
    /// Whether a processor with these registers is at a store, an AMO or an SC into the block, or
    /// at the start of a stretch that stores, and accesses the block.
    pub fn is_reached(&self, registers: &Registers, pc: u32) -> bool
        ensures { result ≡ reaches_or_stands (program_of self.now.program.now)
            self.now.layout.now self.now.block (registers_of registers.now) pc }
    {
        self.is_stored_at(registers, pc) || self.is_run_to(registers, pc)
    }

    /// Whether the word at an address is a store, an AMO or an SC into the block.
    fn is_stored_at(&self, registers: &Registers, pc: u32) -> bool
        ensures { result ≡ model.stands_at_store (program_of self.now.program.now)
            self.now.layout.now self.now.block (registers_of registers.now) pc }
    {
        match self.program.code_at(pc) {
            Some(i) => self.is_stored_by(demand_of(i, registers, pc)),
            None => false,
        }
    }

    /// Whether a demand stores into the block.
    fn is_stored_by(&self, d: Demand) -> bool
        ensures { result ≡ model.stores_in self.now.layout.now self.now.block d }
    {
        match d {
            Demand::Stores(_, a, _) | Demand::StoresIf(_, a, _) | Demand::Updates(_, _, a, _) => {
                self.has(a)
            }
            Demand::Sets(..) | Demand::Continues | Demand::Jumps(..) | Demand::Branches(_) => false,
            Demand::Loads(..) | Demand::Reserves(..) | Demand::Calls | Demand::Traps(_) => false,
        }
    }

    /// Whether an address is in the block.
    fn has(&self, a: u32) -> bool
        ensures { result ≡ model.is_in_block self.now.layout.now self.now.block a }
    {
        match self.layout.block_of(a / 64) {
            Some(block) => block == self.block,
            None => false,
        }
    }

    /// Whether an access of this width touches the block.
    fn is_touched(&self, a: u32, width: Width) -> bool
        ensures { result ≡ model.touches self.now.layout.now self.now.block a (size_of width) }
    {
        self.has(a) || self.has(a.wrapping_add(u32::from(width.bytes() - 1)))
    }

    /// Whether an instruction accesses the block by a base register, which has this value.
    fn is_accessed(&self, base: u8, value: u32, i: &Instr) -> bool
        ensures { result
            ≡ model.accesses_by self.now.layout.now self.now.block base value i.now }
    {
        match *i {
            Instr::Load { kind, rs1, imm, .. } => {
                rs1.number() == base
                    && self.is_touched(value.wrapping_add(imm.word()), kind.width())
            }
            Instr::Store {
                width,
                rs1,
                imm,
                ..
            } => { rs1.number() == base && self.is_touched(value.wrapping_add(imm.word()), width) }
            Instr::Lui { .. } | Instr::Auipc { .. } | Instr::Jal { .. } | Instr::Jalr { .. } =>
                false,
            Instr::Branch { .. } | Instr::OpImm { .. } | Instr::ShiftImm { .. } => false,
            Instr::Op { .. } | Instr::Fence { .. } | Instr::Ecall | Instr::Ebreak => false,
            Instr::Lr { .. } | Instr::Sc { .. } | Instr::Amo { .. } | Instr::Illegal { .. } =>
                false,
        }
    }

    /// Whether a stretch from an address stores by this base register, and accesses the block by
    /// it.
    fn is_run_to_by(&self, base: u8, value: u32, pc: u32) -> bool
        ensures { result ≡ reaches (program_of self.now.program.now) self.now.layout.now
            self.now.block base value 16 pc false false }
    {
        let mut at = pc;
        let mut left = MOST;
        let mut stores = false;
        let mut accesses = false;
        while left > 0 {
            if stores && accesses {
                return true;
            }
            let Some(i) = self.program.code_at(at) else {
                return false;
            };
            if !is_plain_but(base, &i) {
                return false;
            }
            stores = either(stores, stores_by(base, &i));
            accesses = either(accesses, self.is_accessed(base, value, &i));
            at = at.wrapping_add(4);
            left -= 1;
        }
        stores && accesses
    }

    /// Whether a stretch from an address stores by some base register, and accesses the block by
    /// it.
    fn is_run_to(&self, registers: &Registers, pc: u32) -> bool
        ensures { result ≡ reaches_by_any (program_of self.now.program.now) self.now.layout.now
            self.now.block (registers_of registers.now) pc 16 pc }
    {
        let mut at = pc;
        let mut left = MOST;
        while left > 0 {
            let Some(i) = self.program.code_at(at) else {
                return false;
            };
            if self.is_run_to_as(registers, pc, i) {
                return true;
            }
            at = at.wrapping_add(4);
            left -= 1;
        }
        false
    }

    /// Whether that holds of the base register of a store.
    fn is_run_to_as(&self, registers: &Registers, pc: u32, i: Instr) -> bool
        ensures { result ≡ reaches_as (program_of self.now.program.now) self.now.layout.now
            self.now.block (registers_of registers.now) pc i }
    {
        match base_of_store(i) {
            Some(base) => self.is_run_to_by(base.number(), registers.get(base), pc),
            None => false,
        }
    }
}

/// Whether one of two facts holds.
fn either(a: bool, b: bool) -> bool
    ensures { result ≡ (a || b) }
{
    a || b
}

/// The base register of a store.
fn base_of_store(i: Instr) -> Option<Reg>
    ensures { result ≡ store_base i }
{
    match i {
        Instr::Store { rs1, .. } => Some(rs1),
        Instr::Lui { .. } | Instr::Auipc { .. } | Instr::Jal { .. } | Instr::Jalr { .. } => None,
        Instr::Branch { .. } | Instr::OpImm { .. } | Instr::ShiftImm { .. } => None,
        Instr::Op { .. } | Instr::Fence { .. } | Instr::Ecall | Instr::Ebreak => None,
        Instr::Lr { .. } | Instr::Sc { .. } | Instr::Amo { .. } | Instr::Illegal { .. } => None,
        Instr::Load { .. } => None,
    }
}

/// Whether an instruction stores by a base register.
fn stores_by(base: u8, i: &Instr) -> bool
    ensures { result ≡ model.stores_by base i.now }
{
    match *i {
        Instr::Store { rs1, .. } => rs1.number() == base,
        Instr::Lui { .. } | Instr::Auipc { .. } | Instr::Jal { .. } | Instr::Jalr { .. } => false,
        Instr::Branch { .. } | Instr::OpImm { .. } | Instr::ShiftImm { .. } => false,
        Instr::Op { .. } | Instr::Fence { .. } | Instr::Ecall | Instr::Ebreak => false,
        Instr::Lr { .. } | Instr::Sc { .. } | Instr::Amo { .. } | Instr::Illegal { .. } => false,
        Instr::Load { .. } => false,
    }
}

/// Whether an instruction may be in a stretch, and leaves the base register as it is.
fn is_plain_but(base: u8, i: &Instr) -> bool
    ensures { result ≡ (model.is_plain i.now && model.leaves base i.now) }
{
    match *i {
        Instr::Lui { rd, .. }
        | Instr::OpImm { rd, .. }
        | Instr::ShiftImm { rd, .. }
        | Instr::Op { rd, .. }
        | Instr::Load { rd, .. } => rd.number() == 0 || rd.number() != base,
        Instr::Store { .. } => true,
        Instr::Auipc { .. } | Instr::Jal { .. } | Instr::Jalr { .. } | Instr::Branch { .. } =>
            false,
        Instr::Fence { .. } | Instr::Ecall | Instr::Ebreak | Instr::Illegal { .. } => false,
        Instr::Lr { .. } | Instr::Sc { .. } | Instr::Amo { .. } => false,
    }
}
