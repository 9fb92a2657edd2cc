//! Plans: which template serves each place, and with which scratch registers.

ghost use Rattle.templates.specs.Plans.{template_of, by_target, is_flag_checked};
ghost use Rattle.std.specs.Prelude.{◌≡◌, ◌-◌, ◌^◌, ◌<◌, ◌≤◌, ◌++◌, ◌∷◌, [], length, set, slice_get};
ghost use Rattle.std.specs.Prelude.{Some, OnOk, OnErr, if◌then◌else◌};

use crate::places::aligned_target;
use rv32_decode::{Instr, LoadKind, Reg};
use std::alloc::{AllocError, Global};
use std::marker::Model;

/// The templates of places.
#[derive(Clone, Copy, PartialEq, Eq)]
pub enum Template {
    /// The original word.
    Plain,
    /// AUIPC: its value is known.
    Const,
    /// A branch to a multiple of four.
    Branch,
    /// A branch to another address.
    BranchBad,
    /// A JAL to a multiple of four.
    Jump,
    /// A JAL to another address.
    JumpBad,
    /// JALR.
    Indirect,
    /// ECALL.
    Call,
    /// EBREAK and illegal words.
    Trap,
    /// A place without a code word.
    Stop,
    /// A load that looks at the value before the state byte.
    FlagLoad,
    /// A load that looks at the state byte.
    StateLoad,
    /// A store or an AMO.
    Store,
    /// SC.
    StoreCond,
}

/// A scratch register; x0, not spilled, where none is used.
#[derive(Clone, Copy, PartialEq, Eq)]
pub struct Scratch {
    pub register: Reg,
    /// Its value is kept in a spill word meanwhile.
    pub spilled: bool,
}

/// The scratch registers of a sequence.
#[derive(Clone, Copy, PartialEq, Eq)]
pub struct Scratches {
    pub s: Scratch,
    pub t: Scratch,
    pub u: Scratch,
}

/// What a plan says of one place.
#[derive(Clone, Copy, PartialEq, Eq)]
pub struct PlanEntry {
    pub address: u32,
    pub template: Template,
    /// Whether a poll stands first.
    pub polls: bool,
    /// The scratch registers of the single sequence.
    pub single: Scratches,
    /// The number of code words of the run that starts here, else 0.
    pub run: u8,
    /// The scratch registers of the batch sequence.
    pub batch: Scratches,
}

/// What is said of each place, in order. Contracts see the list of entries.
#[derive(Drop)]
pub struct Plan {
    entries: Vec<PlanEntry>,
}

impl Model for Plan {
    ghost use Rattle.std.specs.Prelude.{List, ◌-◌, ◌^◌, ◌≤◌, length};
    ghost use Rattle.templates.specs.declared.plans.PlanEntry.{PlanEntry};

    ghost Value = { List PlanEntry };

    ghost view = { λ p. p.entries.items };

    ghost invariant = { λ p. length p.entries.items ≤ 2 ^ 32 - 1 };
}

impl Plan {
    /// No entry as yet.
    pub fn new(alloc: Global) -> Plan
        ensures value { result ≡ [] }
    {
        Plan {
            entries: Vec::new(alloc),
        }
    }

    /// Appends an entry.
    pub fn push(&mut self, entry: PlanEntry) -> Result<(), AllocError>
        requires room { length self.old < 2 ^ 32 - 1 }
        ensures ok { OnOk result (self.new ≡ self.old ++ entry ∷ []) }
        ensures err { OnErr result (self.new ≡ self.old) }
    {
        self.entries.push(entry)?;
        Ok(())
    }

    /// The number of entries.
    pub fn len(&self) -> u32
        ensures value { result ≡ length self.now }
    {
        self.entries.len() as u32
    }

    /// The entry of a number.
    pub fn get(&self, k: u32) -> PlanEntry
        requires within { k < length self.now }
        ensures value { slice_get self.now k ≡ Some result }
    {
        self.entries[k as usize]
    }

    /// Puts an entry in the place of another.
    pub fn set(&mut self, k: u32, entry: PlanEntry)
        requires within { k < length self.old }
        ensures value { self.new ≡ set self.old k entry }
    {
        self.entries[k as usize] = entry;
    }

    /// The entries, in order.
    pub fn entries(&self) -> &[PlanEntry]
        ensures value { result.now ≡ self.now }
        ensures few { length self.now < 2 ^ 32 }
    {
        &self.entries
    }
}

/// The template of an instruction at an address.
pub fn template_of(i: &Instr, address: u32) -> Template
    ensures value { result ≡ template_of i.now address }
{
    match i {
        Instr::Auipc { .. } => Template::Const,
        Instr::Jal { .. } => jump_template(i, address),
        Instr::Jalr { .. } => Template::Indirect,
        Instr::Branch { .. } => branch_template(i, address),
        Instr::Load { kind, rd, rs1, .. } => load_template(*kind, *rd, *rs1),
        Instr::Lr { .. } => Template::StateLoad,
        Instr::Store { .. } | Instr::Amo { .. } => Template::Store,
        Instr::Sc { .. } => Template::StoreCond,
        Instr::Ecall => Template::Call,
        Instr::Ebreak | Instr::Illegal { .. } => Template::Trap,
        Instr::Lui { .. }
        | Instr::OpImm { .. }
        | Instr::ShiftImm { .. }
        | Instr::Op { .. }
        | Instr::Fence { .. } => Template::Plain,
    }
}

/// Whether a load looks at its value before the state byte: it loads a word, into a register that
/// is neither x0 nor its base.
pub fn is_flag_checked(kind: LoadKind, rd: Reg, rs1: Reg) -> bool
    ensures value { result ≡ is_flag_checked kind rd rs1 }
{
    match kind {
        LoadKind::Word => rd != Reg::ZERO && rd != rs1,
        _ => false,
    }
}

/// The template of a load.
fn load_template(kind: LoadKind, rd: Reg, rs1: Reg) -> Template
    ensures value { result ≡
        (if is_flag_checked kind rd rs1 then Template.FlagLoad else Template.StateLoad) }
{
    if is_flag_checked(kind, rd, rs1) {
        Template::FlagLoad
    } else {
        Template::StateLoad
    }
}

/// The template of a JAL.
fn jump_template(i: &Instr, address: u32) -> Template
    ensures value { result ≡ by_target i.now address Template.Jump Template.JumpBad }
{
    if aligned_target(i, address).is_some() {
        Template::Jump
    } else {
        Template::JumpBad
    }
}

/// The template of a branch.
fn branch_template(i: &Instr, address: u32) -> Template
    ensures value { result ≡ by_target i.now address Template.Branch Template.BranchBad }
{
    if aligned_target(i, address).is_some() {
        Template::Branch
    } else {
        Template::BranchBad
    }
}
