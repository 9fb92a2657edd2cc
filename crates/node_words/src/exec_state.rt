//! What a node executes words on: its processor's part, and what words see of the node.

ghost use Rattle.std.specs.Prelude.{◌≡◌, ◌/◌, ◌%◌, ◌^◌, ◌<◌, ◌≤◌, ℕ, true};
ghost use Rattle.rv32_decode.specs.Widths.{width_of, is_aligned};
ghost use Rattle.rv32_program.specs.Program.{class_at};
ghost use Rattle.rv32_program.specs.declared.Class.TheVariants.{Shared};
ghost use Rattle.node_memory.specs.exec_map.Contents.{program_of};
ghost use Rattle.node_memory.specs.byte_range.Memory.{raw};
ghost use Rattle.node_memory.specs.byte_range.Window.{is_in_window};
ghost use Rattle.node_memory.specs.rv32_step.Memory.{load_value};
ghost use Rattle.node_memory.specs.node_model.Node as model;
ghost use Rattle.node_memory.specs.Shelf.{ground_of, local_of};
ghost use Rattle.node_words.specs.Kept.{lane_of, LeavesBehind};
ghost use Rattle.node_memory.specs.flag_memory.Flag.{flag_byte as flag_at};

use crate::lane::ProcessorState;
use crate::store_log::StoreLog;
use node_memory::byte_range::WINDOW_START;
use node_memory::node_model::NodeCounts;
use node_memory::runtime_words::FLAG_WORD;
use node_memory::{NodeMemory, Region, region_of};
use rv32_decode::{LoadKind, Reg, Width};
use rv32_ops::extend;
use rv32_program::addresses::{MEMORY_END, SPILLS, STATE_LINES, STATE_TABLE};

/// A processor's part, what words see of their node, what the node counts, and what stores
/// overwrite, where that is noted.
#[derive(Drop)]
pub struct ExecState<'a> {
    pub lane: ProcessorState,
    pub local: NodeMemory<'a>,
    pub counts: NodeCounts,
    pub log: StoreLog,
}

impl<'a> ExecState<'a> {
    /// Loads from an aligned address.
    #[inline(always)]
    pub(crate) fn load(&mut self, kind: LoadKind, rd: Reg, address: u32)
        requires { is_aligned (width_of kind) address ≡ true }
        ensures leaves { (at : ℕ) → LeavesBehind
            (model.load (program_of self.old.local.program) (lane_of self.old.lane at)
            (local_of self.old.local) kind rd address (model.region_of address))
            (ground_of self.old.local) at self.new.lane self.new.local }
        ensures counts { self.new.counts ≡ self.old.counts }
        ensures log { self.new.log ≡ self.old.log }
    {
        let width = kind.width();
        if address >= SPILLS && width == Width::Word {
            self.lane
                .registers
                .set(rd, self.lane.spills[spill_of(address)]);
        } else if let Some(raw) = self.local.load_fixed(width, address) {
            self.lane.registers.set(rd, extend(kind, raw));
        } else if let Some(raw) = self.local.load(width, address) {
            self.lane.registers.set(rd, extend(kind, raw));
        } else {
            self.load_elsewhere(kind, rd, address);
        }
    }

    /// Loads from an aligned address, wherever it lies.
    #[inline(never)]
    fn load_elsewhere(&mut self, kind: LoadKind, rd: Reg, address: u32)
        requires { is_aligned (width_of kind) address ≡ true }
        ensures leaves { (at : ℕ) → LeavesBehind
            (model.load (program_of self.old.local.program) (lane_of self.old.lane at)
            (local_of self.old.local) kind rd address (model.region_of address))
            (ground_of self.old.local) at self.new.lane self.new.local }
        ensures counts { self.new.counts ≡ self.old.counts }
        ensures log { self.new.log ≡ self.old.log }
    {
        let value = match region_of(address) {
            Region::Memory => extend(kind, self.memory(kind.width(), address)),
            Region::StateOf(line) => u32::from(self.local.state(line)),
            Region::Spill(k) => self.lane.spills[k],
            Region::Elsewhere => 0,
        };
        self.lane.registers.set(rd, value);
    }

    /// Loads from an aligned address, most often one of the window.
    #[inline(always)]
    pub(crate) fn load_apart(&mut self, kind: LoadKind, rd: Reg, address: u32)
        requires { is_aligned (width_of kind) address ≡ true }
        ensures leaves { (at : ℕ) → LeavesBehind
            (model.load (program_of self.old.local.program) (lane_of self.old.lane at)
            (local_of self.old.local) kind rd address (model.region_of address))
            (ground_of self.old.local) at self.new.lane self.new.local }
        ensures counts { self.new.counts ≡ self.old.counts }
        ensures log { self.new.log ≡ self.old.log }
    {
        match self.lane.private.load(kind.width(), address) {
            Some(raw) => self.lane.registers.set(rd, extend(kind, raw)),
            None => self.load_outside(kind, rd, address),
        }
    }

    /// Loads from an aligned address outside the window, most often the state byte of a line.
    #[inline(never)]
    fn load_outside(&mut self, kind: LoadKind, rd: Reg, address: u32)
        requires { is_aligned (width_of kind) address ≡ true }
        ensures leaves { (at : ℕ) → LeavesBehind
            (model.load (program_of self.old.local.program) (lane_of self.old.lane at)
            (local_of self.old.local) kind rd address (model.region_of address))
            (ground_of self.old.local) at self.new.lane self.new.local }
        ensures counts { self.new.counts ≡ self.old.counts }
        ensures log { self.new.log ≡ self.old.log }
    {
        let line = address.wrapping_sub(STATE_TABLE);
        if line < STATE_LINES {
            self.lane
                .registers
                .set(rd, u32::from(self.local.state(line)));
        } else {
            self.load(kind, rd, address);
        }
    }

    /// What a load from an aligned address gives.
    pub fn value(&self, kind: LoadKind, address: u32) -> u32
        requires { is_aligned (width_of kind) address ≡ true }
        ensures value { (at : ℕ) → result ≡ load_value kind
            (model.byte_at (program_of self.now.local.program) (lane_of self.now.lane at)
            (local_of self.now.local)) address }
    {
        extend(kind, self.memory(kind.width(), address))
    }

    /// The number that the bytes from an address on make.
    pub(crate) fn memory(&self, width: Width, address: u32) -> u32
        requires { is_aligned width address ≡ true }
        ensures value { (at : ℕ) → result ≡ raw width
            (model.byte_at (program_of self.now.local.program) (lane_of self.now.lane at)
            (local_of self.now.local)) address }
        ensures byte { width ≡ Width.Byte → result < 2 ^ 8 }
    {
        memory_of(&self.lane, &self.local, width, address)
    }

    /// Stores at an aligned address.
    #[inline(always)]
    pub(crate) fn store(&mut self, width: Width, address: u32, value: u32)
        requires { is_aligned width address ≡ true }
        ensures leaves { (at : ℕ) → LeavesBehind
            (model.store (program_of self.old.local.program) (lane_of self.old.lane at)
            (local_of self.old.local) width address value (model.region_of address))
            (ground_of self.old.local) at self.new.lane self.new.local }
        ensures counts { self.new.counts ≡ self.old.counts }
        ensures log { self.new.log ≡ self.old.log }
    {
        if is_in_window(address) {
            let _ = self.lane.private.store(width, address, value);
        } else {
            self.store_outside(width, address, value);
        }
    }

    /// Stores at an aligned address outside the window.
    #[inline(never)]
    fn store_outside(&mut self, width: Width, address: u32, value: u32)
        requires { is_aligned width address ≡ true }
        ensures leaves { (at : ℕ) → LeavesBehind
            (model.store (program_of self.old.local.program) (lane_of self.old.lane at)
            (local_of self.old.local) width address value (model.region_of address))
            (ground_of self.old.local) at self.new.lane self.new.local }
        ensures counts { self.new.counts ≡ self.old.counts }
        ensures log { self.new.log ≡ self.old.log }
    {
        if address >= SPILLS && width == Width::Word {
            self.lane.spills[spill_of(address)] = value;
        } else if !self.local.store(width, address, value) {
            self.store_elsewhere(width, address, value);
        }
    }

    /// Stores at an aligned address of a line that isn't shared.
    #[inline(never)]
    fn store_elsewhere(&mut self, width: Width, address: u32, value: u32)
        requires aligned { is_aligned width address ≡ true }
        requires elsewhere { class_at (program_of self.old.local.program) address ≡ Shared → ⊥ }
        ensures leaves { (at : ℕ) → LeavesBehind
            (model.store (program_of self.old.local.program) (lane_of self.old.lane at)
            (local_of self.old.local) width address value (model.region_of address))
            (ground_of self.old.local) at self.new.lane self.new.local }
        ensures counts { self.new.counts ≡ self.old.counts }
        ensures log { self.new.log ≡ self.old.log }
    {
        match region_of(address) {
            Region::Memory => {
                let _ = self.lane.private.store(width, address, value);
            }
            Region::Spill(k) => self.lane.spills[k] = value,
            Region::StateOf(_) | Region::Elsewhere => {}
        }
    }
}

/// The number that the bytes from an address on make, to a processor and what its words see.
pub(crate) fn memory_of(
    lane: &ProcessorState,
    local: &NodeMemory<'_>,
    width: Width,
    address: u32,
) -> u32
    requires { is_aligned width address ≡ true }
    ensures value { (at : ℕ) → result ≡ raw width (model.byte_at (program_of local.now.program)
        (lane_of lane.now at) (local_of local.now)) address }
    ensures byte { width ≡ Width.Byte → result < 2 ^ 8 }
{
    if let Some(raw) = local.load(width, address) {
        return raw;
    }
    if let Some(raw) = lane.private.load(width, address) {
        return raw;
    }
    match local.load_fixed(width, address) {
        Some(raw) => raw,
        None => flag(width, address),
    }
}

/// Whether an address is in the window.
#[inline(always)]
pub(crate) fn is_in_window(address: u32) -> bool
    ensures { result ≡ is_in_window address }
{
    WINDOW_START <= address && address < MEMORY_END
}

/// Which of those words is at an address.
#[inline(always)]
fn spill_of(address: u32) -> usize
    requires { 0xfffffff4 ≤ address }
    ensures few { result < 3 }
    ensures region { is_aligned Width.Word address ≡ true →
        model.region_of address ≡ model.Spill result }
{
    ((u32::MAX - address) / 4) as usize
}

/// The byte of the flag word that an address has.
fn flag_byte(address: u32) -> u8
    ensures { result ≡ flag_at address }
{
    if address % 4 == 0 { 0x03 } else { 0xff }
}

/// The number that the bytes of the flag word from an address on make.
#[tactic(auto, unfolding(crate::specs::Bytes::raw))]
fn flag(width: Width, address: u32) -> u32
    requires { is_aligned width address ≡ true }
    ensures value { result ≡ raw width flag_at address }
    ensures byte { width ≡ Width.Byte → result < 2 ^ 8 }
{
    match width {
        Width::Byte => u32::from(flag_byte(address)),
        Width::Half if address % 4 == 0 => 0xff03,
        Width::Half => 0xffff,
        Width::Word => FLAG_WORD,
    }
}
