//! The same processors and memory once more.

ghost use Rattle.std.specs.Prelude.{◌≡◌, ◌+◌, ◌*◌, ◌/◌, ◌^◌, ◌<◌, ◌≤◌, ◌==◌, ℕ, true, IfOk};
ghost use Rattle.std.specs.Prelude.{if◌then◌else◌, List, All};
ghost use Rattle.block_layout.specs.Layout.{is_among, is_in};
ghost use Rattle.byte_range.specs.Lines.{lines_memory};
ghost use Rattle.byte_range.specs.Window.{window_memory, is_in_window};
ghost use Rattle.elf32_read.specs.Elf.{Elf};
ghost use Rattle.exec_map.specs.Contents.{program_of};
ghost use Rattle.exec_map.specs.SharedLines.{HasSharedLines};
ghost use Rattle.rv32_step.specs.OneMemory.{Original, Pick, opening, run};
ghost use Rattle.rv32_step.specs.Registers.{registers_of};
ghost use Rattle.one_memory.specs.Contained.{AreContained, AreRegisters, IsContained, IsWindow};
ghost use Rattle.one_memory.specs.Contained.{HaveSameLines, IsSameByte};
ghost use Rattle.one_memory.specs.Machine.{original_of, state_of, processor_of};

use crate::OneMemory;
use crate::processor::{OriginalState, Processor};
use block_layout::Lines;
use byte_range::{LineMemory, WINDOW_START, Window};
use exec_map::{Program, shared_memory};
use rv32_decode::{Reg, Width, ranges_law};
use rv32_program::addresses::MEMORY_END;
use rv32_step::Registers;
use std::alloc::{AllocError, Global};

/// A run leads only to states whose processors have 32 registers and a window, with zeros beyond
/// them. A caller uses the clause; the call does nothing.
pub fn contained_law()
    ensures { (original : Original) (e : Elf) (picks : List Pick)
        → original.program ≡ program_of e
        → AreContained (run original (opening original) picks) }
{
    ranges_law();
}

impl<'a> OneMemory<'a> {
    /// The same processors once more, in the same state.
    pub fn copy(&self, alloc: Global) -> Result<OneMemory<'a>, AllocError>
        ensures original { IfOk result (λ m. original_of m ≡ original_of self.now) }
        ensures state { AreContained (state_of self.now)
            → IfOk result (λ m. state_of m ≡ state_of self.now) }
    {
        let memory = self.memory.copy(alloc)?;
        let code = self.code.copy(alloc)?;
        let mut processors = Vec::new(alloc);
        for p in 0..self.nodes.as_u8() {
            processors.push(self.processors[p as usize].copy(alloc)?)?;
        }
        Ok(OneMemory {
            code,
            memory,
            nodes: self.nodes,
            processors,
        })
    }
}

impl Processor {
    /// The same processor once more.
    fn copy(&self, alloc: Global) -> Result<Processor, AllocError>
        ensures { IsContained (processor_of self.now)
            → IfOk result (λ k. processor_of k ≡ processor_of self.now) }
    {
        Ok(Processor {
            at: self.at,
            body: OriginalState {
                registers: copy_of_registers(&self.body.registers),
                window: copy_of_window(alloc, &self.body.window)?,
                written: self.body.written,
            },
            exit: self.exit,
        })
    }
}

/// The same registers once more.
fn copy_of_registers(from: &Registers) -> Registers
    ensures { AreRegisters (registers_of from.now)
        → registers_of result ≡ registers_of from.now }
{
    let mut registers = Registers::first(0, 0);
    for number in 0..32 {
        let r = Reg::new(number);
        registers.set(r, from.get(r));
    }
    registers
}

/// The same window once more.
fn copy_of_window(alloc: Global, from: &Window) -> Result<Window, AllocError>
    ensures { IsWindow (window_memory from.now)
        → IfOk result (λ w. window_memory w ≡ window_memory from.now) }
{
    let mut window = Window::zeros(alloc)?;
    for address in WINDOW_START..MEMORY_END {
        copy_own_byte(address, from, &mut window);
    }
    Ok(window)
}

/// Copies the byte of an address from one window to another.
#[inline(always)]
fn copy_own_byte(address: u32, from: &Window, to: &mut Window)
    requires { is_in_window address ≡ true }
    ensures { (a : ℕ) → window_memory to.new a
        ≡ (if a == address then window_memory from.now a else window_memory to.old a) }
{
    match from.load(Width::Byte, address) {
        Some(byte) => {
            to.store(Width::Byte, address, byte);
        }
        None => {}
    }
}

/// The shared lines of a program once more, with the same bytes.
pub fn copy_of_lines(
    alloc: Global,
    program: &Program<'_>,
    from: &LineMemory,
) -> Result<LineMemory, AllocError>
    requires { HasSharedLines program.now from.now }
    ensures lines { IfOk result (HasSharedLines program.now) }
    ensures bytes { (outside : ℕ → ℕ) → IfOk result (λ m.
        lines_memory m outside ≡ lines_memory from.now outside) }
{
    let mut lines = shared_memory(alloc, program)?;
    let ranges = program.shared_ranges(alloc)?;
    copy_ranges(ranges.as_slice(), from, &mut lines);
    Ok(lines)
}

/// Copies the bytes of ranges of lines from one memory to another.
fn copy_ranges(ranges: &[Lines], from: &LineMemory, to: &mut LineMemory)
    requires low { All (λ r. r.first + r.lines ≤ 2 ^ 26) ranges.now }
    requires same { HaveSameLines to.old from.now }
    ensures ranges { to.new.ranges ≡ to.old.ranges }
    ensures copied { (a : ℕ) → is_in ranges.now (a / 64) ≡ true → IsSameByte to.new from.now a }
{
    for range in ranges {
        copy_range(*range, from, to);
    }
}

/// Copies the bytes of a range of lines from one memory to another.
fn copy_range(range: Lines, from: &LineMemory, to: &mut LineMemory)
    requires low { range.first + range.lines ≤ 2 ^ 26 }
    requires same { HaveSameLines to.old from.now }
    ensures ranges { to.new.ranges ≡ to.old.ranges }
    ensures copied { (a : ℕ) → is_among (a / 64) range ≡ true → IsSameByte to.new from.now a }
    ensures kept { (a : ℕ) → IsSameByte to.old from.now a → IsSameByte to.new from.now a }
{
    let start = 64 * u64::from(range.first);
    let end = start + 64 * u64::from(range.lines);
    for address in start..end {
        copy_byte(address as u32, from, to);
    }
}

/// Copies the byte of an address from one memory to another.
#[inline(always)]
fn copy_byte(address: u32, from: &LineMemory, to: &mut LineMemory)
    requires { HaveSameLines to.old from.now }
    ensures ranges { to.new.ranges ≡ to.old.ranges }
    ensures copied { IsSameByte to.new from.now address }
    ensures kept { (a : ℕ) → IsSameByte to.old from.now a → IsSameByte to.new from.now a }
{
    match from.load(Width::Byte, address) {
        Some(byte) => {
            to.store(Width::Byte, address, byte);
        }
        None => {}
    }
}
