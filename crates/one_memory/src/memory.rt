//! What all processors have in common.

ghost use Rattle.std.specs.Prelude.{◌≡◌, ◌+◌, ◌/◌, ◌^◌, ◌<◌, ◌∷◌, ◌++◌, [], ℕ};
ghost use Rattle.std.specs.Prelude.{true, false, Some, None, MatchOption, IfOk, IfSome, OnOk};
ghost use Rattle.std.specs.Prelude.{OnErr, is_some, if◌then◌else◌};
ghost use Rattle.exec_map.specs.Contents.{program_of, first_byte, is_shared};
ghost use Rattle.rv32_program.specs.Program.{IsAccepted, class_at, is_writable};
ghost use Rattle.rv32_program.specs.declared.Class.TheVariants.{ReadOnly};
ghost use Rattle.byte_range.specs.Memory.{raw, stored};
ghost use Rattle.byte_range.specs.Lines.{lines_memory};
ghost use Rattle.rv32_decode.specs.Widths.{is_aligned};
ghost use Rattle.block_layout.specs.Layout.{block_of as model_block_of};
ghost use Rattle.rv32_step.specs.Registers.{registers_of};
ghost use Rattle.rv32_step.specs.Reservations as model;
ghost use Rattle.one_memory.specs.Stretches.{reaches_or_stands};
ghost use Rattle.one_memory.specs.Machine.{reserved_in};

use crate::breaks::BlockOf;
use crate::copying::copy_of_lines;
use crate::reservations::Reservations;
use block_layout::{Block, Layout};
use byte_range::LineMemory;
use exec_map::{Class, Program, read_only_memory, shared_memory};
use rv32_decode::{Instr, Width};
use rv32_step::Registers;
use std::alloc::{AllocError, Global};
use std::marker::Model;

/// The program, the shared bytes and the output.
#[derive(Drop)]
pub struct Memory<'a> {
    program: &'a Program<'a>,
    layout: &'a Layout,
    shared: LineMemory,
    reservations: Reservations,
    /// The read-only lines.
    fixed: LineMemory,
    output: Vec<u8>,
}

impl<'a> Model for Memory<'a> {
    ghost use Rattle.exec_map.specs.SharedLines.{HasSharedLines};
    ghost use Rattle.one_memory.specs.Machine.{MemoryParts, HasFixed};

    ghost Value = { MemoryParts };

    ghost view = { λ m. record {
      program = m.program.now;
      layout = m.layout.now;
      shared = m.shared;
      reserved = m.reservations;
      output = m.output.items;
    } };

    ghost invariant = { λ m. HasSharedLines m.program.now m.shared
        × HasFixed m.program.now m.fixed };
}

impl<'a> Memory<'a> {
    /// A program's memory at the start.
    pub fn new(
        alloc: Global,
        program: &'a Program<'_>,
        layout: &'a Layout,
    ) -> Result<Memory<'a>, AllocError>
        requires { IsAccepted (program_of program.now) }
        ensures program { IfOk result (λ m. m.program ≡ program.now) }
        ensures shared { IfOk result (λ m.
            lines_memory m.shared (first_byte program.now) ≡ first_byte program.now) }
        ensures layout { IfOk result (λ m. m.layout ≡ layout.now) }
        ensures reserved { IfOk result (λ m. reserved_in m.reserved ≡ (λ p. None)) }
        ensures output { IfOk result (λ m. m.output ≡ []) }
    {
        Ok(Memory {
            program,
            layout,
            reservations: Reservations::new(),
            shared: shared_memory(alloc, program)?,
            fixed: read_only_memory(alloc, program)?,
            output: Vec::new(alloc),
        })
    }

    /// The same memory once more.
    pub fn copy(&self, alloc: Global) -> Result<Memory<'a>, AllocError>
        ensures program { IfOk result (λ m. m.program ≡ self.now.program) }
        ensures layout { IfOk result (λ m. m.layout ≡ self.now.layout) }
        ensures shared { (outside : ℕ → ℕ) → IfOk result (λ m.
            lines_memory m.shared outside ≡ lines_memory self.now.shared outside) }
        ensures reserved { IfOk result (λ m. m.reserved ≡ self.now.reserved) }
        ensures output { IfOk result (λ m. m.output ≡ self.now.output) }
    {
        Ok(Memory {
            program: self.program,
            layout: self.layout,
            reservations: self.reservations.copy(),
            shared: copy_of_lines(alloc, self.program, &self.shared)?,
            fixed: read_only_memory(alloc, self.program)?,
            output: Vec::from_slice(alloc, &self.output)?,
        })
    }

    /// The instruction of the code word at an address.
    pub fn code_at(&self, address: u32) -> Option<Instr>
        ensures { result ≡ (program_of self.now.program).code address }
    {
        self.program.code_at(address)
    }

    /// The number that an aligned access reads of shared bytes; `None` where the line isn't shared.
    #[inline(always)]
    pub fn load(&self, width: Width, address: u32) -> Option<u32>
        requires { is_aligned width address ≡ true }
        ensures found { is_some result
            ≡ is_shared (class_at (program_of self.now.program) address) }
        ensures value { IfSome result (λ n. n
            ≡ raw width (lines_memory self.now.shared (first_byte self.now.program)) address) }
        ensures byte { (n : ℕ) → result ≡ Some n → width ≡ Width.Byte → n < 2 ^ 8 }
    {
        self.shared.load(width, address)
    }

    /// The number that an aligned access reads in a read-only line; `None` in any other line.
    #[inline(never)]
    pub fn load_first(&self, width: Width, address: u32) -> Option<u32>
        requires { is_aligned width address ≡ true }
        ensures value { MatchOption result
            (class_at (program_of self.now.program) address ≡ ReadOnly → ⊥)
            (λ n. (class_at (program_of self.now.program) address ≡ ReadOnly)
            × (n ≡ raw width (first_byte self.now.program) address)) }
        ensures byte { (n : ℕ) → result ≡ Some n → width ≡ Width.Byte → n < 2 ^ 8 }
    {
        self.fixed.load(width, address)
    }

    /// The first byte of an address in a read-only line; `None` in any other line.
    #[tactic(auto, unfolding(byte_range::specs::Memory::raw))]
    pub fn first_byte(&self, address: u32) -> Option<u8>
        ensures value { MatchOption result
            (class_at (program_of self.now.program) address ≡ ReadOnly → ⊥)
            (λ n. (class_at (program_of self.now.program) address ≡ ReadOnly)
            × (n ≡ first_byte self.now.program address)) }
    {
        match self.load_first(Width::Byte, address) {
            Some(number) => Some(number as u8),
            None => None,
        }
    }

    /// Puts the low bits of a value into shared bytes, by an aligned access, and says whether the
    /// line is shared; elsewhere nothing changes.
    #[inline(always)]
    pub fn store(&mut self, width: Width, address: u32, value: u32) -> bool
        requires { is_aligned width address ≡ true }
        ensures found { result ≡ is_shared (class_at (program_of self.old.program) address) }
        ensures shared { lines_memory self.new.shared (first_byte self.old.program)
            ≡ (if is_shared (class_at (program_of self.old.program) address)
            then stored width (lines_memory self.old.shared (first_byte self.old.program))
            address value
            else lines_memory self.old.shared (first_byte self.old.program)) }
        ensures elsewhere { result ≡ false → self.new ≡ self.old }
        ensures program { self.new.program ≡ self.old.program }
        ensures layout { self.new.layout ≡ self.old.layout }
        ensures reserved { self.new.reserved ≡ self.old.reserved }
        ensures output { self.new.output ≡ self.old.output }
    {
        self.shared.store(width, address, value)
    }

    /// Whether a store to an address may be made.
    pub fn may_store(&self, address: u32) -> bool
        ensures { result ≡ is_writable (class_at (program_of self.now.program) address) }
    {
        match self.program.class(address / 64) {
            Class::Shared | Class::Private => true,
            Class::ReadOnly | Class::Unmapped => false,
        }
    }

    /// The block of an address; `None` where it isn't shared.
    pub fn block_of(&self, address: u32) -> Option<Block>
        ensures { result ≡ model_block_of self.now.layout (address / 64) }
    {
        self.layout.block_of(address / 64)
    }

    /// Whether a processor with these registers is about to store into a block.
    pub fn is_reached(&self, block: Block, registers: &Registers, pc: u32) -> bool
        ensures { result ≡ reaches_or_stands (program_of self.now.program) self.now.layout block
            (registers_of registers.now) pc }
    {
        let target = BlockOf {
            program: self.program,
            layout: self.layout,
            block,
        };
        target.is_reached(registers, pc)
    }

    /// The address that processor `p` has reserved.
    pub fn reservation(&self, p: u8) -> Option<u32>
        requires { p < 16 }
        ensures { result ≡ reserved_in self.now.reserved p }
    {
        self.reservations.get(p)
    }

    /// Gives processor `p` another reservation, or none.
    pub fn reserve(&mut self, p: u8, reserved: Option<u32>)
        requires { p < 16 }
        ensures reserved { reserved_in self.new.reserved
            ≡ model.with_reservation (reserved_in self.old.reserved) p reserved }
        ensures rest { self.new ≡ record self.old { reserved = self.new.reserved } }
    {
        self.reservations.set(p, reserved);
    }

    /// Ends what the others have reserved in the block of an address, to which processor `p` has
    /// stored.
    #[inline(always)]
    pub fn end_others(&mut self, p: u8, address: u32)
        ensures reserved { reserved_in self.new.reserved
            ≡ model.after_store_by self.old.layout p address (reserved_in self.old.reserved) }
        ensures rest { self.new ≡ record self.old { reserved = self.new.reserved } }
    {
        self.reservations.end_others(self.layout, p, address);
    }

    /// The bytes printed so far.
    pub fn output(&self) -> &[u8]
        ensures { result.now ≡ self.now.output }
    {
        &self.output
    }

    /// The bytes printed so far. Takes no memory.
    pub fn into_output(self) -> Vec<u8>
        ensures { result.items ≡ self.entry.output }
    {
        self.output
    }

    /// Appends a byte to the output.
    pub fn print(&mut self, byte: u8) -> Result<(), AllocError>
        ensures ok { OnOk result
            (self.new ≡ record self.old { output = self.old.output ++ byte ∷ [] }) }
        ensures err { OnErr result (self.new ≡ self.old) }
    {
        self.output.push(byte)?;
        Ok(())
    }
}
