#![tactic(auto)]
//! The original program's processors on one memory, interleaved instruction by instruction.

ghost use Rattle.std.specs.Prelude.{◌≡◌, ◌<◌, ◌≤◌, ◌↔◌, ℕ, true, false, None, IfOk, OnOk, OnErr};
ghost use Rattle.std.specs.Prelude.{IsErrOf, IsSome};
ghost use Rattle.exec_map.specs.Contents.{program_of};
ghost use Rattle.rv32_step.specs.OneMemory.{Break, MayBreak, Allowed, opening, after_pick};
ghost use Rattle.rv32_step.specs.OneMemory.{step as model_step};
ghost use Rattle.rv32_step.specs.Registers.{registers_of};
ghost use Rattle.one_memory.specs.Machine.{state_of, original_of};
ghost use Rattle.one_memory.specs.Turns.{AreTurns};
ghost use Rattle.one_memory.specs.Shown.{byte_shown};

mod breaks;
mod by_order;
mod code;
mod copying;
mod going;
mod law;
mod memory;
mod processor;
mod reservations;
mod running;
mod served;

use crate::code::CodeTable;
use crate::memory::Memory;
use crate::processor::{Processor, address_of, read_byte};
use block_layout::Layout;
pub use by_order::{OriginalOutcome, run_by_order};
pub use copying::contained_law;
use exec_map::{Exit, Program};
pub use law::reservation_law;
use run_limits::NodeCount;
use rv32_step::Registers;
use std::alloc::{AllocError, Global};
use std::marker::Model;
use thiserror::Error;

/// Why a processor made no step.
#[derive(Clone, Copy, Debug, PartialEq, Eq, Error)]
pub enum StepRefused {
    /// The processor of this number has an exit.
    #[error("processor {0} has ended")]
    Ended(u8),
    /// There was no memory for a byte of output.
    #[error("out of memory")]
    OutOfMemory,
}

impl From<AllocError> for StepRefused {
    ghost use Rattle.one_memory.specs.declared.StepRefused.TheVariants.{OutOfMemory};

    ghost from_gives = { λ _ e. e ≡ OutOfMemory };

    fn from(_: AllocError) -> StepRefused {
        StepRefused::OutOfMemory
    }
}

/// What happens next on the one memory.
#[derive(Clone, Copy, PartialEq, Eq)]
pub enum Pick {
    /// The processor of this number makes a step.
    Step(u8),
    /// The reservation of processor `of` is broken by processor `by`.
    Break { of: u8, by: u8 },
}

/// The rule on breaks doesn't allow it.
#[derive(Clone, Copy, Debug, PartialEq, Eq, Error)]
#[error("no reservation that may be broken")]
pub struct NotAllowed;

/// The processors of a program, 1 to 16 of them, on one memory.
#[derive(Drop)]
pub struct OneMemory<'a> {
    code: CodeTable,
    memory: Memory<'a>,
    nodes: NodeCount,
    processors: Vec<Processor>,
}

impl<'a> Model for OneMemory<'a> {
    ghost use Rattle.std.specs.Prelude.{◌≡◌, ◌≤◌, length};
    ghost use Rattle.one_memory.specs.Machine.{Parts, IsCodeOf};

    ghost Value = { Parts };

    ghost view = { λ m. record {
      memory = m.memory;
      count = m.nodes;
      processors = m.processors.items;
    } };

    ghost invariant = { λ m. (length m.processors.items ≡ m.nodes) × (m.nodes ≤ 16)
        × IsCodeOf m.memory.program m.code };
}

impl<'a> OneMemory<'a> {
    /// The processors of a program, whose shared lines have these blocks, at the start.
    pub fn new(
        alloc: Global,
        program: &'a Program<'_>,
        layout: &'a Layout,
        nodes: NodeCount,
    ) -> Result<OneMemory<'a>, AllocError>
        ensures opening { IfOk result (λ m. state_of m ≡ opening (original_of m)) }
        ensures program { IfOk result (λ m. (original_of m).program ≡ program_of program.now) }
        ensures layout { IfOk result (λ m. (original_of m).layout ≡ layout.now) }
        ensures nodes { IfOk result (λ m. (original_of m).nodes ≡ nodes) }
    {
        let entry = program.entry();
        let code = CodeTable::read(alloc, program)?;
        let memory = Memory::new(alloc, program, layout)?;
        let mut processors = Vec::new(alloc);
        for p in 0..nodes.as_u8() {
            processors.push(Processor::new(alloc, p, nodes, entry)?)?;
        }
        Ok(OneMemory {
            code,
            memory,
            nodes,
            processors,
        })
    }

    /// Executes one instruction of processor `p`, or one step of its call.
    ///
    /// Fails, with nothing changed, where the processor has an exit, or where there is no memory
    /// for a byte of output.
    pub fn step(&mut self, p: u8) -> Result<(), StepRefused>
        requires { p < (original_of self.old).nodes }
        ensures ok { OnOk result (state_of self.new
            ≡ (model_step (original_of self.old) (state_of self.old) p).state) }
        ensures ended { IsErrOf result (StepRefused.Ended p)
            ↔ IsSome ((state_of self.old).processors p).exit }
        ensures names { (q : ℕ) → IsErrOf result (StepRefused.Ended q) → q ≡ p }
        ensures err { OnErr result (state_of self.new ≡ state_of self.old) }
        ensures original { original_of self.new ≡ original_of self.old }
    {
        let processor = &mut self.processors[p as usize];
        if processor.exit().is_some() {
            return Err(StepRefused::Ended(p));
        }
        processor.step(p, &self.code, &mut self.memory)?;
        Ok(())
    }

    /// Ends the reservation of processor `p`, where processor `q` is about to store into the block.
    ///
    /// Fails, with nothing changed, exactly where the rule on breaks doesn't allow it.
    pub fn break_reservation(&mut self, p: u8, q: u8) -> Result<(), NotAllowed>
        requires own { p < (original_of self.old).nodes }
        requires other { q < (original_of self.old).nodes }
        ensures ok { OnOk result (state_of self.new
            ≡ after_pick (original_of self.old) (state_of self.old) (Break p q)) }
        ensures allowed { OnOk result
            (Allowed (original_of self.old) (state_of self.old) (Break p q)) }
        ensures refused { OnErr result
            (Allowed (original_of self.old) (state_of self.old) (Break p q) → ⊥) }
        ensures err { OnErr result (state_of self.new ≡ state_of self.old) }
        ensures original { original_of self.new ≡ original_of self.old }
    {
        if self.may_break(p, q) {
            self.memory.reserve(p, None);
            Ok(())
        } else {
            Err(NotAllowed)
        }
    }

    /// Whether processor `q` may break the reservation of processor `p`.
    fn may_break(&self, p: u8, q: u8) -> bool
        requires own { p < (original_of self.now).nodes }
        requires other { q < (original_of self.now).nodes }
        ensures yes { result ≡ true → MayBreak (original_of self.now) (state_of self.now) p q }
        ensures no { result ≡ false
            → MayBreak (original_of self.now) (state_of self.now) p q → ⊥ }
    {
        if p == q {
            return false;
        }
        let Some(reserved) = self.memory.reservation(p) else {
            return false;
        };
        let Some(block) = self.memory.block_of(reserved) else {
            return false;
        };
        self.processors[q as usize].is_storing(&self.memory, block)
    }

    /// Executes `most` instructions and steps of calls of processor `p`, or fewer where it ends.
    /// Gives how many. Fails only where memory runs out.
    pub fn run_alone(&mut self, p: u8, most: u64) -> Result<u64, AllocError>
        requires node { p < (original_of self.old).nodes }
        requires runs { ((state_of self.old).processors p).exit ≡ None }
        ensures turns { IfOk result (λ n. AreTurns (original_of self.old) p n
            (state_of self.old) (state_of self.new)) }
        ensures all { IfOk result (λ n. n < most
            → IsSome ((state_of self.new).processors p).exit) }
        ensures most { IfOk result (λ n. n ≤ most) }
        ensures original { original_of self.new ≡ original_of self.old }
    {
        self.processors[p as usize].run(p, &self.code, &mut self.memory, most)
    }

    /// The bytes printed so far.
    pub fn output(&self) -> &[u8]
        ensures { result.now ≡ (state_of self.now).output }
    {
        self.memory.output()
    }

    /// The bytes printed so far. Takes no memory.
    fn into_output(self) -> Vec<u8>
        ensures { result.items ≡ (state_of self.entry).output }
    {
        self.memory.into_output()
    }

    /// How processor `p` ended by itself; `None` where it hasn't.
    pub fn exit(&self, p: u8) -> Option<Exit>
        requires { p < (original_of self.now).nodes }
        ensures { result ≡ ((state_of self.now).processors p).exit }
    {
        self.processors[p as usize].exit()
    }
    /// The registers of processor `p`.
    pub fn registers(&self, p: u8) -> &Registers
        requires { p < (original_of self.now).nodes }
        ensures { registers_of result.now ≡ ((state_of self.now).processors p).registers }
    {
        &self.processors[p as usize].body.registers
    }

    /// The address of processor `p`'s next instruction.
    pub fn pc(&self, p: u8) -> u32
        requires { p < (original_of self.now).nodes }
        ensures { result ≡ ((state_of self.now).processors p).pc }
    {
        address_of(self.processors[p as usize].at)
    }

    /// How many bytes a write in progress of processor `p` has written.
    pub fn written(&self, p: u8) -> u32
        requires { p < (original_of self.now).nodes }
        ensures { result ≡ ((state_of self.now).processors p).written }
    {
        self.processors[p as usize].body.written
    }

    /// The address that processor `p` has reserved.
    pub fn reservation(&self, p: u8) -> Option<u32>
        requires { p < (original_of self.now).nodes }
        ensures { result ≡ (state_of self.now).reservations p }
    {
        self.memory.reservation(p)
    }

    /// The byte of an address, as processor `p` sees it; `None` where the line isn't mapped.
    pub fn byte(&self, p: u8, address: u32) -> Option<u8>
        requires { p < (original_of self.now).nodes }
        ensures { result ≡ byte_shown (original_of self.now) (state_of self.now) p address }
    {
        read_byte(address, &self.processors[p as usize].body, &self.memory)
    }
}
