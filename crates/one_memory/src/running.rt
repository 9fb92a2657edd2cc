//! Processors that execute words.

ghost use Rattle.std.specs.Prelude.{◌≡◌, ◌<◌, ◌≤◌, None, IfOk, IsSome, OnOk, OnErr};
ghost use Rattle.exec_map.specs.Contents.{program_of};
ghost use Rattle.rv32_step.specs.OneMemory as model;
ghost use Rattle.one_memory.specs.Machine.{processor_of, Answers, IsCodeOf};
ghost use Rattle.one_memory.specs.Turns.{Turns};

use crate::code::CodeTable;
use crate::going::Going;
use crate::memory::Memory;
use crate::processor::{Processor, StepTarget, step_slow};
use crate::served::run_region;
use std::alloc::AllocError;

/// No run of words in one region is longer.
const MOST_AT_ONCE: u64 = 1 << 62;

impl Processor {
    /// Executes the next word, as processor `p`.
    ///
    /// Fails, with nothing changed, where there is no memory for a byte of output.
    pub fn step(
        &mut self,
        p: u8,
        code: &CodeTable,
        memory: &mut Memory<'_>,
    ) -> Result<(), AllocError>
        requires number { p < 16 }
        requires code { IsCodeOf memory.old.program code.now }
        requires runs { self.old.exit ≡ None }
        ensures ok { OnOk result
            (Answers p (model.request (program_of memory.old.program) (processor_of self.old))
            memory.old self.old memory.new self.new) }
        ensures program { memory.new.program ≡ memory.old.program }
        ensures layout { memory.new.layout ≡ memory.old.layout }
        ensures err_processor { OnErr result (self.new ≡ self.old) }
        ensures err_memory { OnErr result (memory.new ≡ memory.old) }
    {
        if self.run_served(p, code, memory, 1) == 1 {
            return Ok(());
        }
        self.step_apart(p, memory)
    }

    /// Executes `most` words, as processor `p`, or fewer where it ends. Gives how many.
    pub fn run(
        &mut self,
        p: u8,
        code: &CodeTable,
        memory: &mut Memory<'_>,
        most: u64,
    ) -> Result<u64, AllocError>
        requires number { p < 16 }
        requires code { IsCodeOf memory.old.program code.now }
        requires runs { self.old.exit ≡ None }
        ensures turns { IfOk result (λ n. Turns p n memory.old self.old memory.new self.new) }
        ensures all { IfOk result (λ n. n < most → IsSome self.new.exit) }
        ensures most { IfOk result (λ n. n ≤ most) }
        ensures program { memory.new.program ≡ memory.old.program }
        ensures layout { memory.new.layout ≡ memory.old.layout }
    {
        let mut left = most;
        while left > 0 {
            left -= self.run_served(p, code, memory, left);
            if left > 0 {
                self.step_apart(p, memory)?;
                left -= 1;
                if self.exit.is_some() {
                    return Ok(most - left);
                }
            }
        }
        Ok(most)
    }

    /// Executes words of one region, while their micro-ops serve them, and at most `most`. Gives
    /// how many.
    fn run_served(&mut self, p: u8, code: &CodeTable, memory: &mut Memory<'_>, most: u64) -> u64
        requires code { IsCodeOf memory.old.program code.now }
        requires runs { self.old.exit ≡ None }
        ensures turns { Turns p result memory.old self.old memory.new self.new }
        ensures most { result ≤ most }
        ensures none_processor { result ≡ 0 → self.new ≡ self.old }
        ensures none_memory { result ≡ 0 → memory.new ≡ memory.old }
        ensures one { result ≡ 1 →
            Answers p (model.request (program_of memory.old.program) (processor_of self.old))
            memory.old self.old memory.new self.new }
        ensures runs { self.new.exit ≡ None }
        ensures program { memory.new.program ≡ memory.old.program }
        ensures layout { memory.new.layout ≡ memory.old.layout }
    {
        let region = code.region(self.at);
        let ops = region.ops.as_slice();
        let most_here = most.min(MOST_AT_ONCE);
        let from = Going::from(region.first, ops.len(), self.at, most_here);
        let going = run_region(p, ops, from, &mut self.body, memory);
        self.at = going.index();
        most_here - going.left()
    }

    /// Executes the next word by its instruction.
    #[inline(never)]
    fn step_apart(&mut self, p: u8, memory: &mut Memory<'_>) -> Result<(), AllocError>
        requires number { p < 16 }
        requires runs { self.old.exit ≡ None }
        ensures ok { OnOk result
            (Answers p (model.request (program_of memory.old.program) (processor_of self.old))
            memory.old self.old memory.new self.new) }
        ensures program { memory.new.program ≡ memory.old.program }
        ensures layout { memory.new.layout ≡ memory.old.layout }
        ensures err_processor { OnErr result (self.new ≡ self.old) }
        ensures err_memory { OnErr result (memory.new ≡ memory.old) }
    {
        match step_slow(p, self.at, &mut self.body, memory)? {
            StepTarget::Next => self.at = self.at.wrapping_add(1),
            StepTarget::To(target) => self.at = target,
            StepTarget::Ends(exit) => self.exit = Some(exit),
        }
        Ok(())
    }
}
