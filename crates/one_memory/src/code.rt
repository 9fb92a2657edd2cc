//! The code of a program, decoded once.

ghost use Rattle.std.specs.Prelude.{◌≡◌, ◌+◌, ◌*◌, ◌%◌, ◌<◌, ◌≤◌, length, IfOk};
ghost use Rattle.elf32_read.specs.Elf.{Elf};
ghost use Rattle.one_memory.specs.Machine.{IsCodeOf, IsStretchOf, Serves};

use exec_map::Program;
use micro_op::MicroOp;
use std::alloc::{AllocError, Global};

/// A stretch of words goes on over at most this number of bytes that hold no code.
const GAP: u32 = 4096;

/// The micro-ops of words one after the other. One that is slow may stand where there is no code.
#[derive(Drop)]
pub struct CodeRegion {
    /// The index of the first word, which is its address by four.
    pub first: u32,
    pub ops: Vec<MicroOp>,
}

/// The micro-ops of all code words. Stretches that lie far apart are apart.
#[derive(Drop)]
pub struct CodeTable {
    near: CodeRegion,
    /// The stretches after the first, ascending.
    far: Vec<CodeRegion>,
}

impl CodeTable {
    /// Decodes the code words of a program.
    pub fn read(alloc: Global, program: &Program<'_>) -> Result<CodeTable, AllocError>
        ensures { IfOk result (IsCodeOf program.now) }
    {
        let near = CodeRegion::read(alloc, program, program.next_code(0).unwrap_or(0))?;
        let mut far = Vec::new(alloc);
        let mut next = program.next_code(near.end());
        while let Some(address) = next {
            let stretch = CodeRegion::read(alloc, program, address)?;
            next = program.next_code(stretch.end());
            far.push(stretch)?;
        }
        Ok(CodeTable { near, far })
    }

    /// The same code once more, without decoding it anew.
    pub fn copy(&self, alloc: Global) -> Result<CodeTable, AllocError>
        ensures { (e : Elf) → IsCodeOf e self.now → IfOk result (IsCodeOf e) }
    {
        let near = self.near.copy(alloc)?;
        let mut far = Vec::new(alloc);
        for stretch in &self.far {
            far.push(stretch.copy(alloc)?)?;
        }
        Ok(CodeTable { near, far })
    }

    /// The region of the word with an index; any one where none has it.
    pub fn region(&self, at: u32) -> &CodeRegion
        ensures stretch { (e : Elf) → IsCodeOf e self.now → IsStretchOf e result.now }
    {
        if self.near.has(at) {
            return &self.near;
        }
        let behind = self.far.partition_point(|stretch| stretch.first <= at);
        match behind.checked_sub(1) {
            Some(last) => &self.far[last],
            None => &self.near,
        }
    }
}

impl CodeRegion {
    /// Decodes the words from an address on, as far as code goes on without a wide gap.
    fn read(alloc: Global, program: &Program<'_>, address: u32) -> Result<CodeRegion, AllocError>
        requires aligned { address % 4 ≡ 0 }
        requires low { address + 4 ≤ 0x7fff0000 }
        ensures stretch { IfOk result (IsStretchOf program.now) }
        ensures some { IfOk result (λ s. address < 4 * (s.first + length s.ops.items)) }
        ensures low { IfOk result (λ s. 4 * (s.first + length s.ops.items) ≤ 0x7fff0000) }
    {
        let mut ops = Vec::new(alloc);
        let mut end = address;
        loop {
            ops.push(micro_op(program, end))?;
            end += 4;
            match program.next_code(end) {
                Some(next) if next - end <= GAP => {}
                _ => break,
            }
        }
        Ok(CodeRegion {
            first: address / 4,
            ops,
        })
    }

    /// The same stretch once more.
    fn copy(&self, alloc: Global) -> Result<CodeRegion, AllocError>
        ensures { (e : Elf) → IsStretchOf e self.now → IfOk result (IsStretchOf e) }
    {
        Ok(CodeRegion {
            first: self.first,
            ops: Vec::from_slice(alloc, &self.ops)?,
        })
    }

    /// The address after the last word.
    fn end(&self) -> u32
        requires { 4 * (self.now.first + length self.now.ops.items) ≤ 0x7fff0000 }
        ensures { result ≡ 4 * (self.now.first + length self.now.ops.items) }
    {
        4 * (self.first + self.ops.len() as u32)
    }

    /// Whether the word with an index is in the stretch.
    fn has(&self, at: u32) -> bool {
        (at.wrapping_sub(self.first) as usize) < self.ops.len()
    }
}

/// The micro-op of the word at an address; a slow one where no code stands.
fn micro_op(program: &Program<'_>, address: u32) -> MicroOp
    ensures { Serves program.now address result }
{
    match program.code_at(address) {
        Some(i) => MicroOp::of(i, address, 0),
        None => MicroOp::SLOW,
    }
}
