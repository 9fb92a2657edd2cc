//! The executable that a number makes.

ghost use Rattle.std.specs.Prelude.{◌≡◌, true, IfOk};
ghost use Rattle.elf32_read.specs.Elf.{is_in_limits};
ghost use Rattle.workload.specs.Generated.{generated_elf, code_bytes};

use crate::code::instructions;
use elf32_read::{Elf, Segment};
use rv32_decode::{Instr, encode};
use std::alloc::{AllocError, Global};
use std::marker::Model;

/// Where the code begins, which is its entry.
const CODE_BASE: u32 = 0x1_0000;

/// Where the pages begin.
const PAGES_BASE: u32 = 0x20_0000;

/// How many bytes the pages have: four of 4,096, and a line of 128.
const PAGES_SIZE: u32 = 0x4080;

/// The permissions of the code: it is read and executed.
const CODE_FLAGS: u32 = 5;

/// The permissions of the pages: they are read and written.
const PAGES_FLAGS: u32 = 6;

/// The executable of a number. Contracts see the number.
#[derive(Drop)]
pub struct Generated {
    number: u32,
    /// The words of the code, little-endian.
    code: Vec<u8>,
}

impl Model for Generated {
    ghost use Rattle.std.specs.Prelude.{ℕ, ◌≡◌};
    ghost use Rattle.workload.specs.Generated.{code_bytes, instructions};

    ghost Value = { ℕ };

    ghost view = { λ g. g.number };

    ghost invariant = { λ g. g.code.items ≡ code_bytes (instructions g.number) };
}

/// The executable that a number makes.
pub fn program_of(alloc: Global, number: u32) -> Result<Generated, AllocError>
    ensures value { IfOk result (λ g. g ≡ number) }
{
    let code = code_bytes(alloc, &instructions(alloc, number)?)?;
    Ok(Generated { number, code })
}

/// The words of instructions, little-endian.
fn code_bytes(alloc: Global, code: &[Instr]) -> Result<Vec<u8>, AllocError>
    ensures { IfOk result (λ bytes. bytes.items ≡ code_bytes code.now) }
{
    let mut bytes = Vec::new(alloc);
    for instruction in code {
        bytes.extend_from_slice(&encode(*instruction).to_le_bytes())?;
    }
    Ok(bytes)
}

impl Generated {
    /// Its file's content: the entry and the segments.
    pub fn elf(&self, alloc: Global) -> Result<Elf<'_>, AllocError>
        ensures value { IfOk result (λ e. e ≡ generated_elf self.now) }
        ensures limits { IfOk result (λ e. is_in_limits e ≡ true) }
    {
        let mut segments = Vec::new(alloc);
        segments.push(Segment {
            flags: CODE_FLAGS,
            vaddr: CODE_BASE,
            memsz: self.code.len() as u32,
            bytes: &self.code,
        })?;
        segments.push(Segment {
            flags: PAGES_FLAGS,
            vaddr: PAGES_BASE,
            memsz: PAGES_SIZE,
            bytes: &[],
        })?;
        match Elf::make(CODE_BASE, 0, segments, Vec::new(alloc)) {
            Some(elf) => Ok(elf),
            None => unreachable!(),
        }
    }
}
