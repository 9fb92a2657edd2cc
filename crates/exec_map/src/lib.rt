#![tactic(auto)]
//! The program of an executable: the class of each line, the bytes that it starts with, its code.
//!
//! It hands on [`byte_range`], which holds what the program begins with.

ghost use Rattle.std.specs.Prelude.{◌≡◌, ◌+◌, ◌^◌, ◌<◌, ◌≤◌, ◌++◌, ℕ, false, length};
ghost use Rattle.std.specs.Prelude.{slice_index, map, take, IfOk, OnErr, OnOk, IsErrOf, IfSome};
ghost use Rattle.std.specs.Prelude.{IfNone};
ghost use Rattle.rv32_decode.specs.Widths.{size_of};
ghost use Rattle.byte_range.specs.Memory.{raw};
ghost use Rattle.rv32_program.specs.Program.{IsAccepted};
ghost use Rattle.elf32_read.specs.Elf.{Elf as Fields};
ghost use Rattle.exec_map.specs.Contents as model;
ghost use Rattle.exec_map.specs.Refusals.{Fits, IsRefusedBy, IsAcceptable};

mod code;
mod first_memory;
mod refused;
mod rules;
mod segment;
mod segments;
mod stretches;

pub use block_layout::{Lines, Ranges};
pub use byte_range;
use elf32_read::{Elf, Segment};
pub use first_memory::{read_only_memory, shared_memory};
pub use refused::{ProgramRefused, ProgramRule};
use rv32_decode::{Instr, Width, decode};
pub use rv32_program::{CallKind, Class, End, Exit, call_of};
use std::alloc::{AllocError, Global};
use std::marker::Model;
use stretches::NumberRange;

/// The first line of the window; each processor has its own bytes there.
pub const PRIVATE_FIRST: u32 = 0x1ff_fc00;

/// The line after that window's last.
const PRIVATE_END: u32 = 0x200_0000;

/// An accepted program. Contracts see the fields of its executable.
#[derive(Drop)]
pub struct Program<'a> {
    elf: &'a Elf<'a>,
    /// The segments that have memory, ascending.
    segments: Vec<Segment<'a>>,
    /// Where the code words stand, ascending.
    code: Vec<NumberRange>,
}

impl<'a> Model for Program<'a> {
    ghost use Rattle.std.specs.Prelude.{map};
    ghost use Rattle.elf32_read.specs.Elf.{Elf as Fields};
    ghost use Rattle.elf32_read.specs.Segments.{segment_of};
    ghost use Rattle.exec_map.specs.Contents.{AllSupported};
    ghost use Rattle.exec_map.specs.Index.{IsIndex};
    ghost use Rattle.exec_map.specs.Refusals.{IsAcceptable};

    ghost Value = { Fields };

    ghost view = { λ p. p.elf.now };

    ghost invariant = { λ p. IsIndex p.elf.now (map segment_of p.segments.items) p.code.items
        × IsAcceptable p.elf.now
        × AllSupported p.elf.now };
}

/// Accepts an executable.
///
/// Fails with the first rule that fits it, in the order of their numbers, and with the least
/// segment, section or address of that rule. Takes time of the order of n log n in the segments,
/// sections and code words (where two segments share a line, of the square of the segments), and
/// memory of the order of the file's headers.
pub fn accept<'a>(alloc: Global, e: &'a Elf<'_>) -> Result<Program<'a>, ProgramRefused>
    ensures ok { IfOk result (λ p. p ≡ e.now) }
    ensures acceptable { OnOk result (IsAcceptable e.now) }
    ensures accepted { OnOk result (IsAccepted (model.program_of e.now)) }
    ensures refused { (r : ProgramRule)
        → IsErrOf result (ProgramRefused.Broken r) → IsRefusedBy e.now r }
{
    let segments = segments::sorted(alloc, e.segments())?;
    if let Some(rule) = rules::broken_by_segments(e, &segments) {
        return Err(ProgramRefused::Broken(rule));
    }
    let code = code::ranges(alloc, e, &segments)?;
    if let Some(rule) = rules::broken_by_code(e, &segments, &code) {
        return Err(ProgramRefused::Broken(rule));
    }
    Ok(Program {
        elf: e,
        segments,
        code,
    })
}

impl<'a> Program<'a> {
    /// The class of a line of 64 bytes.
    pub fn class(&self, line: u32) -> Class
        requires { line < 2 ^ 26 }
        ensures { result ≡ model.class_of_line self.now line }
    {
        if (PRIVATE_FIRST..PRIVATE_END).contains(&line) {
            return Class::Private;
        }
        match segments::at_line(&self.segments, line) {
            Some(s) => segment::class(s),
            None => Class::Unmapped,
        }
    }

    /// The maximal ranges of the lines that the processors have in common, ascending.
    pub fn shared_ranges(&self, alloc: Global) -> Result<Ranges, AllocError>
        ensures ranges { IfOk result (model.AreSharedRanges self.now) }
    {
        Ok(Ranges::new(segments::ranges_of(alloc, &self.segments, true)?))
    }

    /// The maximal ranges of the lines that no processor may write, ascending.
    pub fn read_only_ranges(&self, alloc: Global) -> Result<Ranges, AllocError>
        ensures ranges { IfOk result (model.AreReadOnlyRanges self.now) }
    {
        Ok(Ranges::new(segments::ranges_of(alloc, &self.segments, false)?))
    }

    /// The byte that an address starts with.
    pub fn byte0(&self, address: u32) -> u8
        ensures { result ≡ model.first_byte self.now address }
    {
        segments::byte_at(&self.segments, address)
    }

    /// The little-endian number of the bytes that the addresses from one on start with.
    pub fn load0(&self, width: Width, address: u32) -> u32
        requires { address + size_of width ≤ 2 ^ 32 }
        ensures { result ≡ raw width (model.program_of self.now).first address }
    {
        segments::load(&self.segments, width, address)
    }

    /// Appends the bytes that `count` addresses from one on start with. Where memory is wanted,
    /// nothing is appended.
    pub fn bytes0(&self, address: u32, count: usize, out: &mut Vec<u8>) -> Result<(), AllocError>
        requires { address + count ≤ 2 ^ 32 }
        ensures ok { OnOk result
            (out.new.items ≡ out.old.items ++ model.first_bytes self.now address count) }
        ensures err { OnErr result (out.new.items ≡ out.old.items) }
    {
        let start = out.len();
        let outcome = self.push_bytes0(address, count, out);
        if outcome.is_err() {
            out.truncate(start);
        }
        outcome
    }

    /// Appends these bytes, or some of them where memory is wanted.
    fn push_bytes0(&self, address: u32, count: usize, out: &mut Vec<u8>) -> Result<(), AllocError>
        requires { address + count ≤ 2 ^ 32 }
        ensures ok { OnOk result
            (out.new.items ≡ out.old.items ++ model.first_bytes self.now address count) }
        ensures err { OnErr result (take (length out.old.items) out.new.items ≡ out.old.items) }
    {
        for place in 0..count {
            out.push(self.byte0((address as usize + place) as u32))?;
        }
        Ok(())
    }

    /// The code word at an address.
    pub fn word_at(&self, address: u32) -> Option<u32>
        ensures { result ≡ model.word_at self.now address }
    {
        if code::has_word(&self.code, address) {
            Some(self.load0(Width::Word, address))
        } else {
            None
        }
    }

    /// The instruction of the code word at an address.
    pub fn code_at(&self, address: u32) -> Option<Instr>
        ensures { result ≡ model.code_at self.now address }
    {
        decode(self.word_at(address)?)
    }

    /// The address of the first instruction.
    pub fn entry(&self) -> u32
        ensures value { result ≡ self.now.entry }
        ensures accepted { IsAccepted (model.program_of self.now) }
        ensures acceptable { IsAcceptable self.now }
        ensures supported { model.AllSupported self.now }
    {
        self.elf.entry()
    }

    /// The address of the lowest code word at or above an address.
    pub fn next_code(&self, from: u32) -> Option<u32>
        ensures some { IfSome result (λ a. model.IsNextCode self.now from a) }
        ensures low { IfSome result (λ a. a + 4 ≤ 0x7fff0000) }
        ensures none { IfNone result ((b : ℕ) → from ≤ b → model.is_code_word self.now b ≡ false) }
        ensures supported { model.AllSupported self.now }
    {
        code::next_word(&self.code, from)
    }
}

/// What `bytes0` appends, by place: a byte of each address.
pub fn first_bytes_law()
    ensures len { (e : Fields) (a n : ℕ) → length (model.first_bytes e a n) ≡ n }
    ensures each { (e : Fields) (a n k : ℕ) → k < n
        → slice_index (model.first_bytes e a n) k ≡ model.first_byte e (a + k) }
{}

/// An executable is acceptable just where no rule fits it.
pub fn refusal_law()
    ensures no_rule { (e : Fields) (r : ProgramRule) → IsAcceptable e → Fits e r → ⊥ }
    ensures acceptable { (e : Fields) → ((r : ProgramRule) → Fits e r → ⊥) → IsAcceptable e }
{}
