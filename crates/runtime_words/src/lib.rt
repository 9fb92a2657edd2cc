#![tactic(auto)]
//! The words of rewritten code: native instructions, and the words of the runtime.
//!
//! [`read_word`] says what a word is in rewritten code, and [`encode_word`] gives the one word that
//! reads as what is asked for.

mod encoding;
mod number;
mod reading;

pub use encoding::encode_word;
pub use number::WordNumber;
pub use reading::{imm_of_bits, read_word};
use rv32_decode::{Imm12, Instr, Reg, Width};

/// The flag word: what each word of a node's copy holds where the node may not read it.
pub const FLAG_WORD: u32 = 0xffff_ff03;

/// A word of rewritten code.
#[derive(Clone, Copy, PartialEq, Eq)]
pub enum RtWord {
    /// An instruction of the original machine.
    Native(Instr),
    /// Looks whether the line of rs1 + imm may be read.
    MissR { width: Width, rs1: Reg, imm: Imm12 },
    /// Looks whether the line of rs1 + imm may be written.
    MissW { width: Width, rs1: Reg, imm: Imm12 },
    /// Does nothing: a place where messages may be taken.
    Poll,
    /// One step of an environment call.
    Call,
    /// An indirect jump: to rewritten code, with the next original address in rd.
    Xjalr { rd: Reg, rs1: Reg, imm: Imm12 },
    /// Looks whether the lines of rs1 and rs2 may be read by a run, or written where it stores.
    Batch { stores: bool, rs1: Reg, rs2: Reg },
    /// Looks whether the line of rs1 may be written, where that address is reserved.
    Prepare { rs1: Reg },
    /// A direct jump to the word of this number, wherever it is.
    Far(WordNumber),
    /// Ends the processor with `Fetch` at the word's place.
    TrapFetch,
    /// Ends the processor with `Fetch` at the address, no place, that it went to.
    TrapOff,
    /// Ends the processor with `Illegal` at the word's place.
    TrapIllegal,
    /// Ends the processor with `Ebreak` at the word's place.
    TrapEbreak,
}
