#![tactic(auto)]
//! What a step is: what an instruction and a call ask for, and the original processors on one
//! memory.

mod call;
mod demands;
mod registers;

pub use call::{call_step, cut_short};
pub use demands::demand_of;
pub use registers::Registers;
use rv32_decode::{AmoOp, LoadKind, Reg, Width};
use rv32_program::Exit;

/// What an instruction asks for, apart from any memory.
#[derive(Clone, Copy, PartialEq, Eq)]
pub enum Demand {
    /// The register gets the value, and the next instruction follows.
    Sets(Reg, u32),
    /// Nothing but that the next instruction follows.
    Continues,
    /// The register gets the address of the next instruction, and the pc becomes the target.
    Jumps(Reg, u32),
    /// The pc becomes the target.
    Branches(u32),
    /// The register gets what the address holds, and the next instruction follows.
    Loads(LoadKind, Reg, u32),
    /// The address gets the low bits of the value, and the next instruction follows.
    Stores(Width, u32, u32),
    /// One step of an environment call.
    Calls,
    /// The processor ends.
    Traps(Exit),
    /// The register gets the word at the address, which is reserved, and the next instruction
    /// follows.
    Reserves(Reg, u32),
    /// The address gets the value and the register 0, where the address is reserved; else the
    /// register gets 1. No reservation is left, and the next instruction follows.
    StoresIf(Reg, u32, u32),
    /// The register gets the word at the address, the address what the operation makes of that word
    /// and the value, and the next instruction follows.
    Updates(AmoOp, Reg, u32, u32),
}

/// One step of an environment call.
#[derive(Clone, Copy, PartialEq, Eq)]
pub enum CallStep {
    /// The processor ends with this code.
    Ends(u8),
    /// a0 gets this value, and the call is done.
    Returns(u32),
    /// The byte at this address is printed, and the call goes on.
    Puts(u32),
}
