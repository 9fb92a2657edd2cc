//! The direct successors of an instruction.

ghost use Rattle.std.specs.Prelude.{◌≡◌, ◌+◌, ◌^◌, ◌<◌, Some};
ghost use Rattle.flow_graph.specs.Edges.{ends_flow, next_of, goes_back, goes_anywhere};

use rv32_decode::Instr;
use rv32_program::aligned_target;

/// The direct successors of an instruction.
#[derive(Clone, Copy, PartialEq, Eq)]
pub struct Next {
    /// The address after it; None exactly at JAL, JALR, EBREAK and illegal words.
    pub first: Option<u32>,
    /// Where a branch or JAL goes, where that is a multiple of four; else None.
    pub second: Option<u32>,
}

/// The direct successors of a code word, by the numbers of code words.
#[derive(Clone, Copy, PartialEq, Eq)]
pub struct Edges {
    /// The code word right after it, where that is a successor.
    pub first: Option<u32>,
    /// The code word that a branch or JAL goes to.
    pub second: Option<u32>,
}

/// The direct successors of an instruction at an address.
pub(crate) fn next_of(i: &Instr, address: u32) -> Next
    requires low { address + 4 < 2 ^ 32 }
    ensures value { result ≡ next_of i.now address }
{
    Next {
        first: if ends_flow(i) {
            None
        } else {
            Some(address + 4)
        },
        second: aligned_target(i, address),
    }
}

/// Whether the instruction never goes on to the one after it.
fn ends_flow(i: &Instr) -> bool
    ensures value { result ≡ ends_flow i.now }
{
    match i {
        Instr::Jal { .. } | Instr::Jalr { .. } | Instr::Ebreak | Instr::Illegal { .. } => true,
        _ => false,
    }
}

/// Whether an instruction at an address may go to that address or one below.
pub(crate) fn goes_back(i: &Instr, address: u32) -> bool
    ensures value { result ≡ goes_back i.now address }
{
    match aligned_target(i, address) {
        Some(target) => target <= address,
        None => false,
    }
}

/// Whether an instruction may go to any address.
pub(crate) fn goes_anywhere(i: &Instr) -> bool
    ensures value { result ≡ goes_anywhere i.now }
{
    match i {
        Instr::Jalr { .. } => true,
        _ => false,
    }
}
