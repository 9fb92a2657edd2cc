#![tactic(auto)]
//! The executable that a number makes.

mod assembler;
mod code;
mod generated;

pub use generated::{Generated, program_of};
