#![tactic(auto)]
//! Texts that are put, and what comes of it: numbers and addresses in a text; why a command
//! failed, and the line that is told.

mod failure;
mod output;
mod text;

pub use failure::Failure;
pub use output::{PIECE, put, tell, tell_out_of_memory, write_file};
pub use text::{push_address, push_count, push_number};
