#![tactic(auto)]
//! A node's copy of the shared memory.
//!
//! The copy has a byte for each byte of a shared line. Each word of a line that the node may not
//! read is the flag word 0xffffff03, so that a load of another value needs no look at the line's
//! state.

mod copy;
mod first;

pub use copy::{Copy32, copy_law};
pub use first::{FirstBytes, FirstRange};
