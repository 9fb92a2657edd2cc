#![tactic(auto)]
//! One node of several processors, its lanes. They share its copy, its states and its directory.
//!
//! An [`SmpNode`] has a [`Lane`] for each processor, with what is that processor's own, and a
//! [`Shared`] for what they share. The node keeps a place for each lane: its reservation, and what
//! the node waits for on its behalf. While a lane executes a word, or a message comes for a block
//! that it waits for, its place is put in use: so a word, or a message, does to it what it does to
//! a node of one processor. A block that another lane waits for isn't asked for again.

mod asking;
mod lane;
mod lane_protocol;
mod node;
mod shared;
mod silent;
mod stored;
mod stores;
mod taking;
mod work;

pub use lane::Lane;
pub use node::{SmpNode, takes_away};
pub use node_machine::{BareTurn, NodeCounts, Standing};
pub use shared::Shared;
pub use work::SmpWork;
