#![tactic(auto)]
//! The flow graph of a program: its code words, and where control goes from each directly.

mod code;
mod edges;
mod graph;

pub use edges::{Edges, Next};
pub use graph::Graph;
