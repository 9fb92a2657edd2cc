#![tactic(auto)]
//! What a node of several processors is, what it does in an event, and what a core of such nodes
//! is. The processors of a node, its lanes, share its copy, its states and its directory. There is
//! no code here.
//!
//! It hands on [`jump_map`], whose words the processors of a node execute.

pub use node_model::jump_map;
