#![tactic(auto)]
//! The polls of a plan: where a loop may close.
//!
//! It hands on [`flow_graph`], on whose cycles polls stand.

mod polls;

pub use flow_graph;
pub use polls::{closes_loop_at, plan_polls};
