//! Runs of nodes on one thread, by an order.
#![tactic(auto)]

mod by_order;
mod listing;

pub use by_order::simulate;
pub use dsm_core::rewriting_law::{conditional_law, interleaving_law, progress_law};
