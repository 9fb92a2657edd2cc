#![tactic(auto)]
//! The batches of a plan: runs of accesses that are checked once.
//!
//! It hands on what its plans are made with: [`liveness`] and [`check_plan`].

mod batches;
mod runs;
mod stretches;

pub use batches::plan_batches;
pub use check_plan;
pub use check_plan::liveness;
pub use runs::run_base;
