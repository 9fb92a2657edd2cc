#![tactic(auto)]
//! The plan of a program: templates, and scratch registers that are dead where they can be.
//!
//! It hands on [`liveness`], which says which registers a place may use.

mod laws;
mod planning;
mod scratches;

pub use laws::plan_law;
pub use liveness;
pub use planning::{plan_checks, scratch_count};
pub use scratches::{NO_SCRATCH, NO_SCRATCHES, choose};
