//! Runs of nodes on one thread, by a clock.
//!
//! It hands on [`dsm_core`], whose cores it runs.
#![tactic(auto)]

mod clocks;
mod costs;
mod counting;
mod due;
mod link;
mod links;
mod run;
mod stretch;
mod tallied;

pub use costs::{Costs, Spent, total_spent};
pub use dsm_core;
pub use run::{Timed, simulate_by_clock};
