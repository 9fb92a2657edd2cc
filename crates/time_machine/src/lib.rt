#![tactic(auto)]
//! A run on one memory that is gone through pick by pick, forwards and backwards.
//!
//! It hands on [`one_memory`], on which it runs the original.

mod checkpoints;
mod machine;
mod run;
mod step;
mod stops;

pub use machine::TimeMachine;
pub use one_memory;
pub use stops::{StopPoint, Watch, WatchKind};
