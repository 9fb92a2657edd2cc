#![tactic(auto)]
//! What a recorded run did, event by event.
//!
//! It hands on [`replay`], which makes the run, and [`node_machine`].

mod committing;
mod entries;
mod kinds;
mod law;
mod misses;
mod passed;
mod reach;
mod takes;
mod traced;
mod tracer;
mod words;

pub use committing::{CommitSight, commit_sight, has_committed, silent_commits};
pub use kinds::CommitKinds;
pub use law::trace_law;
pub use misses::is_miss;
pub use passed::{Until, WordPassed};
pub use replay;
pub use replay::node_machine;
pub use traced::{AccessKind, Accessed, TakeTraced, Tallied, Traced, What, WordTraced};
pub use tracer::Tracer;
