#![tactic(auto)]
//! What each block of the shared memory costs in a recorded run.
//!
//! It hands on [`event_text`], by which it names what it tells.

mod costs;
mod law;
mod lines;
mod names;
mod order;
mod sharing;
mod sums;
mod totals;

pub use event_text;
pub use law::block_law;
pub use sums::Sums;
