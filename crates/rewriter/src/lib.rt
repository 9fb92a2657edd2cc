#![tactic(auto)]
//! Rewrites a program: the plan of its places, and the image of that plan.
//!
//! It hands on what a plan is made with, [`flow_graph`], [`liveness`], [`check_plan`],
//! [`poll_plan`] and [`batch_plan`], and [`jump_map`], which holds the rewritten words.

mod comparing;
mod file;
mod file_bytes;
mod rewriting;

pub use batch_plan;
pub use batch_plan::{check_plan, liveness};
pub use file::{CodeRefused, FilePart, map_section, plan_section};
pub use file_bytes::{MARK, code_bytes, map_bytes};
pub use jump_map;
pub use poll_plan;
pub use poll_plan::flow_graph;
pub use rewriting::{Options, Rewritten, rewrite, rewrite_law};
