#![tactic(auto)]
//! The templates of rewritten code: places, plans, and the sequence of each place.

pub mod batches;
pub mod code;
pub mod commits;
pub mod counting;
pub mod numbers;
mod places;
pub mod plans;
pub mod reaches;
pub mod sequences;
pub mod words;

pub use batches::{BatchLengths, batch_lengths, expand_batch};
pub use code::{Code, CodeWord};
pub use commits::{CommitKind, commit_at};
pub use counting::{reload_count, sequence_length};
pub use places::{Part, Place, list_places};
pub use plans::{Plan, PlanEntry, Scratch, Scratches, Template, is_flag_checked, template_of};
pub use reaches::Reach;
pub use sequences::expand;
pub use words::{Item, Words};
