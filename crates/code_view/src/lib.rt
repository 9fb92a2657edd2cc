#![tactic(auto)]
//! The text of rewritten code: each place of the original, and the words that stand for it.

mod law;
mod names;
mod plans;
mod view;
mod words;

pub use law::mark_law;
pub use view::CodeView;
