#![tactic(auto)]
//! A run of rewritten code: made ready from files; the text of its outcome, which tells of the
//! original's processors on one memory; and the lines that tell of its nodes and its events.

mod events;
mod nodes;
mod outcome;
mod ready;
mod text;

pub use events::event_line;
pub use nodes::push_nodes;
pub use outcome::{put_outcome, put_told};
pub use ready::{Prepared, prepare, prepare_replay};
