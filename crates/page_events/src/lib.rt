#![tactic(auto)]
//! The events that a page of a recorded run shows: what is looked for among them, where each is
//! drawn, and texts within HTML.
//!
//! It hands on what its events are: [`event_text`], [`run_trace`] and [`node_machine`].

mod escape;
mod places;
mod shown;
mod sought;

pub use escape::{escape_law, push_escaped};
pub use event_text;
pub use event_text::{node_machine, run_trace};
pub use places::{
    Spot, down_from, down_to, line_of, lower_edge, own_row, push_at, push_count, push_edge,
    push_line_of, push_node, push_spot, spot_of,
};
pub use shown::Shown;
pub use sought::{Sought, count_of, first_block, goes_on, other_block, row_of};
