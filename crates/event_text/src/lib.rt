#![tactic(auto)]
//! The lines of a trace.
//!
//! It hands on what it tells of: [`run_trace`] and [`node_machine`].

mod events;
mod law;
mod names;
mod parts;
mod shown;
mod takes;

pub use events::{push_event, push_passed};
pub use law::shown_law;
pub use names::{access_name, message_name, need_name, state_name};
pub use parts::{
    push_address, push_decimal, push_header, push_if, push_number, push_original, push_state,
};
pub use run_trace;
pub use run_trace::node_machine;
pub use shown::{EventFilter, block_reached, is_block, is_passed_shown, is_shown, push_head};
