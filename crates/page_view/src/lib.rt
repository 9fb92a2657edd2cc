#![tactic(auto)]
//! A page of a recorded run: at most 400 events as a diagram of the nodes and their messages.
//!
//! It hands on [`page_events`], which it draws.

mod arrows;
mod blocks;
mod figure;
mod frame;
mod marks;
mod page;
mod rows;
mod waits;

pub use page::{Page, push_page};
pub use page_events;
