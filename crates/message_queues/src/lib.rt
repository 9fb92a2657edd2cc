//! The lists of messages between nodes, as every core keeps them.
//!
//! It hands on [`node_model`], whose messages the queues hold.
#![tactic(auto)]

mod channel;
pub mod lists;
mod queue;

pub use channel::{Channel, send_all};
pub use node_model;
pub use queue::Queue;
