//! n nodes of several processors that run rewritten code, the lists of messages between them, and
//! their runs on one thread, by an order.
#![tactic(auto)]

mod by_order;
mod cores;
mod listing;
mod outcome;
mod runs;
mod steps;

pub use by_order::smp_simulate;
pub use cores::{SmpCore, SmpEvent};
