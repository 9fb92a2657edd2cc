#![tactic(auto)]
//! A link from one thread to another, which passes on wires: first in, first out, each once.
//!
//! The ring between the two ends holds a fixed number of wires. A [`SendEnd`] knows what it has
//! pushed, a [`TakeEnd`] what it has popped, and [`rejoin`] gives what was pushed and not popped.

mod ends;
mod rule;

pub use ends::{Full, SendEnd, TakeEnd, link, rejoin};
