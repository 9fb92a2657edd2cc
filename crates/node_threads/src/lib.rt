#![tactic(auto)]
//! Nodes of a core in threads of their own, with links between them.

mod crew;
mod gate;
mod gather;
mod mesh;
mod pace;
mod racing;
mod rows;
mod signals;
mod undelivered;
mod worker;

pub use gate::{Gate, OpenGate};
pub use racing::{race, race_with};
pub use signals::Signals;
pub use worker::Worker;
