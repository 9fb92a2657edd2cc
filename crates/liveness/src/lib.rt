#![tactic(auto)]
//! Registers that are live, and dead, at each code word of a program, by paths.

mod back;
mod live;
mod node;
mod sets;
mod work;

pub use live::Live;
pub use node::used_registers;
