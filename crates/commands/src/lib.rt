#![tactic(auto)]
//! The commands of the program, and the top call, [`shasta`], which does what the words ask for.

mod assembly;
mod generate;
mod input;
mod law;
mod list;
mod one;
mod record;
mod rerun;
mod rewrite;
mod run;
mod sim;
mod text;
mod top;

pub use law::{record_head_law, run_and_replay_law};
pub use node_threads::{Gate, OpenGate};
pub use text_output::tell_out_of_memory;
pub use top::shasta;
