#![tactic(auto)]
//! The commands of the viewer, and its top call, [`shasta_view`], which shows what the words ask
//! for.

mod blocks;
mod code;
mod cost;
mod debugger;
mod input;
mod page;
mod recorded;
mod run_cost;
mod speedup;
mod text;
mod time;
mod top;
mod trace;

pub use text_output::tell_out_of_memory;
pub use top::shasta_view;
