#![tactic(auto)]
//! What the words of a processor see of their node, its memory: the copy of the shared bytes, the
//! state byte of each line, the read-only lines, and what the processor has reserved.
//!
//! Words read and write a [`NodeMemory`] by its calls. A line's state byte says what may be done
//! with it, and what is wanted of one that doesn't allow what a word needs is a [`Want`].
//!
//! It hands on [`node_model`], and what its words are made of and see: [`byte_range`],
//! [`rv32_step`], [`micro_op`], [`exec_map`], [`runtime_words`], [`jump_map`], [`flag_memory`],
//! [`dsm_messages`], [`home_directory`] and [`miss_handlers`].

mod lines;
mod memory;
mod region;

pub use exec_map;
pub use exec_map::byte_range;
pub use lines::{Want, Wants};
pub use memory::NodeMemory;
pub use node_model;
pub use node_model::{
    dsm_messages, flag_memory, home_directory, jump_map, micro_op, miss_handlers, runtime_words,
    rv32_step,
};
pub use region::{Region, region_of};
