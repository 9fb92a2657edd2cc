#![tactic(auto)]
//! One word at a node: by its micro-op, or by the path that serves every word.
//!
//! An [`ExecState`] is a processor with what its words see of the node, its [`NodeMemory`]. Words
//! change nothing else of a node: what a word wants of other nodes, and how a node takes messages,
//! is said above this crate.
//!
//! It hands on [`node_model`], which says what a word does, and what words are made of and see:
//! [`byte_range`], [`rv32_step`], [`micro_op`], [`exec_map`], [`runtime_words`], [`jump_map`],
//! [`flag_memory`], [`dsm_messages`], [`home_directory`] and [`miss_handlers`].

mod arms;
mod exec_state;
mod lane;
mod sequences;
mod serve;
mod silent;
mod slow_path;
mod store_log;
mod strides;
mod undo_log;
mod word_loop;

pub use exec_state::ExecState;
pub use lane::{ProcessorState, Resume, Tally, address_of, index_of};
pub use node_memory::{
    NodeMemory, Want, Wants, byte_range, dsm_messages, exec_map, flag_memory, home_directory,
    jump_map, micro_op, miss_handlers, node_model, runtime_words, rv32_step,
};
pub use serve::{Following, Progress, Served};
pub use store_log::{Note, StoreLog};
pub use strides::{Going, MOST_AT_ONCE};
pub use undo_log::{Saved, UndoLog};
pub use word_loop::{PlainLoop, WordLoop};
