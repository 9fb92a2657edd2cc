#![tactic(auto)]
//! One node, which executes rewritten code.
//!
//! It hands on [`node_words`], by whose loops a node executes words, and what a node is made from:
//! [`exec_map`], [`jump_map`] and [`miss_handlers`].

mod node;
mod node_state;
mod opening;
mod phase;
mod protocol_state;
mod snapshot;
mod states;
mod touch;
mod turns;
mod undo_log;
mod wanted;

pub use node::{NO_COUNTS, Node, ended_standing, standing_at};
pub use node_state::{BareTurn, WordTurn, add_byes, handle};
pub use node_words;
pub use node_words::miss_handlers::{BUFFER_BYTES, WAITS};
pub use node_words::node_model::{Entry, NodeCounts, OutByte, Standing};
pub use node_words::{exec_map, jump_map, miss_handlers};
pub use opening::first_local;
pub use phase::{Phase, is_ended};
pub use protocol_state::{ProtocolState, put, want_of_other_block};
pub use snapshot::Snapshot;
pub use states::{LaneState, SharedState};
pub use touch::Touch;
pub use turns::Turn;
pub use undo_log::NodeUndoLog;
pub use wanted::{Wanted, WantedBlocks};
