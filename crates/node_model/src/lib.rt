#![tactic(auto)]
//! What a node that runs rewritten code is, what it does in an event, and what a core of such nodes
//! is. There is no code here but what is seen of a node: types, and what a standing allows.
//!
//! It hands on what a node's words are, [`rv32_step`], [`micro_op`], [`runtime_words`],
//! [`templates`] and [`jump_map`], and its protocol: [`miss_handlers`], [`home_directory`],
//! [`state_table`], [`flag_memory`], [`dsm_messages`] and [`llsc`].

ghost use Rattle.std.specs.Prelude.{◌≡◌, ◌↔◌, true};
ghost use Rattle.node_model.specs.Core as model;

pub use jump_map;
pub use jump_map::{micro_op, runtime_words, rv32_step, templates};
pub use miss_handlers;
pub use miss_handlers::{dsm_messages, flag_memory, home_directory, llsc, state_table};

/// What a node may do next.
#[derive(Clone, Copy, PartialEq, Eq)]
pub enum Standing {
    /// It may execute a word.
    Running,
    /// It may execute a word, or take a message: the word is a poll or a call.
    AtPoll,
    /// It waits for a block: it may take a message.
    Waiting,
    /// It has ended, and may take a message.
    Ended,
    /// It has ended, and all nodes have told it that they have.
    Over,
}

impl Standing {
    /// Whether the node may execute a word.
    pub fn may_execute(self) -> bool
        ensures { result ≡ model.may_execute self }
    {
        match self {
            Standing::Running | Standing::AtPoll => true,
            Standing::Waiting | Standing::Ended | Standing::Over => false,
        }
    }

    /// Whether the node may take a message.
    pub fn may_take(self) -> bool
        ensures { result ≡ model.may_take self }
    {
        match self {
            Standing::AtPoll | Standing::Waiting | Standing::Ended => true,
            Standing::Running | Standing::Over => false,
        }
    }

    /// Whether the node has ended, and has been told by all nodes that they have.
    pub fn is_over(self) -> bool
        ensures { (result ≡ true) ↔ (self ≡ Standing.Over) }
    {
        match self {
            Standing::Over => true,
            Standing::Running | Standing::AtPoll | Standing::Waiting | Standing::Ended => false,
        }
    }
}

/// A message that a node took, in its journal.
#[derive(Clone, Copy, PartialEq, Eq)]
pub struct Entry {
    /// The stamp of the event.
    pub stamp: u64,
    /// The node that sent the message.
    pub from: u8,
    /// The number of words that were executed since the take before.
    pub words: u64,
}

/// A byte that a node printed.
#[derive(Clone, Copy, PartialEq, Eq)]
pub struct OutByte {
    /// The stamp of the event that printed it.
    pub stamp: u64,
    /// The byte.
    pub byte: u8,
}

/// What a node counts over its events.
#[derive(Clone, Copy, PartialEq, Eq)]
pub struct NodeCounts {
    /// Read messages sent.
    pub read: u64,
    /// Write messages sent while the block was invalid.
    pub exclusive: u64,
    /// Write messages sent while the block was shared.
    pub upgrade: u64,
    /// Miss checks for reading that found a readable line.
    pub falses: u64,
    /// Invalidations and forwarded writes taken.
    pub invalidations: u64,
    /// Runs that went to their single-checked sequences.
    pub fallbacks: u64,
    /// All messages sent but farewells.
    pub messages: u64,
}
