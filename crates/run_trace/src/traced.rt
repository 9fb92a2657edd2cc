//! What an event of a run did, as it is looked at.

use block_layout::Block;
use replay::node_machine::WantedBlocks;
use replay::node_model::home_directory::dsm_messages::{Header, Headers};
use rv32_program::End;
use state_table::State;
use templates::Place;

/// How a word accesses memory.
#[derive(Clone, Copy, PartialEq, Eq)]
pub enum AccessKind {
    Reads,
    Writes,
    /// A conditional store whose address was no longer reserved.
    WritesNot,
    Exchanges,
}

/// An access of memory.
#[derive(Clone, Copy)]
pub struct Accessed {
    pub kind: AccessKind,
    pub address: u32,
    /// None where the line is in no block: it isn't shared.
    pub block: Option<Block>,
}

/// What an event counts beside its messages.
#[derive(Clone, Copy, PartialEq, Eq)]
pub enum Tallied {
    Nothing,
    /// A miss check for reading found a readable line.
    FalseMiss,
    /// A run goes to its single-checked sequences.
    FallsBack,
}

/// What a word did.
#[derive(Drop)]
pub struct WordTraced {
    /// Where the word stands. None of word 0.
    pub place: Option<Place>,
    /// Whether it commits a step of the original.
    pub commits: bool,
    pub access: Option<Accessed>,
    /// The blocks that it wanted, each once.
    pub wants: Option<WantedBlocks>,
    pub tally: Tallied,
    pub printed: Option<u8>,
    /// What it sent, but for farewells.
    pub sends: Headers,
    /// How the processor ended by it: then farewells go to all nodes.
    pub end: Option<End>,
}

/// What taking a message did.
#[derive(Drop)]
pub struct TakeTraced {
    pub from: u8,
    /// The stamp of the event that sent it.
    pub sent: u64,
    pub message: Header,
    /// Whether it met a row of the table of messages.
    pub meets: bool,
    /// The state of the message's block at the node, before and now.
    pub was: Option<State>,
    pub becomes: Option<State>,
    /// The node's wait for the block has ended.
    pub completes: bool,
    /// The node gave up the block.
    pub gives_up: bool,
    /// The node's reservation has ended.
    pub clears: bool,
    /// The node waits no more.
    pub resumes: bool,
    pub tally: Tallied,
    /// What was sent, but for farewells.
    pub sends: Headers,
    /// How the processor ended, where that came of it: then farewells go to all nodes.
    pub end: Option<End>,
}

/// What an event did.
#[derive(Drop)]
pub enum What {
    Word(WordTraced),
    Take(TakeTraced),
}

/// An event: its stamp, the node that made it, and what it did.
#[derive(Drop)]
pub struct Traced {
    pub stamp: u64,
    pub node: u8,
    pub what: What,
}
