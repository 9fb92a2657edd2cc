//! What a node keeps of a block that it waits for.

use buf_pool::Buf;
use dsm_messages::Need;

/// The message that answers a wait.
#[derive(Drop)]
pub enum Answer {
    /// Data: the buffer holds the block's bytes.
    ByData { acks: u8, buf: Buf },
    /// Grant: the node's own bytes are good.
    ByGrant { acks: u8, buf: Buf },
}

/// A wait of a node for a block.
#[derive(Drop)]
pub struct Wait {
    /// What the node wants.
    pub need: Need,
    /// The answer, once it has come.
    pub answer: Option<Answer>,
    /// The number of Acks that have come.
    pub counted: u8,
}
