//! Messages between nodes.

ghost use Rattle.std.specs.Prelude.{◌≡◌, [], IfOk};
ghost use Rattle.std.specs.Option.{option_to_list};

use arrayvec::ArrayVec;
use block_layout::Block;
use buf_pool::Buf;
use lossy_link::Piece;
use std::alloc::AllocError;

/// What a node wants of a block.
#[derive(Clone, Copy, PartialEq, Eq)]
pub enum Need {
    /// To read it.
    Read,
    /// To read and write it.
    Write,
}

/// A message about a block, or the last of a node. A buffer is the requester's own, and comes back
/// to it with the answer.
#[derive(Default, Drop)]
pub enum Message {
    /// To the home: the sender wants to read.
    Read {
        block: Block,
        buf: Buf,
    },
    /// To the home: the sender wants to write.
    Write {
        block: Block,
        buf: Buf,
    },
    /// From the home to the owner: send the requester the block's bytes.
    FwdRead {
        block: Block,
        requester: u8,
        buf: Buf,
    },
    /// From the home to the owner: give the block up to the requester, who gets `acks` Acks.
    FwdWrite {
        block: Block,
        requester: u8,
        acks: u8,
        buf: Buf,
    },
    /// From the home to a sharer: give the block up, and tell the requester.
    Inval {
        block: Block,
        requester: u8,
    },
    /// To the requester: the block's bytes. `acks` Acks come.
    Data {
        block: Block,
        acks: u8,
        buf: Buf,
    },
    /// From the home to the requester: its own bytes are good. `acks` Acks come.
    Grant {
        block: Block,
        acks: u8,
        buf: Buf,
    },
    /// To the requester: the sender has given the block up.
    Ack {
        block: Block,
    },
    /// From the requester to the home: it has what it wanted.
    Done {
        block: Block,
    },
    /// The sender has ended.
    #[default]
    Bye,
}

impl Message {
    /// An equal message, whose buffer is another.
    pub fn copy(&self) -> Result<Message, AllocError>
        ensures { IfOk result (λ copied. copied ≡ self.now) }
    {
        match self {
            Message::Read { block, buf } => Ok(Message::Read {
                block: *block,
                buf: buf.copy()?,
            }),
            Message::Write { block, buf } => Ok(Message::Write {
                block: *block,
                buf: buf.copy()?,
            }),
            Message::FwdRead {
                block,
                requester,
                buf,
            } => Ok(Message::FwdRead {
                block: *block,
                requester: *requester,
                buf: buf.copy()?,
            }),
            Message::FwdWrite {
                block,
                requester,
                acks,
                buf,
            } => Ok(Message::FwdWrite {
                block: *block,
                requester: *requester,
                acks: *acks,
                buf: buf.copy()?,
            }),
            Message::Inval { block, requester } => Ok(Message::Inval {
                block: *block,
                requester: *requester,
            }),
            Message::Data { block, acks, buf } => Ok(Message::Data {
                block: *block,
                acks: *acks,
                buf: buf.copy()?,
            }),
            Message::Grant { block, acks, buf } => Ok(Message::Grant {
                block: *block,
                acks: *acks,
                buf: buf.copy()?,
            }),
            Message::Ack { block } => Ok(Message::Ack { block: *block }),
            Message::Done { block } => Ok(Message::Done { block: *block }),
            Message::Bye => Ok(Message::Bye),
        }
    }
}

/// A message to a node.
#[derive(Default, Drop)]
pub struct Post {
    /// The number of the node.
    pub to: u8,
    /// The message.
    pub message: Message,
}

/// A message on its way.
#[derive(Default, Drop)]
pub struct Wire {
    /// The stamp of the event that sent it.
    pub stamp: u64,
    /// The message.
    pub message: Message,
}

impl Piece for Wire {
    fn copy(&self) -> Result<Wire, AllocError> {
        Ok(Wire {
            stamp: self.stamp,
            message: self.message.copy()?,
        })
    }
}

/// What one event sends, in order. Who makes events has one such list, and hands it on by
/// reference: it has room for 18 messages in place, though most events send one.
pub type Sends = ArrayVec<Post, 18>;

/// Sends a message, where there is one, and nothing is sent before it.
pub fn push_some(sends: &mut Sends, post: Option<Post>)
    requires nothing { sends.old.items ≡ [] }
    ensures value { sends.new.items ≡ option_to_list post }
{
    if let Some(post) = post {
        sends.push(post);
    }
}
