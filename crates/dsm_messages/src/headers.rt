//! Messages without their buffers.

ghost use Rattle.std.specs.Prelude.{◌≡◌, map};
ghost use Rattle.dsm_messages.specs.Headers as model;

use crate::messages::{Message, Post, Sends};
use arrayvec::ArrayVec;
use block_layout::Block;

/// The kinds of messages.
#[derive(Clone, Copy, Default, PartialEq, Eq)]
pub enum MessageKind {
    Read,
    Write,
    FwdRead,
    FwdWrite,
    Inval,
    Data,
    Grant,
    Ack,
    Done,
    #[default]
    Bye,
}

/// A message without its buffer.
#[derive(Clone, Copy, Default)]
pub struct Header {
    pub kind: MessageKind,
    /// None of a `Bye`.
    pub block: Option<Block>,
    /// The node for which the block is asked, where the message names it.
    pub requester: Option<u8>,
    /// How many Acks come, where the message says so.
    pub acks: Option<u8>,
}

/// A message that was sent, and to which node.
#[derive(Clone, Copy, Default)]
pub struct Sent {
    pub to: u8,
    pub header: Header,
}

/// What one event sends, in order, without the buffers.
pub type Headers = ArrayVec<Sent, 18>;

/// A message of a kind about a block that says no more.
fn about(kind: MessageKind, block: Block) -> Header
    ensures { result ≡ model.about kind block }
{
    Header {
        kind,
        block: Some(block),
        requester: None,
        acks: None,
    }
}

impl Message {
    /// The message without its buffer.
    pub fn header(&self) -> Header
        ensures value { result ≡ model.header_of self.now }
    {
        match self {
            Message::Read { block, .. } => about(MessageKind::Read, *block),
            Message::Write { block, .. } => about(MessageKind::Write, *block),
            Message::FwdRead {
                block,
                requester,
                ..
            } => Header {
                requester: Some(*requester),
                ..about(MessageKind::FwdRead, *block)
            },
            Message::FwdWrite {
                block,
                requester,
                acks,
                ..
            } => Header {
                requester: Some(*requester),
                acks: Some(*acks),
                ..about(MessageKind::FwdWrite, *block)
            },
            Message::Inval { block, requester } => Header {
                requester: Some(*requester),
                ..about(MessageKind::Inval, *block)
            },
            Message::Data { block, acks, .. } => Header {
                acks: Some(*acks),
                ..about(MessageKind::Data, *block)
            },
            Message::Grant { block, acks, .. } => Header {
                acks: Some(*acks),
                ..about(MessageKind::Grant, *block)
            },
            Message::Ack { block } => about(MessageKind::Ack, *block),
            Message::Done { block } => about(MessageKind::Done, *block),
            Message::Bye => Header {
                kind: MessageKind::Bye,
                block: None,
                requester: None,
                acks: None,
            },
        }
    }
}

impl Post {
    /// The message without its buffer, and to whom.
    pub fn sent(&self) -> Sent
        ensures value { result ≡ model.sent_by self.now }
    {
        Sent {
            to: self.to,
            header: self.message.header(),
        }
    }
}

/// What is sent, without the buffers.
pub fn headers_of(sends: &Sends) -> Headers
    ensures { result.items ≡ map model.sent_by sends.now.items }
{
    let mut headers = Headers::new();
    for post in sends.as_slice() {
        headers.push(post.sent());
    }
    headers
}
