#![tactic(auto)]
//! The messages of the protocol, and the messages without their buffers.

mod headers;
mod messages;

pub use headers::{Header, Headers, MessageKind, Sent, headers_of};
pub use messages::{Message, Need, Post, Sends, Wire, push_some};
