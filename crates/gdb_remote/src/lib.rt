#![tactic(auto)]
//! The remote protocol of GDB, as a target that is only looked at speaks it: packets, and what a
//! packet asks for.

mod arguments;
mod frame;
mod hexadecimal;
mod law;
mod reader;
mod request;
mod words;

pub use frame::push_framed;
pub use hexadecimal::{bytes_of, push_bytes, push_word};
pub use law::{packet_law, word_law};
pub use reader::{INTERRUPT, PACKET_SIZE, PacketEvent, Reader, ReaderState};
pub use request::{
    DebuggerRequest, Direction, Extent, Look, Point, PointKind, SessionSetting, Thread, request_of,
};
