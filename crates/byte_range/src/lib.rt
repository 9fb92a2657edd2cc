#![tactic(auto)]
//! Bytes of memory: of a range, of the private window, and of the lines that processors share.

mod bytes;
mod lines;
mod range;
mod window;

pub use bytes::{bytes_law, load_at, store_at};
pub use lines::{LineMemory, LineRange};
pub use range::ByteRange;
pub use window::{WINDOW_START, Window};
