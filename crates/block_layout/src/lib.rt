#![tactic(auto)]
//! The blocks of the shared memory: the lines of each block, and the node that is its home.
//!
//! A line has 64 bytes, and is named by its address divided by 64. A block is a line that no range
//! of the layout has, or a part of a range. Blocks are numbered from 0 as they begin, ascending.

mod index;
mod law;
mod layout;
mod named;
mod ranges;
mod read;
mod refused;
mod text;

pub use law::{layout_law, range_list_law, text_law};
pub use layout::{Block, BlockRange, LINE_BYTES, Layout};
pub use ranges::{Lines, Ranges};
pub use read::{default_layout, layout_with, read_layout};
pub use refused::{LayoutRefused, LayoutRule};
