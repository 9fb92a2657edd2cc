#![tactic(auto)]
//! What a node does with each message of the protocol, and what a home keeps of its blocks.
//!
//! The table of messages stands in `specs/Table.antt`, a row a case. [`Directory`] has the rows of
//! a block's home: a request that finds the block busy waits there in order of arrival.
//!
//! It hands on what a home works with: [`state_table`], [`flag_memory`] and [`dsm_messages`].

mod directory;
mod request_lists;
mod wait;

pub use directory::{Busy, Directory, DirectoryEntry, Request};
pub use dsm_messages;
pub use flag_memory;
pub use state_table;
pub use wait::{Answer, Wait};
