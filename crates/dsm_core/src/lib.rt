//! n nodes that run rewritten code, and the lists of messages between them.
//!
//! It hands on [`node_machine`], whose nodes it has, and the laws of its runs: [`run_order`] and
//! [`rewriting_law`].
#![tactic(auto)]

mod cores;
mod finish;
mod outcome;
mod parts;
mod seen;
mod steps;
mod undo_logs;
mod word_runs;
mod work;

pub use cores::{Core, Event};
pub use node_machine;
pub use outcome::Outcome;
pub use parts::Parts;
pub use rewriting_law;
pub use run_order;
pub use seen::{Incoming, Seen};
pub use undo_logs::{StoppedEarly, UndoLogs};
pub use work::Work;
