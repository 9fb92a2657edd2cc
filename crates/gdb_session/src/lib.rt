#![tactic(auto)]
//! A session of GDB with a target that is only looked at: one answer to each request, and what is
//! put back for the bytes of the debugger.
//!
//! It hands on [`gdb_remote`], whose requests it answers.

mod description;
mod look;
mod server;
mod session;
mod target;
mod telling;

pub use gdb_remote;
pub use server::Server;
pub use session::{After, Session};
pub use target::{Doing, Motion, MotionReach, PC, Stop, Target, Told, Why};
