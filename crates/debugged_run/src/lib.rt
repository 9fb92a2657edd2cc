#![tactic(auto)]
//! A run on one memory as a target of the debugger: what is seen from a position in it, where its
//! motions end, and the commands of `monitor`.
//!
//! It hands on [`time_machine`], which it moves, and [`gdb_session`], which asks it to.

mod commands;
mod run;
mod stops;

pub use gdb_session;
pub use run::DebuggedRun;
pub use stops::mover_at;
pub use time_machine;
