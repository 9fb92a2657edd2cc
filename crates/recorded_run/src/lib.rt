#![tactic(auto)]
//! A recorded run as a target of the debugger: the run on one memory that it stands for, and the
//! nodes beside it, which the commands of `monitor` show.
//!
//! It hands on [`record_picks`], which names its run on one memory, and [`debugged_run`].

mod command;
mod nodes;
mod run;
mod texts;
mod walk;

pub use command::Command;
pub use debugged_run;
pub use record_picks;
pub use run::RecordedRun;
pub use walk::LastEvent;
