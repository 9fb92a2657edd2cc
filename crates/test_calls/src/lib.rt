#![tactic(auto)]
//! What tests of calls share: executables of assembly texts, files in memory, and what a call did.

pub mod calls;
pub mod files;
pub mod samples;
