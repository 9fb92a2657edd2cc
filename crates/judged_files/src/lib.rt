#![tactic(auto)]
//! Files that are read, judged and refused, whatever they are read for: executables and their
//! rewritten code, layouts and records.

pub mod code;
pub mod input;
pub mod layout;
pub mod record;
pub mod refusal;
