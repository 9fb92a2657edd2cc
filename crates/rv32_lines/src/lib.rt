#![tactic(auto)]
//! The lines of an assembly text, read.

mod bytes;
mod commands;
mod heads;
mod law;
mod lines;
mod mnemonics;
mod names;
mod numerals;
mod operands;
mod statements;

pub use bytes::append_bytes;
pub use commands::WrittenInstruction;
pub use law::reading_law;
pub use lines::statements_of;
pub use operands::Target;
pub use statements::Statement;
