#![tactic(auto)]
//! What checks cost: the words of rewritten code by what they are there for, function by function,
//! as they stand and as they are executed.
//!
//! It hands on [`elf_symbols`], whose functions its table names.

mod counts;
mod entries;
mod functions;
mod kinds;
mod labels;
mod table;
mod tally;

pub use counts::{WordCounts, counts_of};
pub use elf_symbols;
pub use entries::push_kinds;
pub use kinds::WordKind;
pub use labels::{Label, labels_of};
pub use table::{Counted, FunctionCounts, table_of};
pub use tally::{Tally, tally_law};
