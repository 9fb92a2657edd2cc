#![tactic(auto)]
//! An assembler: the executable of a text of instructions.

mod assembled;
mod labels;
mod law;
mod places;
mod refused;
mod rules;
mod texts;
mod words;

pub use assembled::{Assembled, assemble};
pub use law::{assembling_law, listing_law};
pub use refused::{AsmRefused, AsmRule};
pub use texts::check_text;
