#![tactic(auto)]
//! Two loops over the words of an image: one counts how often it executes each word, by its number;
//! the other, how many words it executes of those that count.
//!
//! Words are executed by strides, as [`node_words`] does it, and counted by stretches: words that
//! stood one after another and were executed so. A table of visits keeps of each word how many
//! stretches began at it, and how many ended before it. A table of tallies has of each word how
//! many of those before it count, so a stretch adds the difference of two of its sums.

mod counting;
mod tallies;
mod visit;
mod visiting;
mod visits;

pub use counting::TallyLoop;
pub use tallies::Tallies;
pub use visits::Visits;
