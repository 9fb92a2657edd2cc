//! What words count that are executed.

ghost use Rattle.std.specs.Prelude.{◌≡◌, ◌++◌, ◌∷◌, ℕ, List, [], replicate, IfOk};
ghost use Rattle.check_costs.specs.Counts.{counts_by};
ghost use Rattle.check_costs.specs.Tally.{AreTotals, AreWithin, Executed, tally_of};

use crate::counts::WordCounts;
use crate::labels::Label;
use std::alloc::{AllocError, Global};

/// What words count that are executed, function by function.
#[derive(Drop)]
pub struct Tally {
    counts: Vec<WordCounts>,
}

impl Tally {
    ghost use Rattle.std.specs.Prelude.{◌≡◌, ◌<◌, ◌++◌, ◌∷◌, [], ℕ, List, length, replicate};
    ghost use Rattle.std.specs.Prelude.{IfOk, OnOk};
    ghost use Rattle.check_costs.specs.Tally.{Executed, tally_of};
    ghost use Rattle.check_costs.specs.Given.{IsTallyOf};

    /// The tally of no words, in `functions` functions and in none.
    pub fn new(alloc: Global, functions: usize) -> Result<Tally, AllocError>
        ensures { IfOk result (λ t. IsTallyOf functions [] t) }
    {
        let counts = no_counts(alloc, functions)?;
        Ok(Tally { counts })
    }

    /// Adds a word that is executed, and perhaps commits a step of the original. Fails where a
    /// count has no room.
    pub fn add(&mut self, label: Label, commits: bool) -> Result<(), AllocError>
        requires function { label.function < length self.old.counts.items }
        ensures { (functions : ℕ) (words : List Executed) → IsTallyOf functions words self.old
            → OnOk result (IsTallyOf functions
            (words ++ record { label = label; commits = commits } ∷ []) self.new) }
    {
        self.counts[label.function].count_word(label.kind, commits)?;
        Ok(())
    }

    /// Adds words of a label that are executed. Each commits a step of the original, or none does.
    /// Fails where a count has no room.
    pub fn add_words(&mut self, label: Label, words: usize, commits: bool) -> Result<(), AllocError>
        requires function { label.function < length self.old.counts.items }
        ensures { (functions : ℕ) (before : List Executed) → IsTallyOf functions before self.old
            → OnOk result (IsTallyOf functions
            (before ++ replicate words (record { label = label; commits = commits })) self.new) }
    {
        let more = WordCounts::alike(label.kind, words, commits);
        self.counts[label.function].increase(&more)?;
        Ok(())
    }

    /// What each function counts, in the order of the table, and last code in none.
    pub fn into_counts(self) -> Vec<WordCounts>
        ensures { (functions : ℕ) (words : List Executed) → IsTallyOf functions words self
            → result.items ≡ tally_of functions words }
    {
        self.counts
    }
}

/// The counts of no words, in `functions` functions and in none.
fn no_counts(alloc: Global, functions: usize) -> Result<Vec<WordCounts>, AllocError>
    ensures { IfOk result (λ counts. counts.items
        ≡ replicate functions (counts_by 0 []) ++ counts_by 0 [] ∷ []) }
{
    let mut counts = Vec::new(alloc);
    counts.resize(functions, WordCounts::of(0, &[]))?;
    counts.push(WordCounts::of(0, &[]))?;
    Ok(counts)
}

/// The counts of words have these sums. The call does nothing.
pub fn tally_law()
    ensures sums { (functions : ℕ) (words : List Executed) → AreWithin functions words
        → AreTotals words (tally_of functions words) }
{}
