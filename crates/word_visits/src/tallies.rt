//! Which words count, by their numbers.

ghost use Rattle.std.specs.Prelude.{◌≡◌, ◌+◌, ◌-◌, ◌^◌, ◌<◌, ◌≤◌, List};
ghost use Rattle.std.specs.Prelude.{if◌then◌else◌, length, slice_index_or};
ghost use Rattle.node_words.specs.Runs.{numbers_from};
ghost use Rattle.word_visits.specs.Tallies.{steps_among};
ghost use Rattle.word_visits.specs.Sums.{RiseByOne, tallies_in};
ghost use Rattle.word_visits.specs.Visits.{WordVisits};

use crate::visits::Visits;
use node_words::jump_map::Image;
use std::alloc::{AllocError, Global};

/// A table of words, and of whether each counts. Some of its words look: such a word counts only
/// where it reads something other than the flag word.
#[derive(Drop)]
pub struct Tallies {
    /// The words; none is visited.
    pub(crate) words: Visits,
    /// How many words before each count, and last how many do in all.
    pub(crate) sums: Vec<usize>,
    ghost count: { length sums.items ≡ length words.entries.items + 1 },
    ghost rise: { RiseByOne sums.items },
    ghost start: { slice_index_or sums.items 0 0 ≡ 0 },
}

impl Tallies {
    ghost use Rattle.std.specs.Prelude.{◌≡◌, ◌++◌, ◌∷◌, [], List, IfOk, OnOk};
    ghost use Rattle.word_visits.specs.TallyTables.{AreTalliesIn, StayTallies, tallies_of};

    /// A table of none of the words of an image, with room for all of them.
    pub fn of(alloc: Global, image: &Image) -> Result<Tallies, AllocError>
        ensures none { IfOk result (λ tallies. tallies_of tallies ≡ []) }
        ensures table { IfOk result (AreTalliesIn image.now) }
    {
        let words = Visits::of(alloc, image)?;
        let mut sums = Vec::with_capacity(alloc, image.len())?;
        sums.push(0)?;
        Ok(Tallies { words, sums })
    }

    /// Adds the image's next word, and says whether it counts and whether it looks.
    pub fn push(&mut self, counts: bool, looks: bool) -> Result<(), AllocError>
        ensures more { OnOk result (tallies_of self.new
            ≡ tallies_of self.old ++ record { counts = counts; looks = looks } ∷ []) }
        ensures table { StayTallies self.old self.new }
    {
        let last = self.sums.len() - 1;
        let sum = next_sum(self.sums[last], counts);
        self.sums.reserve(1)?;
        self.words.push(looks)?;
        self.sums.push_reserved(sum);
        Ok(())
    }

    /// The number of words.
    pub fn len(&self) -> usize
        ensures { result ≡ length (tallies_of self.now) }
    {
        self.words.len()
    }
}

/// How many words before the next one count, where `sum` before a word do.
fn next_sum(sum: usize, counts: bool) -> usize
    requires { sum + 1 < 2 ^ 64 }
    ensures { result ≡ (if counts then sum + 1 else sum) }
{
    if counts { sum + 1 } else { sum }
}

/// How many of the words from a number on that stand before another count, by their sums.
#[inline(always)]
pub(crate) fn steps_between(sums: &[usize], first: usize, end: usize) -> u64
    requires rise { RiseByOne sums.now }
    requires some { first ≤ end }
    requires within { first < end → end < length sums.now }
    ensures sum { (words : List WordVisits) → length sums.now ≡ length words + 1
        → result ≡ steps_among (tallies_in words sums.now) (numbers_from first (end - first)) }
    ensures most { result ≤ end - first }
{
    if first == end {
        return 0;
    }
    (sums[end] - sums[first]) as u64
}
