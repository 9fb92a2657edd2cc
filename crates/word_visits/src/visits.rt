//! How often each word was executed, by its number.

ghost use Rattle.std.specs.Prelude.{◌≡◌, ◌≤◌, IfOk, true};
ghost use Rattle.word_visits.specs.Entries.{AreFree, ArePartedAt, AreShort, AreSlowedTo};
ghost use Rattle.word_visits.specs.Entries.{begun_in, is_ordered, looks_in};

use crate::visit::{MOST_REACH, Visit, is_clear, short_stride};
use node_words::jump_map::{Image, StrideKind};
use node_words::micro_op::MicroOp;
use std::alloc::{AllocError, Global};

/// A table of words and of how often each was executed. Some of its words look: such a word counts
/// only where it reads something other than the flag word.
#[derive(Drop)]
pub struct Visits {
    /// The words, and how often each was executed.
    pub(crate) entries: Vec<Visit>,
    /// The micro-ops of the image's words.
    pub(crate) micros: Vec<MicroOp>,
    /// What is executed at once from each word of the image on: never a stride over a word that
    /// looks.
    pub(crate) kinds: Vec<StrideKind>,
    /// How many stretches end after the last word.
    pub(crate) behind: usize,
    /// How often all words together were executed.
    pub(crate) counted: u64,
    ghost few: { begun_in entries.items ≤ counted },
    ghost ordered: { is_ordered 0 0 behind entries.items ≡ true },
    ghost free: { AreFree (looks_in entries.items) kinds.items },
}

impl Visits {
    ghost use Rattle.std.specs.Prelude.{◌≡◌, ◌++◌, ◌∷◌, [], IfOk, OnErr, OnOk, length, map};
    ghost use Rattle.word_visits.specs.VisitTables.{AreVisitsIn, StayVisits, visits_of};

    /// A table of none of the words of an image, with room for all of them.
    pub fn of(alloc: Global, image: &Image) -> Result<Visits, AllocError>
        ensures none { IfOk result (λ visits. visits_of visits ≡ []) }
        ensures table { IfOk result (AreVisitsIn image.now) }
    {
        let (micros, kinds) = image.tables();
        Ok(Visits {
            entries: Vec::with_capacity(alloc, micros.len())?,
            micros: micros.to_vec(alloc)?,
            kinds: short_strides(alloc, kinds)?,
            behind: 0,
            counted: 0,
        })
    }

    /// Adds the image's next word, and says whether it looks.
    pub fn push(&mut self, looks: bool) -> Result<(), AllocError>
        ensures more { OnOk result (visits_of self.new
            ≡ visits_of self.old ++ record { times = 0; looks = looks } ∷ []) }
        ensures table { StayVisits self.old self.new }
        ensures err { OnErr result (visits_of self.new ≡ visits_of self.old) }
    {
        let number = self.entries.len();
        self.entries.push(Visit {
            looks,
            begun: 0,
            ended: self.behind,
        })?;
        part_strides(&mut self.kinds, number, looks);
        self.behind = 0;
        Ok(())
    }

    /// The number of words.
    pub fn len(&self) -> usize
        ensures { result ≡ length (visits_of self.now) }
    {
        self.entries.len()
    }

    /// How often each word was executed, by its number.
    pub fn times(&self, alloc: Global) -> Result<Vec<usize>, AllocError>
        ensures { IfOk result (λ times. times.items ≡ map (λ v. v.times) (visits_of self.now)) }
    {
        let mut times = Vec::with_capacity(alloc, self.entries.len())?;
        let mut begun = 0;
        let mut ended = 0;
        for number in 0..self.entries.len() {
            begun += self.entries[number].begun;
            ended += self.entries[number].ended;
            times.push(begun - ended)?;
        }
        Ok(times)
    }
}

/// The kinds of strides that are short; a word goes by itself whose stride isn't.
fn short_strides(alloc: Global, kinds: &[StrideKind]) -> Result<Vec<StrideKind>, AllocError>
    ensures slowed { IfOk result (λ strides. AreSlowedTo kinds.now strides.items) }
    ensures short { IfOk result (λ strides. AreShort strides.items) }
{
    let mut strides = Vec::with_capacity(alloc, kinds.len())?;
    for kind in kinds {
        strides.push(short_stride(*kind))?;
    }
    Ok(strides)
}

/// Each word goes by itself whose stride would go over the word of a number, if that looks.
fn part_strides(kinds: &mut [StrideKind], number: usize, looks: bool)
    requires short { AreShort kinds.old }
    ensures slowed { AreSlowedTo kinds.old kinds.new }
    ensures parted { looks ≡ true → ArePartedAt number kinds.new }
{
    if !looks {
        return;
    }
    let end = if number < kinds.len() {
        number + 1
    } else {
        kinds.len()
    };
    for at in number.saturating_sub(MOST_REACH)..end {
        if !is_clear(kinds[at], number - at) {
            kinds[at] = StrideKind::Slow;
        }
    }
}
