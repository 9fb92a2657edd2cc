//! Words in a row, by strides, and how many of them count.

ghost use Rattle.std.specs.Prelude.{◌≡◌, ◌+◌, ◌≤◌, length};
ghost use Rattle.node_words.specs.jump_map.Image.{most_words};
ghost use Rattle.node_words.specs.jump_map.Micro.{AreMicrosOf};
ghost use Rattle.node_words.specs.jump_map.Strides.{HasStrides};
ghost use Rattle.node_words.specs.node_memory.Shelf.{ground_of};
ghost use Rattle.node_words.specs.GoingOn.{BodyGoesOn};
ghost use Rattle.node_words.specs.UndoLogs.{StaysUndoable};
ghost use Rattle.word_visits.specs.Entries.{AreFree, looks_in, visits_in};
ghost use Rattle.word_visits.specs.TallyBodies.{BodyHasSteps};
ghost use Rattle.word_visits.specs.Sums.{RiseByOne, tallies_in};

use crate::tallies::{Tallies, steps_between};
use crate::visit::{StrideTables, Visit, behind_at, most_counted};
use crate::visiting::{pass_one, pass_stride};
use node_words::jump_map::Image;
use node_words::{ExecState, Going, Progress, WordLoop};

/// What words that were executed one after another come to.
#[derive(Clone, Copy, Debug, PartialEq, Eq)]
struct Counted {
    /// The index of the next word.
    at: u32,
    /// How many words were executed.
    words: u64,
    /// How many of them count.
    steps: u64,
}

/// The loop that counts, by tallies, how many of the words count that it executes. It ends before a
/// word that isn't tallied: one that looks and reads the flag word; any, where the image has more
/// words than the table, or once the count has no room.
#[derive(Drop)]
pub struct TallyLoop<'a> {
    pub(crate) tallies: &'a Tallies,
    pub(crate) steps: u64,
}

impl<'a> TallyLoop<'a> {
    /// A loop that has executed no word, with these tallies.
    pub fn new(tallies: &'a Tallies) -> TallyLoop<'a>
        ensures tallies { result.tallies.now ≡ tallies.now }
        ensures none { result.steps ≡ 0 }
    {
        TallyLoop { tallies, steps: 0 }
    }

    /// How many of the words count that it has executed.
    pub fn steps(&self) -> u64
        ensures { result ≡ self.now.steps }
    {
        self.steps
    }
}

impl<'a> WordLoop for TallyLoop<'a> {
    ghost use Rattle.word_visits.specs.TallyLoops.{AreTalliedIn, HasCounted};

    ghost goes_over = { AreTalliedIn };

    ghost learns = { HasCounted };

    fn run(&mut self, body: &mut ExecState<'_>, image: &Image, from: u32, most: u64) -> Progress {
        let words = &self.tallies.words;
        if words.entries.len() < words.kinds.len() {
            return Progress { at: from, words: 0 };
        }
        let most = most_counted(most, self.steps);
        let strides = StrideTables {
            micros: &words.micros,
            kinds: &words.kinds,
        };
        let counted = step_words(
            body,
            image,
            from,
            most,
            strides,
            &words.entries,
            &self.tallies.sums,
        );
        self.steps += counted.steps;
        Progress {
            at: counted.at,
            words: counted.words,
        }
    }
}

/// Executes words from an index on, as long as they are silent and tallied, and at most `most`. The
/// sum of the next word's number and of how many more there may be stays the same as long as words
/// stand one after another: they are one stretch.
#[inline(never)]
fn step_words(
    body: &mut ExecState<'_>,
    image: &Image,
    from: u32,
    most: u32,
    strides: StrideTables<'_>,
    entries: &[Visit],
    sums: &[usize],
) -> Counted
    requires few { length image.now ≤ most_words }
    requires micros { AreMicrosOf image.now strides.micros.now }
    requires strides { HasStrides strides.micros.now strides.kinds.now }
    requires enough { length strides.kinds.now ≤ length entries.now }
    requires free { AreFree (looks_in entries.now) strides.kinds.now }
    requires count { length sums.now ≡ length entries.now + 1 }
    requires rise { RiseByOne sums.now }
    ensures words { BodyGoesOn image.now most from body.old result.words result.at body.new }
    ensures steps { BodyHasSteps image.now most from body.old result.words
        (tallies_in (visits_in 0 0 entries.now) sums.now) result.steps }
    ensures most { result.words ≤ most }
    ensures part { result.steps ≤ result.words }
    ensures ground { ground_of body.new.local ≡ ground_of body.old.local }
    ensures counts { body.new.counts ≡ body.old.counts }
    ensures undoable { StaysUndoable body.old body.new }
{
    let mut going = Going {
        at: from as usize,
        left: most,
    };
    if going.at >= strides.kinds.len() {
        return Counted {
            at: from,
            words: 0,
            steps: 0,
        };
    }
    let mut first = going.at;
    let mut line = going.at + going.left as usize;
    let mut steps = 0;
    while going.left > 0 {
        let here = going.at;
        if pass_stride(body, image, strides, &mut going) {
            if going.at + going.left as usize != line {
                let last = behind_at(strides.kinds, here);
                steps += steps_between(sums, first, line - going.left as usize - last);
                first = going.at - last;
                line = going.at + going.left as usize;
            }
        } else {
            match pass_one(body, image, entries[here].looks, here as u32) {
                Some(next) => {
                    going.to(1, next as usize);
                    if going.at + going.left as usize != line {
                        steps += steps_between(sums, first, line - going.left as usize);
                        first = going.at;
                        line = going.at + going.left as usize;
                    }
                    if going.at >= strides.kinds.len() {
                        break;
                    }
                }
                None => break,
            }
        }
    }
    Counted {
        at: going.at as u32,
        words: (most - going.left) as u64,
        steps: steps + steps_between(sums, first, line - going.left as usize),
    }
}
