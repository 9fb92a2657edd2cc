//! One word of a node: by its micro-op, or by the path that serves every word.

ghost use Rattle.std.specs.Prelude.{◌≡◌, ◌+◌, ◌^◌, ◌<◌, ◌≤◌, ℕ, Some, None, length};
ghost use Rattle.node_memory.specs.exec_map.Contents.{program_of};
ghost use Rattle.node_memory.specs.jump_map.Image.{most_words};
ghost use Rattle.node_memory.specs.node_model.Node as model;
ghost use Rattle.node_words.specs.Address.{word_address};
ghost use Rattle.node_memory.specs.Shelf.{ground_of, local_of};
ghost use Rattle.node_words.specs.Kept.{StepsOr, Serves, lane_of, move_of};
ghost use Rattle.node_words.specs.Kept.{resume_of, tally_of, phase_by, wants_by};
ghost use Rattle.node_memory.specs.node_model.Turns.{wants_of};
ghost use Rattle.node_words.specs.UndoLogs.{StaysUndoable};

use crate::exec_state::ExecState;
use crate::lane::{Move, Resume, Tally};
use node_memory::Wants;
use node_memory::exec_map::Exit;
use node_memory::jump_map::{IMAGE_BASE, Image};
use node_memory::node_model::NodeCounts;

/// What follows a word.
#[derive(Clone, Copy, PartialEq, Eq)]
pub enum Following {
    /// Another word.
    GoesOn,
    /// A wait.
    Waits(Resume, Wants),
    /// Nothing: the processor is ended.
    Leaves(Exit),
}

/// What the path that serves every word did.
#[derive(Clone, Copy, PartialEq, Eq)]
pub struct Served {
    /// The index of the next word.
    pub at: u32,
    /// What follows.
    pub following: Following,
    /// The byte that it printed.
    pub output: Option<u8>,
}

/// How many words were executed one after another, and the index of the word that follows.
#[derive(Clone, Copy, Debug, PartialEq, Eq)]
pub struct Progress {
    pub at: u32,
    pub words: u64,
}

impl<'a> ExecState<'a> {
    /// Executes the word with an index by its micro-op, and gives the index of the word that
    /// follows. `None` where the path that serves every word has to; then nothing changed.
    #[tactic(auto, using(crate::proofs::UndoLogLemmas::undoable_same))]
    #[inline(always)]
    pub fn step_at(&mut self, image: &Image, at: u32) -> Option<u32>
        requires { length image.now ≤ most_words }
        ensures steps { StepsOr image.now (model.next_outcome (program_of self.old.local.program)
            image.now (lane_of self.old.lane (word_address at)) (local_of self.old.local))
            self.old.lane self.old.local self.new.lane self.new.local result }
        ensures counts { self.new.counts ≡ self.old.counts }
        ensures log { result ≡ None → self.new.log ≡ self.old.log }
        ensures undoable { StaysUndoable self.old self.new }
    {
        match image.micro(at) {
            Some(op) => self.step(image, op, at),
            None => None,
        }
    }

    /// Executes the word with an index, whichever it is.
    #[inline(never)]
    pub fn serve(&mut self, image: &Image, at: u32) -> Served
        requires falses { self.old.counts.falses + 1 < 2 ^ 64 }
        requires fallbacks { self.old.counts.fallbacks + 1 < 2 ^ 64 }
        ensures { Serves image.now (model.next_outcome (program_of self.old.local.program)
            image.now (lane_of self.old.lane (word_address at)) (local_of self.old.local))
            (ground_of self.old.local) self.old.counts self.new.lane self.new.local self.new.counts
            result }
    {
        let outcome = self.execute_at(image, at);
        self.counts = count(self.counts, outcome.tally);
        Served {
            at: self.go(image, at, outcome.next),
            following: what_follows(outcome.next),
            output: outcome.output,
        }
    }

    /// Goes on after a wait, by what the lines of its word allow now: the index of the word that
    /// follows. A run that doesn't find both lines as it needs them falls back.
    pub fn resume(&mut self, resume: Resume, at: u32) -> u32
        requires fallbacks { self.old.counts.fallbacks + 1 < 2 ^ 64 }
        ensures resumed { lane_of self.new.lane (word_address result) ≡ model.lane_resumed
            (lane_of self.old.lane (word_address at)) (local_of self.old.local) (resume_of resume) }
        ensures counts { self.new.counts ≡ model.counts_after
            (model.tally_resumed (local_of self.old.local) (resume_of resume)) self.old.counts }
        ensures lane { self.new.lane ≡ self.old.lane }
        ensures local { self.new.local ≡ self.old.local }
    {
        match resume {
            Resume::PastWord => at.wrapping_add(1),
            Resume::SameWord => at,
            Resume::ByLines { need, low, high } => {
                if self.local.both_meet(need, low, high) {
                    at.wrapping_add(2)
                } else {
                    self.counts.fallbacks += 1;
                    at.wrapping_add(1)
                }
            }
        }
    }

    /// The index of the word that follows.
    fn go(&mut self, image: &Image, at: u32, next: Move) -> u32
        ensures lane { lane_of self.new.lane (word_address result) ≡
            model.lane_after image.now (lane_of self.old.lane (word_address at)) (move_of next) }
        ensures local { self.new.local ≡ self.old.local }
        ensures counts { self.new.counts ≡ self.old.counts }
    {
        match next {
            Move::Next => at.wrapping_add(1),
            Move::Again | Move::Waits(..) | Move::Leaves(_) => at,
            Move::To(index) => index,
            Move::Enters(original) => match image.new_of(original) {
                Some(new) => (new - IMAGE_BASE) / 4,
                None => {
                    self.lane.off = original;
                    0
                }
            },
        }
    }
}

/// The counts after a word.
fn count(counts: NodeCounts, tally: Tally) -> NodeCounts
    requires falses { counts.falses + 1 < 2 ^ 64 }
    requires fallbacks { counts.fallbacks + 1 < 2 ^ 64 }
    ensures { result ≡ model.counts_after (tally_of tally) counts }
{
    match tally {
        Tally::Nothing => counts,
        Tally::FalseMiss => NodeCounts {
            falses: counts.falses + 1,
            ..counts
        },
        Tally::FallsBack => NodeCounts {
            fallbacks: counts.fallbacks + 1,
            ..counts
        },
    }
}

/// What follows a word, by where the processor goes.
fn what_follows(next: Move) -> Following
    ensures phase { (budget executed : ℕ) → phase_by budget executed result ≡
        model.phase_after budget executed (move_of next) }
    ensures wants { wants_by result ≡ wants_of (move_of next) }
{
    match next {
        Move::Waits(resume, wants) => Following::Waits(resume, wants),
        Move::Leaves(exit) => Following::Leaves(exit),
        _ => Following::GoesOn,
    }
}
