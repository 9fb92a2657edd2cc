//! What a processor stores of its own, and what the processors of a node store together.

ghost use Rattle.std.specs.Prelude.{◌≡◌, ◌+◌, ◌-◌, ◌^◌, ◌<◌, ◌++◌, ◌∷◌, ◌==◌, [], OnOk};
ghost use Rattle.std.specs.Prelude.{length, true};
ghost use Rattle.std.specs.Vec.{vec_capacity};
ghost use Rattle.node_words.specs.jump_map.Maps.{fetch};
ghost use Rattle.node_words.specs.node_model.Node as model;
ghost use Rattle.node_words.specs.node_model.Turns as turns;
ghost use Rattle.node_words.specs.Address.{word_address};
ghost use Rattle.node_words.specs.node_memory.Shelf.{local_of};
ghost use Rattle.node_words.specs.Kept.{lane_of, phase_by};
ghost use Rattle.node_machine.specs.NodeState.{phase_of, phase_resumed, lane_after_wait};
ghost use Rattle.node_machine.specs.NodeState.{counts_after_wait, AreCountsBelow, IsLaneState};
ghost use Rattle.node_machine.specs.States.{HasRoom};

use crate::phase::{Phase, is_ended, phase_by, stop_or};
use crate::protocol_state::ProtocolState;
use node_words::exec_map::End;
use node_words::jump_map::{Image, ImageWord};
use node_words::node_model::{Entry, OutByte};
use node_words::{ExecState, Served, address_of};
use run_limits::Budget;
use std::alloc::AllocError;

/// What is one processor's own, beside its registers: what it runs, and how far it is.
#[derive(Drop)]
pub struct LaneState<'a> {
    pub image: &'a Image,
    pub budget: Budget,
    /// The index of its next word.
    pub at: u32,
    /// How many words it has executed.
    pub executed: u64,
    pub phase: Phase,
}

/// What the processors of a node share: its copy and directory, its clock, its journal and output.
///
/// What words change is in a box of its own, so that the position and the count of words can stay
/// in registers of the machine while words are executed.
#[derive(Drop)]
pub struct SharedState<'a> {
    /// What words see of the node, and its counts.
    pub body: Box<ExecState<'a>>,
    pub protocol: ProtocolState,
    /// The nodes whose Byes it has taken.
    pub byes: [bool; 256],
    /// The stamp of its last event.
    pub stamp: u64,
    pub journal: Vec<Entry>,
    /// How many words the journal has.
    pub noted: u64,
    pub output: Vec<OutByte>,
}

impl<'a> LaneState<'a> {
    /// Whether it has ended.
    pub fn has_ended(&self) -> bool
        ensures { result ≡ turns.is_ended (phase_of self.now.phase) }
    {
        is_ended(self.phase)
    }

    /// How it ended; `None` exactly where it hasn't.
    pub fn end(&self) -> Option<End>
        ensures { result ≡ model.end_of (phase_of self.now.phase) }
    {
        match self.phase {
            Phase::Ended(end) => Some(end),
            _ => None,
        }
    }

    /// The word at which it goes on; `None` where there is none.
    pub fn next_word(&self) -> Option<ImageWord>
        ensures { result ≡ fetch self.now.image.now (word_address self.now.at) }
    {
        self.image.fetch(address_of(self.at))
    }

    /// Counts a word that was executed, and goes where it leads.
    pub fn advance(&mut self, served: Served)
        requires may { model.can_execute (phase_of self.old.phase) ≡ true }
        requires lane { IsLaneState self.old }
        ensures phase { phase_of self.new.phase
            ≡ phase_by self.old.budget (self.old.executed + 1) served.following }
        ensures same { self.new ≡ record self.old {
          at = served.at;
          executed = self.old.executed + 1;
          phase = self.new.phase;
        } }
        ensures lane { IsLaneState self.new }
    {
        self.at = served.at;
        self.executed += 1;
        self.phase = phase_by(self.budget, self.executed, served.following);
    }

    /// It has what it waited for: it goes on at a word, or is stopped by its budget.
    pub fn resume_at(&mut self, at: u32)
        requires lane { IsLaneState self.old }
        ensures phase { phase_of self.new.phase
            ≡ model.stop_or self.old.budget self.old.executed model.Resumed }
        ensures same { self.new ≡ record self.old { at = at; phase = self.new.phase } }
        ensures lane { IsLaneState self.new }
    {
        self.at = at;
        self.phase = stop_or(self.budget, self.executed, Phase::Resumed);
    }

    /// After a message, with `pending` waits left: where none is left it goes on by what its word's
    /// lines allow now, or is stopped by its budget.
    pub fn resume(&mut self, body: &mut ExecState<'_>, pending: u8)
        requires lane { IsLaneState self.old }
        requires counts { AreCountsBelow (2 ^ 63) body.old.counts }
        ensures phase { phase_of self.new.phase ≡ phase_resumed self.old.budget self.old.executed
            (pending == 0) (phase_of self.old.phase) }
        ensures resumed { let old = lane_of body.old.lane (word_address self.old.at) in
            lane_of body.new.lane (word_address self.new.at)
            ≡ lane_after_wait (local_of body.old.local) (pending == 0) (phase_of self.old.phase)
            old }
        ensures counts { body.new.counts ≡ counts_after_wait (local_of body.old.local)
            (pending == 0) (phase_of self.old.phase) body.old.counts }
        ensures body_lane { body.new.lane ≡ body.old.lane }
        ensures local { body.new.local ≡ body.old.local }
        ensures same { self.new ≡ record self.old { at = self.new.at; phase = self.new.phase } }
        ensures lane { IsLaneState self.new }
    {
        match self.phase {
            Phase::Waiting(resume) => {
                if pending == 0 {
                    let at = body.resume(resume, self.at);
                    self.resume_at(at);
                }
            }
            Phase::Running | Phase::Resumed | Phase::Ended(_) => {}
        }
    }
}

impl<'a> SharedState<'a> {
    /// Makes room for one entry of the journal and one byte of output.
    pub fn make_room(&mut self) -> Result<(), AllocError>
        ensures journal { self.new.journal.items ≡ self.old.journal.items }
        ensures output { self.new.output.items ≡ self.old.output.items }
        ensures room { OnOk result (HasRoom self.new) }
        ensures same { self.new
            ≡ record self.old { journal = self.new.journal; output = self.new.output } }
    {
        self.journal.reserve(1)?;
        self.output.reserve(1)?;
        Ok(())
    }

    /// Notes that a word was executed, with the byte that it printed: it has the next stamp.
    pub fn note_word(&mut self, output: Option<u8>)
        requires room { HasRoom self.old }
        requires stamp { self.old.stamp < 2 ^ 56 }
        ensures output { self.new.output.items
            ≡ model.printed_also self.old.output.items (self.old.stamp + 1) output }
        ensures same { self.new
            ≡ record self.old { stamp = self.old.stamp + 1; output = self.new.output } }
    {
        self.stamp += 1;
        print(&mut self.output, self.stamp, output);
    }

    /// Notes that a message came from a node with a stamp, once `executed` words were executed: the
    /// take has the next stamp after that one and its own last.
    pub fn note_take(&mut self, from: u8, stamp: u64, executed: u64)
        requires room { HasRoom self.old }
        requires own { self.old.stamp < 2 ^ 56 }
        requires stamp { stamp < 2 ^ 56 }
        ensures journal { self.new.journal.items ≡ self.old.journal.items ++ record {
          stamp = turns.later self.old.stamp stamp + 1;
          from = from;
          words = executed - self.old.noted;
        } ∷ [] }
        ensures same { self.new ≡ record self.old {
          stamp = turns.later self.old.stamp stamp + 1;
          journal = self.new.journal;
          noted = self.old.noted + (executed - self.old.noted);
        } }
    {
        let words = executed.saturating_sub(self.noted);
        self.stamp = later(self.stamp, stamp) + 1;
        self.journal.push_reserved(Entry {
            stamp: self.stamp,
            from,
            words,
        });
        self.noted += words;
    }
}

/// The greater of two stamps.
fn later(s: u64, t: u64) -> u64
    ensures { result ≡ turns.later s t }
{
    if s < t { t } else { s }
}

/// Keeps a byte that was printed, where one was.
fn print(output: &mut Vec<OutByte>, stamp: u64, byte: Option<u8>)
    requires { length output.old.items < vec_capacity output.old }
    ensures { output.new.items ≡ model.printed_also output.old.items stamp byte }
{
    match byte {
        Some(byte) => output.push_reserved(OutByte { stamp, byte }),
        None => {}
    }
}
