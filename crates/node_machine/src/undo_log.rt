//! What takes back words of a node.

ghost use Rattle.std.specs.Prelude.{◌≡◌, ◌+◌, ◌^◌, ◌<◌, ◌≤◌, true, List};
ghost use Rattle.node_words.specs.jump_map.Image.{Cell};
ghost use Rattle.node_words.specs.node_model.Node as model;
ghost use Rattle.node_machine.specs.NodeState.{work_of, node_of, IsNode};
ghost use Rattle.node_machine.specs.Runs.{GoesOnBy};
ghost use Rattle.node_machine.specs.UndoLogs.{TakesNodeBack};
ghost use Rattle.node_machine.specs.declared.node_state.NodeState as stored;

use crate::node_state::{NodeState, most_words};
use crate::phase::{Phase, phase_on};
use node_words::{UndoLog, WordLoop};
use std::alloc::{AllocError, Global};

/// What takes back words that a node has executed by their micro-ops.
#[derive(Drop)]
pub struct NodeUndoLog {
    pub words: UndoLog,
    pub at: u32,
    pub executed: u64,
    pub stamp: u64,
    pub phase: Phase,
}

impl NodeUndoLog {
    /// An undo log of no words.
    pub fn new(alloc: Global) -> Result<NodeUndoLog, AllocError> {
        Ok(NodeUndoLog {
            words: UndoLog::new(alloc)?,
            at: 0,
            executed: 0,
            stamp: 0,
            phase: Phase::Running,
        })
    }
}

impl<'a> NodeState<'a> {
    /// Executes words by a loop, as long as they print nothing and send nothing and the undo log has
    /// room: at most so many, and fewer than the budget has left; it gives how many. The undo log
    /// takes them back.
    pub fn run_undoable_by<L: WordLoop>(
        &mut self,
        by: &mut L,
        most: u32,
        undo_log: &mut NodeUndoLog,
    ) -> u64
        requires node { IsNode self.old }
        requires may { 1 ≤ most → model.can_execute (node_of self.old).phase ≡ true }
        requires stamp { self.old.shared.stamp < 2 ^ 56 }
        requires goes_over { L.goes_over (work_of self.old).image by.old }
        ensures goes_on { GoesOnBy (work_of self.old) result (node_of self.old) (node_of self.new) }
        ensures learns { L.learns (work_of self.old) result (node_of self.old) by.old by.new }
        ensures stays { (image : List Cell) → L.goes_over image by.old
            → L.goes_over image by.new }
        ensures may { model.can_execute (node_of self.old).phase ≡ true
            → model.can_execute (node_of self.new).phase ≡ true }
        ensures most { result ≤ most }
        ensures back { TakesNodeBack undo_log.new self.new self.old }
        ensures work { work_of self.new ≡ work_of self.old }
        ensures node { IsNode self.new }
    {
        undo_log.at = self.lane.at;
        undo_log.executed = self.lane.executed;
        undo_log.stamp = self.shared.stamp;
        undo_log.phase = self.lane.phase;
        let left = self
            .lane
            .budget
            .number()
            .saturating_sub(self.lane.executed + 1);
        let most = most_words(u64::from(most), left);
        let stretch = self.shared.body.run_noting(
            by,
            self.lane.image,
            self.lane.at,
            most,
            &mut undo_log.words,
        );
        self.lane.at = stretch.at;
        self.lane.executed += stretch.words;
        self.shared.stamp += stretch.words;
        self.lane.phase = phase_on(self.lane.phase, stretch.words);
        stretch.words
    }

    /// Takes back the words of an undo log.
    pub fn take_back(&mut self, undo_log: &mut NodeUndoLog)
        requires back { (first : stored.NodeState) × TakesNodeBack undo_log.old self.old first }
        ensures back { (first : stored.NodeState) → TakesNodeBack undo_log.old self.old first
            → node_of self.new ≡ node_of first }
        ensures work { work_of self.new ≡ work_of self.old }
        ensures node { IsNode self.new }
    {
        self.shared.body.take_back(&mut undo_log.words);
        self.lane.at = undo_log.at;
        self.lane.executed = undo_log.executed;
        self.shared.stamp = undo_log.stamp;
        self.lane.phase = undo_log.phase;
    }
}
