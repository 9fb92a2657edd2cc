//! Runs a core until every node is over.

ghost use Rattle.std.specs.Prelude.{◌≡◌, ◌<◌, ℕ, true, false, IfOk, OnOk, MatchOption};
ghost use Rattle.run_order.specs.node_model.Node.{standing_of};
ghost use Rattle.run_order.specs.node_model.Core as model;
ghost use Rattle.run_order.specs.node_model.Core.{May, IsOver, may_execute};
ghost use Rattle.node_machine.specs.NodeState.{node_of, work_of as work_at};
ghost use Rattle.run_order.specs.OwnRun.{OnlyAdds};
ghost use Rattle.dsm_core.specs.CoreParts.{work_of, core_of, GoesOnTo};
ghost use Rattle.dsm_core.specs.CoreSteps.{GoesOnFor, HasGone, TakesNone, IsStill, one_if};

use crate::cores::{Core, Event};
use node_machine::jump_map::ImageWord;
use node_machine::{Node, Standing};
use rewriting_law::runtime_words::RtWord;
use std::alloc::AllocError;

impl<'a> Core<'a> {
    /// Makes events in rounds until every node is over. In a round each node, ascending, takes
    /// every message that it may, lowest sender first, and then executes words until it stands at a
    /// poll, waits or has ended; a node that stood at a poll first passes it. Out of memory, the
    /// events made so far stand.
    pub fn finish(&mut self) -> Result<(), AllocError>
        ensures over { OnOk result (IsOver (work_of self.new) (core_of self.new)) }
        ensures leads { GoesOnTo (work_of self.old) (core_of self.old) (core_of self.new) }
        ensures adds { OnlyAdds self.old.layout.nodes (core_of self.old) (core_of self.new) }
        ensures work { work_of self.new ≡ work_of self.old }
    {
        self.bounds();
        for _round in 0..u64::MAX {
            if !self.round()? {
                self.promises();
                return Ok(());
            }
        }
        unreachable!()
    }

    /// A round, and whether any event was made in it.
    fn round(&mut self) -> Result<bool, AllocError>
        ensures leads { GoesOnTo (work_of self.old) (core_of self.old) (core_of self.new) }
        ensures gone { IfOk result (λ moved. HasGone (work_of self.old) (one_if moved)
            (core_of self.old) (core_of self.new)) }
        ensures still { IfOk result (λ moved. moved ≡ false → (i : ℕ)
            → i < self.old.layout.nodes → IsStill (work_of self.old) i (core_of self.new)) }
        ensures work { work_of self.new ≡ work_of self.old }
    {
        let count = self.layout().nodes();
        let mut moved = false;
        for node in 0..count {
            if self.turn(node)? {
                moved = true;
            }
        }
        Ok(moved)
    }

    /// What a node does in a round, and whether it made any event.
    fn turn(&mut self, node: u8) -> Result<bool, AllocError>
        requires node { node < self.old.layout.nodes }
        ensures leads { GoesOnTo (work_of self.old) (core_of self.old) (core_of self.new) }
        ensures gone { IfOk result (λ moved. HasGone (work_of self.old) (one_if moved)
            (core_of self.old) (core_of self.new)) }
        ensures still { IfOk result (λ moved. moved ≡ false
            → IsStill (work_of self.old) node (core_of self.new)) }
        ensures work { work_of self.new ≡ work_of self.old }
    {
        let taken = self.take_all(node)?;
        if self.execute_all(node)? {
            return Ok(true);
        }
        Ok(taken > 0)
    }

    /// A node takes every message that it may, and how many these were.
    fn take_all(&mut self, node: u8) -> Result<u64, AllocError>
        ensures leads { GoesOnTo (work_of self.old) (core_of self.old) (core_of self.new) }
        ensures gone { IfOk result (λ taken. HasGone (work_of self.old) taken
            (core_of self.old) (core_of self.new)) }
        ensures none { IfOk result (λ _. TakesNone (work_of self.old) node (core_of self.new)) }
        ensures work { work_of self.new ≡ work_of self.old }
    {
        self.bounds();
        for taken in 0..u64::MAX {
            let Some(from) = self.next_take(node) else {
                return Ok(taken);
            };
            self.step(Event::Take { node, from })?;
        }
        unreachable!()
    }

    /// The lowest node from which a node may take a message.
    fn next_take(&self, node: u8) -> Option<u8>
        ensures { MatchOption result (TakesNone (work_of self.now) node (core_of self.now))
            (λ from. May (work_of self.now) (core_of self.now) (model.Take node from)) }
    {
        let count = self.layout().nodes();
        for from in 0..count {
            if self.enabled(Event::Take { node, from }) {
                return Some(from);
            }
        }
        None
    }

    /// A node executes words until it stands at a poll, waits or has ended, and whether it executed
    /// any. A node that is alone passes polls too: no message comes to it there.
    fn execute_all(&mut self, node: u8) -> Result<bool, AllocError>
        ensures leads { GoesOnTo (work_of self.old) (core_of self.old) (core_of self.new) }
        ensures gone { IfOk result (λ moved. HasGone (work_of self.old) (one_if moved)
            (core_of self.old) (core_of self.new)) }
        ensures still { IfOk result (λ moved. moved ≡ false
            → May (work_of self.old) (core_of self.new) (model.Exec node) → ⊥) }
        ensures work { work_of self.new ≡ work_of self.old }
    {
        if !self.enabled(Event::Exec(node)) {
            return Ok(false);
        }
        if self.layout().nodes() == 1 {
            self.run_until_send(node)?;
        } else {
            self.execute_to_poll(node)?;
        }
        Ok(true)
    }

    /// A node executes a word, and then more until it stands at a poll, waits or has ended.
    fn execute_to_poll(&mut self, node: u8) -> Result<(), AllocError>
        requires enabled { May (work_of self.old) (core_of self.old) (model.Exec node) }
        ensures leads { GoesOnTo (work_of self.old) (core_of self.old) (core_of self.new) }
        ensures gone { OnOk result (GoesOnFor (work_of self.old) 1 (core_of self.old)
            (core_of self.new)) }
        ensures work { work_of self.new ≡ work_of self.old }
    {
        self.bounds();
        self.step(Event::Exec(node))?;
        for _word in 0..u64::MAX {
            if !goes_on(self.node(node)) {
                return Ok(());
            }
            self.step(Event::Exec(node))?;
        }
        unreachable!()
    }
}

/// Whether a node that has executed a word goes on: it may execute another, and that is no poll.
fn goes_on(node: &Node<'_>) -> bool
    ensures { result ≡ true
        → may_execute (standing_of (work_at node.now) (node_of node.now)) ≡ true }
{
    match node.standing() {
        Standing::Running => true,
        Standing::AtPoll => !is_poll(node.next_word()),
        Standing::Waiting | Standing::Ended | Standing::Over => false,
    }
}

/// Whether a word is a poll.
fn is_poll(word: Option<ImageWord>) -> bool {
    match word {
        Some(word) => matches!(word.what, Some(RtWord::Poll)),
        None => false,
    }
}
