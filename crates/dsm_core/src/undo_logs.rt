//! What takes back words that nodes have executed.

ghost use Rattle.std.specs.Prelude.{◌≡◌, ◌<◌, ◌≤◌, ℕ, List, IfOk, OnErr, length, slice_index_or};
ghost use Rattle.node_machine.specs.declared.node_state.NodeState.{NodeState};
ghost use Rattle.node_machine.specs.jump_map.Image.{Cell};
ghost use Rattle.dsm_core.specs.CoreSteps.{HaveImage, SameWorks, MayExecute, IsStamped};
ghost use Rattle.dsm_core.specs.UndoLogs.{HaveGone, TakeBack, AreSameBelow, AreSameFrom};
ghost use Rattle.dsm_core.specs.CoreSteps.{HaveLearnedBelow};

use node_machine::node_words::WordLoop;
use node_machine::{Node, NodeUndoLog};
use std::alloc::{AllocError, Global};
use std::marker::Model;

/// What takes back words that the nodes of a core have executed by their micro-ops. Contracts see
/// for how many nodes it is.
#[derive(Drop)]
pub struct UndoLogs {
    pub(crate) undo_logs: Vec<NodeUndoLog>,
}

impl Model for UndoLogs {
    ghost use Rattle.std.specs.Prelude.{ℕ, length};

    ghost Value = { ℕ };

    ghost view = { λ t. length t.undo_logs.items };
}

impl UndoLogs {
    /// For `nodes` nodes.
    pub fn new(alloc: Global, nodes: u8) -> Result<UndoLogs, AllocError>
        ensures nodes { IfOk result (λ t. t ≡ nodes) }
    {
        let mut undo_logs = Vec::with_capacity(alloc, nodes as usize)?;
        for _node in 0..nodes {
            undo_logs.push_reserved(NodeUndoLog::new(alloc)?);
        }
        Ok(UndoLogs { undo_logs })
    }
}

/// A node that stopped before it had executed as many words as it was to.
#[derive(Clone, Copy, Debug, PartialEq, Eq)]
pub struct StoppedEarly {
    /// The node.
    pub node: u8,
    /// How many words it had executed.
    pub words: u64,
}

/// Each node executes so many words by a loop, by its number, where their micro-ops serve all of
/// them. Otherwise nothing changes, and the answer tells a node that stopped early.
pub(crate) fn run_each_by<L: WordLoop>(
    nodes: &mut Vec<Node<'_>>,
    undo_logs: &mut Vec<NodeUndoLog>,
    count: u8,
    by: &mut L,
    words: &[u32; 16],
) -> Result<(), StoppedEarly>
    requires count { length nodes.old.items ≡ count }
    requires undo_logs { length undo_logs.old.items ≡ count }
    requires few { count ≤ 16 }
    requires may { (i : ℕ) → i < count → 1 ≤ slice_index_or words.now i 0
        → MayExecute nodes.old.items i }
    requires stamp { (i : ℕ) → i < count → IsStamped nodes.old.items i }
    requires goes_over { HaveImage nodes.old.items (λ image. L.goes_over image by.old) }
    ensures count { length nodes.new.items ≡ count }
    ensures undo_logs { length undo_logs.new.items ≡ count }
    ensures works { SameWorks nodes.old.items nodes.new.items }
    ensures passed { IfOk result (λ u. HaveGone (λ i. slice_index_or words.now i 0) count
        nodes.old.items nodes.new.items) }
    ensures learns { IfOk result (λ u. HaveLearnedBelow L.learns (λ i. slice_index_or words.now i 0)
        count nodes.old.items by.old by.new) }
    ensures stays { (image : List Cell) → L.goes_over image by.old → L.goes_over image by.new }
    ensures kept { OnErr result (AreSameBelow count nodes.old.items nodes.new.items) }
{
    for node in 0..count {
        let most = words[node as usize];
        let made = nodes[node as usize].run_undoable_by(by, most, &mut undo_logs[node as usize]);
        if made < u64::from(most) {
            take_back(nodes, undo_logs, node + 1);
            return Err(StoppedEarly { node, words: made });
        }
    }
    Ok(())
}

/// Takes back the words of the nodes below a number.
fn take_back(nodes: &mut Vec<Node<'_>>, undo_logs: &mut Vec<NodeUndoLog>, end: u8)
    requires nodes { end ≤ length nodes.old.items }
    requires undo_logs { end ≤ length undo_logs.old.items }
    requires back { (first : List NodeState) × TakeBack end undo_logs.old.items nodes.old.items
        first }
    ensures count { length nodes.new.items ≡ length nodes.old.items }
    ensures undo_logs { length undo_logs.new.items ≡ length undo_logs.old.items }
    ensures works { SameWorks nodes.old.items nodes.new.items }
    ensures back { (first : List NodeState) → TakeBack end undo_logs.old.items nodes.old.items first
        → AreSameBelow end first nodes.new.items }
    ensures rest { AreSameFrom end nodes.old.items nodes.new.items }
{
    for node in 0..end {
        nodes[node as usize].take_back(&mut undo_logs[node as usize]);
    }
}
