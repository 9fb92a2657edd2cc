//! Whether a word commits a step of the original, by what is seen of it.

ghost use Rattle.std.specs.Prelude.{◌≡◌, List, IfSome};
ghost use Rattle.templates.specs.declared.plans.PlanEntry.{PlanEntry};
ghost use Rattle.replay.specs.node_model.Node.{Node as OfNode};
ghost use Rattle.replay.specs.node_model.Turns.{word_turn};
ghost use Rattle.replay.specs.node_machine.NodeState.{work_of, node_of};
ghost use Rattle.replay.specs.rewriting_law.CoreRun.{commits};
ghost use Rattle.run_trace.specs.Committing.{IsCommitSight, IsSilentNode};
ghost use Rattle.run_trace.specs.Kinds.{AreKindsOf};

use crate::kinds::CommitKinds;
use crate::reach::{WordAccess, reach_of};
use crate::words::{commits, commits_silent, exits, reached, waits};
use replay::node_machine::Node;
use templates::CommitKind;

/// What is seen of a node's next word before it is executed, of what tells whether it commits.
#[derive(Clone, Copy)]
pub struct CommitSight {
    pub(crate) kind: CommitKind,
    pub(crate) reach: WordAccess,
}

/// What is seen of a node's next word.
pub fn commit_sight(node: &Node<'_>, kinds: &CommitKinds) -> CommitSight
    ensures { (plan : List PlanEntry)
        → AreKindsOf (work_of node.now).program plan (work_of node.now).image kinds.now
        → IsCommitSight (work_of node.now) plan (node_of node.now) result }
{
    CommitSight {
        kind: kinds.at(node.at()),
        reach: reach_of(node),
    }
}

/// Whether a word has committed a step of the original, by what was seen before it, what it
/// printed, and its node after it.
pub fn has_committed(sight: CommitSight, printed: Option<u8>, node: &Node<'_>) -> bool
    ensures { (plan : List PlanEntry) (n : OfNode)
        → IsCommitSight (work_of node.now) plan n sight
        → printed ≡ (word_turn (work_of node.now) n).printed
        → node_of node.now ≡ (word_turn (work_of node.now) n).node
        → result ≡ commits (work_of node.now) plan n }
{
    let reached = reached(sight.reach, printed);
    commits(
        sight.kind,
        reached,
        exits(node.end()),
        waits(node.standing()),
    )
}

/// Whether a node's next word commits a step of the original, where its micro-op serves it and it
/// is silent: it prints nothing and sends nothing, and the node may execute another. `None` where
/// that can't be told before it.
pub fn silent_commits(node: &Node<'_>, kinds: &CommitKinds) -> Option<bool>
    ensures { IfSome result (λ is. (plan : List PlanEntry)
        → AreKindsOf (work_of node.now).program plan (work_of node.now).image kinds.now
        → IsSilentNode (work_of node.now) (node_of node.now)
        → is ≡ commits (work_of node.now) plan (node_of node.now)) }
{
    commits_silent(kinds.at(node.at()), node)
}
