//! Words that a trace passes: all that they do is to access memory.

ghost use Rattle.std.specs.Prelude.{◌≡◌};
ghost use Rattle.replay.specs.node_model.Node.{word_outcome};
ghost use Rattle.replay.specs.node_machine.NodeState.{work_of, node_of};
ghost use Rattle.replay.specs.node_machine.Touch.{IsTouch};
ghost use Rattle.run_trace.specs.Looks.{access_seen};
ghost use Rattle.run_trace.specs.Passing as model;

use crate::reach::Reached;
use crate::traced::{AccessKind, Accessed};
use replay::node_machine::{Node, Touch};
use templates::Place;

/// Which words end a pass.
#[derive(Clone, Copy, PartialEq, Eq)]
pub enum Until {
    /// Those that access memory.
    Access,
    /// Those that write it.
    Write,
}

/// A word that ends a pass: all that it does is to access memory.
#[derive(Clone, Copy)]
pub struct WordPassed {
    pub stamp: u64,
    pub node: u8,
    /// Where the word stands. None of word 0.
    pub place: Option<Place>,
    /// Whether it commits a step of the original.
    pub commits: bool,
    pub access: Accessed,
}

/// What ends a pass, of a word that touches memory so.
#[inline(always)]
pub(crate) fn ending(until: Until, touch: Touch) -> Option<Touch>
    ensures { result ≡ model.ending until touch }
{
    match (until, touch) {
        (_, Touch::Writes(..)) | (Until::Access, Touch::Reads(..)) => Some(touch),
        _ => None,
    }
}

/// An access of memory, and the value that it reads, by what a node's next word touches.
pub(crate) fn reached_by_touch(node: &Node<'_>, touch: Touch) -> Option<Reached>
    requires touch { IsTouch (work_of node.now) (node_of node.now) touch }
    ensures { result ≡ access_seen (word_outcome (work_of node.now) (node_of node.now)).access }
{
    match touch {
        Touch::Nothing => None,
        Touch::Reads(kind, address) => Some(Reached {
            kind: AccessKind::Reads,
            address,
            value: Some(node.value(kind, address)),
        }),
        Touch::Writes(_, address) => Some(Reached {
            kind: AccessKind::Writes,
            address,
            value: None,
        }),
    }
}
