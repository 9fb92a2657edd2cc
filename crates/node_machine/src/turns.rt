//! What a node does in one event, with what it sends.
//!
//! Runs call `exec_into` and `take_into`, which leave what is sent in a list that the caller keeps.

ghost use Rattle.std.specs.Prelude.{◌≡◌, ◌^◌, ◌<◌, true};
ghost use Rattle.node_words.specs.node_model.Node as model;
ghost use Rattle.node_words.specs.node_model.Turns as turns;
ghost use Rattle.node_machine.specs.NodeState.{node_of, work_of, HasRoom};

use crate::node::Node;
use node_words::dsm_messages::{Sends, Wire};

/// What a node did in one event.
#[derive(Drop)]
pub struct Turn {
    /// The stamp of the event.
    pub stamp: u64,
    /// What it sent, in order.
    pub sends: Sends,
    /// The byte that it printed.
    pub output: Option<u8>,
}

impl<'a> Node<'a> {
    /// Executes one word.
    pub fn exec(&mut self) -> Turn
        requires may { model.can_execute (node_of self.old).phase ≡ true }
        requires room { HasRoom self.old }
        requires stamp { (node_of self.old).stamp < 2 ^ 56 }
        ensures node { node_of self.new
            ≡ (turns.word_turn (work_of self.old) (node_of self.old)).node }
        ensures sends { result.sends.items
            ≡ (turns.word_turn (work_of self.old) (node_of self.old)).sends }
        ensures output { result.output
            ≡ (turns.word_turn (work_of self.old) (node_of self.old)).printed }
        ensures stamp { result.stamp ≡ (node_of self.new).stamp }
        ensures work { work_of self.new ≡ work_of self.old }
    {
        let mut sends = Sends::new();
        let turn = self.exec_into(&mut sends);
        Turn {
            stamp: turn.stamp,
            sends,
            output: turn.output,
        }
    }

    /// Takes a message from a node.
    pub fn take(&mut self, from: u8, wire: Wire) -> Turn
        requires room { HasRoom self.old }
        requires stamp { (node_of self.old).stamp < 2 ^ 56 }
        requires wire { wire.stamp < 2 ^ 56 }
        ensures node { node_of self.new
            ≡ (turns.take_turn (work_of self.old) (node_of self.old) from wire).node }
        ensures sends { result.sends.items
            ≡ (turns.take_turn (work_of self.old) (node_of self.old) from wire).sends }
        ensures output { result.output
            ≡ (turns.take_turn (work_of self.old) (node_of self.old) from wire).printed }
        ensures stamp { result.stamp ≡ (node_of self.new).stamp }
        ensures work { work_of self.new ≡ work_of self.old }
    {
        let mut sends = Sends::new();
        let turn = self.take_into(from, wire, &mut sends);
        Turn {
            stamp: turn.stamp,
            sends,
            output: turn.output,
        }
    }
}
