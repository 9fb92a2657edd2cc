//! What carries messages from one node to another.

ghost use Rattle.std.specs.Prelude.{◌≡◌, ◌≢◌, ◌+◌, ◌<◌, ◌≤◌, ◌∷◌, ◌++◌, ℕ, Bool, List, []};
ghost use Rattle.std.specs.Prelude.{true, false, OnOk, OnErr, length, slice_index_or};
ghost use Rattle.std.proofs.Common.{append-nil, le_trans, sym};
ghost use Rattle.node_model.specs.dsm_messages.declared.messages.Wire.{Wire as Sent};
ghost use Rattle.node_model.specs.Core.{wires_to};

use crate::queue::Queue;
use node_model::dsm_messages::{Sends, Wire};
use std::alloc::AllocError;
use std::collections::VecDeque;

/// What carries messages from one node to another, in the order in which they were sent: a list of
/// messages, a link over a network that loses packets, or an outbox of a thread.
pub trait Channel: Drop {
    /// Whether these messages, sent on the first in order, made the second of it.
    ghost has_sent: { Self → List Sent → Self → Type 0 };

    /// Whether there is room for so many messages more.
    ghost has_room: { Self → ℕ → Type 0 };

    /// Whether there may be too little memory to send a message.
    ghost may_fail: { Bool };

    /// Sends a message.
    fn send(&mut self, wire: Wire) -> Result<(), AllocError>
        requires room { has_room self.old 1 }
        ensures sent { OnOk result ((first : Self) (wires : List Sent)
            → has_sent first wires self.old → has_sent first (wires ++ wire ∷ []) self.new) }
        ensures room { OnOk result ((k : ℕ) → has_room self.old (k + 1) → has_room self.new k) }
        ensures err { OnErr result (may_fail ≡ true) };

    /// Where nothing was sent, nothing has changed.
    ghost none_sent: { (c : Self) → has_sent c [] c };

    /// Where there is room for more messages there is room for fewer.
    ghost fewer_fit: { (c : Self) (j k : ℕ) → j ≤ k → has_room c k → has_room c j };
}

/// A list of messages, in which room was made for what is sent.
impl Channel for Queue {
    ghost has_sent = { λ q wires r. r.wires ≡ q.wires ++ wires };

    ghost has_room = { λ q k. k ≤ q.room };

    ghost may_fail = { false };

    fn send(&mut self, wire: Wire) -> Result<(), AllocError> {
        self.push(wire);
        Ok(())
    }

    ghost none_sent = { λ q. sym (append-nil q.wires) };

    ghost fewer_fit = { λ q j k less room. le_trans less room };
}

/// An outbox, in which messages wait for room on their way.
impl Channel for VecDeque<Wire> {
    ghost has_sent = { λ o wires p. p.items ≡ o.items ++ wires };

    ghost has_room = { λ o k. Unit {0} };

    ghost may_fail = { true };

    fn send(&mut self, wire: Wire) -> Result<(), AllocError> {
        self.push_back(wire)?;
        Ok(())
    }

    ghost none_sent = { λ o. sym (append-nil o.items) };

    ghost fewer_fit = { λ o j k less room. tt };
}

/// Sends what a node sends in an event with this stamp, in order. Its channels to `nodes` nodes
/// stand at the places from `first` on. What is sent to a node that isn't there goes nowhere.
pub fn send_all<C: Channel>(
    channels: &mut Vec<C>,
    first: usize,
    nodes: usize,
    stamp: u64,
    sends: &mut Sends,
) -> Result<(), AllocError>
    requires channels { first + nodes ≤ length channels.old.items }
    requires room { (to : ℕ) (c : C) → to < nodes
        → C.has_room (slice_index_or channels.old.items (first + to) c) 18 }
    ensures count { length channels.new.items ≡ length channels.old.items }
    ensures sent { OnOk result ((to : ℕ) (c : C) → to < nodes
        → C.has_sent (slice_index_or channels.old.items (first + to) c)
        (wires_to stamp to sends.old.items) (slice_index_or channels.new.items (first + to) c)) }
    ensures others { OnOk result ((k : ℕ) (c : C) → ((to : ℕ) → to < nodes → k ≢ first + to)
        → slice_index_or channels.new.items k c ≡ slice_index_or channels.old.items k c) }
    ensures err { OnErr result (C.may_fail ≡ true) }
{
    // brings: no more is sent than there is room for
    let _ = sends.len();
    // brings: the places have 64 bits
    let _ = channels.len();
    while !sends.is_empty() {
        let post = sends.remove(0);
        let to = usize::from(post.to);
        if to < nodes {
            channels[first + to].send(Wire {
                stamp,
                message: post.message,
            })?;
        }
    }
    Ok(())
}
