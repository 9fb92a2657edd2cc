//! Events that are looked at: what they send, and what their words want.

ghost use Rattle.std.specs.Prelude.{◌≡◌, ◌<◌, [], length, IfOk, OnOk, OnErr, MatchOption};
ghost use Rattle.run_order.specs.node_model.Core as model;
ghost use Rattle.rewriting_law.specs.dsm_protocol.Queue.{AreQueues, wires_of};
ghost use Rattle.dsm_core.specs.CoreParts.{event_of};
ghost use Rattle.dsm_core.specs.CoreSteps.{SameWorks, CanExecute, CanMake, HaveMade, HaveKept};
ghost use Rattle.dsm_core.specs.Seen.{IsFirstIn, HaveSeen};

use crate::cores::Event;
use crate::steps::make_room;
use node_machine::{Node, WantedBlocks};
use rewriting_law::dsm_messages::{Header, Headers, Sends, headers_of};
use rewriting_law::dsm_protocol::Queue;
use rewriting_law::dsm_protocol::lists::{first_wire, send, take_first};
use std::alloc::AllocError;

/// A message on its way, without its buffer.
#[derive(Clone, Copy)]
pub struct Incoming {
    /// The stamp of the event that sent it.
    pub stamp: u64,
    /// The message.
    pub header: Header,
}

/// What an event sends, and what its word wants and prints.
#[derive(Drop)]
pub struct Seen {
    pub sends: Headers,
    pub wants: Option<WantedBlocks>,
    pub printed: Option<u8>,
}

/// The first message from one node to another.
pub(crate) fn first(lists: &[Queue], count: u8, from: u8, to: u8) -> Option<Incoming>
    requires lists { AreQueues lists.now count }
    requires from { from < count }
    requires to { to < count }
    ensures value { MatchOption result (wires_of lists.now count from to ≡ [])
        (IsFirstIn (wires_of lists.now count from to)) }
{
    match first_wire(lists, count, from, to) {
        Some(wire) => Some(Incoming {
            stamp: wire.stamp,
            header: wire.message.header(),
        }),
        None => None,
    }
}

/// Makes an event that is allowed, and tells what it sends and wants.
pub(crate) fn make_seen(
    nodes: &mut Vec<Node<'_>>,
    lists: &mut Vec<Queue>,
    sends: &mut Sends,
    count: u8,
    event: Event,
) -> Result<Seen, AllocError>
    requires count { length nodes.old.items ≡ count }
    requires lists { AreQueues lists.old.items count }
    requires allowed { CanMake count nodes.old.items lists.old.items (event_of event) }
    ensures count { length nodes.new.items ≡ count }
    ensures lists { AreQueues lists.new.items count }
    ensures works { SameWorks nodes.old.items nodes.new.items }
    ensures event { OnOk result (HaveMade count nodes.old.items nodes.new.items
        lists.old.items lists.new.items (event_of event)) }
    ensures seen { IfOk result
        (HaveSeen count nodes.old.items lists.old.items (event_of event)) }
    ensures err { OnErr result (HaveKept count nodes.old.items nodes.new.items
        lists.old.items lists.new.items) }
{
    match event {
        Event::Exec(node) => execute_seen(nodes, lists, sends, count, node),
        Event::Take { node, from } => take_seen(nodes, lists, sends, count, node, from),
    }
}

/// A node executes a word.
fn execute_seen(
    nodes: &mut Vec<Node<'_>>,
    lists: &mut Vec<Queue>,
    sends: &mut Sends,
    count: u8,
    node: u8,
) -> Result<Seen, AllocError>
    requires count { length nodes.old.items ≡ count }
    requires lists { AreQueues lists.old.items count }
    requires allowed { CanExecute count nodes.old.items node }
    ensures count { length nodes.new.items ≡ count }
    ensures lists { AreQueues lists.new.items count }
    ensures works { SameWorks nodes.old.items nodes.new.items }
    ensures event { OnOk result (HaveMade count nodes.old.items nodes.new.items
        lists.old.items lists.new.items (model.Exec node)) }
    ensures seen { IfOk result
        (HaveSeen count nodes.old.items lists.old.items (model.Exec node)) }
    ensures err { OnErr result (HaveKept count nodes.old.items nodes.new.items
        lists.old.items lists.new.items) }
{
    make_room(nodes, lists, count, node)?;
    let word = nodes[node as usize].exec_with_wants(sends);
    let seen = Seen {
        sends: headers_of(sends),
        wants: word.wants,
        printed: word.turn.output,
    };
    send(lists, count, node, word.turn.stamp, sends);
    Ok(seen)
}

/// A node takes the first message of the list from another.
fn take_seen(
    nodes: &mut Vec<Node<'_>>,
    lists: &mut Vec<Queue>,
    sends: &mut Sends,
    count: u8,
    node: u8,
    from: u8,
) -> Result<Seen, AllocError>
    requires count { length nodes.old.items ≡ count }
    requires lists { AreQueues lists.old.items count }
    requires allowed { CanMake count nodes.old.items lists.old.items (model.Take node from) }
    ensures count { length nodes.new.items ≡ count }
    ensures lists { AreQueues lists.new.items count }
    ensures works { SameWorks nodes.old.items nodes.new.items }
    ensures event { OnOk result (HaveMade count nodes.old.items nodes.new.items
        lists.old.items lists.new.items (model.Take node from)) }
    ensures seen { IfOk result
        (HaveSeen count nodes.old.items lists.old.items (model.Take node from)) }
    ensures err { OnErr result (HaveKept count nodes.old.items nodes.new.items
        lists.old.items lists.new.items) }
{
    make_room(nodes, lists, count, node)?;
    let wire = take_first(lists, count, from, node);
    let turn = nodes[node as usize].take_into(from, wire, sends);
    let seen = Seen {
        sends: headers_of(sends),
        wants: None,
        printed: None,
    };
    send(lists, count, node, turn.stamp, sends);
    Ok(seen)
}
