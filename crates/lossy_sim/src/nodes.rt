//! Events of nodes, and of the links between them.

ghost use Rattle.std.specs.Prelude.{◌≡◌, ◌+◌, ◌*◌, ◌^◌, ◌<◌, ◌≤◌, ℕ, length, IfOk, OnOk};
ghost use Rattle.node_model.specs.Core as model;
ghost use Rattle.dsm_core.specs.CoreParts.{event_of};
ghost use Rattle.dsm_core.specs.CoreSteps.{CanExecute, SameWorks};
ghost use Rattle.lossy_sim.specs.Links.{new_link};
ghost use Rattle.lossy_sim.specs.Stored.{link_at, AreLinks, CanMake, HaveMade, HaveOffered};
ghost use Rattle.lossy_sim.specs.Stored.{HaveOfferedFew, HaveSentFewer, HaveTurned};

use crate::links::Link;
use dsm_core::Event;
use dsm_core::node_machine::Node;
use dsm_messages::Sends;
use message_queues::send_all;
use random_order::Order;
use std::alloc::{AllocError, Global};

/// Links between `count` nodes: the link from node j to node i stands at place j × n + i.
pub(crate) fn new_links(alloc: Global, count: u8) -> Result<Vec<Link>, AllocError>
    requires few { count ≤ 16 }
    ensures links { IfOk result (λ ls. AreLinks ls.items count) }
    ensures new { IfOk result (λ ls. (j i : ℕ) → link_at ls.items count j i ≡ new_link) }
{
    let pairs = count as usize * count as usize;
    let mut links = Vec::with_capacity(alloc, pairs)?;
    for _pair in 0..pairs {
        links.push_reserved(Link::new(alloc)?);
    }
    Ok(links)
}

/// Makes an event that is allowed.
pub(crate) fn make(
    nodes: &mut Vec<Node<'_>>,
    links: &mut Vec<Link>,
    sends: &mut Sends,
    count: u8,
    event: Event,
) -> Result<(), AllocError>
    requires count { length nodes.old.items ≡ count }
    requires links { AreLinks links.old.items count }
    requires few { HaveSentFewer (2 ^ 62) links.old.items count }
    requires allowed { CanMake count nodes.old.items links.old.items (event_of event) }
    ensures count { length nodes.new.items ≡ count }
    ensures links { AreLinks links.new.items count }
    ensures works { OnOk result (SameWorks nodes.old.items nodes.new.items) }
    ensures event { OnOk result (HaveMade count nodes.old.items nodes.new.items
        links.old.items links.new.items (event_of event)) }
    ensures few { OnOk result (HaveOfferedFew 18 links.old.items links.new.items count) }
{
    match event {
        Event::Exec(node) => execute(nodes, links, sends, count, node),
        Event::Take { node, from } => take(nodes, links, sends, count, node, from),
    }
}

/// A node executes a word. Where its micro-op serves it no room is needed.
fn execute(
    nodes: &mut Vec<Node<'_>>,
    links: &mut Vec<Link>,
    sends: &mut Sends,
    count: u8,
    node: u8,
) -> Result<(), AllocError>
    requires count { length nodes.old.items ≡ count }
    requires links { AreLinks links.old.items count }
    requires few { HaveSentFewer (2 ^ 62) links.old.items count }
    requires allowed { CanExecute count nodes.old.items node }
    ensures count { length nodes.new.items ≡ count }
    ensures links { AreLinks links.new.items count }
    ensures works { OnOk result (SameWorks nodes.old.items nodes.new.items) }
    ensures event { OnOk result (HaveMade count nodes.old.items nodes.new.items
        links.old.items links.new.items (model.Exec node)) }
    ensures few { OnOk result (HaveOfferedFew 18 links.old.items links.new.items count) }
{
    if nodes[node as usize].exec_silent() {
        return Ok(());
    }
    nodes[node as usize].room()?;
    let turn = nodes[node as usize].exec_into(sends);
    offer(links, count, node, turn.stamp, sends)
}

/// A node takes the message that the link from another has delivered.
fn take(
    nodes: &mut Vec<Node<'_>>,
    links: &mut Vec<Link>,
    sends: &mut Sends,
    count: u8,
    node: u8,
    from: u8,
) -> Result<(), AllocError>
    requires count { length nodes.old.items ≡ count }
    requires links { AreLinks links.old.items count }
    requires few { HaveSentFewer (2 ^ 62) links.old.items count }
    requires allowed { CanMake count nodes.old.items links.old.items (model.Take node from) }
    ensures count { length nodes.new.items ≡ count }
    ensures links { AreLinks links.new.items count }
    ensures works { OnOk result (SameWorks nodes.old.items nodes.new.items) }
    ensures event { OnOk result (HaveMade count nodes.old.items nodes.new.items
        links.old.items links.new.items (model.Take node from)) }
    ensures few { OnOk result (HaveOfferedFew 18 links.old.items links.new.items count) }
{
    nodes[node as usize].room()?;
    let wire = links[from as usize * count as usize + node as usize].deliver();
    let turn = nodes[node as usize].take_into(from, wire, sends);
    offer(links, count, node, turn.stamp, sends)
}

/// Offers what a node sends in an event with this stamp, in order.
fn offer(
    links: &mut Vec<Link>,
    count: u8,
    from: u8,
    stamp: u64,
    sends: &mut Sends,
) -> Result<(), AllocError>
    requires links { AreLinks links.old.items count }
    requires from { from < count }
    requires few { HaveSentFewer (2 ^ 62) links.old.items count }
    ensures links { AreLinks links.new.items count }
    ensures offered { OnOk result (HaveOffered links.old.items links.new.items count from stamp
        sends.old.items) }
    ensures few { OnOk result (HaveOfferedFew 18 links.old.items links.new.items count) }
{
    // brings: how much is sent at most
    let _ = sends.len();
    let first = from as usize * count as usize;
    send_all(links, first, count as usize, stamp, sends)?;
    Ok(())
}

/// The network's turn: each link has its own, by sender and then receiver.
pub(crate) fn network_turn(
    links: &mut Vec<Link>,
    count: u8,
    losses: &mut Order,
) -> Result<(), AllocError>
    requires links { AreLinks links.old.items count }
    ensures links { AreLinks links.new.items count }
    ensures turn { OnOk result (HaveTurned count links.old.items links.new.items
        losses.old losses.new) }
    ensures few { OnOk result (HaveOfferedFew 0 links.old.items links.new.items count) }
{
    for place in 0..links.len() {
        links[place].network_turn(losses)?;
    }
    Ok(())
}
