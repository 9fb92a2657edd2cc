//! Events of nodes of several processors, and of the lists between them.

ghost use Rattle.std.specs.Prelude.{◌≡◌, ◌<◌, ◌≤◌, ◌↔◌, ◌++◌, ℕ, true, false, length};
ghost use Rattle.std.specs.Prelude.{IfOk, OnOk, OnErr};
ghost use Rattle.std.specs.Option.{option_to_list};
ghost use Rattle.std.specs.Vec.{vec_capacity};
ghost use Rattle.lane_model.specs.node_model.Node.{IsLaidOver};
ghost use Rattle.lane_law.specs.dsm_protocol.Queue.{AreQueues, HasRoom, wires_of};
ghost use Rattle.lane_model.specs.Nodes.{processors};
ghost use Rattle.lane_model.specs.Core as model;
ghost use Rattle.lane_model.specs.Core.{May};
ghost use Rattle.lane_law.specs.Law.{AreAllOver};
ghost use Rattle.smp_sim.specs.CoreParts.{AreStored, HasStampsInRange, core_with, event_of};
ghost use Rattle.lane_machine.specs.SmpNodes.{lane_work};
ghost use Rattle.smp_sim.specs.CoreSteps.{AreFirst, HaveKept, HaveMade, HasNodeRoom, TakeAway};

use crate::cores::SmpEvent;
use home_directory::dsm_messages::Sends;
use lane_law::dsm_protocol::Queue;
use lane_law::dsm_protocol::lists::{first_wire, reserve_from, send, take_first};
use lane_machine::{SmpNode, SmpWork, takes_away};
use std::alloc::{AllocError, Global};

/// The nodes at the start.
pub(crate) fn first_nodes<'a>(
    alloc: Global,
    work: &SmpWork<'a>,
) -> Result<Vec<SmpNode<'a>>, AllocError>
    requires layout { IsLaidOver (lane_work work.now).work.program
        (lane_work work.now).work.layout }
    requires some { 0 < work.now.lanes }
    requires four { work.now.lanes ≤ 4 }
    requires few { processors (lane_work work.now) ≤ 16 }
    ensures first { IfOk result (λ ns. AreFirst (lane_work work.now)
        (lane_work work.now).work.layout.nodes ns.items) }
{
    let count = work.layout.nodes();
    let mut nodes = Vec::with_capacity(alloc, count as usize)?;
    for me in 0..count {
        let node = SmpNode::new(alloc, work, me)?;
        nodes.push_reserved(node);
    }
    Ok(nodes)
}

/// Whether every node is over.
pub(crate) fn are_over(nodes: &[SmpNode<'_>], lists: &[Queue], work: &SmpWork<'_>) -> bool
    requires stored { AreStored (lane_work work.now) nodes.now lists.now }
    ensures value { (result ≡ true)
        ↔ AreAllOver (lane_work work.now) (core_with (lane_work work.now) nodes.now lists.now) }
{
    let count = work.layout.nodes();
    for node in 0..count {
        if !nodes[node as usize].over() {
            return false;
        }
    }
    true
}

/// Whether an event is allowed.
pub(crate) fn is_enabled(
    nodes: &[SmpNode<'_>],
    lists: &[Queue],
    work: &SmpWork<'_>,
    event: SmpEvent,
) -> bool
    requires stored { AreStored (lane_work work.now) nodes.now lists.now }
    requires some { 0 < work.now.lanes }
    requires few { processors (lane_work work.now) ≤ 16 }
    ensures value { (result ≡ true) ↔ May (lane_work work.now)
        (core_with (lane_work work.now) nodes.now lists.now) (event_of event) }
{
    match event {
        SmpEvent::Exec(processor) => can_execute(nodes, lists, work, processor),
        SmpEvent::Take { node, from } => can_take(nodes, lists, work, node, from),
    }
}

/// Whether a processor may execute a word.
fn can_execute(nodes: &[SmpNode<'_>], lists: &[Queue], work: &SmpWork<'_>, processor: u8) -> bool
    requires stored { AreStored (lane_work work.now) nodes.now lists.now }
    requires some { 0 < work.now.lanes }
    requires few { processors (lane_work work.now) ≤ 16 }
    ensures value { (result ≡ true) ↔ May (lane_work work.now)
        (core_with (lane_work work.now) nodes.now lists.now) (model.Exec processor) }
{
    let count = work.layout.nodes() * work.lanes;
    if processor >= count {
        return false;
    }
    let node = processor / work.lanes;
    let lane = processor % work.lanes;
    nodes[node as usize].can_execute(lane)
}

/// Whether a node may take a message from another.
fn can_take(nodes: &[SmpNode<'_>], lists: &[Queue], work: &SmpWork<'_>, node: u8, from: u8) -> bool
    requires stored { AreStored (lane_work work.now) nodes.now lists.now }
    requires some { 0 < work.now.lanes }
    ensures value { (result ≡ true) ↔ May (lane_work work.now)
        (core_with (lane_work work.now) nodes.now lists.now) (model.Take node from) }
{
    let count = work.layout.nodes();
    if node >= count {
        return false;
    }
    if from >= count {
        return false;
    }
    match first_wire(lists, count, from, node) {
        Some(wire) => nodes[node as usize].can_take(work.lanes, &wire.message),
        None => false,
    }
}

/// Whether the first message from one node to another, where one is on its way, takes something of
/// its block away.
fn takes_away_first(lists: &[Queue], count: u8, from: u8, to: u8) -> bool
    requires lists { AreQueues lists.now count }
    requires from { from < count }
    requires to { to < count }
    ensures { result ≡ true → TakeAway (wires_of lists.now count from to) }
{
    match first_wire(lists, count, from, to) {
        Some(wire) => takes_away(&wire.message),
        None => true,
    }
}

/// Whether the first message from each node does.
pub(crate) fn all_take_away(lists: &[Queue], count: u8, node: u8) -> bool
    requires lists { AreQueues lists.now count }
    requires node { node < count }
    ensures { result ≡ true
        → (from : ℕ) → from < count → TakeAway (wires_of lists.now count from node) }
{
    for from in 0..count {
        if !takes_away_first(lists, count, from, node) {
            return false;
        }
    }
    true
}

/// Makes room for an event of a node.
fn make_room(
    nodes: &mut Vec<SmpNode<'_>>,
    lists: &mut Vec<Queue>,
    output: &mut Vec<u8>,
    work: &SmpWork<'_>,
    node: u8,
) -> Result<(), AllocError>
    requires stored { AreStored (lane_work work.now) nodes.old.items lists.old.items }
    requires node { node < (lane_work work.now).work.layout.nodes }
    ensures stored { AreStored (lane_work work.now) nodes.new.items lists.new.items }
    ensures core { core_with (lane_work work.now) nodes.new.items lists.new.items
        ≡ core_with (lane_work work.now) nodes.old.items lists.old.items }
    ensures output { output.new.items ≡ output.old.items }
    ensures room { OnOk result (HasRoom lists.new.items
        (lane_work work.now).work.layout.nodes node 18) }
    ensures node { OnOk result (HasNodeRoom nodes.new.items node) }
    ensures byte { OnOk result (length output.new.items < vec_capacity output.new) }
{
    let count = work.layout.nodes();
    output.reserve(1)?;
    reserve_from(lists, count, node)?;
    nodes[node as usize].room()
}

/// Adds a byte, where one was printed.
fn print(output: &mut Vec<u8>, byte: Option<u8>)
    requires room { length output.old.items < vec_capacity output.old }
    ensures { output.new.items ≡ output.old.items ++ option_to_list byte }
{
    if let Some(byte) = byte {
        output.push_reserved(byte);
    }
}

/// Makes an event that is allowed, where its stamps are in range.
pub(crate) fn make(
    nodes: &mut Vec<SmpNode<'_>>,
    lists: &mut Vec<Queue>,
    output: &mut Vec<u8>,
    sends: &mut Sends,
    work: &SmpWork<'_>,
    event: SmpEvent,
) -> Result<(), AllocError>
    requires stored { AreStored (lane_work work.now) nodes.old.items lists.old.items }
    requires some { 0 < work.now.lanes }
    requires few { processors (lane_work work.now) ≤ 16 }
    requires range { HasStampsInRange (lane_work work.now).work.layout.nodes
        (core_with (lane_work work.now) nodes.old.items lists.old.items) }
    requires allowed { May (lane_work work.now)
        (core_with (lane_work work.now) nodes.old.items lists.old.items) (event_of event) }
    ensures stored { AreStored (lane_work work.now) nodes.new.items lists.new.items }
    ensures event { OnOk result (HaveMade (lane_work work.now) nodes.old.items nodes.new.items
        lists.old.items lists.new.items output.old.items output.new.items (event_of event)) }
    ensures err { OnErr result (HaveKept (lane_work work.now) nodes.old.items nodes.new.items
        lists.old.items lists.new.items output.old.items output.new.items) }
{
    match event {
        SmpEvent::Exec(processor) => execute(nodes, lists, output, sends, work, processor),
        SmpEvent::Take { node, from } => take(nodes, lists, output, sends, work, node, from),
    }
}

/// A processor executes a word.
fn execute(
    nodes: &mut Vec<SmpNode<'_>>,
    lists: &mut Vec<Queue>,
    output: &mut Vec<u8>,
    sends: &mut Sends,
    work: &SmpWork<'_>,
    processor: u8,
) -> Result<(), AllocError>
    requires stored { AreStored (lane_work work.now) nodes.old.items lists.old.items }
    requires some { 0 < work.now.lanes }
    requires range { HasStampsInRange (lane_work work.now).work.layout.nodes
        (core_with (lane_work work.now) nodes.old.items lists.old.items) }
    requires allowed { May (lane_work work.now)
        (core_with (lane_work work.now) nodes.old.items lists.old.items)
        (model.Exec processor) }
    ensures stored { AreStored (lane_work work.now) nodes.new.items lists.new.items }
    ensures event { OnOk result (HaveMade (lane_work work.now) nodes.old.items nodes.new.items
        lists.old.items lists.new.items output.old.items output.new.items
        (model.Exec processor)) }
    ensures err { OnErr result (HaveKept (lane_work work.now) nodes.old.items nodes.new.items
        lists.old.items lists.new.items output.old.items output.new.items) }
{
    let count = work.layout.nodes();
    let node = processor / work.lanes;
    let lane = processor % work.lanes;
    make_room(nodes, lists, output, work, node)?;
    let turn = nodes[node as usize].exec(lane, sends);
    send(lists, count, node, turn.stamp, sends);
    print(output, turn.output);
    Ok(())
}

/// A node takes the first message of the list from another.
fn take(
    nodes: &mut Vec<SmpNode<'_>>,
    lists: &mut Vec<Queue>,
    output: &mut Vec<u8>,
    sends: &mut Sends,
    work: &SmpWork<'_>,
    node: u8,
    from: u8,
) -> Result<(), AllocError>
    requires stored { AreStored (lane_work work.now) nodes.old.items lists.old.items }
    requires range { HasStampsInRange (lane_work work.now).work.layout.nodes
        (core_with (lane_work work.now) nodes.old.items lists.old.items) }
    requires allowed { May (lane_work work.now)
        (core_with (lane_work work.now) nodes.old.items lists.old.items)
        (model.Take node from) }
    ensures stored { AreStored (lane_work work.now) nodes.new.items lists.new.items }
    ensures event { OnOk result (HaveMade (lane_work work.now) nodes.old.items nodes.new.items
        lists.old.items lists.new.items output.old.items output.new.items
        (model.Take node from)) }
    ensures err { OnErr result (HaveKept (lane_work work.now) nodes.old.items nodes.new.items
        lists.old.items lists.new.items output.old.items output.new.items) }
{
    let count = work.layout.nodes();
    make_room(nodes, lists, output, work, node)?;
    let wire = take_first(lists, count, from, node);
    let turn = nodes[node as usize].take(from, wire, sends);
    send(lists, count, node, turn.stamp, sends);
    Ok(())
}
