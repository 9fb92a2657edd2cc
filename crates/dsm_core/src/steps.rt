//! Events of nodes that run rewritten code, and of the lists between them.

ghost use Rattle.std.specs.Prelude.{◌≡◌, ◌<◌, ◌↔◌, List, true, false, length};
ghost use Rattle.std.specs.Prelude.{IfOk, OnOk, OnErr};
ghost use Rattle.run_order.specs.node_model.Node.{Work, IsLaidOver, standing_of};
ghost use Rattle.run_order.specs.node_model.Core as model;
ghost use Rattle.rewriting_law.specs.dsm_protocol.Queue.{Queue as Stored, AreQueues, SameWires};
ghost use Rattle.rewriting_law.specs.dsm_protocol.Queue.{HasRoom};
ghost use Rattle.dsm_core.specs.CoreParts.{work_in, core_with, event_of, HaveWork};
ghost use Rattle.run_order.specs.node_model.Core.{IsOver};
ghost use Rattle.dsm_core.specs.CoreSteps.{SameNodes, SameWorks, HasNodeRoom, CanExecute, HaveMade};
ghost use Rattle.dsm_core.specs.CoreSteps.{HaveKept, HavePassed, HaveExecutedOn, AreFirst, CanMake};

use crate::cores::Event;
use crate::work;
use node_machine::{Node, Standing};
use rewriting_law::dsm_messages::Sends;
use rewriting_law::dsm_protocol::Queue;
use rewriting_law::dsm_protocol::lists::{has_wire, reserve_from, send, take_first};
use std::alloc::{AllocError, Global};

/// The nodes at the start.
pub(crate) fn first_nodes<'a>(
    alloc: Global,
    work: &work::Work<'a>,
) -> Result<Vec<Node<'a>>, AllocError>
    requires layout { IsLaidOver (work_in work.now).program (work_in work.now).layout }
    ensures count { IfOk result (λ ns. length ns.items ≡ (work_in work.now).layout.nodes) }
    ensures first { IfOk result (λ ns. AreFirst (work_in work.now) ns.items) }
    ensures works { IfOk result (λ ns. HaveWork (work_in work.now) ns.items) }
{
    let image = work.image;
    let program = work.program;
    let layout = work.layout;
    let count = layout.nodes();
    let mut nodes = Vec::with_capacity(alloc, count as usize)?;
    for me in 0..count {
        let node = Node::new(alloc, image, program, layout, me, work.budget)?;
        nodes.push_reserved(node);
    }
    Ok(nodes)
}

/// What a node may do next.
fn standing(nodes: &[Node<'_>], node: u8) -> Standing
    requires node { node < length nodes.now }
    ensures value { (work : Work) (lists : List Stored) → HaveWork work nodes.now
        → result ≡ standing_of work ((core_with work nodes.now lists).nodes node) }
{
    nodes[node as usize].standing()
}

/// Whether every node is over.
pub(crate) fn are_over(nodes: &[Node<'_>], count: u8) -> bool
    requires count { length nodes.now ≡ count }
    ensures value { (work : Work) (lists : List Stored) → work.layout.nodes ≡ count
        → HaveWork work nodes.now
        → (result ≡ true) ↔ IsOver work (core_with work nodes.now lists) }
{
    for node in 0..count {
        if !standing(nodes, node).is_over() {
            return false;
        }
    }
    true
}

/// Whether an event is allowed.
pub(crate) fn is_enabled(nodes: &[Node<'_>], lists: &[Queue], count: u8, event: Event) -> bool
    requires count { length nodes.now ≡ count }
    requires lists { AreQueues lists.now count }
    ensures value { (work : Work) → work.layout.nodes ≡ count → HaveWork work nodes.now
        → (result ≡ true) ↔ model.May work (core_with work nodes.now lists.now) (event_of event) }
{
    match event {
        Event::Exec(node) => can_execute(nodes, count, node),
        Event::Take { node, from } => can_take(nodes, lists, count, node, from),
    }
}

/// Whether a node may execute a word.
fn can_execute(nodes: &[Node<'_>], count: u8, node: u8) -> bool
    requires count { length nodes.now ≡ count }
    ensures value { (work : Work) (lists : List Stored) → work.layout.nodes ≡ count
        → HaveWork work nodes.now → (result ≡ true)
        ↔ model.May work (core_with work nodes.now lists) (model.Exec node) }
{
    if node >= count {
        return false;
    }
    standing(nodes, node).may_execute()
}

/// Whether a node may take a message from another.
fn can_take(nodes: &[Node<'_>], lists: &[Queue], count: u8, node: u8, from: u8) -> bool
    requires count { length nodes.now ≡ count }
    requires lists { AreQueues lists.now count }
    ensures value { (work : Work) → work.layout.nodes ≡ count → HaveWork work nodes.now
        → (result ≡ true)
        ↔ model.May work (core_with work nodes.now lists.now) (model.Take node from) }
{
    if node >= count {
        return false;
    }
    if from >= count {
        return false;
    }
    if !has_wire(lists, count, from, node) {
        return false;
    }
    standing(nodes, node).may_take()
}

/// Makes room for an event of a node.
pub(crate) fn make_room(
    nodes: &mut Vec<Node<'_>>,
    lists: &mut Vec<Queue>,
    count: u8,
    node: u8,
) -> Result<(), AllocError>
    requires count { length nodes.old.items ≡ count }
    requires lists { AreQueues lists.old.items count }
    requires node { node < count }
    ensures count { length nodes.new.items ≡ count }
    ensures lists { AreQueues lists.new.items count }
    ensures nodes { SameNodes nodes.old.items nodes.new.items }
    ensures wires { SameWires lists.old.items lists.new.items count }
    ensures room { OnOk result (HasRoom lists.new.items count node 18) }
    ensures node { OnOk result (HasNodeRoom nodes.new.items node) }
{
    reserve_from(lists, count, node)?;
    nodes[node as usize].room()?;
    Ok(())
}

/// Makes an event that is allowed.
pub(crate) fn make(
    nodes: &mut Vec<Node<'_>>,
    lists: &mut Vec<Queue>,
    sends: &mut Sends,
    count: u8,
    event: Event,
) -> Result<(), AllocError>
    requires count { length nodes.old.items ≡ count }
    requires lists { AreQueues lists.old.items count }
    requires allowed { CanMake count nodes.old.items lists.old.items (event_of event) }
    ensures count { length nodes.new.items ≡ count }
    ensures lists { AreQueues lists.new.items count }
    ensures works { SameWorks nodes.old.items nodes.new.items }
    ensures event { OnOk result (HaveMade count nodes.old.items nodes.new.items
        lists.old.items lists.new.items (event_of event)) }
    ensures err { OnErr result (HaveKept count nodes.old.items nodes.new.items
        lists.old.items lists.new.items) }
{
    match event {
        Event::Exec(node) => execute(nodes, lists, sends, count, node),
        Event::Take { node, from } => take(nodes, lists, sends, count, node, from),
    }
}

/// A node executes its next word by its micro-op, where that serves it.
pub(crate) fn exec_silent(nodes: &mut Vec<Node<'_>>, count: u8, node: u8) -> bool
    requires count { length nodes.old.items ≡ count }
    requires allowed { CanExecute count nodes.old.items node }
    ensures count { length nodes.new.items ≡ count }
    ensures works { SameWorks nodes.old.items nodes.new.items }
    ensures passed { result ≡ true → HavePassed count node nodes.old.items nodes.new.items }
    ensures same { result ≡ false → SameNodes nodes.old.items nodes.new.items }
{
    nodes[node as usize].exec_silent()
}

/// A node executes a word. Where its micro-op serves it no room is needed.
fn execute(
    nodes: &mut Vec<Node<'_>>,
    lists: &mut Vec<Queue>,
    sends: &mut Sends,
    count: u8,
    node: u8,
) -> Result<(), AllocError>
    requires count { length nodes.old.items ≡ count }
    requires lists { AreQueues lists.old.items count }
    requires allowed { CanExecute count nodes.old.items node }
    ensures count { length nodes.new.items ≡ count }
    ensures lists { AreQueues lists.new.items count }
    ensures works { SameWorks nodes.old.items nodes.new.items }
    ensures event { OnOk result (HaveMade count nodes.old.items nodes.new.items
        lists.old.items lists.new.items (model.Exec node)) }
    ensures err { OnErr result (HaveKept count nodes.old.items nodes.new.items
        lists.old.items lists.new.items) }
{
    if exec_silent(nodes, count, node) {
        return Ok(());
    }
    execute_with_room(nodes, lists, sends, count, node)
}

/// A node executes words, and it is given how many. Those before the last print nothing and send
/// nothing.
pub(crate) fn run_until_send(
    nodes: &mut Vec<Node<'_>>,
    lists: &mut Vec<Queue>,
    sends: &mut Sends,
    count: u8,
    node: u8,
) -> Result<u64, AllocError>
    requires count { length nodes.old.items ≡ count }
    requires lists { AreQueues lists.old.items count }
    requires allowed { CanExecute count nodes.old.items node }
    ensures count { length nodes.new.items ≡ count }
    ensures lists { AreQueues lists.new.items count }
    ensures works { SameWorks nodes.old.items nodes.new.items }
    ensures ran { IfOk result (λ words. HaveExecutedOn count node words nodes.old.items
        nodes.new.items lists.old.items lists.new.items) }
    ensures err { OnErr result (HaveKept count nodes.old.items nodes.new.items
        lists.old.items lists.new.items) }
{
    make_room(nodes, lists, count, node)?;
    let stored = &mut nodes[node as usize];
    let stamp = stored.stamp();
    let turn = stored.run_until_send(sends);
    let words = turn.stamp - stamp;
    send(lists, count, node, turn.stamp, sends);
    Ok(words)
}

/// A node executes a word by the path that serves every word.
fn execute_with_room(
    nodes: &mut Vec<Node<'_>>,
    lists: &mut Vec<Queue>,
    sends: &mut Sends,
    count: u8,
    node: u8,
) -> Result<(), AllocError>
    requires count { length nodes.old.items ≡ count }
    requires lists { AreQueues lists.old.items count }
    requires allowed { CanExecute count nodes.old.items node }
    ensures count { length nodes.new.items ≡ count }
    ensures lists { AreQueues lists.new.items count }
    ensures works { SameWorks nodes.old.items nodes.new.items }
    ensures event { OnOk result (HaveMade count nodes.old.items nodes.new.items
        lists.old.items lists.new.items (model.Exec node)) }
    ensures err { OnErr result (HaveKept count nodes.old.items nodes.new.items
        lists.old.items lists.new.items) }
{
    make_room(nodes, lists, count, node)?;
    let turn = nodes[node as usize].exec_into(sends);
    send(lists, count, node, turn.stamp, sends);
    Ok(())
}

/// A node takes the first message of the list from another.
fn take(
    nodes: &mut Vec<Node<'_>>,
    lists: &mut Vec<Queue>,
    sends: &mut Sends,
    count: u8,
    node: u8,
    from: u8,
) -> Result<(), AllocError>
    requires count { length nodes.old.items ≡ count }
    requires lists { AreQueues lists.old.items count }
    requires allowed { CanMake count nodes.old.items lists.old.items (model.Take node from) }
    ensures count { length nodes.new.items ≡ count }
    ensures lists { AreQueues lists.new.items count }
    ensures works { SameWorks nodes.old.items nodes.new.items }
    ensures event { OnOk result (HaveMade count nodes.old.items nodes.new.items
        lists.old.items lists.new.items (model.Take node from)) }
    ensures err { OnErr result (HaveKept count nodes.old.items nodes.new.items
        lists.old.items lists.new.items) }
{
    make_room(nodes, lists, count, node)?;
    let wire = take_first(lists, count, from, node);
    let turn = nodes[node as usize].take_into(from, wire, sends);
    send(lists, count, node, turn.stamp, sends);
    Ok(())
}
