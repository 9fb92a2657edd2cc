//! The events that nodes may make, over links that have brought messages or not.

ghost use Rattle.std.specs.Prelude.{◌≡◌, ◌+◌, ◌*◌, ◌<◌, ◌≤◌, ◌++◌, ◌↔◌, ℕ, true, List, map};
ghost use Rattle.std.specs.Prelude.{filter, length};
ghost use Rattle.std.specs.List.{range_with_len};
ghost use Rattle.std.specs.Vec.{vec_capacity};
ghost use Rattle.node_model.specs.Node.{Work, opening_node, standing_of};
ghost use Rattle.node_model.specs.Core as model;
ghost use Rattle.node_model.specs.Core.{Take};
ghost use Rattle.dsm_core.specs.CoreParts.{event_of, HaveWork};
ghost use Rattle.dsm_core.specs.CoreSteps.{node_or};
ghost use Rattle.shared_sim.specs.ByOrder.{events_at};
ghost use Rattle.lossy_sim.specs.Links.{LossyLink};
ghost use Rattle.lossy_sim.specs.Stored.{AreLinks, link_at, state_of};
ghost use Rattle.lossy_sim.specs.WithLoss.{State, AreAllOver, is_allowed, choices};

use crate::links::Link;
use dsm_core::Event;
use dsm_core::node_machine::{Node, Standing};

/// Lists the events that the nodes may make: of each its word, and then its takes by sender.
pub(crate) fn list(nodes: &[Node<'_>], links: &[Link], count: u8, events: &mut Vec<Event>)
    requires count { length nodes.now ≡ count }
    requires links { AreLinks links.now count }
    requires room { count * (1 + count) ≤ vec_capacity events.old }
    ensures value { (work : Work) (order losses : ℕ) → work.layout.nodes ≡ count
        → HaveWork work nodes.now → map event_of events.new.items
        ≡ choices work (state_of work nodes.now links.now order losses) }
    ensures few { length events.new.items ≤ count * (1 + count) }
    ensures room { vec_capacity events.new ≡ vec_capacity events.old }
{
    events.clear();
    for node in 0..count {
        list_events(standing(nodes, node), links, count, node, events);
    }
}

/// Adds the events of a node: its word, and then its takes by sender.
fn list_events(standing: Standing, links: &[Link], count: u8, node: u8, events: &mut Vec<Event>)
    requires links { AreLinks links.now count }
    requires node { node < count }
    requires room { length events.old.items + 1 + count ≤ vec_capacity events.old }
    ensures listed { (work : Work) (s : State) → s.links ≡ link_at links.now count
        → standing_of work (s.nodes node) ≡ standing
        → map event_of events.new.items ≡ map event_of events.old.items
        ++ filter (is_allowed work s) (events_at count node) }
    ensures few { length events.new.items ≤ length events.old.items + 1 + count }
    ensures room { vec_capacity events.new ≡ vec_capacity events.old }
{
    if standing.may_execute() {
        events.push_reserved(Event::Exec(node));
    }
    if standing.may_take() {
        list_takes(links, count, node, events);
    }
}

/// Adds the takes of a node: from each node whose link's next message has come.
fn list_takes(links: &[Link], count: u8, node: u8, events: &mut Vec<Event>)
    requires links { AreLinks links.now count }
    requires node { node < count }
    requires room { length events.old.items + count ≤ vec_capacity events.old }
    ensures listed { (work : Work) (s : State) → s.links ≡ link_at links.now count
        → model.may_take (standing_of work (s.nodes node)) ≡ true
        → map event_of events.new.items ≡ map event_of events.old.items
        ++ filter (is_allowed work s) (map (λ j. Take node j) (range_with_len 0 count)) }
    ensures few { length events.new.items ≤ length events.old.items + count }
    ensures room { vec_capacity events.new ≡ vec_capacity events.old }
{
    for from in 0..count {
        if links[from as usize * count as usize + node as usize].has_next() {
            events.push_reserved(Event::Take { node, from });
        }
    }
}

/// What a node may do next.
fn standing(nodes: &[Node<'_>], node: u8) -> Standing
    requires node { node < length nodes.now }
    ensures value { (work : Work) → HaveWork work nodes.now
        → result ≡ standing_of work (node_or nodes.now node (opening_node work node)) }
{
    nodes[node as usize].standing()
}

/// Whether every node is over.
pub(crate) fn are_over(nodes: &[Node<'_>], count: u8) -> bool
    requires count { length nodes.now ≡ count }
    ensures value { (work : Work) (links : List LossyLink) (order losses : ℕ)
        → work.layout.nodes ≡ count → HaveWork work nodes.now
        → (result ≡ true) ↔ AreAllOver work (state_of work nodes.now links order losses) }
{
    for node in 0..count {
        if !standing(nodes, node).is_over() {
            return false;
        }
    }
    true
}
