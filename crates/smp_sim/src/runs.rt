//! Turns that an order picks, as long as each is a word by its micro-op.

ghost use Rattle.std.specs.Prelude.{◌≡◌, ◌<◌, ◌≤◌, ℕ, List, Some, map, length};
ghost use Rattle.std.specs.Prelude.{MatchOption, [], None, true, false};
ghost use Rattle.random_order.specs.Orders.{following};
ghost use Rattle.lane_law.specs.dsm_protocol.Queue.{AreQueues, wires_of};
ghost use Rattle.lane_model.specs.Core as model;
ghost use Rattle.lane_model.specs.Core.{May};
ghost use Rattle.lane_model.specs.Nodes.{LaneWork};
ghost use Rattle.lane_machine.specs.SmpNodes.{IsNode};
ghost use Rattle.smp_sim.specs.CoreParts.{AreNodes, IsCore, core_of, core_with, event_of};
ghost use Rattle.lane_machine.specs.SmpNodes.{lane_work, node_in};
ghost use Rattle.smp_sim.specs.CoreParts.{parts_of};
ghost use Rattle.smp_sim.specs.CoreSteps.{IsShut};
ghost use Rattle.smp_sim.specs.ByOrder.{choices, pick_among};
ghost use Rattle.smp_sim.specs.InUse.{AreAtRest, AreSameNodes, HaveRests, HaveTurned};
ghost use Rattle.smp_sim.specs.InUse.{MayTurnOn};
ghost use Rattle.smp_sim.specs.Turns.{LeadsOn, StopsAt};
ghost use Rattle.lane_machine.specs.declared.node.SmpNode.{SmpNode};

use crate::cores::SmpEvent;
use crate::steps::all_take_away;
use lane_law::dsm_protocol::Queue;
use lane_law::dsm_protocol::lists::has_mail;
use lane_law::lane_progress_law;
use lane_machine::{SmpNode, SmpWork};
use random_order::Order;

/// How many turns are made at most, before the lanes in use are put back.
const MOST_TURNS: u32 = 4096;

/// The event that the order picks next among those that are listed.
#[inline(always)]
fn pick(events: &[SmpEvent], order: &mut Order) -> SmpEvent
    requires some { 1 ≤ length events.now }
    requires few { length events.now ≤ 65536 }
    ensures picked { pick_among (map event_of events.now) (following order.old)
        ≡ Some (event_of result) }
    ensures goes_on { order.new ≡ following order.old }
{
    let place = order.next(events.len() as u32);
    events[place as usize]
}

/// Whether a lane of a node is in use, or no message is on its way to it.
#[inline(always)]
fn is_quiet(lists: &[Queue], count: u8, used: Option<u8>, node: u8) -> bool
    requires lists { AreQueues lists.now count }
    requires node { node < count }
    ensures quiet { result ≡ true → used ≡ None
        → (from : ℕ) → from < count → wires_of lists.now count from node ≡ [] }
    ensures none { result ≡ false → used ≡ None }
{
    if used.is_some() {
        return true;
    }
    if has_mail(lists, count, node) {
        return false;
    }
    true
}

/// Whether a node takes no message that is on its way to it, whatever a lane does: each takes
/// something of its block away, and another lane lets none of those in.
fn is_shut(node: &SmpNode<'_>, lists: &[Queue], count: u8, number: u8, lanes: u8, lane: u8) -> bool
    requires lists { AreQueues lists.now count }
    requires node { number < count }
    requires lanes { lanes ≤ length node.now.lanes.items }
    ensures { result ≡ true → (w : LaneWork) → IsNode w node.now → w.lanes ≡ lanes
        → (from : ℕ) → from < count
        → IsShut w (node_in w number node.now) lane (wires_of lists.now count from number) }
{
    if !node.holds_beside(lanes, lane) {
        return false;
    }
    all_take_away(lists, count, number)
}

/// A processor that may execute a word does so by its micro-op, where that serves it, its node
/// takes no message after it and no other lane has reserved an address, and says whether it did.
#[inline(always)]
fn turn(
    nodes: &mut Vec<SmpNode<'_>>,
    lists: &[Queue],
    work: &SmpWork<'_>,
    used: &mut [Option<u8>; 16],
    processor: u8,
) -> bool
    requires may { MayTurnOn work.now lists.now nodes.old.items used.old (model.Exec processor) }
    ensures turned { (ys : List SmpNode) (out : List ℕ)
        → AreAtRest work.now.layout.now.nodes lists.now nodes.old.items used.old ys
        → IsCore (parts_of work.now ys lists.now out)
        → May (lane_work work.now) (core_with (lane_work work.now) ys lists.now)
        (model.Exec processor)
        → HaveTurned work.now lists.now ys out (model.Exec processor) result nodes.new.items
        used.new }
{
    lane_progress_law();
    let count = work.layout.nodes();
    let node = processor / work.lanes;
    let lane = processor % work.lanes;
    if is_quiet(lists, count, used[node as usize], node) {
        return nodes[node as usize].turn(&mut used[node as usize], lane);
    }
    if !is_shut(&nodes[node as usize], lists, count, node, work.lanes, lane) {
        return false;
    }
    nodes[node as usize].exec_silent(lane)
}

/// Makes an event that is allowed, where it is such a word, and says whether it did.
#[inline(always)]
fn make_silent(
    nodes: &mut Vec<SmpNode<'_>>,
    lists: &[Queue],
    work: &SmpWork<'_>,
    used: &mut [Option<u8>; 16],
    event: SmpEvent,
) -> bool
    requires may { MayTurnOn work.now lists.now nodes.old.items used.old (event_of event) }
    ensures turned { (ys : List SmpNode) (out : List ℕ)
        → AreAtRest work.now.layout.now.nodes lists.now nodes.old.items used.old ys
        → IsCore (parts_of work.now ys lists.now out)
        → May (lane_work work.now) (core_with (lane_work work.now) ys lists.now) (event_of event)
        → HaveTurned work.now lists.now ys out (event_of event) result nodes.new.items used.new }
{
    match event {
        SmpEvent::Exec(processor) => turn(nodes, lists, work, used, processor),
        SmpEvent::Take { .. } => false,
    }
}

/// Puts the lanes in use back.
fn put_back(nodes: &mut Vec<SmpNode<'_>>, used: &mut [Option<u8>; 16])
    requires few { length nodes.old.items ≤ 16 }
    requires rest { (w : LaneWork) × (ys : List SmpNode) × (length ys ≡ length nodes.old.items)
        × AreNodes w ys × HaveRests nodes.old.items used.old ys }
    ensures same { (ys : List SmpNode) → (length ys ≡ length nodes.old.items)
        → HaveRests nodes.old.items used.old ys → AreSameNodes ys nodes.new.items }
{
    for node in 0..nodes.len() {
        nodes[node].put_back(&mut used[node]);
    }
}

/// Makes the turns that an order picks next among the events that are listed, as long as each is a
/// word by its micro-op and its node takes no message after it. It gives the event that is picked
/// after them, which isn't made, or `None` after many turns.
pub(crate) fn run_silent(
    nodes: &mut Vec<SmpNode<'_>>,
    lists: &[Queue],
    work: &SmpWork<'_>,
    events: &[SmpEvent],
    order: &mut Order,
) -> Option<SmpEvent>
    requires some { 1 ≤ length events.now }
    requires few { length events.now ≤ 65536 }
    requires core { (out : List ℕ) × IsCore (parts_of work.now nodes.old.items lists.now out) }
    requires listed { map event_of events.now ≡ choices (lane_work work.now)
        (core_of (parts_of work.now nodes.old.items lists.now [])) }
    ensures core { (out : List ℕ) → IsCore (parts_of work.now nodes.old.items lists.now out)
        → IsCore (parts_of work.now nodes.new.items lists.now out) }
    ensures listed { map event_of events.now ≡ choices (lane_work work.now)
        (core_of (parts_of work.now nodes.new.items lists.now [])) }
    ensures leads { (out : List ℕ) → IsCore (parts_of work.now nodes.old.items lists.now out)
        → let p = parts_of work.now nodes.old.items lists.now out in
        let q = parts_of work.now nodes.new.items lists.now out in
        MatchOption result (LeadsOn 1 order.old p order.new q)
        (λ e. StopsAt order.old p order.new q (event_of e)) }
{
    let mut used = [None; 16];
    for _turn in 0..MOST_TURNS {
        let event = pick(events, order);
        if !make_silent(nodes, lists, work, &mut used, event) {
            put_back(nodes, &mut used);
            return Some(event);
        }
    }
    put_back(nodes, &mut used);
    None
}
