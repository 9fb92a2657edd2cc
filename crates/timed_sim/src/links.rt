//! The links between nodes: that from node j to node i stands at place j × n + i.

ghost use Rattle.std.specs.Prelude.{◌≡◌, ◌+◌, ◌*◌, ◌^◌, ◌<◌, ◌≤◌, ℕ, [], IfOk, OnOk};
ghost use Rattle.std.specs.Option.{option_map};
ghost use Rattle.dsm_core.specs.CoreParts.{event_of};
ghost use Rattle.timed_sim.specs.Clock.{AreInRange, first_from, delay, lines_carried};
ghost use Rattle.timed_sim.specs.Clock.{without_taken};
ghost use Rattle.timed_sim.specs.Stored.{due_of, link_at, AreLinks, HaveSent, IsBelow};

use crate::costs::Costs;
use crate::due::Due;
use crate::link::Arrivals;
use block_layout::Layout;
use dsm_core::Event;
use dsm_core::rewriting_law::dsm_messages::{Header, Headers, MessageKind, Sent};
use std::alloc::{AllocError, Global};

/// Links between `count` nodes, with no message on its way.
pub(crate) fn new_links(alloc: Global, count: u8) -> Result<Vec<Arrivals>, AllocError>
    requires few { count ≤ 16 }
    ensures links { IfOk result (λ ls. AreLinks count ls.items) }
    ensures none { IfOk result (λ ls. (j i : ℕ) → link_at ls.items count j i ≡ []) }
{
    let pairs = count as usize * count as usize;
    let mut links = Vec::with_capacity(alloc, pairs)?;
    for _pair in 0..pairs {
        links.push_reserved(Arrivals::new(alloc));
    }
    Ok(links)
}

/// A node takes the first message from another, when it arrives.
pub(crate) fn first_from(links: &[Arrivals], count: u8, from: u8, node: u8) -> Option<Due>
    requires links { AreLinks count links.now }
    requires from { from < count }
    requires node { node < count }
    ensures { option_map due_of result ≡ first_from from node (link_at links.now count from node) }
{
    let time = links[from as usize * count as usize + node as usize].first()?;
    Some(Due {
        time,
        event: Event::Take { node, from },
    })
}

/// A message that an event takes is on its way no more.
pub(crate) fn take(links: &mut Vec<Arrivals>, count: u8, event: Event)
    requires links { AreLinks count links.old.items }
    requires below { IsBelow count (event_of event) }
    ensures links { AreLinks count links.new.items }
    ensures taken { (j k : ℕ) → j < count → k < count → link_at links.new.items count j k
        ≡ without_taken (event_of event) (link_at links.old.items count) j k }
{
    if let Event::Take { node, from } = event {
        links[from as usize * count as usize + node as usize].take();
    }
}

/// A node sends messages at a time.
pub(crate) fn send(
    links: &mut Vec<Arrivals>,
    costs: &Costs,
    layout: &Layout,
    node: u8,
    time: u128,
    sends: &mut Headers,
) -> Result<(), AllocError>
    requires links { AreLinks layout.now.nodes links.old.items }
    requires costs { AreInRange costs.now }
    requires node { node < layout.now.nodes }
    requires time { time ≤ 2 ^ 127 }
    ensures links { AreLinks layout.now.nodes links.new.items }
    ensures sent { OnOk result (HaveSent costs.now layout.now node time sends.old.items
        links.old.items links.new.items) }
{
    // brings: no more is sent than there is room for
    let _ = sends.len();
    let count = layout.nodes();
    while !sends.is_empty() {
        let sent = sends.remove(0);
        if sent.to < count {
            let arrival = time + delay(costs, layout, node, &sent);
            links[node as usize * count as usize + sent.to as usize].send(arrival)?;
        }
    }
    Ok(())
}

/// How long a message from a node is on its way: one to the node itself arrives at once.
fn delay(costs: &Costs, layout: &Layout, node: u8, sent: &Sent) -> u128
    requires costs { AreInRange costs.now }
    ensures value { result ≡ delay costs.now layout.now node sent.now }
    ensures short { result ≤ 2 ^ 27 }
{
    if sent.to == node {
        return 0;
    }
    let lines = lines_carried(layout, &sent.header);
    u128::from(costs.latency) + u128::from(costs.line) * u128::from(lines)
}

/// How many lines of bytes a message carries: those of its block, where it brings the bytes.
fn lines_carried(layout: &Layout, header: &Header) -> u32
    ensures value { result ≡ lines_carried layout.now header.now.kind header.now.block }
    ensures few { result ≤ 64 }
{
    match (header.kind, header.block) {
        (MessageKind::Data, Some(block)) if block < layout.blocks() => layout.lines(block),
        _ => 0,
    }
}
