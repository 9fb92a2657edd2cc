//! The lists of a core, from the ends and the outboxes of its workers.

ghost use Rattle.std.specs.Prelude.{◌≡◌, IfOk, length, map};
ghost use Rattle.node_threads.specs.Mesh.{BeginRows, GathersRow, Crosses, Gathers, AsLong};
ghost use Rattle.node_threads.specs.Works.{links_of};

use dsm_messages::Wire;
use fifo_link::{SendEnd, TakeEnd, rejoin};
use std::alloc::{AllocError, Global};
use std::collections::VecDeque;
use std::sync::Wait;

/// The lists from one node to each, and what is left of the rows of taking ends.
fn gather_row<R: Wait>(
    rt: &R,
    alloc: Global,
    sends: Vec<SendEnd>,
    outboxes: Vec<VecDeque<Wire>>,
    takes: Vec<Vec<TakeEnd>>,
) -> Result<(Vec<VecDeque<Wire>>, Vec<Vec<TakeEnd>>), AllocError>
    requires links { BeginRows (links_of sends.items) (map (λ v. links_of v.items) takes.items) }
    requires outboxes { length outboxes.items ≡ length sends.items }
    ensures gathers { IfOk result (λ r. GathersRow sends.items (map (λ o. o.items) outboxes.items)
        (map (λ v. v.items) takes.items) (map (λ o. o.items) r.0.items)
        (map (λ v. v.items) r.1.items)) }
{
    let mut sends = sends;
    let mut outboxes = outboxes;
    let mut takes = takes;
    let mut lists = Vec::new(alloc);
    let mut rest = Vec::new(alloc);
    'ends: while !sends.is_empty() {
        let sender = sends.remove(0);
        let mut out = outboxes.remove(0);
        let mut row = takes.remove(0);
        let taker = row.remove(0);
        let mut left = rejoin(rt, alloc, sender, taker)?;
        left.append(&mut out)?;
        lists.push(left)?;
        rest.push(row)?;
    }
    Ok((lists, rest))
}

/// The lists from each node to each: what is left of each link, and then its outbox.
pub fn gather<R: Wait>(
    rt: &R,
    alloc: Global,
    sends: Vec<Vec<SendEnd>>,
    outboxes: Vec<Vec<VecDeque<Wire>>>,
    takes: Vec<Vec<TakeEnd>>,
) -> Result<Vec<Vec<VecDeque<Wire>>>, AllocError>
    requires links { Crosses (map (λ v. links_of v.items) sends.items)
        (map (λ v. links_of v.items) takes.items) }
    requires outboxes { AsLong (map (λ v. map (λ o. o.items) v.items) outboxes.items)
        (map (λ v. v.items) sends.items) }
    ensures gathers { IfOk result (λ r. Gathers (map (λ v. v.items) sends.items)
        (map (λ v. map (λ o. o.items) v.items) outboxes.items) (map (λ v. v.items) takes.items)
        (map (λ v. map (λ o. o.items) v.items) r.items)) }
{
    let mut sends = sends;
    let mut outboxes = outboxes;
    let mut takes = takes;
    let mut lists = Vec::new(alloc);
    'rows: while !sends.is_empty() {
        let row = sends.remove(0);
        let out = outboxes.remove(0);
        let (list, rest) = gather_row(rt, alloc, row, out, takes)?;
        takes = rest;
        lists.push(list)?;
    }
    Ok(lists)
}
