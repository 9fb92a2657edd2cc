//! A link from each node to each.

ghost use Rattle.std.specs.Prelude.{◌≤◌, IfOk, map};
ghost use Rattle.node_threads.specs.Mesh.{OpensRow, IsMesh};

use fifo_link::{SendEnd, TakeEnd, link};
use std::alloc::{AllocError, Global};

/// Opens a link to each row: the sending ends, and the rows with the taking end in front of each.
fn open_row(
    alloc: Global,
    capacity: usize,
    takes: Vec<Vec<TakeEnd>>,
) -> Result<(Vec<SendEnd>, Vec<Vec<TakeEnd>>), AllocError>
    requires capacity { (1 ≤ capacity) × (capacity ≤ 4096) }
    ensures opens { IfOk result (λ r. OpensRow (map (λ v. v.items) takes.items) r.0.items
        (map (λ v. v.items) r.1.items)) }
{
    let mut takes = takes;
    let mut ends = Vec::new(alloc);
    let mut grown = Vec::new(alloc);
    'rows: while !takes.is_empty() {
        let mut row = takes.remove(0);
        let (sender, taker) = link(alloc, capacity)?;
        row.insert(0, taker)?;
        ends.push(sender)?;
        grown.push(row)?;
    }
    Ok((ends, grown))
}

/// The links between n nodes: the sending ends of each node, and the taking ends of each.
pub fn mesh(
    alloc: Global,
    capacity: usize,
    n: usize,
) -> Result<(Vec<Vec<SendEnd>>, Vec<Vec<TakeEnd>>), AllocError>
    requires capacity { (1 ≤ capacity) × (capacity ≤ 4096) }
    ensures mesh { IfOk result (λ m. IsMesh n m.0.items m.1.items) }
{
    let mut takes = Vec::new(alloc);
    'empty: for _ in 0..n {
        takes.push(Vec::new(alloc))?;
    }
    let mut sends = Vec::new(alloc);
    'nodes: for _ in 0..n {
        let (ends, grown) = open_row(alloc, capacity, takes)?;
        takes = grown;
        sends.insert(0, ends)?;
    }
    Ok((sends, takes))
}
