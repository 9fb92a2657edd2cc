//! The lists of a core as rows, by sender, and the lists again.

ghost use Rattle.std.specs.Prelude.{◌≡◌, ◌≤◌, ◌+◌, ◌*◌, ◌++◌, OnOk, IfOk, length, map};
ghost use Rattle.node_threads.specs.Crew.{RowsOf, flat};

use dsm_messages::Wire;
use dsm_protocol::Queue;
use std::alloc::{AllocError, Global};
use std::collections::VecDeque;

/// Takes the first lists as a row.
fn take_row(
    alloc: Global,
    lists: &mut Vec<Queue>,
    count: u8,
) -> Result<Vec<VecDeque<Wire>>, AllocError>
    requires enough { count ≤ length lists.old.items }
    ensures count { IfOk result (λ row. length row.items ≡ count) }
    ensures rest { OnOk result (length lists.new.items + count ≡ length lists.old.items) }
    ensures wires { IfOk result (λ row.
        map (λ o. o.items) row.items ++ map (λ q. q.wires) lists.new.items
        ≡ map (λ q. q.wires) lists.old.items) }
{
    let mut row = Vec::new(alloc);
    for _ in 0..count {
        row.push(lists.remove(0).into_wires())?;
    }
    Ok(row)
}

/// The rows of n × n lists.
pub fn rows(
    alloc: Global,
    lists: Vec<Queue>,
    count: u8,
) -> Result<Vec<Vec<VecDeque<Wire>>>, AllocError>
    requires square { length lists.items ≡ count * count }
    ensures count { IfOk result (λ r. length r.items ≡ count) }
    ensures rows { IfOk result (λ r. RowsOf count r.items) }
    ensures wires { IfOk result (λ r. flat r.items ≡ map (λ q. q.wires) lists.items) }
{
    let mut lists = lists;
    let mut rows = Vec::new(alloc);
    for _ in 0..count {
        rows.push(take_row(alloc, &mut lists, count)?)?;
    }
    Ok(rows)
}

/// Adds the lists of a row.
fn add_row(lists: &mut Vec<Queue>, row: Vec<VecDeque<Wire>>) -> Result<(), AllocError>
    ensures wires { OnOk result (map (λ q. q.wires) lists.new.items
        ≡ map (λ q. q.wires) lists.old.items ++ map (λ o. o.items) row.items) }
{
    let mut row = row;
    while !row.is_empty() {
        lists.push(Queue::of(row.remove(0)))?;
    }
    Ok(())
}

/// The lists of rows.
pub fn lists(alloc: Global, rows: Vec<Vec<VecDeque<Wire>>>) -> Result<Vec<Queue>, AllocError>
    ensures wires { IfOk result (λ r. map (λ q. q.wires) r.items ≡ flat rows.items) }
{
    let mut rows = rows;
    let mut lists = Vec::new(alloc);
    while !rows.is_empty() {
        let row = rows.remove(0);
        add_row(&mut lists, row)?;
    }
    Ok(lists)
}
