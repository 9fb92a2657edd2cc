//! Workers from the parts of a core, and the parts again.

ghost use Rattle.std.specs.Prelude.{◌≡◌, Ok, IfOk, length, map};
ghost use Rattle.node_threads.specs.Crew.{AllIdle};

use crate::worker::Worker;
use dsm_core::node_machine::Node;
use dsm_messages::{Sends, Wire};
use fifo_link::{SendEnd, TakeEnd};
use std::alloc::{AllocError, Global};
use std::collections::VecDeque;

/// What workers are made of, an entry for each.
#[derive(Drop)]
pub struct WorkerParts<'a> {
    /// Their nodes.
    pub nodes: Vec<Node<'a>>,
    /// The sending ends of each.
    pub sends: Vec<Vec<SendEnd>>,
    /// The taking ends of each.
    pub takes: Vec<Vec<TakeEnd>>,
    /// The outboxes of each.
    pub outboxes: Vec<Vec<VecDeque<Wire>>>,
    /// The undelivered wire of each.
    pub undelivered: Vec<Option<(u8, Wire)>>,
}

/// A worker for each node, with no undelivered wire.
pub fn make_workers<'a>(
    alloc: Global,
    nodes: Vec<Node<'a>>,
    sends: Vec<Vec<SendEnd>>,
    takes: Vec<Vec<TakeEnd>>,
    outboxes: Vec<Vec<VecDeque<Wire>>>,
) -> Result<Vec<Worker<'a>>, AllocError>
    requires sends { length sends.items ≡ length nodes.items }
    requires takes { length takes.items ≡ length nodes.items }
    requires outboxes { length outboxes.items ≡ length nodes.items }
    ensures nodes { IfOk result (λ r. map (λ w. w.node) r.items ≡ nodes.entry.items) }
    ensures sends { IfOk result (λ r. map (λ w. w.sends) r.items ≡ sends.items) }
    ensures takes { IfOk result (λ r. map (λ w. w.takes) r.items ≡ takes.items) }
    ensures outboxes { IfOk result (λ r. map (λ w. w.outboxes) r.items ≡ outboxes.items) }
    ensures idle { IfOk result (λ r. AllIdle r.items) }
{
    let mut nodes = nodes;
    let mut sends = sends;
    let mut takes = takes;
    let mut outboxes = outboxes;
    let mut workers = Vec::new(alloc);
    let mut number: u8 = 0;
    'nodes: while !nodes.is_empty() {
        workers.push(Worker {
            node: nodes.remove(0),
            number,
            events: 0,
            sends: sends.remove(0),
            takes: takes.remove(0),
            outboxes: outboxes.remove(0),
            undelivered: None,
            outgoing: Sends::new(),
        })?;
        number = number.wrapping_add(1);
    }
    Ok(workers)
}

/// The workers, if all came back.
pub fn all_back<'a>(
    alloc: Global,
    results: Vec<Result<Worker<'a>, AllocError>>,
) -> Result<Vec<Worker<'a>>, AllocError>
    ensures all { IfOk result (λ r. map (λ w. Ok w) r.items ≡ results.entry.items) }
{
    let mut results = results;
    let mut workers = Vec::new(alloc);
    'results: while !results.is_empty() {
        let worker = results.remove(0)?;
        workers.push(worker)?;
    }
    Ok(workers)
}

/// What the workers were made of.
pub fn take_workers_apart<'a>(
    alloc: Global,
    workers: Vec<Worker<'a>>,
) -> Result<WorkerParts<'a>, AllocError>
    ensures nodes { IfOk result (λ g. g.nodes.items ≡ map (λ w. w.node) workers.entry.items) }
    ensures sends { IfOk result (λ g. g.sends.items ≡ map (λ w. w.sends) workers.entry.items) }
    ensures takes { IfOk result (λ g. g.takes.items ≡ map (λ w. w.takes) workers.entry.items) }
    ensures outboxes { IfOk result (λ g.
        g.outboxes.items ≡ map (λ w. w.outboxes) workers.entry.items) }
    ensures undelivered { IfOk result (λ g.
        g.undelivered.items ≡ map (λ w. w.undelivered) workers.entry.items) }
{
    let mut workers = workers;
    let mut nodes = Vec::new(alloc);
    let mut sends = Vec::new(alloc);
    let mut takes = Vec::new(alloc);
    let mut outboxes = Vec::new(alloc);
    let mut undelivered = Vec::new(alloc);
    'workers: while !workers.is_empty() {
        let worker = workers.remove(0);
        nodes.push(worker.node)?;
        sends.push(worker.sends)?;
        takes.push(worker.takes)?;
        outboxes.push(worker.outboxes)?;
        undelivered.push(worker.undelivered)?;
    }
    Ok(WorkerParts {
        nodes,
        sends,
        takes,
        outboxes,
        undelivered,
    })
}
