//! The nodes of a core in threads of their own.

ghost use Rattle.std.specs.Prelude.{◌≡◌, ◌≤◌, ℕ, Some, IfOk, All, length, slice_get};
ghost use Rattle.dsm_protocol.specs.node_model.Node.{Work};
ghost use Rattle.dsm_protocol.specs.node_model.Core.{IsOver};
ghost use Rattle.dsm_core.specs.run_order.OwnRun.{OnlyAdds};
ghost use Rattle.dsm_core.specs.CoreParts.{AreParts, work_of, core_of};
ghost use Rattle.node_threads.specs.Works.{Works, IsReady};
ghost use Rattle.node_threads.specs.Crew.{RowsOf, AreNodesOf};
ghost use Rattle.node_threads.specs.Races.{HaveRaced, HaveGoneApart};

use crate::crew::{WorkerParts, all_back, make_workers, take_workers_apart};
use crate::gate::Gate;
use crate::gather::gather;
use crate::mesh::mesh;
use crate::rows::{lists, rows};
use crate::signals::Signals;
use crate::undelivered::put_all_undelivered;
use crate::worker::Worker;
use dsm_core::node_machine::Node;
use dsm_core::run_order::stamp_law;
use dsm_core::{Core, Parts};
use dsm_messages::Wire;
use std::alloc::{AllocError, Global};
use std::collections::VecDeque;
use std::sync::Wait;
use std::thread;
use std::thread::Threads;

/// How many wires a link has room for.
const CAPACITY: usize = 64;

/// Runs each node of a core in a thread of its own, and then finishes what they left. A node that
/// is alone runs in the caller's thread, and its events pass no gate.
pub fn race<'a, R: Threads + Wait + Sync, G: Gate + Sync>(
    rt: &R,
    alloc: Global,
    core: Core<'a>,
    gate: &G,
) -> Result<Core<'a>, AllocError>
    ensures over { IfOk result (λ c. IsOver (work_of c) (core_of c)) }
    ensures work { IfOk result (λ c. work_of c ≡ work_of core.entry) }
    ensures adds { IfOk result (λ c.
        OnlyAdds core.entry.layout.nodes (core_of core.entry) (core_of c)) }
{
    race_with(rt, alloc, core, CAPACITY, gate)
}

/// Runs each node of a core in a thread of its own, over links that have room for `capacity` wires,
/// and then finishes what they left. A node that is alone needs neither a thread nor a link.
pub fn race_with<'a, R: Threads + Wait + Sync, G: Gate + Sync>(
    rt: &R,
    alloc: Global,
    core: Core<'a>,
    capacity: usize,
    gate: &G,
) -> Result<Core<'a>, AllocError>
    requires capacity { (1 ≤ capacity) × (capacity ≤ 4096) }
    ensures over { IfOk result (λ c. IsOver (work_of c) (core_of c)) }
    ensures work { IfOk result (λ c. work_of c ≡ work_of core.entry) }
    ensures adds { IfOk result (λ c.
        OnlyAdds core.entry.layout.nodes (core_of core.entry) (core_of c)) }
{
    if core.layout().nodes() == 1 {
        finish(core)
    } else {
        race_apart(rt, alloc, core, capacity, gate)
    }
}

/// Makes the events of a core until every node is over.
fn finish<'a>(core: Core<'a>) -> Result<Core<'a>, AllocError>
    ensures over { IfOk result (λ c. IsOver (work_of c) (core_of c)) }
    ensures work { IfOk result (λ c. work_of c ≡ work_of core.entry) }
    ensures adds { IfOk result (λ c.
        OnlyAdds core.entry.layout.nodes (core_of core.entry) (core_of c)) }
{
    let mut core = core;
    core.finish()?;
    Ok(core)
}

/// Runs the nodes apart, and then finishes what they left.
fn race_apart<'a, R: Threads + Wait + Sync, G: Gate + Sync>(
    rt: &R,
    alloc: Global,
    core: Core<'a>,
    capacity: usize,
    gate: &G,
) -> Result<Core<'a>, AllocError>
    requires capacity { (1 ≤ capacity) × (capacity ≤ 4096) }
    ensures over { IfOk result (λ c. IsOver (work_of c) (core_of c)) }
    ensures work { IfOk result (λ c. work_of c ≡ work_of core.entry) }
    ensures adds { IfOk result (λ c.
        OnlyAdds core.entry.layout.nodes (core_of core.entry) (core_of c)) }
{
    let parts = go_apart(rt, alloc, core.take_apart(), capacity, gate)?;
    stamp_law();
    let mut core = Core::put_together(parts);
    core.finish()?;
    Ok(core)
}

/// The nodes and lists after each node has made events by itself.
fn go_apart<'a, R: Threads + Wait + Sync, G: Gate + Sync>(
    rt: &R,
    alloc: Global,
    parts: Parts<'a>,
    capacity: usize,
    gate: &G,
) -> Result<Parts<'a>, AllocError>
    requires capacity { (1 ≤ capacity) × (capacity ≤ 4096) }
    requires parts { AreParts parts }
    ensures parts { IfOk result (λ p. AreParts p) }
    ensures apart { IfOk result (λ p. HaveGoneApart parts.entry p) }
{
    let Parts {
        image,
        program,
        layout,
        budget,
        nodes,
        lists: queues,
        sends,
    } = parts;
    let rows = rows(alloc, queues, layout.nodes())?;
    let (nodes, rows) = race_nodes(rt, alloc, nodes, rows, capacity, gate)?;
    Ok(Parts {
        image,
        program,
        layout,
        budget,
        nodes,
        lists: lists(alloc, rows)?,
        sends,
    })
}

/// The nodes after each has made events by itself, and the rows of lists between them then.
fn race_nodes<'a, R: Threads + Wait + Sync, G: Gate + Sync>(
    rt: &R,
    alloc: Global,
    nodes: Vec<Node<'a>>,
    rows: Vec<Vec<VecDeque<Wire>>>,
    capacity: usize,
    gate: &G,
) -> Result<(Vec<Node<'a>>, Vec<Vec<VecDeque<Wire>>>), AllocError>
    requires capacity { (1 ≤ capacity) × (capacity ≤ 4096) }
    requires count { length rows.items ≡ length nodes.items }
    requires rows { RowsOf (length nodes.items) rows.items }
    requires works { (work : Work) × (work.layout.nodes ≡ length nodes.items)
        × AreNodesOf work nodes.items }
    ensures raced { IfOk result (λ r. (work : Work)
        → work.layout.nodes ≡ length nodes.entry.items → AreNodesOf work nodes.entry.items
        → HaveRaced work nodes.entry.items rows.items r.0.items r.1.items) }
{
    let (sends, takes) = mesh(alloc, capacity, nodes.len())?;
    let workers = make_workers(alloc, nodes, sends, takes, rows)?;
    let signals = Signals::new(alloc, workers.len())?;
    let results = run_all(rt, workers, gate, &signals)?;
    let workers = all_back(alloc, results)?;
    let WorkerParts {
        nodes,
        sends,
        takes,
        outboxes,
        undelivered,
    } = take_workers_apart(alloc, workers)?;
    let lists = gather(rt, alloc, sends, outboxes, takes)?;
    let lists = put_all_undelivered(lists, undelivered)?;
    Ok((nodes, lists))
}

/// What each worker gives, in their order.
fn run_all<'a, R: Threads + Wait + Sync, G: Gate + Sync>(
    rt: &R,
    workers: Vec<Worker<'a>>,
    gate: &G,
    signals: &Signals,
) -> Result<Vec<Result<Worker<'a>, AllocError>>, AllocError>
    requires ready { All IsReady workers.items }
    ensures len { IfOk result (λ v. length v.items ≡ length workers.entry.items) }
    ensures each { IfOk result (λ v. (i : ℕ) (w : _) (x : _)
        → slice_get workers.entry.items i ≡ Some w → slice_get v.items i ≡ Some x
        → IfOk x (λ y. Works w y)) }
{
    thread::map_vec(
        rt,
        workers,
        &|worker|
            requires { IsReady worker }
            ensures { IfOk result (λ w. Works worker.entry w) }
        {
            signals.enter();
            let worked = worker.work(rt, gate, signals);
            signals.leave();
            worked
        },
    )
}
