//! What a core gives once it is over.

ghost use Rattle.std.specs.Prelude.{◌≡◌, ℕ, ◌/◌, ◌<◌, ◌≤◌, ◌++◌, List, Some, map, IfOk, OnOk};
ghost use Rattle.std.specs.List.{range_with_len};
ghost use Rattle.rv32_program.specs.declared.End.TheVariants.{Stopped};
ghost use Rattle.rewriting_law.specs.templates.declared.plans.PlanEntry.{PlanEntry};
ghost use Rattle.node_machine.specs.jump_map.Image.{IsRewriting};
ghost use Rattle.rewriting_law.specs.Ascents.{AscendsBetweenPolls};
ghost use Rattle.rewriting_law.specs.Bounds.{steps_of};
ghost use Rattle.rewriting_law.specs.CoreRun.{picks_of};
ghost use Rattle.run_order.specs.node_model.Node.{Ended, end_of};
ghost use Rattle.run_order.specs.node_model.Core.{IsOver, opening_core, printed_by};
ghost use Rattle.run_order.specs.node_model.Outcome.{IsOutcomeOf, AreFrugal};
ghost use Rattle.run_order.specs.OwnRun.{Stamped, StandsForOwnRun, run_of};
ghost use Rattle.dsm_core.specs.CoreParts.{work_of, core_of, outcome_of};
ghost use Rattle.dsm_core.specs.Printing.{printed_of, printed_below, place_of, byte_of};

use crate::cores::Core;
use node_machine::exec_map::End;
use node_machine::{NodeCounts, OutByte};
use rewriting_law::bounds_law;
use run_order::stamp_law;
use std::alloc::{AllocError, Global};

/// The bytes printed, how each processor ended, and what each node counted.
#[derive(Drop)]
pub struct Outcome {
    /// The bytes, in the order of the run.
    pub output: Vec<u8>,
    /// The ends, by processor.
    pub ends: Vec<End>,
    /// The counts, by node.
    pub counts: Vec<NodeCounts>,
}

/// A byte, with its stamp and the node that printed it.
#[derive(Clone, Copy)]
struct Printed {
    stamp: u64,
    node: u8,
    byte: u8,
}

impl<'a> Core<'a> {
    /// The outcome of its own run, once every node is over: the bytes printed, in the order of the
    /// run, how each processor ended, and what each node counted.
    pub fn outcome(&self, alloc: Global) -> Result<Outcome, AllocError>
        requires over { IsOver (work_of self.now) (core_of self.now) }
        ensures outcome { IfOk result (λ o. (events : List Stamped)
            × StandsForOwnRun (work_of self.now) (core_of self.now) events
            × IsOutcomeOf (work_of self.now) (run_of events) (outcome_of o)) }
        // The nodes have sent no more messages than their misses may cost.
        ensures messages { IfOk result
            (λ o. AreFrugal self.now.layout.nodes (outcome_of o).counts) }
        // A processor that was stopped has made a step of the original, by its own run, for each 40
        // words of its budget.
        ensures work { IfOk result (λ o. (events : List Stamped) (plan : List PlanEntry)
            (i budget : ℕ) → StandsForOwnRun (work_of self.now) (core_of self.now) events
            → IsRewriting (work_of self.now).program plan (work_of self.now).image
            → i < self.now.layout.nodes
            → ((core_of self.now).nodes i).phase ≡ Ended (Stopped budget)
            → budget / 40 ≤ steps_of i (picks_of (work_of self.now) plan
            (opening_core (work_of self.now)) (run_of events))) }
        // Between two polls of a node, the steps that it makes by the own run are, from the third
        // on, each of a greater address than the one before it: so they are few.
        ensures polls { IfOk result (λ o. (events : List Stamped) (plan : List PlanEntry) (i : ℕ)
            → StandsForOwnRun (work_of self.now) (core_of self.now) events
            → IsRewriting (work_of self.now).program plan (work_of self.now).image
            → i < self.now.layout.nodes
            → AscendsBetweenPolls (work_of self.now) plan (run_of events) i) }
    {
        self.promises();
        bounds_law();
        let output = self.output(alloc)?;
        let ends = self.ends(alloc)?;
        let counts = self.counts(alloc)?;
        Ok(Outcome {
            output,
            ends,
            counts,
        })
    }

    /// The bytes that its own run prints, in order.
    fn output(&self, alloc: Global) -> Result<Vec<u8>, AllocError>
        ensures { IfOk result (λ v. (events : List Stamped)
            → StandsForOwnRun (work_of self.now) (core_of self.now) events
            → v.items ≡ printed_by (work_of self.now) (opening_core (work_of self.now))
            (run_of events)) }
    {
        stamp_law();
        // brings: the layout is valid, so that it has at most 16 nodes
        let _ = self.layout().nodes();
        let mut printed = self.printed(alloc)?;
        printed.sort_unstable_by_key(|byte| place(byte));
        bytes(alloc, &printed)
    }

    /// The bytes that the nodes printed, node by node.
    fn printed(&self, alloc: Global) -> Result<Vec<Printed>, AllocError>
        ensures { IfOk result (λ v.
            v.items ≡ printed_below (core_of self.now).nodes self.now.layout.nodes) }
    {
        let count = self.layout().nodes();
        let mut printed = Vec::new(alloc);
        for node in 0..count {
            add(&mut printed, node, self.node(node).output())?;
        }
        Ok(printed)
    }

    /// How the processors ended, by processor.
    fn ends(&self, alloc: Global) -> Result<Vec<End>, AllocError>
        requires over { IsOver (work_of self.now) (core_of self.now) }
        ensures { IfOk result (λ v. map (λ e. Some e) v.items
            ≡ map (λ i. end_of ((core_of self.now).nodes i).phase)
            (range_with_len 0 self.now.layout.nodes)) }
    {
        let count = self.layout().nodes();
        let mut ends = Vec::with_capacity(alloc, count as usize)?;
        for node in 0..count {
            if let Some(end) = self.node(node).end() {
                ends.push_reserved(end);
            }
        }
        Ok(ends)
    }

    /// What each node counted.
    fn counts(&self, alloc: Global) -> Result<Vec<NodeCounts>, AllocError>
        ensures { IfOk result (λ v. v.items ≡ map (λ i. ((core_of self.now).nodes i).counts)
            (range_with_len 0 self.now.layout.nodes)) }
    {
        let count = self.layout().nodes();
        let mut counts = Vec::with_capacity(alloc, count as usize)?;
        for node in 0..count {
            counts.push_reserved(self.node(node).counts());
        }
        Ok(counts)
    }
}

/// Adds the bytes that a node printed.
fn add(printed: &mut Vec<Printed>, node: u8, output: &[OutByte]) -> Result<(), AllocError>
    ensures { OnOk result
        (printed.new.items ≡ printed.old.items ++ map (printed_of node) output.now) }
{
    printed.reserve(output.len())?;
    for index in 0..output.len() {
        let byte = output[index];
        printed.push_reserved(Printed {
            stamp: byte.stamp,
            node,
            byte: byte.byte,
        });
    }
    Ok(())
}

/// A number that ascends by (stamp, node).
fn place(printed: &Printed) -> u128
    ensures { result ≡ place_of printed.now }
{
    u128::from(printed.stamp) * 256 + u128::from(printed.node)
}

/// The bytes alone.
fn bytes(alloc: Global, printed: &[Printed]) -> Result<Vec<u8>, AllocError>
    ensures { IfOk result (λ v. v.items ≡ map byte_of printed.now) }
{
    printed.iter().map(|p| p.byte).collect(alloc)
}
